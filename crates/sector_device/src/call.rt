//! A call of a device, as a device in memory records it.

/// A call, with the number of its sector.
#[derive(Clone, Copy, PartialEq, Eq)]
pub enum DeviceCall {
    Read(u64),
    Write(u64),
    Sync,
}
