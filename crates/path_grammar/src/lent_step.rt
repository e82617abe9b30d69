//! Steps of a location that a document lends.

/// A step from a value to one of its children, with its name lent.
#[derive(Clone, Copy, Drop)]
pub enum LentStep<'t> {
    /// To the member of that name.
    Name(&'t String),
    /// To the element at that index, counted from 0.
    Index(u64),
}
