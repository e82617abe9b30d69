//! The owner, the group and the permission bits of a new file.

use std::fs::{File, Metadata, OpenOptions, Permissions};
use std::io;
use std::os::fd::AsFd;
use std::os::unix::fs::{MetadataExt, OpenOptionsExt, PermissionsExt, fchown};
use std::rt::Files;

/// The mode of a file that its owner alone may read and write.
const OWNER_ALONE: u32 = 0o600;

/// All permission bits.
const ALL: u32 = 0o777;

/// Those of the group.
const GROUP: u32 = 0o070;

/// The owner, the group and the permission bits of a new file.
#[derive(Clone, Copy, Debug, PartialEq, Eq)]
pub enum Rights {
    /// These permission bits, without those that the umask of the process takes away.
    Mode(u32),
    /// The rights of another file, whatever the umask.
    Same(Standing),
}

/// The permission bits of a file, and the numbers of its owner and its group.
#[derive(Clone, Copy, Debug, PartialEq, Eq)]
pub struct Standing {
    mode: u32,
    owner: u32,
    group: u32,
}

impl Standing {
    pub(crate) fn of(file: &Metadata) -> Standing {
        Standing {
            mode: file.mode() & ALL,
            owner: file.uid(),
            group: file.gid(),
        }
    }
}

/// Makes a file, open for reading and writing, at a path at which nothing may exist. Until it has its rights only its
/// owner may open it.
pub(crate) fn create_new<R: Files<File = File>>(
    rt: &R,
    path: &str,
    rights: Rights,
) -> io::Result<File> {
    let mode = match rights {
        Rights::Mode(mode) => mode & ALL,
        Rights::Same(_) => OWNER_ALONE,
    };
    let mut how = OpenOptions::new();
    how.read(true).write(true).create_new(true).mode(mode);
    how.open(rt, path)
}

/// Gives a new file the rights of another.
pub(crate) fn settle_rights(file: &File, rights: Rights) -> io::Result<()> {
    match rights {
        Rights::Mode(_) => Ok(()),
        Rights::Same(standing) => give(file, standing),
    }
}

// Gives a file the owner and the group, if the system lets this process do so, and then the permission bits. To a group
// that isn't that of the other file no right is given.
fn give(file: &File, standing: Standing) -> io::Result<()> {
    let (owner, group) = (Some(standing.owner), Some(standing.group));
    if fchown(file.as_fd(), owner, group).is_err() {
        let _ = fchown(file.as_fd(), None, group);
    }
    let given = Standing::of(&file.metadata()?);
    let mode = if given.group == standing.group {
        standing.mode
    } else {
        standing.mode & !GROUP
    };
    if given.mode == mode {
        return Ok(());
    }
    file.set_permissions(Permissions::from_mode(mode))
}
