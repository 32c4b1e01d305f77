//! The file that a listening socket makes.
use std::fs;
use std::fs::Files;
use std::os::unix::fs::MetadataExt;

/// What tells one file from another: its device, and its number there (inode(7)).
#[derive(Clone, Copy, PartialEq, Eq)]
struct Identity {
    device: u64,
    number: u64,
}

/// Which file is at the path. None where that can't be found out.
fn identity_at<R: Files>(files: &R, path: &str) -> Option<Identity> {
    let metadata = fs::symlink_metadata(files, path).ok()?;
    Some(Identity {
        device: metadata.dev(),
        number: metadata.ino(),
    })
}

/// A socket's file. It is removed where this is dropped, unless another file is at its path then.
pub(crate) struct SocketFile<R: Files> {
    files: R,
    path: String,
    identity: Option<Identity>,
}

impl<R: Files> SocketFile<R> {
    /// The file that is at the path now, which the caller has just made.
    pub(crate) fn made(files: R, path: String) -> SocketFile<R> {
        let identity = identity_at(&files, path.as_str());
        SocketFile {
            files,
            path,
            identity,
        }
    }
}

impl<R: Files + Drop> Drop for SocketFile<R> {
    fn drop(self) {
        let SocketFile {
            files,
            path,
            identity,
        } = self;
        if identity.is_some() && identity_at(&files, path.as_str()) == identity {
            let _ = fs::remove_file(&files, path.as_str());
        }
    }
}
