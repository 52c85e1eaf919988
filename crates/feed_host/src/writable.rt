//! Whether files can be made in a folder, which is asked for, and not tried.

ghost use Rattle.std.specs.Prelude.{IfSome};
ghost use Rattle.libc.specs.Io.{Ended};

use libc::{PATH_MAX, W_OK, X_OK, access};

/// The path of the folder that a file is in.
fn folder_of(path: &str) -> &str {
    match path.rsplit_once('/') {
        Some(("", _)) => "/",
        Some((folder, _)) => folder,
        None => ".",
    }
}

/// The bytes of a path, as the system wants them: zeros stand behind it. None where it is too long.
fn bytes_of(path: &str) -> Option<[u8; PATH_MAX]>
    ensures { IfSome result (λ bytes. Ended bytes) }
{
    let text = path.as_bytes();
    if text.len() >= PATH_MAX {
        return None;
    }
    let mut bytes = [0u8; PATH_MAX];
    for (place, byte) in bytes.iter_mut().zip(text) {
        *place = *byte;
    }
    bytes[PATH_MAX - 1] = 0;
    Some(bytes)
}

/// Whether this user may make files beside the one at a path: its folder is there, and may be
/// written.
pub fn may_write(path: &str) -> bool {
    match bytes_of(folder_of(path)) {
        // The last byte is 0, as it has to be.
        Some(bytes) => unsafe { access(&bytes, W_OK | X_OK) == 0 },
        None => false,
    }
}
