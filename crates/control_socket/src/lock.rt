//! The lock of a path: that of its folder (flock(2)).
ghost use Rattle.std.specs.Prelude.{◌≡◌, IfOk, string_bytes};
ghost use Rattle.control_socket.specs.Paths.{folder_at};

use std::alloc::{AllocError, Global};
use std::fs::{File, Files, TryLockError};
use std::io::ErrorKind;
use std::path::Path;
use std::time::{Clock, Duration};
use std::{io, thread};

/// How often the lock is asked for, and the wait in between in milliseconds: five seconds in all.
const LOCK_LOOKS: u32 = 100;

const LOCK_WAIT_MS: u64 = 50;

/// Returns the folder of the path. It ends in `/.`, so that it can open nothing but a folder.
fn folder_at(alloc: Global, path: &str) -> Result<String, AllocError>
    ensures { IfOk result (λ folder. string_bytes folder ≡ folder_at path.now) }
{
    match Path::new(path).parent().and_then(Path::to_str) {
        Some(folder) if !folder.is_empty() => format!(in alloc; "{folder}/."),
        _ => String::from_str(alloc, "."),
    }
}

/// Waits for the lock of an open folder, five seconds at most (`TimedOut`).
fn await_lock<R: Clock>(rt: &R, folder: &File) -> io::Result<()> {
    for _look in 0..LOCK_LOOKS {
        match folder.try_lock() {
            Ok(()) => return Ok(()),
            Err(TryLockError::WouldBlock) => thread::sleep(rt, Duration::from_millis(LOCK_WAIT_MS)),
            Err(TryLockError::Error(error)) => return Err(error),
        }
    }
    Err(io::Error::new(
        ErrorKind::TimedOut,
        "another program holds the lock of its folder",
    ))
}

/// A path whose lock is held until this is dropped. Only `lock_path` makes one, and a path is looked at, taken and left
/// only through one: of several servers that come at once, each sees what the one before it did.
#[derive(Drop)]
pub(crate) struct Locked<'a> {
    path: &'a str,
    _folder: File,
}

impl<'a> Locked<'a> {
    /// Returns the path.
    pub fn path(&self) -> &'a str
        ensures { result.now ≡ self.now.path.now }
    {
        self.path
    }
}

/// Waits for the lock of the path, and holds it.
pub(crate) fn lock_path<'a, R: Files<File = File> + Clock>(
    rt: &R,
    alloc: Global,
    path: &'a str,
) -> io::Result<Locked<'a>>
    ensures { IfOk result (λ lock. lock.path.now ≡ path.now) }
{
    let place = folder_at(alloc, path)?;
    let folder = File::open(rt, place.as_str())?;
    await_lock(rt, &folder)?;
    Ok(Locked {
        path,
        _folder: folder,
    })
}
