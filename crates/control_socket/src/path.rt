//! The file of the socket.
ghost use Rattle.std.specs.Prelude.{◌≡◌, false, IfErr, IfOk, string_bytes};
ghost use Rattle.std.specs.declared.io.ErrorKind.TheVariants.{AlreadyExists};
ghost use Rattle.control_socket.specs.Paths.{folder_named, socket_in};
ghost use Rattle.control_socket.specs.Waits.{IsFault};

use crate::lock::{Locked, lock_path};
use crate::named::{FileId, Named, look_at, unless_gone};
use std::alloc::{AllocError, Global};
use std::fs::{DirBuilder, File, Files, Permissions};
use std::io::ErrorKind;
use std::net::Net;
use std::os::unix::fs::{DirBuilderExt, PermissionsExt};
use std::os::unix::net::UnixListener;
use std::random::RandomSource;
use std::time::Clock;
use std::{fs, io};

/// Only its owner may connect.
const OWNER_CONNECTS: u32 = 0o600;

/// Only its owner may see what is in a folder.
const OWNER_ENTERS: u32 = 0o700;

/// A listener, and which file it made.
#[derive(Drop)]
pub struct ControlFile {
    listener: UnixListener,
    id: FileId,
}

impl ControlFile {
    pub fn listener(&self) -> &UnixListener {
        &self.listener
    }
}

/// Refuses a file that is no socket.
fn test_socket(is_socket: bool) -> io::Result<()>
    ensures socket { IfErr result (λ _. is_socket ≡ false) }
    ensures other { is_socket ≡ false → IsFault AlreadyExists result }
{
    if is_socket {
        Ok(())
    } else {
        Err(io::Error::new(
            ErrorKind::AlreadyExists,
            "a file that is no socket stands there",
        ))
    }
}

/// Frees the path. A socket that refuses connections is removed, since its server is gone; anything else there stays,
/// and is a fault.
fn free_path<R: Files + Net>(named: &Named<'_, R>) -> io::Result<()> {
    let found = match named.look() {
        Ok(found) => found,
        Err(error) => return unless_gone(Err(error)),
    };
    test_socket(found.is_socket())?;
    let unheard = named.try_server()?;
    named.remove_stale(found, unheard)
}

/// Names the folder in which the socket is made, with some random digits: `PATH.1b5e07d4`.
fn folder_named(alloc: Global, path: &str, digits: &str) -> Result<String, AllocError>
    ensures { IfOk result (λ folder. string_bytes folder ≡ folder_named path.now digits.now) }
{
    format!(in alloc; "{path}.{digits}")
}

/// Names the socket in that folder.
fn socket_in(alloc: Global, folder: &str) -> Result<String, AllocError>
    ensures { IfOk result (λ socket. string_bytes socket ≡ socket_in folder.now) }
{
    format!(in alloc; "{folder}/s")
}

/// Draws a name for the folder that nobody can know before.
fn draw_folder<R: RandomSource>(rt: &R, alloc: Global, path: &str) -> io::Result<String> {
    let mut bytes = [0u8; 4];
    rt.fill_bytes(&mut bytes)?;
    let digits = hex::encode(alloc, &bytes)?;
    Ok(folder_named(alloc, path, &digits)?)
}

/// Makes a folder that only its owner may enter. A folder that exists already stays, and is a fault.
fn make_folder<R: Files>(rt: &R, folder: &str) -> io::Result<()> {
    let mut builder = DirBuilder::new();
    builder.mode(OWNER_ENTERS);
    builder.create(rt, folder)
}

/// Binds a socket in the folder, and links it to the path after only its owner may connect. Anything that came to the
/// path meanwhile stays, and is a fault (link(2)).
fn bind_in<R: Files + Net>(rt: &R, socket: &str, lock: &Locked<'_>) -> io::Result<ControlFile> {
    let listener = UnixListener::bind(rt, socket)?;
    fs::set_permissions(rt, socket, Permissions::from_mode(OWNER_CONNECTS))?;
    let id = look_at(rt, socket)?.id();
    fs::hard_link(rt, socket, lock.path())?;
    Ok(ControlFile { listener, id })
}

/// Makes the socket in a folder of its own, which is removed afterwards.
fn make_at<R: Files + Net + RandomSource>(
    rt: &R,
    alloc: Global,
    lock: &Locked<'_>,
) -> io::Result<ControlFile> {
    let folder = draw_folder(rt, alloc, lock.path())?;
    let socket = socket_in(alloc, &folder)?;
    make_folder(rt, &folder)?;
    let file = bind_in(rt, &socket, lock);
    let _gone = fs::remove_file(rt, socket.as_str());
    let _gone = fs::remove_dir(rt, folder.as_str());
    file
}

/// Makes a listener at the path, to which only its owner may connect (mode 0600). The socket of a server that is gone
/// is replaced; one at which a server listens stays (`AddrInUse`), and so does anything that is no socket
/// (`AlreadyExists`).
///
/// Nobody else can connect at any moment: the socket is made in a folder that only its owner may enter, and linked to
/// the path from there. So the path has at most 96 bytes (`InvalidInput`). Of several servers that come to one path at
/// once, one gets it (`lock_path`).
pub fn open_path<R: Files<File = File> + Net + Clock + RandomSource>(
    rt: &R,
    alloc: Global,
    path: &str,
) -> io::Result<ControlFile> {
    let lock = lock_path(rt, alloc, path)?;
    let file = match free_path(&Named::new(rt, &lock)) {
        Ok(()) => make_at(rt, alloc, &lock),
        Err(error) => Err(error),
    };
    drop(lock);
    file
}

/// Removes the file at the path if it is this one.
fn remove_own<R: Files>(named: &Named<'_, R>, made: FileId) -> io::Result<()> {
    match named.look() {
        Ok(found) if found.id() == made => named.remove_made(found, made),
        Ok(_) => Ok(()),
        Err(error) => unless_gone(Err(error)),
    }
}

/// Removes the file if it still is the one that was made. Another's file at the path stays.
pub fn close_path<R: Files<File = File> + Clock>(
    rt: &R,
    alloc: Global,
    file: &ControlFile,
    path: &str,
) -> io::Result<()> {
    let lock = lock_path(rt, alloc, path)?;
    let removed = remove_own(&Named::new(rt, &lock), file.id);
    drop(lock);
    removed
}
