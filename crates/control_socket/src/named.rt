//! The file at a path. Code that has only a `Named` removes the file only if it may go: it is the socket of a server
//! that is gone, or the very file that was made.
ghost use Rattle.std.specs.Prelude.{◌≡◌, true, IfErr, IfOk};
ghost use Rattle.std.specs.declared.io.ErrorKind.TheVariants.{AddrInUse};
ghost use Rattle.control_socket.specs.Waits.{is_gone, IsFault, IsUnheard, IsUnlessGone};

use crate::lock::Locked;
use crate::waits::is_gone;
use std::fs::{Files, Metadata};
use std::io::ErrorKind;
use std::net::Net;
use std::os::unix::fs::{FileTypeExt, MetadataExt};
use std::os::unix::net::UnixStream;
use std::{fs, io};

/// The identity of a file: the numbers of its device and of itself there.
#[derive(Clone, Copy, PartialEq, Eq, Debug)]
pub(crate) struct FileId {
    device: u64,
    inode: u64,
}

/// What is at a path.
#[derive(Clone, Copy)]
pub(crate) struct Found {
    id: FileId,
    is_socket: bool,
}

/// The finding that no server listens at a path: connecting to it failed with this error.
#[derive(Clone, Copy)]
pub(crate) struct Unheard {
    kind: ErrorKind,
    ghost gone: { is_gone kind ≡ true },
}

/// A path whose lock is held. Its file can be looked at and connected to, and removed if it may go.
#[derive(Drop)]
pub(crate) struct Named<'a, R> {
    rt: &'a R,
    lock: &'a Locked<'a>,
}

fn id_of(known: &Metadata) -> FileId {
    FileId {
        device: known.dev(),
        inode: known.ino(),
    }
}

/// Sees which file is there, and whether it is a socket. A link isn't followed.
pub(crate) fn look_at<R: Files>(rt: &R, path: &str) -> io::Result<Found> {
    let known = fs::symlink_metadata(rt, path)?;
    Ok(Found {
        id: id_of(&known),
        is_socket: known.file_type().is_socket(),
    })
}

/// Lets a call succeed that failed because its file is missing: there was nothing to do.
pub(crate) fn unless_gone(done: io::Result<()>) -> io::Result<()>
    ensures { IsUnlessGone done result }
{
    match done {
        Err(error) if is_gone(error.kind()) => Ok(()),
        done => done,
    }
}

/// Says what an attempt to connect means: that no server listens there, or that one does, or why that isn't known.
fn unheard_by(connected: io::Result<()>) -> io::Result<Unheard>
    ensures heard { IfOk connected (λ _. IsFault AddrInUse result) }
    ensures unheard { IfErr connected (λ e. IsUnheard e result) }
{
    match connected {
        Ok(()) => Err(io::Error::new(ErrorKind::AddrInUse, "a server listens there already")),
        Err(error) if is_gone(error.kind()) => Ok(Unheard { kind: error.kind() }),
        Err(error) => Err(error),
    }
}

impl Found {
    /// Returns which file it is.
    pub fn id(self) -> FileId
        ensures { result ≡ self.id }
    {
        self.id
    }

    pub fn is_socket(self) -> bool
        ensures { result ≡ self.is_socket }
    {
        self.is_socket
    }
}

impl<'a, R: Files> Named<'a, R> {
    pub fn new(rt: &'a R, lock: &'a Locked<'a>) -> Named<'a, R> {
        Named { rt, lock }
    }

    /// Sees what is there.
    pub fn look(&self) -> io::Result<Found> {
        look_at(self.rt, self.lock.path())
    }

    fn remove(&self) -> io::Result<()> {
        unless_gone(fs::remove_file(self.rt, self.lock.path()))
    }

    /// Removes the socket of a server that is gone.
    pub fn remove_stale(&self, _found: Found, _unheard: Unheard) -> io::Result<()>
        requires socket { _found.is_socket ≡ true }
    {
        self.remove()
    }

    /// Removes the file that was made.
    pub fn remove_made(&self, _found: Found, _made: FileId) -> io::Result<()>
        requires made { _found.id ≡ _made }
    {
        self.remove()
    }
}

impl<'a, R: Files + Net> Named<'a, R> {
    /// Connects to a server there, and closes the connection.
    fn connect(&self) -> io::Result<()> {
        let _stream = UnixStream::connect(self.rt, self.lock.path())?;
        Ok(())
    }

    /// Finds out that no server listens there.
    pub fn try_server(&self) -> io::Result<Unheard> {
        unheard_by(self.connect())
    }
}
