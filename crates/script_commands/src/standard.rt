//! The first three descriptors of the process.
use std::fs::{File, Files};
use std::os::fd::{AsRawFd, IntoRawFd};

/// Opens /dev/null on each of the descriptors 0 to 2 that is closed, so that no file or socket takes its place.
pub fn open_standard<R: Files<File = File>>(rt: &R) {
    for _descriptor in 0..4 {
        let Ok(file) = File::options().read(true).write(true).open(rt, "/dev/null") else {
            return;
        };
        if file.as_raw_fd() > 2 {
            return;
        }
        let _kept = file.into_raw_fd();
    }
}
