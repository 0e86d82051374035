//! Files of a folder.
use crate::head::head_of;
use std::alloc::{AllocError, Global};
use std::fs::File;
use std::io;
use std::io::Write;

/// Where the files of a run's journal go, and what stands at the head of each.
#[derive(Drop)]
pub struct JournalFolder<'a> {
    pub files: &'a HostRuntime,
    /// The path of the folder.
    pub folder: &'a str,
    /// The name of the run.
    pub run: &'a str,
    /// The link text.
    pub text: &'a str,
    /// At how many bytes a file goes on no further than to the next roll; 0: none.
    pub limit: u64,
}

/// Tests whether a line of the link text is the one that follows it in a journal.
pub fn has_mark(text: &str) -> bool {
    text.lines().any(|line| line == "---")
}

fn path_of(alloc: Global, folder: &str, name: &str) -> Result<String, AllocError> {
    format!(in alloc; "{folder}/{name}.journal")
}

impl<'a> JournalFolder<'a> {
    /// Makes the file of this name, with nothing in it. Fails if there is one.
    pub fn make(&self, name: &str) -> io::Result<File> {
        let path = path_of(self.files.alloc(), self.folder, name)?;
        File::options()
            .append(true)
            .create_new(true)
            .open(self.files, path.as_str())
    }

    /// Makes the first file of the run, and writes its head.
    pub fn begin(&self) -> io::Result<File> {
        let head = head_of(self.files.alloc(), self.run, 0, self.text)?;
        let mut file = self.make(self.run)?;
        file.write_all(head.as_bytes())?;
        Ok(file)
    }

    /// Tests whether a file has as many bytes as it may before the next roll. One that doesn't say hasn't.
    pub fn is_full(&self, file: &File) -> bool {
        match file.metadata() {
            Ok(found) => self.limit > 0 && found.len() >= self.limit,
            Err(_) => false,
        }
    }
}
