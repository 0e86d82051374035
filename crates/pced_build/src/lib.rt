//! Which program this is: its version, the toolchain's logic on which its proofs rest, and the commit of its sources. The
//! first two stand here alone; `tools/logic` and `tools/release` read them. The commit is read beside the installed program,
//! from the file that a release has for it. That files deliver is shown by tests alone.
//!
//! ```text
//! fn is_known<R: Files + AllocGlobal>(rt: &R) -> bool {
//!     !commit(rt).is_empty()
//! }
//! ```
#![tactic(auto)]

use std::alloc::AllocError;
use std::fs::Files;
use std::path::{Path, PathBuf};
use std::{env, fs, io};

/// The version (semver.org).
pub const VERSION: &str = "0.1.0";

/// The toolchain's logic, as `rt version` names it.
pub const LOGIC: &str = "dac8208d650f15bf";

/// Where a release has the commit, from the folder that the program is in.
const BUILD: &str = "../share/pced/BUILD";

/// Returns the hash that the first line is. It is empty if the line is anything else.
fn hash_in(text: &str) -> &str {
    let line = text.lines().next().unwrap_or("");
    if line.len() <= 64 && line.bytes().all(|byte| byte.is_ascii_hexdigit()) {
        line
    } else {
        ""
    }
}

/// Returns the path of BUILD, if the system says where the program is.
fn build_beside<R: Files + AllocGlobal>(rt: &R, program: &Path<'_>) -> io::Result<PathBuf> {
    let Some(folder) = program.parent() else {
        return Err(io::ErrorKind::NotFound.into());
    };
    Ok(folder.join(rt.alloc(), BUILD)?)
}

fn read_beside<R: Files + AllocGlobal>(rt: &R, program: &Path<'_>) -> io::Result<String> {
    let path = build_beside(rt, program)?;
    fs::read_to_string(rt, &path)
}

fn read_build<R: Files + AllocGlobal>(rt: &R) -> io::Result<String> {
    let program = env::current_exe(rt)?;
    read_beside(rt, &program.as_path())
}

fn hash_of<R: AllocGlobal>(rt: &R, text: &str) -> Result<String, AllocError> {
    String::from_str(rt.alloc(), hash_in(text))
}

fn read_commit<R: Files + AllocGlobal>(rt: &R) -> io::Result<String> {
    let text = read_build(rt)?;
    Ok(hash_of(rt, &text)?)
}

/// Returns the hash of the commit. It is empty if no release has brought it.
pub fn commit<R: Files + AllocGlobal>(rt: &R) -> String {
    match read_commit(rt) {
        Ok(hash) => hash,
        Err(_) => String::new(rt.alloc()),
    }
}
