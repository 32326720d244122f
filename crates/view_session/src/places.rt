//! The names that a save in a state file uses.

use std::alloc::Global;
use std::fs;
use std::io::{self, ErrorKind};
use std::path::Path;
use std::random::RandomSource;
use std::rt::Files;

/// The file that a name leads to, and beside it the file that is locked and the one that is to take its place; and the
/// folder of all three.
#[derive(Drop)]
pub(crate) struct Places {
    pub(crate) file: String,
    pub(crate) lock: String,
    pub(crate) fresh: String,
    pub(crate) folder: String,
}

impl Places {
    /// Those of this name. No other program uses the third.
    ///
    /// Errors: the name is empty, or a link that leads nowhere, or the system does not tell; there are no random bytes;
    /// out of memory.
    pub(crate) fn of<R: Files + RandomSource>(
        system: &R,
        alloc: Global,
        name: &str,
    ) -> io::Result<Places> {
        let file = target(system, alloc, name)?;
        let mut bytes = [0u8; 8];
        system.fill_bytes(&mut bytes)?;
        let number = u64::from_be_bytes(bytes);
        let lock = format!(in alloc; "{file}.lock")?;
        let fresh = format!(in alloc; "{file}.{number}.new")?;
        let folder = folder_of(alloc, &file)?;
        Ok(Places {
            file,
            lock,
            fresh,
            folder,
        })
    }
}

// The name of the file that this name leads to.
fn target<R: Files>(files: &R, alloc: Global, name: &str) -> io::Result<String> {
    if name.is_empty() {
        return Err(ErrorKind::InvalidInput.into());
    }
    match files.canonicalize(alloc, name) {
        Ok(path) => Ok(path.into_string()),
        Err(e) if e.kind() == ErrorKind::NotFound && fs::symlink_metadata(files, name).is_err() => {
            Ok(String::from_str(alloc, name)?)
        }
        Err(e) => Err(e),
    }
}

// The name of the folder of a file.
fn folder_of(alloc: Global, file: &str) -> io::Result<String> {
    let folder = match Path::new(file).parent() {
        Some(folder) => String::from_str(alloc, folder.to_string_lossy())?,
        None => String::new(alloc),
    };
    if folder.is_empty() {
        return Ok(String::from_str(alloc, ".")?);
    }
    Ok(folder)
}
