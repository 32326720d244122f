//! The ports at which a page is looked for.

ghost use Rattle.std.specs.Prelude.{◌≡◌, ◌<◌, ◌≤◌};
ghost use Rattle.page_server.specs.Ports.{home_of, nearby};

use sha2::{Digest, Sha256};
use std::alloc::Global;
use std::io;
use std::path::{Path, PathBuf};
use std::rt::Files;
use view_session::store::StatePath;

/// How many ports near its home a page tries.
pub(crate) const TRIES: u32 = 32;

/// The home of the page of a state file. It is the same at each start, by whatever path the file is named, and of two
/// files seldom the same.
pub(crate) fn home<R: Files>(files: &R, alloc: Global, file: &StatePath) -> u16 {
    match whole_path(files, alloc, file.name()) {
        Ok(path) => home_at(path.as_str().as_bytes()),
        Err(_) => home_at(file.name().as_bytes()),
    }
}

// The path of a file from the root, without links; of a file that is not there yet the one that it will have.
fn whole_path<R: Files>(files: &R, alloc: Global, name: &str) -> io::Result<PathBuf> {
    if let Ok(path) = files.canonicalize(alloc, name) {
        return Ok(path);
    }
    let path = Path::new(name);
    let folder = match path.parent() {
        Some(folder) if !folder.as_os_str().is_empty() => folder,
        _ => Path::new("."),
    };
    let mut whole = files.canonicalize(alloc, folder.as_os_str())?;
    whole.push(path.file_name().unwrap_or(name))?;
    Ok(whole)
}

// The home that a path has: the first two bytes of its digest, so that paths that are alike have homes far apart.
fn home_at(path: &[u8]) -> u16
    ensures { result ≡ home_of path.now }
{
    let digest = Sha256::digest(path);
    u16::from_be_bytes([digest[0], digest[1]])
}

/// The port that is tried at a turn by a page with this home.
pub(crate) fn port_near(home: u16, turn: u32) -> u16
    requires { turn < TRIES }
    ensures port { result ≡ nearby home turn }
    ensures least { 20480 ≤ result }
    ensures most { result ≤ 28671 }
{
    (20_480 + (home as u32 + turn) % 8192) as u16
}
