//! A file that takes the place of another.

use crate::places::Places;
use std::fs::{self, File, Metadata, OpenFile, OpenOptions};
use std::io::{self, ErrorKind, Write};
use std::os::unix::fs::{MetadataExt, OpenOptionsExt};
use std::rt::Files;

/// Puts a new file with these bytes in the place of the file, with its mode, owner and group as far as the process may
/// give them. Both the file and its name are on the disk when it returns.
///
/// Errors: the file may not be written, or the system failed. The file beside it is gone.
pub(crate) fn replace<R: Files>(files: &R, places: &Places, bytes: &[u8]) -> io::Result<()> {
    let old = file_to_replace(files, &places.file)?;
    if let Err(e) = put_in_place(files, places, bytes, old.as_ref()) {
        let _ = fs::remove_file(files, places.fresh.as_str());
        return Err(e);
    }
    sync_folder(files, &places.folder)
}

/// Brings the names of the files in a folder to the disk.
///
/// Errors: the system failed.
pub(crate) fn sync_folder<R: Files>(files: &R, folder: &str) -> io::Result<()> {
    File::open(files, folder)?.sync_all()
}

// What is known of the file that is to be replaced, and nothing where there is none.
//
// Errors: nobody may write it, or this process may not.
fn file_to_replace<R: Files>(files: &R, name: &str) -> io::Result<Option<Metadata>> {
    let known = match fs::metadata(files, name) {
        Ok(known) => known,
        Err(e) if e.kind() == ErrorKind::NotFound => return Ok(None),
        Err(e) => return Err(e),
    };
    if known.permissions().readonly() {
        return Err(ErrorKind::PermissionDenied.into());
    }
    let _ = OpenOptions::new().write(true).open(files, name)?;
    Ok(Some(known))
}

// Writes the file beside it, and gives it the other's name.
fn put_in_place<R: Files>(
    files: &R,
    places: &Places,
    bytes: &[u8],
    old: Option<&Metadata>,
) -> io::Result<()> {
    let fresh = places.fresh.as_str();
    let mode = if old.is_some() { 0o600 } else { 0o666 };
    let mut file = OpenOptions::new()
        .write(true)
        .create_new(true)
        .mode(mode)
        .open(files, fresh)?;
    file.write_all(bytes)?;
    if let Some(known) = old {
        give_owner(files, fresh, known, &file.metadata()?);
        file.set_permissions(known.permissions())?;
    }
    file.sync_all()?;
    fs::rename(files, fresh, places.file.as_str())
}

// Gives a file that is new the owner and the group that are known of another, as far as the process may.
fn give_owner<R: Files>(files: &R, name: &str, known: &Metadata, new: &Metadata) {
    if known.uid() == new.uid() && known.gid() == new.gid() {
        return;
    }
    if files
        .chown(name, Some(known.uid()), Some(known.gid()))
        .is_err()
    {
        let _ = files.chown(name, None, Some(known.gid()));
    }
}
