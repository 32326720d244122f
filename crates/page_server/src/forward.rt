//! A file that forwards to the page's address, so that a browser is told the address, and nobody else.

ghost use Rattle.std.specs.Prelude.{◌≡◌, ◌⊎◌, IfOk, IfErr, OnOk, string_bytes};
ghost use Rattle.std.specs.Io.KnownBytes.{Appends};
ghost use Rattle.run_faults.specs.RunError.{IsTransferFault};
ghost use Rattle.run_faults.specs.declared.run_error.RunError.TheVariants as errors;
ghost use Rattle.page_server.specs.Serving.{forward_page};

use crate::call::FileName;
use byte_devices::{Sink, Source, StdSink, StdSource, put_all};
use grid_core::Memory;
use page_service::{Hosts, Key, address};
use pgm_codec::PgmError;
use run_faults::RunError;
use std::alloc::Global;
use std::fs::{self, File, OpenOptions};
use std::io::{self, ErrorKind};
use std::os::unix::fs::OpenOptionsExt;
use std::rt::Files;

// How the page that forwards begins, up to the address.
const BEGINNING: &str = "<!DOCTYPE html>\n<meta charset='utf-8'>\n<title>Seedpaint</title>\
                         <meta http-equiv='refresh' content='0; url=";

/// Removes the file of an earlier start, where one is to be written, so that nobody opens it.
///
/// Errors: P11 where something else has its name, or where it could not be removed.
pub(crate) fn remove_forward<R: Files>(
    files: &R,
    forward: &Option<FileName>,
) -> Result<(), RunError>
    ensures { IfErr result IsTransferFault }
{
    let Some(name) = forward else {
        return Ok(());
    };
    match remove_earlier(files, name.as_str()) {
        Err(e) if e.kind() != ErrorKind::NotFound => Err(RunError::Pgm(PgmError::Device)),
        _ => Ok(()),
    }
}

// Removes the file of this name, which an earlier start wrote. No link is followed.
//
// Errors: it is not there; it is anything else, and stays; it could not be read or removed.
fn remove_earlier<R: Files>(files: &R, name: &str) -> io::Result<()> {
    if !fs::symlink_metadata(files, name)?.is_file() {
        return Err(ErrorKind::AlreadyExists.into());
    }
    let mut source = StdSource::new(File::open(files, name)?);
    if !begins_as_page(&mut source) {
        return Err(ErrorKind::AlreadyExists.into());
    }
    fs::remove_file(files, name)
}

// Whether what a source has begins as the page that forwards, or ends within that beginning: a start that was cut off
// leaves so much. Not where the source failed.
fn begins_as_page<S: Source>(source: &mut S) -> bool {
    let mut piece = [0u8; 1];
    for byte in BEGINNING.as_bytes() {
        match source.pull(&mut piece) {
            Ok(0) => return true,
            Ok(_) => {
                if piece[0] != *byte {
                    return false;
                }
            }
            Err(_) => return false,
        }
    }
    true
}

/// Writes the file of this name, which is not there yet, for the address of a page. From the start nobody else may read
/// it, and no link is followed.
///
/// Errors: P11 where it could not be written; out of memory. The file is gone then.
pub(crate) fn write_forward<R: Files>(
    files: &R,
    alloc: Global,
    name: &str,
    hosts: &Hosts,
    key: &Key,
) -> Result<(), RunError>
    ensures { IfErr result (λ e. (e ≡ errors.Memory) ⊎ IsTransferFault e) }
{
    let private = OpenOptions::new()
        .write(true)
        .create_new(true)
        .mode(0o600)
        .open(files, name);
    let Ok(file) = private else {
        return Err(RunError::Pgm(PgmError::Device));
    };
    let put = put_forward(alloc, hosts, key, &mut StdSink::new(file));
    if put.is_err() {
        let _ = fs::remove_file(files, name);
    }
    put
}

// Puts the page that forwards to an address.
//
// Errors: P11 where the sink failed; out of memory, and then nothing is put.
fn put_forward<K: Sink>(
    alloc: Global,
    hosts: &Hosts,
    key: &Key,
    sink: &mut K,
) -> Result<(), RunError>
    ensures told { OnOk result (Appends (K.seen sink.old).written (K.seen sink.new).written
        (forward_page hosts.now key.now)) }
    ensures refused { IfErr result (λ e. (e ≡ errors.Memory) ⊎ IsTransferFault e) }
{
    let page = forward_text(alloc, hosts, key)?;
    match put_all(sink, page.as_bytes()) {
        Ok(()) => Ok(()),
        Err(_) => Err(RunError::Pgm(PgmError::Device)),
    }
}

// The page that forwards to an address.
fn forward_text(alloc: Global, hosts: &Hosts, key: &Key) -> Result<String, Memory>
    ensures { IfOk result (λ page. string_bytes page ≡ forward_page hosts.now key.now) }
{
    let to = address(alloc, hosts, key)?;
    let page = format!(in alloc; "{BEGINNING}{to}'>\n<p><a href='{to}'>Paint</a></p>\n")?;
    Ok(page)
}
