//! The bytes of one connection.

ghost use Rattle.std.specs.Prelude.{◌≡◌, ◌≢◌, ◌++◌, ◌↔◌, ℕ, List, IfOk, IsTrue, IsFalse};
ghost use Rattle.std.specs.IoError.{error_kind};
ghost use Rattle.std.specs.Io.KnownBytes.{Appends, Consumes};
ghost use Rattle.http_server.specs.Connection.{config_of, history};
ghost use Rattle.http_server.specs.Exchange.{Calls};
ghost use Rattle.http_server.specs.History.{Rests};
ghost use Rattle.page_server.specs.Peer.{HasGrown};

use http_server::{Connection, Service};
use std::io::{self, ErrorKind, Read, Write};

/// A round reads so often from a peer, and writes so often to it, and then goes on to the next.
const MOST_TURNS: usize = 64;

// A round reads so often what it drops.
const MOST_DROPS: usize = 256;

/// What came of an attempt to move bytes.
#[derive(Clone, Copy)]
pub(crate) enum Attempt {
    /// Some moved, and more may.
    Moved,
    /// None moved, since it was interrupted.
    Interrupted,
    /// None moved, and none will for now.
    Over,
}

/// What came of an attempt that ended in this error.
///
/// Errors: this one, where it says more than that it is not time yet, or that it was interrupted.
pub(crate) fn unless_failed(error: io::Error) -> io::Result<Attempt>
    ensures not_yet { error_kind error ≡ ErrorKind.WouldBlock → result ≡ Ok Attempt.Over }
    ensures interrupted { error_kind error ≡ ErrorKind.Interrupted → result ≡ Ok Attempt.Interrupted }
    ensures failed { error_kind error ≢ ErrorKind.WouldBlock → error_kind error ≢ ErrorKind.Interrupted
        → result ≡ Err error }
{
    match error.kind() {
        ErrorKind::WouldBlock => Ok(Attempt::Over),
        ErrorKind::Interrupted => Ok(Attempt::Interrupted),
        _ => Err(error),
    }
}

// Reads once where there is room, and lets the service answer. A read that finds the end moves no byte.
fn read_once<S: Service, R: Read>(
    connection: &mut Connection,
    service: &mut S,
    reader: &mut R,
) -> io::Result<Attempt>
    ensures calls { Calls S.answers service.old service.new
        (history connection.old).calls (history connection.new).calls }
    ensures read { (more : List ℕ) × Consumes (R.remaining reader.old) (R.remaining reader.new) more
        × ((history connection.new).received ≡ (history connection.old).received ++ more) }
    ensures unsent { (history connection.new).sent ≡ (history connection.old).sent }
    ensures moved { IfOk result (λ attempt. (attempt ≡ Attempt.Moved)
        ↔ HasGrown (history connection.old).received (history connection.new).received) }
    ensures rests { Rests (config_of connection.old) (history connection.old)
        → Rests (config_of connection.new) (history connection.new) }
    ensures config { config_of connection.new ≡ config_of connection.old }
{
    if !connection.wants_read() {
        return Ok(Attempt::Over);
    }
    match connection.read_from(reader) {
        Ok(count) => {
            connection.advance(service);
            Ok(if count > 0 {
                Attempt::Moved
            } else {
                Attempt::Over
            })
        }
        Err(error) => unless_failed(error),
    }
}

/// Reads what has come, and lets the service answer it. Sends nothing. Says whether bytes came.
///
/// Errors: those of the reader, but that nothing is there, and of memory. What was read before stays read.
pub fn take_in<S: Service, R: Read>(
    connection: &mut Connection,
    service: &mut S,
    reader: &mut R,
) -> io::Result<bool>
    ensures calls { Calls S.answers service.old service.new
        (history connection.old).calls (history connection.new).calls }
    ensures read { (more : List ℕ) × Consumes (R.remaining reader.old) (R.remaining reader.new) more
        × ((history connection.new).received ≡ (history connection.old).received ++ more) }
    ensures unsent { (history connection.new).sent ≡ (history connection.old).sent }
    ensures came { IfOk result (λ came. IsTrue came
        ↔ HasGrown (history connection.old).received (history connection.new).received) }
    ensures rests { Rests (config_of connection.new) (history connection.new) }
    ensures config { config_of connection.new ≡ config_of connection.old }
{
    connection.advance(service);
    let mut came = false;
    for _ in 0..MOST_TURNS {
        match read_once(connection, service, reader)? {
            Attempt::Moved => came = true,
            Attempt::Interrupted => {}
            Attempt::Over => return Ok(came),
        }
    }
    Ok(came)
}

// Writes once where something waits.
//
// Errors: those of the writer, but that it has no room now, or was interrupted; `WriteZero` where it takes nothing.
fn write_once<W: Write>(connection: &mut Connection, writer: &mut W) -> io::Result<Attempt>
    ensures written { (more : List ℕ) × Appends (W.contents writer.old) (W.contents writer.new) more
        × ((history connection.new).sent ≡ (history connection.old).sent ++ more) }
    ensures calls { (history connection.new).calls ≡ (history connection.old).calls }
    ensures received { (history connection.new).received ≡ (history connection.old).received }
    ensures moved { IfOk result (λ attempt. (attempt ≡ Attempt.Moved)
        ↔ HasGrown (history connection.old).sent (history connection.new).sent) }
    ensures still { IfOk result (λ attempt. attempt ≢ Attempt.Moved
        → history connection.new ≡ history connection.old) }
    ensures config { config_of connection.new ≡ config_of connection.old }
{
    if !connection.wants_write() {
        return Ok(Attempt::Over);
    }
    match connection.write_to(writer) {
        Ok(0) => Err(ErrorKind::WriteZero.into()),
        Ok(_) => Ok(Attempt::Moved),
        Err(error) => unless_failed(error),
    }
}

/// Sends what waits. Says whether bytes went.
///
/// Errors: those of the writer, but that it has no room now; `WriteZero` where it takes nothing. What was sent before
/// stays sent.
pub fn send_out<W: Write>(connection: &mut Connection, writer: &mut W) -> io::Result<bool>
    ensures written { (more : List ℕ) × Appends (W.contents writer.old) (W.contents writer.new) more
        × ((history connection.new).sent ≡ (history connection.old).sent ++ more) }
    ensures calls { (history connection.new).calls ≡ (history connection.old).calls }
    ensures received { (history connection.new).received ≡ (history connection.old).received }
    ensures went { IfOk result (λ went. IsTrue went
        ↔ HasGrown (history connection.old).sent (history connection.new).sent) }
    ensures still { IfOk result (λ went. IsFalse went → history connection.new ≡ history connection.old) }
    ensures config { config_of connection.new ≡ config_of connection.old }
{
    let mut went = false;
    for _ in 0..MOST_TURNS {
        match write_once(connection, writer)? {
            Attempt::Moved => went = true,
            Attempt::Interrupted => {}
            Attempt::Over => return Ok(went),
        }
    }
    Ok(went)
}

// At most so many bytes are dropped at once.
const DROP_ROOM: usize = 16 * 1024;

// Reads and drops what has come, at most 4 MiB. Says whether there is no more to come: the end was found, or the reader
// failed.
pub fn finds_end<R: Read>(reader: &mut R) -> bool {
    let mut room = [0; DROP_ROOM];
    for _ in 0..MOST_DROPS {
        match reader.read(&mut room) {
            Ok(0) => return true,
            Ok(_) => {}
            Err(error) => match unless_failed(error) {
                Ok(Attempt::Over) => return false,
                Ok(_) => {}
                Err(_) => return true,
            },
        }
    }
    false
}
