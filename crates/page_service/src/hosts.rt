//! The names under which a server on the loopback is asked.

ghost use Rattle.std.specs.Prelude.{◌≡◌, ◌↔◌, ◌++◌, codes, decimal, string_bytes, IsTrue, IfOk};
ghost use Rattle.page_service.specs.Sender.{IsLoopback, IsOwnHost, IsOwnOrigin};

use crate::key::Key;
use std::alloc::{AllocError, Global};
use std::marker::Model;

/// The two names of a server on the loopback, `127.0.0.1:PORT` and `localhost:PORT`. At port 80, which browsers leave
/// out, it has these names without a port, too. They are seen as the port.
#[derive(Debug, Drop)]
pub struct Hosts {
    port: u16,
    number: String,
    name: String,
}

impl Model for Hosts {
    ghost use Rattle.std.specs.Prelude.{◌≡◌, ◌++◌, ℕ, codes, decimal, string_bytes};

    ghost Value = { ℕ };

    ghost view = { λ h. h.port };

    ghost invariant = { λ h. (string_bytes h.number ≡ codes "127.0.0.1:" ++ decimal h.port)
        × (string_bytes h.name ≡ codes "localhost:" ++ decimal h.port) };
}

impl Hosts {
    /// Those of this port.
    ///
    /// Errors: out of memory.
    pub fn new(alloc: Global, port: u16) -> Result<Hosts, AllocError>
        ensures { IfOk result (λ hosts. hosts ≡ port) }
    {
        let number = format!(in alloc; "127.0.0.1:{port}")?;
        let name = format!(in alloc; "localhost:{port}")?;
        Ok(Hosts { port, number, name })
    }

    /// Whether the value of a `Host` field is one of them, byte by byte.
    pub fn is_host(&self, value: &[u8]) -> bool
        ensures { IsTrue result ↔ IsOwnHost self.now value.now }
    {
        value == self.number.as_bytes()
            || value == self.name.as_bytes()
            || (self.port == 80 && is_loopback(value))
    }

    /// Whether the value of an `Origin` field is `http://` and one of them.
    pub fn is_origin(&self, value: &[u8]) -> bool
        ensures { IsTrue result ↔ IsOwnOrigin self.now value.now }
    {
        match value.strip_prefix(b"http://".as_slice()) {
            Some(host) => self.is_host(host),
            None => false,
        }
    }
}

/// Whether the value names the loopback, and no port.
fn is_loopback(value: &[u8]) -> bool
    ensures { IsTrue result ↔ IsLoopback value.now }
{
    value == b"127.0.0.1".as_slice() || value == b"localhost".as_slice()
}

/// The address at which a browser finds the page, `http://127.0.0.1:PORT/KEY/`.
///
/// Errors: out of memory.
pub fn address(alloc: Global, hosts: &Hosts, key: &Key) -> Result<String, AllocError>
    ensures { IfOk result (λ text. string_bytes text
        ≡ codes "http://127.0.0.1:" ++ (decimal hosts.now ++ (codes "/" ++ (key.now ++ codes "/")))) }
{
    let digits = key.as_str();
    let port = hosts.port;
    format!(in alloc; "http://127.0.0.1:{port}/{digits}/")
}
