//! Where a page is served, and how its mask is called.

ghost use Rattle.std.specs.Prelude.{◌≡◌, ◌⊎◌, IfOk, IfErr, OnOk, string_bytes};
ghost use Rattle.std.specs.Io.KnownBytes.{Appends};
ghost use Rattle.run_faults.specs.RunError.{IsTransferFault};
ghost use Rattle.run_faults.specs.declared.run_error.RunError.TheVariants as errors;
ghost use Rattle.page_server.specs.Serving.{address_line};
ghost use Rattle.page_service.specs.MaskName.{naming_at};

use crate::call::PaintCall;
use crate::chance::key_bits;
use crate::door::Door;
use crate::forward::write_forward;
use crate::ports::home;
use byte_devices::{Sink, put_all};
use grid_core::Memory;
use page_service::{Hosts, Key, MaskName, address};
use pgm_codec::PgmError;
use run_faults::RunError;
use std::alloc::Global;
use std::net::Net;
use std::random::RandomSource;
use std::rt::Files;

/// The door of a page, the names under which it is asked, its key, and the name of the mask's file.
#[derive(Drop)]
pub(crate) struct Site {
    pub(crate) door: Door,
    pub(crate) hosts: Hosts,
    pub(crate) key: Key,
    pub(crate) name: MaskName,
}

impl Site {
    /// A site for a call, of which the file that forwards and the sink have the address.
    ///
    /// Errors: D3 where the port could not be bound, or where there are no random bytes; P11 where the file that
    /// forwards could not be written, or where the sink failed; out of memory.
    pub(crate) fn told<R: Net + Files + RandomSource, K: Sink>(
        rt: &R,
        alloc: Global,
        call: &PaintCall,
        sink: &mut K,
    ) -> Result<Site, RunError>
        ensures told { IfOk result (λ site. Appends (K.seen sink.old).written (K.seen sink.new).written
            (address_line site.hosts site.key)) }
        ensures named { IfOk result (λ site. site.name ≡ naming_at call.now.mask) }
        ensures refused { IfErr result (λ e. (e ≡ errors.Link) ⊎ (e ≡ errors.Memory) ⊎ IsTransferFault e) }
    {
        let site = Site::open(rt, alloc, call)?;
        match site.announce(rt, alloc, call, sink) {
            Ok(()) => Ok(site),
            Err(why) => {
                drop(site);
                Err(why)
            }
        }
    }

    // Writes the file that forwards here, where one is asked for, and tells the sink the address.
    //
    // Errors: P11 where either failed; out of memory.
    fn announce<R: Files, K: Sink>(
        &self,
        rt: &R,
        alloc: Global,
        call: &PaintCall,
        sink: &mut K,
    ) -> Result<(), RunError>
        ensures told { OnOk result (Appends (K.seen sink.old).written (K.seen sink.new).written
            (address_line self.now.hosts self.now.key)) }
        ensures refused { IfErr result (λ e. (e ≡ errors.Link) ⊎ (e ≡ errors.Memory) ⊎ IsTransferFault e) }
    {
        if let Some(name) = &call.forward {
            write_forward(rt, alloc, name.as_str(), &self.hosts, &self.key)?;
        }
        self.tell(alloc, sink)
    }

    // Binds a port of 127.0.0.1 for a call, and draws a key.
    //
    // Errors: D3 where the port could not be bound, or where there are no random bytes; out of memory.
    fn open<R: Net + Files + RandomSource>(
        rt: &R,
        alloc: Global,
        call: &PaintCall,
    ) -> Result<Site, RunError>
        ensures named { IfOk result (λ site. site.name ≡ naming_at call.now.mask) }
        ensures refused { IfErr result (λ e. (e ≡ errors.Link) ⊎ (e ≡ errors.Memory)) }
    {
        let Ok(bits) = key_bits(rt) else {
            return Err(RunError::Link);
        };
        let Ok(name) = MaskName::new(alloc, call.mask.as_str()) else {
            return Err(RunError::Memory);
        };
        let home = home(rt, alloc, &call.file);
        let Ok(door) = Door::bind(rt, alloc, call.port, home) else {
            return Err(RunError::Link);
        };
        match names_of(alloc, &door, bits) {
            Ok((hosts, key)) => Ok(Site {
                door,
                hosts,
                key,
                name,
            }),
            Err(why) => {
                drop(name);
                drop(door);
                Err(why)
            }
        }
    }

    // Puts the address of the page, and an LF behind it.
    //
    // Errors: P11 where the sink failed; out of memory, and then nothing is put.
    fn tell<K: Sink>(&self, alloc: Global, sink: &mut K) -> Result<(), RunError>
        ensures told { OnOk result (Appends (K.seen sink.old).written (K.seen sink.new).written
            (address_line self.now.hosts self.now.key)) }
        ensures refused { IfErr result (λ e. (e ≡ errors.Memory) ⊎ IsTransferFault e) }
    {
        let line = self.line(alloc)?;
        match put_all(sink, line.as_bytes()) {
            Ok(()) => Ok(()),
            Err(_) => Err(RunError::Pgm(PgmError::Device)),
        }
    }

    // The address of the page, and an LF.
    fn line(&self, alloc: Global) -> Result<String, Memory>
        ensures { IfOk result (λ line. string_bytes line ≡ address_line self.now.hosts self.now.key) }
    {
        let mut line = address(alloc, &self.hosts, &self.key)?;
        line.push_str("\n")?;
        Ok(line)
    }
}

// The names under which a door is asked, and the key that these bits make.
//
// Errors: D3 where the system does not tell the port; out of memory.
fn names_of(alloc: Global, door: &Door, bits: u128) -> Result<(Hosts, Key), RunError>
    ensures { IfErr result (λ e. (e ≡ errors.Link) ⊎ (e ≡ errors.Memory)) }
{
    let Ok(port) = door.port() else {
        return Err(RunError::Link);
    };
    let Ok(hosts) = Hosts::new(alloc, port) else {
        return Err(RunError::Memory);
    };
    match Key::new(alloc, bits) {
        Ok(key) => Ok((hosts, key)),
        Err(_) => {
            drop(hosts);
            Err(RunError::Memory)
        }
    }
}
