#![tactic(auto)]
//! Seedpaint grows seed strokes into a greyscale image: edit lines, a line `image` and a PGM file on
//! standard input, the reconstruction by dilation as a raw PGM file on standard output. Of one PGM file it derives
//! others: its holes filled, its h-maxima, its regional maxima. As a node it shares an image with others over UDP, on
//! loopback, before it writes it. And it serves a page on which strokes are painted, to browsers on this machine.
//!
//! The library `command_line` reads the words and makes the call that they say; a painting it leaves to `page_server`.
//! Read on in `docs/ARCHITECTURE.md`.

use band_growth::ManyThreads;
use byte_devices::{StdSink, StdSource};
use command_line::process::{conclude, run};
use node_session::network::Loopback;
use page_server::paint;
use std::env;
use std::process::ExitCode;
use view_session::file_store::FileStore;

// For how many milliseconds a save of a page waits for other programs. Then the page says so, and tries again.
const PAGE_PATIENCE: u32 = 600;

fn main(rt: HostRuntime) -> ExitCode {
    let mut source = StdSource::new(rt.stdin());
    let mut sink = StdSink::new(rt.stdout());
    let mut store = FileStore::new(&rt);
    let mut network = Loopback::new(&rt);
    let outcome = match run(
        &rt,
        rt.alloc(),
        env::args(&rt),
        &mut source,
        &mut store,
        &mut network,
        &mut sink,
    ) {
        Ok(Some(call)) => paint(
            &rt,
            &rt,
            &ManyThreads::new(&rt),
            rt.alloc(),
            call,
            FileStore::waiting(&rt, PAGE_PATIENCE),
            &mut sink,
        ),
        Ok(None) => Ok(()),
        Err(error) => Err(error),
    };
    conclude(&outcome, &mut StdSink::new(rt.stderr()))
}
