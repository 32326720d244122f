#![tactic(auto)]
//! The least program over the library `view_session`: it shows the view of standard input on standard output.
//!
//! ```text
//! view_example < input > view.pgm
//! ```
//!
//! The input is edit lines, a line `image` and a PGM file. A fault is told on standard error, and is the exit status.

use byte_devices::{StdSink, StdSource};
use grid_core::Conn;
use run_faults::{fault_line, status};
use std::process::ExitCode;
use view_session::view::view_run;

fn main(rt: HostRuntime) -> ExitCode {
    let mut source = StdSource::new(rt.stdin());
    let mut sink = StdSink::new(rt.stdout());
    let Err(error) = view_run(rt.alloc(), &mut source, Conn::Eight, &mut sink) else {
        return ExitCode::SUCCESS;
    };
    if let Ok(line) = fault_line(rt.alloc(), &error) {
        let _ = rt.eprintln(line);
    }
    ExitCode::from(status(&error))
}
