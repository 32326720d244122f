#![tactic(auto)]
//! Why a run of the program ended without what it was to write, with the line that says so on standard error and the
//! exit status. The libraries of sessions, nodes and the page end their runs by [`RunError`].

mod detail;
mod run_error;

pub use detail::Detail;
pub use run_error::{RunError, StudioFault, fault_line, put_fault, status};
