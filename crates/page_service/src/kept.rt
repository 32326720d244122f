//! Services whose state a file keeps.

ghost use Rattle.std.specs.Prelude.{◌≡◌, ◌↔◌, ℕ, List, Option, IfOk, IfErr, OnOk, OnErr, IsTrue};
ghost use Rattle.std.specs.Thread.{IsSync};
ghost use Rattle.http.specs.declared.request.Request.{Request};
ghost use Rattle.http_server.specs.declared.response.Response.{Response};
ghost use Rattle.page_service.specs.Kept.{HasTaken, IsKeptAlike, IsLater};
ghost use Rattle.run_faults.specs.declared.run_error.RunError.{RunError as Fault};
ghost use Rattle.run_faults.specs.declared.run_error.RunError.TheVariants as errors;

use grid_core::Memory;
use http_server::Service;
use run_faults::RunError;
use std::marker::Sync;
use std::thread::Threads;

/// A service whose state a file keeps, which others may write, too. Its version rises with each change of what the file
/// is to keep. It may stop at `u64::MAX`: from there on each round saves.
pub trait Kept: Service {
    // How often what is kept has changed.
    ghost version: { Self → ℕ };

    // These bytes are a file that keeps all of this state, and maybe more.
    ghost spells: { Self → List ℕ → Type 0 };

    // The state has all that these bytes of a file keep, and maybe more.
    ghost has: { Self → List ℕ → Type 0 };

    // The first state takes what these bytes of a file keep, and becomes the second.
    ghost takes: { Self → List ℕ → Self → Type 0 };

    // The first state is told that its file keeps it, or why it does not, and becomes the second.
    ghost notes: { Self → Option Fault → Self → Type 0 };

    // A share of work leads from the first state to the second.
    ghost works: { Self → Self → Type 0 };

    // Work is left that calls have left.
    ghost has_work: { Self → Type 0 };

    /// The version.
    fn version(&self) -> u64
        ensures { result ≡ version self.now };

    /// A file that keeps the state, and no more.
    ///
    /// Errors: out of memory.
    fn file(&self) -> Result<Vec<u8>, Memory>
        ensures { IfOk result (λ file. spells self.now file.items × has self.now file.items) };

    /// Takes what these bytes of a file keep.
    ///
    /// Errors: why it does not, never V2. It is as before then.
    fn take(&mut self, found: &[u8]) -> Result<(), RunError>
        ensures taken { OnOk result (takes self.old found.now self.new) }
        ensures refused { OnErr result (self.new ≡ self.old) }
        ensures no_store { IfErr result (λ e. e ≡ errors.StateFile → ⊥) };

    /// Tells it that its file keeps it, or why it does not.
    fn note(&mut self, why: Option<RunError>)
        ensures { notes self.old why self.new };

    /// Does a share of the work that calls have left, by threads of this handle where that is worth while. Says whether
    /// work is left after it, also where memory was wanting.
    fn work<R: Threads + Sync>(&mut self, rt: &R) -> bool
        requires shared { IsSync R.row }
        ensures works { works self.old self.new }
        ensures left { IsTrue result ↔ has_work self.new };

    // Where a call leaves the version as it was, it leaves the files that spell the state, too.
    ghost calls_count: { (old : Self) (request : Request (List ℕ)) (response : Response) (new : Self)
        → Self.answers old request response new → IsLater version spells has old new };

    // And so does a share of work.
    ghost works_count: { (old new : Self) → works old new → IsLater version spells has old new };

    // What is taken it has then.
    ghost takes_count: { (old : Self) (found : List ℕ) (new : Self) → takes old found new
        → HasTaken version has old found new };

    // What it is told changes nothing of what is kept.
    ghost notes_count: { (old : Self) (why : Option Fault) (new : Self) → notes old why new
        → IsKeptAlike version spells has old new };
}
