//! Where state files are kept.

ghost use Rattle.std.specs.Prelude.{◌≡◌, ℕ, List, IfOk, IfErr};
ghost use Rattle.view_session.specs.Store.{StoreSeen, Loads, Saves};
ghost use Rattle.run_faults.specs.declared.run_error.RunError.{RunError as Fault};
ghost use Rattle.run_faults.specs.declared.run_error.RunError.TheVariants as errors;

use grid_core::Memory;
use run_faults::RunError;
use std::alloc::Global;
use std::marker::Model;

/// The name of a state file. It is seen as the bytes of the name.
#[derive(Debug, Drop)]
pub struct StatePath {
    path: String,
}

impl Model for StatePath {
    ghost use Rattle.std.specs.Prelude.{ℕ, List, string_bytes};

    ghost Value = { List ℕ };

    ghost view = { λ p. string_bytes p.path };
}

impl StatePath {
    /// This name.
    ///
    /// Errors: out of memory.
    pub fn new(alloc: Global, name: &str) -> Result<StatePath, Memory>
        ensures { IfOk result (λ path. path ≡ name.now) }
    {
        let path = String::from_str(alloc, name)?;
        Ok(StatePath { path })
    }

    /// The name.
    pub fn name(&self) -> &str
        ensures { result.now ≡ self.now }
    {
        self.path.as_str()
    }
}

/// What is to be kept in a state file: over the bytes that are found there it makes those that take their place.
pub trait Keeps {
    // Over these bytes that are found it makes these others, and becomes the last.
    ghost makes: { Self → List ℕ → List ℕ → Self → Type 0 };

    // It refuses these bytes that are found for this reason, and becomes the last.
    ghost refuses: { Self → List ℕ → Fault → Self → Type 0 };

    /// The bytes that take the place of those that are found. A file that is not there has no bytes.
    ///
    /// Errors: why it refuses what is found; never V2.
    fn keep_over(&mut self, alloc: Global, found: &[u8]) -> Result<Vec<u8>, RunError>
        ensures made { IfOk result (λ made. makes self.old found.now made.items self.new) }
        ensures refused { IfErr result (λ e. refuses self.old found.now e self.new) }
        ensures no_store { IfErr result (λ e. e ≡ errors.StateFile → ⊥) };
}

/// Where state files are kept, each under its name. A store counts its failures; the count stops at `u64::MAX`.
pub trait StateStore {
    // What the files hold, where it is known, and the count.
    ghost seen: { Self → StoreSeen };

    /// The bytes of the file of this name, and none where there is no such file.
    ///
    /// Errors: V2 where the store failed; out of memory. Files stay as they are.
    fn load(&mut self, alloc: Global, path: &StatePath) -> Result<Vec<u8>, RunError>
        ensures { Loads (λ v. v.items) (seen self.old) (seen self.new) result path.now };

    /// Puts what the keeper makes over the bytes of the file of this name in their place, all of it or nothing, and
    /// answers what the file has then. Nobody who saves in this way comes between the look at the file and the change.
    ///
    /// Errors: V2 where the store failed; out of memory; why the keeper refuses what is found. Files stay as they are.
    fn save<J: Keeps>(
        &mut self,
        alloc: Global,
        path: &StatePath,
        keeper: &mut J,
    ) -> Result<Vec<u8>, RunError>
        ensures { Saves J.makes J.refuses (λ v. v.items) (seen self.old) (seen self.new) keeper.old keeper.new result
            path.now };
}
