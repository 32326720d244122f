//! What is saved: the state of a service, joined with what its file has.

ghost use Rattle.page_service.specs.Keeper.{MakesOver, RefusesOver};

use crate::kept::Kept;
use run_faults::RunError;
use std::alloc::Global;
use view_session::store::Keeps;

/// A service, and the bytes that its file had last.
#[derive(Drop)]
pub struct Joiner<S> {
    pub(crate) service: S,
    pub(crate) last: Vec<u8>,
}

impl<S: Kept> Keeps for Joiner<S> {
    ghost makes = { MakesOver S.spells S.has S.takes };

    ghost refuses = { RefusesOver S.takes };

    // What others wrote is taken first, so that it stands in the file that takes the place of theirs.
    fn keep_over(&mut self, _alloc: Global, found: &[u8]) -> Result<Vec<u8>, RunError> {
        if found != self.last.as_slice() {
            self.service.take(found)?;
        }
        Ok(self.service.file()?)
    }
}
