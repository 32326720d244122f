//! The service of a page, with its file.

ghost use Rattle.std.specs.Prelude.{◌≡◌, ◌≤◌, ⊤};
ghost use Rattle.std.proofs.Common.{ap};
ghost use Rattle.core_rules.specs.Work.{IsQuiet};

use bytes::Bytes;
use grid_core::Memory;
use http::Request;
use http_server::{Response, Service};
use page_service::{Kept, Painting, answers_leave_later};
use run_faults::RunError;
use std::alloc::{AllocError, Global};
use std::marker::{Model, Sync};
use std::thread::Threads;

/// A painting whose board is kept. It is seen as that board.
#[derive(Drop)]
pub struct Served {
    pub alloc: Global,
    pub painting: Painting,
}

impl Model for Served {
    ghost use Rattle.stroke_core.specs.contracts.stroke.Stroke as stroke;
    ghost use Rattle.page_board.specs.Board.{PageBoard, board_code};

    ghost Value = { PageBoard };

    ghost coded = { board_code stroke.the_row.coded };

    ghost view = { λ s. s.painting.board };
}

impl Service for Served {
    ghost answers = { λ old request response new. old.version ≤ new.version };

    fn call(
        &mut self,
        request: &Request<Bytes>,
        response: &mut Response,
    ) -> Result<(), AllocError> {
        answers_leave_later();
        self.painting.call(request, response)
    }
}

// Which bytes the file has is compared when the tests run.
impl Kept for Served {
    ghost version = { λ board. board.version };

    ghost spells = { λ board file. ⊤ };

    ghost has = { λ board file. ⊤ };

    ghost takes = { λ old found new. old.version ≤ new.version };

    ghost notes = { λ old why new. new ≡ old };

    ghost works = { λ old new. old.version ≤ new.version };

    ghost has_work = { λ board. ¬ (IsQuiet board.core) };

    fn version(&self) -> u64 {
        self.painting.board().version()
    }

    fn file(&self) -> Result<Vec<u8>, Memory> {
        self.painting.board().state_file(self.alloc)
    }

    fn take(&mut self, found: &[u8]) -> Result<(), RunError> {
        self.painting.take_found(found)
    }

    fn note(&mut self, why: Option<RunError>) {
        self.painting.note_kept(why)
    }

    fn work<R: Threads + Sync>(&mut self, rt: &R) -> bool {
        let _ = self.painting.grow_in_bands(rt, 2, 64);
        !self.painting.board().is_quiet()
    }

    ghost calls_count = { λ _ _ _ _ later. record { rises = later; stays = λ _ _ _ s. s; had = λ _ h. h } };

    ghost works_count = { λ _ _ later. record { rises = later; stays = λ _ _ _ s. s; had = λ _ h. h } };

    ghost takes_count = { λ _ _ _ later. record { rises = later; taken = tt; had = λ _ h. h } };

    ghost notes_count = { λ _ _ _ same. record {
      counted = ap (λ board. board.version) same;
      spelled = λ _ s. s;
      had = λ _ h. h;
    } };
}
