//! The service of a page, with its share of settling.

ghost use Rattle.std.specs.Prelude.{◌≡◌, IsTrue};
ghost use Rattle.http_header.specs.FieldValue.{is_visible_text};
ghost use Rattle.page_server.specs.declared.html.TheConstants as constants;
ghost use Rattle.page_server.specs.Page.{PageAnswers, PageGrows, PageHas, PageNotes, PageSpells, PageTakes};
ghost use Rattle.page_server.specs.Page.{HasPageWork, page_version};
ghost use Rattle.page_server.specs.Page.{calls_count, works_count, takes_count, notes_count};

use crate::html::{PAGE, POLICY};
use bytes::Bytes;
use grid_core::Memory;
use http::Request;
use http_server::{Response, Service};
use page_board::PageBoard;
use page_service::{Hosts, Kept, Key, MaskName, Painting};
use run_faults::RunError;
use std::alloc::{AllocError, Global};
use std::marker::Sync;
use std::thread::Threads;

/// A painting, and by how many threads and how many jobs it settles in a share.
#[derive(Drop)]
pub(crate) struct Page {
    pub(crate) alloc: Global,
    pub(crate) painting: Painting,
    pub(crate) threads: usize,
    pub(crate) jobs: u64,
}

// The page that is embedded, compressed. A function that names it costs the more to prove, the more else it does.
fn embedded_page() -> &'static [u8]
    ensures { result.now ≡ constants.PAGE.now }
{
    PAGE
}

// The content security policy of that page.
fn embedded_policy() -> &'static str
    ensures policy { result.now ≡ constants.POLICY.now }
    ensures visible { IsTrue (is_visible_text result.now) }
{
    POLICY
}

impl Page {
    ghost use Rattle.std.specs.Prelude.{◌≡◌, None};
    ghost use Rattle.page_server.specs.declared.html.TheConstants.{PAGE, POLICY};

    /// The page that is embedded, with its policy, over a board.
    pub(crate) fn new(
        alloc: Global,
        board: PageBoard,
        hosts: Hosts,
        key: Key,
        name: MaskName,
        threads: usize,
        jobs: u64,
    ) -> Page
        ensures painting { result.painting ≡ record {
          board = board;
          port = hosts;
          key = key;
          name = name;
          page = PAGE.now;
          policy = POLICY.now;
          unkept = None;
        } }
        ensures threads { result.threads ≡ threads }
        ensures jobs { result.jobs ≡ jobs }
    {
        Page {
            alloc,
            painting: Painting::new(
                alloc,
                board,
                hosts,
                key,
                name,
                embedded_page(),
                embedded_policy(),
            ),
            threads,
            jobs,
        }
    }
}

impl Service for Page {
    ghost answers = { PageAnswers };

    fn call(
        &mut self,
        request: &Request<Bytes>,
        response: &mut Response,
    ) -> Result<(), AllocError> {
        self.painting.call(request, response)
    }
}

impl Kept for Page {
    ghost version = { page_version };

    ghost spells = { PageSpells };

    ghost has = { PageHas };

    ghost takes = { PageTakes };

    ghost notes = { PageNotes };

    ghost works = { PageGrows };

    ghost has_work = { HasPageWork };

    ghost calls_count = { calls_count };

    ghost works_count = { works_count };

    ghost takes_count = { takes_count };

    ghost notes_count = { notes_count };

    fn version(&self) -> u64 {
        self.painting.board().version()
    }

    fn file(&self) -> Result<Vec<u8>, Memory> {
        self.painting.board().state_file(self.alloc)
    }

    fn take(&mut self, found: &[u8]) -> Result<(), RunError> {
        self.painting.take_found(found)
    }

    fn note(&mut self, why: Option<RunError>) {
        self.painting.note_kept(why);
    }

    // Where no work is left, the board is not touched, so that the files that the painting has made stay. Where memory
    // is wanting, the rest is left.
    fn work<R: Threads + Sync>(&mut self, rt: &R) -> bool {
        self.painting.forget_read();
        if self.painting.board().is_quiet() {
            return false;
        }
        let _ = self.painting.grow_in_bands(rt, self.threads, self.jobs);
        !self.painting.board().is_quiet()
    }
}
