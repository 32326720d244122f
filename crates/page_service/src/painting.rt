//! The painting: what requests look at and change.

ghost use Rattle.std.specs.Prelude.{◌≡◌, ◌<◌, ◌↔◌, IsTrue, IfOk, OnOk, OnErr, None};
ghost use Rattle.core_rules.specs.Work.{IsQuiet};
ghost use Rattle.http_header.specs.FieldValue.{is_visible_text};
ghost use Rattle.http_server.specs.Response.{IsBlank};
ghost use Rattle.page_board.specs.Growing.{IsGrown, IsSettledFor};
ghost use Rattle.page_board.specs.Later.{IsLater};
ghost use Rattle.page_service.specs.Answering.{Says};

use crate::answer_fields::{Media, put_answer};
use crate::hosts::Hosts;
use crate::key::Key;
use crate::mask_name::MaskName;
use crate::unread::Unread;
use bytes::Bytes;
use grid_core::Memory;
use http::StatusCode;
use http_server::Response;
use page_board::PageBoard;
use run_faults::RunError;
use std::alloc::{AllocError, Global};
use std::marker::{Model, Sync};
use std::thread::Threads;

mod answer;
mod files;
mod posts;
mod service;

/// A board behind the requests of a page.
#[derive(Drop)]
pub struct Painting {
    alloc: Global,
    board: PageBoard,
    hosts: Hosts,
    key: Key,
    name: MaskName,
    page: &'static [u8],
    policy: &'static str,
    // Why what the board has is not kept, where it is not.
    unkept: Option<RunError>,
    // The files of the mask and of the image, where they were asked for and nothing has changed since.
    mask: Option<Bytes>,
    image: Option<Bytes>,
    // The large answers that somebody has not read yet, and old files of the image among them.
    unread: Unread,
}

impl Model for Painting {
    ghost use Rattle.stroke_core.specs.contracts.stroke.Stroke as stroke;
    ghost use Rattle.run_faults.specs.contracts.run_error.RunError as fault;
    ghost use Rattle.page_service.specs.Painting.{Painting as Data, painting_code};

    ghost Value = { Data };

    ghost coded = { painting_code stroke.the_row.coded fault.the_row.coded };

    ghost use Rattle.page_service.specs.Stored.{painting_of, IsStored};

    ghost view = { painting_of };

    ghost invariant = { IsStored };
}

impl Painting {
    /// The service of a board, asked at these hosts under this key; `name` is that of the mask's file, `page` the page,
    /// compressed as a gzip file (RFC 1952), `policy` its content security policy. What the board has counts as kept.
    pub fn new(
        alloc: Global,
        board: PageBoard,
        hosts: Hosts,
        key: Key,
        name: MaskName,
        page: &'static [u8],
        policy: &'static str,
    ) -> Painting
        requires visible { IsTrue (is_visible_text policy.now) }
        ensures { result ≡ record {
          board = board;
          port = hosts;
          key = key;
          name = name;
          page = page.now;
          policy = policy.now;
          unkept = None;
        } }
    {
        Painting {
            alloc,
            board,
            hosts,
            key,
            name,
            page,
            policy,
            unkept: None,
            mask: None,
            image: None,
            unread: Unread::new(alloc),
        }
    }

    /// The board.
    pub fn board(&self) -> &PageBoard
        ensures { result.now ≡ self.now.board }
    {
        &self.board
    }

    /// Notes whether what the board has is kept: nothing, or why it is not. While it is not, no edit text and no state
    /// file is taken that is posted.
    pub fn note_kept(&mut self, why: Option<RunError>)
        ensures { self.new ≡ record self.old { unkept = why } }
    {
        self.unkept = why;
    }

    /// One slice of settling: at most so many jobs, by at most so many threads. Says whether no work is left.
    ///
    /// Errors: out of memory. The board is then as some events of settling left it.
    pub fn grow_in_bands<R: Threads + Sync>(
        &mut self,
        rt: &R,
        threads: usize,
        jobs: u64,
    ) -> Result<bool, Memory>
        ensures grown { IsGrown self.old.board jobs self.new.board }
        ensures settled { OnOk result (IsSettledFor self.old.board.core jobs self.new.board.core) }
        ensures some_work { OnErr result ((IsQuiet self.old.board.core → ⊥) × (0 < jobs)) }
        ensures quiet { IfOk result (λ quiet. IsTrue quiet ↔ IsQuiet self.new.board.core) }
        ensures later { IsLater self.old.board self.new.board }
        ensures rest { self.new ≡ record self.old { board = self.new.board } }
    {
        self.unread.keep(self.image.take());
        self.board.grow_in_bands(rt, self.alloc, threads, jobs)
    }

    /// Gives back the memory of large answers that were read.
    pub fn forget_read(&mut self)
        ensures { self.new ≡ self.old }
    {
        self.unread.forget_read();
    }

    // Fills a blank response with 200, the fields that every answer has, and a body that is this response's own.
    //
    // Errors: out of memory, or the body is large and too much is unread.
    fn give(&mut self, response: &mut Response, media: Media, body: Bytes) -> Result<(), AllocError>
        requires { IsBlank response.old }
        ensures told { OnOk result (Says self.old 200 media body response.new) }
        ensures same { self.new ≡ self.old }
    {
        self.unread.note(&body)?;
        self.put(response, StatusCode::OK, media, body)
    }

    // Fills a blank response with a status, the fields that every answer has, and a body.
    fn put(
        &self,
        response: &mut Response,
        status: StatusCode,
        media: Media,
        body: Bytes,
    ) -> Result<(), AllocError>
        requires { IsBlank response.old }
        ensures { OnOk result (Says self.now status media body response.new) }
    {
        put_answer(response, status, media, self.policy, body)
    }
}
