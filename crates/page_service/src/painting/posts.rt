//! Edit texts and state files that are taken.

ghost use Rattle.std.specs.Prelude.{◌≡◌, ◌⊎◌, OnOk, OnErr, IfOk, IfErr};
ghost use Rattle.http_server.specs.Response.{IsBlank};
ghost use Rattle.page_board.specs.Keeping.{HasAllIn};
ghost use Rattle.page_board.specs.Later.{IsLater};
ghost use Rattle.page_board.specs.Taking.{TextIsTaken, TextIsRefused, FileIsTaken, FileIsRefused};
ghost use Rattle.run_faults.specs.RunError.{IsMemory, fault_text};
ghost use Rattle.run_faults.specs.declared.run_error.RunError.TheVariants as errors;
ghost use Rattle.page_service.specs.declared.answer_fields.Media.TheVariants as media;
ghost use Rattle.page_service.specs.Answering.{Says, TellsChanges, SaysTaken, AnswersEdits, AnswersJoin};

use super::Painting;
use crate::answer_fields::Media;
use crate::fault::is_memory;
use crate::table::Moment;
use bytes::Bytes;
use http::StatusCode;
use http_server::Response;
use run_faults::{RunError, fault_line};
use std::alloc::AllocError;

/// What is answered where an edit was taken and memory is wanting to tell what changed.
const TAKEN: &str = "taken, and no memory to tell what changed";

impl Painting {
    // Takes an edit text, and tells what changed since the moment.
    //
    // The answer that needs no more memory stands before anything is taken: then nothing can fail that has been taken.
    pub(super) fn edit(
        &mut self,
        moment: Moment,
        text: &[u8],
        response: &mut Response,
    ) -> Result<(), AllocError>
        requires { IsBlank response.old }
        ensures ok { OnOk result
            (AnswersEdits self.old text.now moment.run moment.step response.new self.new) }
        ensures err { OnErr result (self.new ≡ self.old) }
    {
        self.put_taken(response)?;
        match self.take_edits(text) {
            Ok(()) => {
                self.tell(moment.run, moment.step, response);
                Ok(())
            }
            Err(fault) => self.turn_down(&fault, response),
        }
    }

    // Takes a state file, and tells what a page is told that knows all.
    pub(super) fn join(&mut self, file: &[u8], response: &mut Response) -> Result<(), AllocError>
        requires { IsBlank response.old }
        ensures ok { OnOk result (AnswersJoin self.old file.now response.new self.new) }
        ensures err { OnErr result (self.new ≡ self.old) }
    {
        self.put_taken(response)?;
        match self.take_found(file) {
            Ok(()) => {
                let (run, step) = (self.board.run(), self.board.step());
                self.tell(run, step, response);
                Ok(())
            }
            Err(fault) => self.turn_down(&fault, response),
        }
    }

    // Takes an edit text. The file of the image is no more the one of the board.
    fn take_edits(&mut self, text: &[u8]) -> Result<(), RunError>
        ensures taken { OnOk result (TextIsTaken self.old.board text.now self.new.board) }
        ensures refused { IfErr result (λ e. IsMemory e ⊎ TextIsRefused self.old.board text.now e) }
        ensures err { OnErr result (self.new ≡ self.old) }
        ensures later { IsLater self.old.board self.new.board }
        ensures rest { self.new ≡ record self.old { board = self.new.board } }
    {
        match self.board.take_edits(self.alloc, text) {
            Ok(()) => {
                self.unread.keep(self.image.take());
                Ok(())
            }
            Err(fault) => Err(fault),
        }
    }

    /// Takes the bytes of a state file, one that was found or that is posted. The file of the image is no more the one
    /// of the board.
    ///
    /// Errors: as [`PageBoard::take_file`](page_board::PageBoard::take_file), and never V2. Nothing has changed.
    pub fn take_found(&mut self, file: &[u8]) -> Result<(), RunError>
        ensures taken { OnOk result (FileIsTaken self.old.board file.now self.new.board) }
        ensures has_all { OnOk result (HasAllIn self.new.board file.now) }
        ensures refused { IfErr result (λ e. IsMemory e ⊎ FileIsRefused self.old.board file.now e) }
        ensures no_store { IfErr result (λ e. e ≡ errors.StateFile → ⊥) }
        ensures err { OnErr result (self.new ≡ self.old) }
        ensures later { IsLater self.old.board self.new.board }
        ensures rest { self.new ≡ record self.old { board = self.new.board } }
    {
        match self.board.take_file(self.alloc, file) {
            Ok(()) => {
                self.unread.keep(self.image.take());
                Ok(())
            }
            Err(fault) => Err(fault),
        }
    }

    // Fills a blank response: it was taken, and there is no memory to tell what changed.
    fn put_taken(&self, response: &mut Response) -> Result<(), AllocError>
        requires { IsBlank response.old }
        ensures { OnOk result (SaysTaken self.now response.new) }
    {
        let words = Bytes::from_static(TAKEN.as_bytes());
        self.put(
            response,
            StatusCode::SERVICE_UNAVAILABLE,
            Media::Text,
            words,
        )
    }

    // Tells what changed in place of what the response says, where there is memory for it.
    fn tell(&mut self, run: u64, since: u64, response: &mut Response)
        requires { SaysTaken self.old response.old }
        ensures told { TellsChanges self.old run since response.new ⊎ SaysTaken self.old response.new }
        ensures same { self.new ≡ self.old }
    {
        if let Ok(told) = self.told(run, since) {
            *response = told;
        }
    }

    // A response that tells what changed.
    fn told(&mut self, run: u64, since: u64) -> Result<Response, AllocError>
        ensures told { IfOk result (TellsChanges self.old run since) }
        ensures same { self.new ≡ self.old }
    {
        let mut told = Response::new(self.alloc);
        self.put_changes(run, since, &mut told)?;
        Ok(told)
    }

    // Fills a blank response with what changed.
    pub(super) fn put_changes(
        &mut self,
        run: u64,
        since: u64,
        response: &mut Response,
    ) -> Result<(), AllocError>
        requires { IsBlank response.old }
        ensures told { OnOk result (TellsChanges self.old run since response.new) }
        ensures same { self.new ≡ self.old }
    {
        let Ok(changes) = self.board.changes(self.alloc, run, since) else {
            return Err(AllocError);
        };
        self.give(response, Media::Binary, Bytes::from_vec(changes)?)
    }

    // Answers what was refused with the line of its fault, whatever the response says. Want of memory is no answer.
    fn turn_down(&self, fault: &RunError, response: &mut Response) -> Result<(), AllocError>
        ensures fault { OnOk result (IsMemory fault.now → ⊥) }
        ensures line { OnOk result (Says self.now 409 media.Text (fault_text fault.now) response.new) }
    {
        if is_memory(fault) {
            return Err(AllocError);
        }
        response.clear();
        self.put_fault(response, StatusCode::CONFLICT, fault)
    }

    // Fills a blank response with the line of a fault.
    pub(super) fn put_fault(
        &self,
        response: &mut Response,
        status: StatusCode,
        fault: &RunError,
    ) -> Result<(), AllocError>
        requires { IsBlank response.old }
        ensures { OnOk result (Says self.now status media.Text (fault_text fault.now) response.new) }
    {
        let Ok(line) = fault_line(self.alloc, fault) else {
            return Err(AllocError);
        };
        self.put(response, status, Media::Text, Bytes::from_string(line)?)
    }
}
