//! The answer to what is asked.

ghost use Rattle.std.specs.Prelude.{◌≡◌, OnOk, OnErr};
ghost use Rattle.http_server.specs.Response.{IsBlank};
ghost use Rattle.edit_lang.specs.Writing.{live_text};
ghost use Rattle.page_service.specs.declared.answer_fields.Media.TheVariants as media;
ghost use Rattle.page_service.specs.Painting.{state_text};
ghost use Rattle.page_service.specs.Answering.{Says, SaysMask, AnswersAsked};

use super::Painting;
use crate::answer_fields::Media;
use crate::table::Asked;
use bytes::Bytes;
use http::StatusCode;
use http_server::Response;
use std::alloc::AllocError;

impl Painting {
    /// Fills a blank response with the answer to what is asked; `body` is the body of the request. What is posted is
    /// taken only while what the board has is kept.
    ///
    /// Errors: out of memory, or no room beside the large answers that nobody has read yet. Nothing has changed.
    pub(crate) fn answer(
        &mut self,
        asked: Asked,
        body: &[u8],
        response: &mut Response,
    ) -> Result<(), AllocError>
        requires { IsBlank response.old }
        ensures ok { OnOk result (AnswersAsked asked self.old body.now response.new self.new) }
        ensures err { OnErr result (self.new ≡ self.old) }
    {
        match (asked, self.unkept) {
            (Asked::Page, _) => {
                let page = Bytes::from_static(self.page);
                self.put(response, StatusCode::OK, Media::Html, page)
            }
            (Asked::Mask, _) => self.put_mask(response),
            (Asked::Image, _) => {
                let file = self.image_file()?;
                self.put(response, StatusCode::OK, Media::Graymap, file)
            }
            (Asked::State, _) => self.put_state(response),
            (Asked::Strokes, _) => self.put_strokes(response),
            (Asked::Changes(moment), _) => self.put_changes(moment.run, moment.step, response),
            (Asked::Edits(_) | Asked::Join, Some(why)) => {
                self.put_fault(response, StatusCode::SERVICE_UNAVAILABLE, &why)
            }
            (Asked::Edits(moment), _) => self.edit(moment, body, response),
            (Asked::Join, _) => self.join(body, response),
        }
    }

    // Fills a blank response with the file of the mask, and tells its name.
    fn put_mask(&mut self, response: &mut Response) -> Result<(), AllocError>
        requires { IsBlank response.old }
        ensures told { OnOk result (SaysMask self.old response.new) }
        ensures same { self.new ≡ self.old }
    {
        let file = self.mask_file()?;
        self.put(response, StatusCode::OK, Media::Graymap, file)?;
        self.name.add_to(response)
    }

    // Fills a blank response with the state file.
    fn put_state(&mut self, response: &mut Response) -> Result<(), AllocError>
        requires { IsBlank response.old }
        ensures told { OnOk result (Says self.old 200 media.Binary (state_text self.old.board) response.new) }
        ensures same { self.new ≡ self.old }
    {
        let Ok(file) = self.board.state_file(self.alloc) else {
            return Err(AllocError);
        };
        self.give(response, Media::Binary, Bytes::from_vec(file)?)
    }

    // Fills a blank response with the live strokes.
    fn put_strokes(&mut self, response: &mut Response) -> Result<(), AllocError>
        requires { IsBlank response.old }
        ensures told { OnOk result
            (Says self.old 200 media.Text (live_text self.old.board.core.state) response.new) }
        ensures same { self.new ≡ self.old }
    {
        let Ok(lines) = self.board.strokes(self.alloc) else {
            return Err(AllocError);
        };
        self.give(response, Media::Text, Bytes::from_vec(lines)?)
    }
}
