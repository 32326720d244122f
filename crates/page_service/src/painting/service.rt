//! The service.

ghost use Rattle.page_service.specs.Answering.{Answers};

use super::Painting;
use crate::answer_fields::put_refusal;
use crate::reading::read_request;
use bytes::Bytes;
use http::Request;
use http_server::{Response, Service};
use std::alloc::AllocError;

impl Service for Painting {
    ghost answers = { Answers };

    fn call(
        &mut self,
        request: &Request<Bytes>,
        response: &mut Response,
    ) -> Result<(), AllocError> {
        match read_request(request, &self.hosts, &self.key) {
            Ok(asked) => self.answer(asked, request.body().as_slice(), response),
            Err(refusal) => put_refusal(response, refusal),
        }
    }
}
