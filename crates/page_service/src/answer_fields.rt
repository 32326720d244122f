//! What every answer carries.

ghost use Rattle.std.specs.Prelude.{◌≡◌, ◌++◌, [], IsTrue, OnOk, OnErr};
ghost use Rattle.http_header.specs.FieldValue.{is_visible_text};
ghost use Rattle.http_server.specs.Response.{IsBlank, IsResponse, fields_of};
ghost use Rattle.page_service.specs.AnswerFields.{media_text, coding_fields, answer_fields};
ghost use Rattle.page_service.specs.AnswerFields.{refusal_fields, status_of, words_of};

use crate::refusal::{RequestRefusal, allow};
use bytes::Bytes;
use http::{HeaderName, HeaderValue, StatusCode, header};
use http_server::Response;
use std::alloc::AllocError;

/// What a body is.
#[derive(Clone, Copy, Debug, PartialEq, Eq)]
pub enum Media {
    /// A page, compressed as a gzip file (RFC 1952).
    Html,
    /// Lines of text.
    Text,
    /// A PGM file.
    Graymap,
    /// Bytes of a format of our own.
    Binary,
}

/// The content security policy of a refusal, whose body is text: nothing may be loaded or run.
const NO_CONTENT: &str = "default-src 'none'; frame-ancestors 'none'";

fn media_value(media: Media) -> HeaderValue
    ensures { result.bytes ≡ media_text media }
{
    match media {
        Media::Html => HeaderValue::from_static("text/html; charset=utf-8"),
        Media::Text => HeaderValue::from_static("text/plain; charset=utf-8"),
        Media::Graymap => HeaderValue::from_static("image/x-portable-graymap"),
        Media::Binary => HeaderValue::from_static("application/octet-stream"),
    }
}

/// Adds how a body is coded, where it is.
fn add_coding(response: &mut Response, media: Media) -> Result<(), AllocError>
    ensures fields { OnOk result (fields_of response.new ≡ fields_of response.old ++ coding_fields media) }
    ensures status { response.new.status ≡ response.old.status }
    ensures body { response.new.body ≡ response.old.body }
{
    match media {
        Media::Html => response.add_header(
            header::CONTENT_ENCODING,
            HeaderValue::from_static("gzip"),
        ),
        Media::Text | Media::Graymap | Media::Binary => Ok(()),
    }
}

/// Adds the fields that every answer has, and how its body is coded.
fn add_fields(response: &mut Response, media: Media, policy: &'static str) -> Result<(), AllocError>
    requires blank { fields_of response.old ≡ [] }
    requires visible { IsTrue (is_visible_text policy.now) }
    ensures fields { OnOk result (fields_of response.new ≡ answer_fields media policy.now) }
    ensures status { response.new.status ≡ response.old.status }
    ensures body { response.new.body ≡ response.old.body }
{
    response.add_header(header::CONTENT_TYPE, media_value(media))?;
    response.add_header(header::CACHE_CONTROL, HeaderValue::from_static("no-store"))?;
    response.add_header(
        header::X_CONTENT_TYPE_OPTIONS,
        HeaderValue::from_static("nosniff"),
    )?;
    response.add_header(header::X_FRAME_OPTIONS, HeaderValue::from_static("DENY"))?;
    response.add_header(
        HeaderName::from_static("cross-origin-resource-policy"),
        HeaderValue::from_static("same-origin"),
    )?;
    response.add_header(
        header::REFERRER_POLICY,
        HeaderValue::from_static("no-referrer"),
    )?;
    response.add_header(
        header::CONTENT_SECURITY_POLICY,
        HeaderValue::from_static(policy),
    )?;
    add_coding(response, media)
}

/// Adds the fields and the body of an answer.
fn fill(
    response: &mut Response,
    media: Media,
    policy: &'static str,
    body: Bytes,
) -> Result<(), AllocError>
    requires blank { IsBlank response.old }
    requires visible { IsTrue (is_visible_text policy.now) }
    ensures filled { OnOk result (IsResponse 200 (answer_fields media policy.now) body response.new) }
{
    add_fields(response, media, policy)?;
    response.body.push(body)
}

/// Fills a blank response with the status, the fields that every answer has, the content security policy among
/// them, how the body is coded, and the body.
///
/// Errors: out of memory. The response is blank again.
pub fn put_answer(
    response: &mut Response,
    status: StatusCode,
    media: Media,
    policy: &'static str,
    body: Bytes,
) -> Result<(), AllocError>
    requires blank { IsBlank response.old }
    requires visible { IsTrue (is_visible_text policy.now) }
    ensures filled { OnOk result (IsResponse status (answer_fields media policy.now) body response.new) }
    ensures blank { OnErr result (IsBlank response.new) }
{
    let filled = fill(response, media, policy, body);
    match filled {
        Ok(()) => response.status = status,
        Err(_) => response.clear(),
    }
    filled
}

/// Fills a blank response with the status of the refusal, the fields that every answer has, its words, and the
/// methods that are taken, where the method was the reason.
///
/// Errors: out of memory. The response is blank again.
pub fn put_refusal(response: &mut Response, refusal: RequestRefusal) -> Result<(), AllocError>
    requires { IsBlank response.old }
    ensures filled { OnOk result
        (IsResponse (status_of refusal) (refusal_fields refusal) (words_of refusal) response.new) }
    ensures blank { OnErr result (IsBlank response.new) }
{
    let words = Bytes::from_static(refusal.words().as_bytes());
    put_answer(response, refusal.status(), Media::Text, NO_CONTENT, words)?;
    let RequestRefusal::WrongMethod(resource) = refusal else {
        return Ok(());
    };
    let added = response.add_header(header::ALLOW, HeaderValue::from_static(allow(resource)));
    if added.is_err() {
        response.clear();
    }
    added
}
