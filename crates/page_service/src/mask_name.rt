//! How a page is told the name of its mask's file.

ghost use Rattle.std.specs.Prelude.{◌≡◌, ◌++◌, string_bytes, IfOk, OnOk};
ghost use Rattle.http_server.specs.Response.{fields_of};
ghost use Rattle.page_service.specs.MaskName.{naming, naming_at, name_fields};

use bytes::Bytes;
use http::{HeaderValue, header};
use http_server::Response;
use percent_encoding::{AsciiSet, NON_ALPHANUMERIC, ascii_set, utf8_percent_encode};
use std::alloc::{AllocError, Global};
use std::marker::Model;
use std::path::Path;

// A name of more bytes is not told. No file that Linux opens has one.
const MOST_BYTES: usize = 255;

// The bytes that do not stand for themselves in what is told.
const ESCAPED: AsciiSet = ascii_set!(
    NON_ALPHANUMERIC
        .remove(b'!')
        .remove(b'#')
        .remove(b'$')
        .remove(b'&')
        .remove(b'+')
        .remove(b'-')
        .remove(b'.')
        .remove(b'^')
        .remove(b'_')
        .remove(b'`')
        .remove(b'|')
        .remove(b'~')
);

/// How the file of a mask is called. It is seen as the value of the field that tells a page so, where there is one.
#[derive(Drop)]
pub struct MaskName {
    value: Option<HeaderValue>,
}

impl Model for MaskName {
    ghost use Rattle.std.specs.Prelude.{ℕ, List, Option, option_map};

    ghost Value = { Option (List ℕ) };

    ghost view = { λ m. option_map (λ v. v.bytes) m.value };
}

impl MaskName {
    /// The name of the file at this path. One of more than 255 bytes is not told.
    ///
    /// Errors: out of memory.
    pub fn new(alloc: Global, path: &str) -> Result<MaskName, AllocError>
        ensures { IfOk result (λ name. name ≡ naming_at path.now) }
    {
        match Path::new(path).file_name() {
            Some(name) if name.len() <= MOST_BYTES => Ok(MaskName {
                value: Some(value_of(alloc, name)?),
            }),
            _ => Ok(MaskName { value: None }),
        }
    }

    /// Adds the field that tells the name.
    ///
    /// Errors: out of memory.
    pub(crate) fn add_to(&self, response: &mut Response) -> Result<(), AllocError>
        ensures fields { OnOk result (fields_of response.new ≡ fields_of response.old ++ name_fields self.now) }
        ensures status { response.new.status ≡ response.old.status }
        ensures body { response.new.body ≡ response.old.body }
    {
        match &self.value {
            Some(value) => response.add_header(header::CONTENT_DISPOSITION, value.clone()?),
            None => Ok(()),
        }
    }
}

// The value of the field that tells a name.
fn value_of(alloc: Global, name: &str) -> Result<HeaderValue, AllocError>
    ensures { IfOk result (λ value. value.bytes ≡ naming name.now) }
{
    let text = Bytes::from_string(text_of(alloc, name)?)?;
    Ok(HeaderValue::from_known_valid(text))
}

// Its text.
fn text_of(alloc: Global, name: &str) -> Result<String, AllocError>
    ensures { IfOk result (λ text. string_bytes text ≡ naming name.now) }
{
    let mut text = String::from_str(alloc, "inline; filename*=UTF-8''")?;
    utf8_percent_encode(name, ESCAPED).append_to(&mut text)?;
    Ok(text)
}
