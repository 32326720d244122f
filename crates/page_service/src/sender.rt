//! Who may ask.

ghost use Rattle.std.specs.Prelude.{◌≡◌, ◌↔◌, [], ◌∷◌, IsTrue, IfSome, IfNone, IfErr, OnOk};
ghost use Rattle.http_header.specs.FieldValue.{FieldValue};
ghost use Rattle.http_header.specs.HeaderMap.{get_all};
ghost use Rattle.page_service.specs.Sender.{IsFromUs, MayAsk};
ghost use Rattle.page_service.specs.Refusing.{IsTurnedAway};

use crate::hosts::Hosts;
use crate::refusal::RequestRefusal;
use bytes::Bytes;
use http::{HeaderMap, HeaderName, HeaderValue, Request, header};

/// The value of the only field of this name, or `None` where there is none or more than one.
fn only_value<'a>(headers: &'a HeaderMap<HeaderValue>, name: HeaderName) -> Option<&'a HeaderValue>
    ensures some { IfSome result (λ value. get_all headers.now name ≡ value.now ∷ []) }
    ensures none { IfNone result ((value : FieldValue) → get_all headers.now name ≡ value ∷ [] → ⊥) }
{
    let mut values = headers.get_all(name).iter();
    let first = values.next()?;
    match values.next() {
        Some(_) => None,
        None => Some(first),
    }
}

/// Whether a page of this server sent the request.
fn is_from_us(request: &Request<Bytes>, hosts: &Hosts) -> bool
    ensures { IsTrue result ↔ IsFromUs hosts.now request.now }
{
    match only_value(request.headers(), header::ORIGIN) {
        Some(origin) => hosts.is_origin(origin.as_bytes()),
        None => false,
    }
}

/// Lets a request through that is to this server, and a post if a page of it sent it.
pub(crate) fn check_sender(request: &Request<Bytes>, hosts: &Hosts) -> Result<(), RequestRefusal>
    ensures ok { OnOk result (MayAsk hosts.now request.now) }
    ensures err { IfErr result (IsTurnedAway hosts.now request.now) }
{
    let Some(host) = only_value(request.headers(), header::HOST) else {
        return Err(RequestRefusal::NotOneHost);
    };
    if request.uri().authority().is_some() || !hosts.is_host(host.as_bytes()) {
        return Err(RequestRefusal::NotToUs);
    }
    if request.method().as_str() == "POST" && !is_from_us(request, hosts) {
        return Err(RequestRefusal::NotFromUs);
    }
    Ok(())
}
