//! What a request asks for.

ghost use Rattle.std.specs.Prelude.{◌≡◌, ◌≢◌, codes, Some, None, IfOk, IfErr, option_copied};
ghost use Rattle.page_service.specs.Sender.{MayAsk};
ghost use Rattle.page_service.specs.Table.{AsksFor, Asks, HasQuery};
ghost use Rattle.page_service.specs.Refusing.{IsRefused, IsNotTaken};
ghost use Rattle.page_service.specs.declared.table.Moment.{Moment as Since};
ghost use Rattle.page_service.specs.declared.refusal.RequestRefusal.TheVariants as reasons;

use crate::hosts::Hosts;
use crate::key::Key;
use crate::query::read_moment;
use crate::refusal::RequestRefusal;
use crate::sender::check_sender;
use crate::table::{Asked, Moment, Resource};
use bytes::Bytes;
use http::Request;

/// What is asked where no query is taken.
fn without_query(query: Option<&str>, asked: Asked) -> Result<Asked, RequestRefusal>
    ensures ok { IfOk result (λ a. (a ≡ asked) × (option_copied query.entry ≡ None)) }
    ensures err { IfErr result (λ why. (why ≡ reasons.WrongQuery) × (option_copied query.entry ≢ None)) }
{
    match query {
        None => Ok(asked),
        Some(_) => Err(RequestRefusal::WrongQuery),
    }
}

/// The moment that the query has to spell.
fn moment_in(query: Option<&str>) -> Result<Moment, RequestRefusal>
    ensures ok { IfOk result (λ moment. HasQuery (option_copied query.entry) (Some moment)) }
    ensures err { IfErr result (λ why. (why ≡ reasons.WrongQuery)
        × ((moment : Since) → HasQuery (option_copied query.entry) (Some moment) → ⊥)) }
{
    let Some(text) = query else {
        return Err(RequestRefusal::WrongQuery);
    };
    match read_moment(text) {
        Some(moment) => Ok(moment),
        None => Err(RequestRefusal::WrongQuery),
    }
}

/// What `GET` asks for.
fn read_at(resource: Resource, query: Option<&str>) -> Result<Asked, RequestRefusal>
    ensures ok { IfOk result (Asks resource (codes "GET") (option_copied query.entry)) }
    ensures err { IfErr result (IsNotTaken resource (codes "GET") (option_copied query.entry)) }
{
    match resource {
        Resource::Page => without_query(query, Asked::Page),
        Resource::Mask => without_query(query, Asked::Mask),
        Resource::Image => without_query(query, Asked::Image),
        Resource::State => without_query(query, Asked::State),
        Resource::Strokes => without_query(query, Asked::Strokes),
        Resource::Changes => Ok(Asked::Changes(moment_in(query)?)),
        Resource::Edits => Err(RequestRefusal::WrongMethod(resource)),
    }
}

/// What `POST` asks for.
fn written_at(resource: Resource, query: Option<&str>) -> Result<Asked, RequestRefusal>
    ensures ok { IfOk result (Asks resource (codes "POST") (option_copied query.entry)) }
    ensures err { IfErr result (IsNotTaken resource (codes "POST") (option_copied query.entry)) }
{
    match resource {
        Resource::Edits => Ok(Asked::Edits(moment_in(query)?)),
        Resource::State => without_query(query, Asked::Join),
        _ => Err(RequestRefusal::WrongMethod(resource)),
    }
}

/// What is asked of a resource, by the method and the query.
fn asked_at(resource: Resource, method: &str, query: Option<&str>) -> Result<Asked, RequestRefusal>
    ensures ok { IfOk result (Asks resource method.now (option_copied query.entry)) }
    ensures err { IfErr result (IsNotTaken resource method.now (option_copied query.entry)) }
{
    match method {
        "GET" => read_at(resource, query),
        "POST" => written_at(resource, query),
        _ => Err(RequestRefusal::WrongMethod(resource)),
    }
}

/// What a request asks for, or the first reason for which it is refused, in the order of [`RequestRefusal`].
///
/// Paths are compared byte by byte: nothing is decoded, folded or left out. The body is not looked at.
pub fn read_request(
    request: &Request<Bytes>,
    hosts: &Hosts,
    key: &Key,
) -> Result<Asked, RequestRefusal>
    ensures sender { IfOk result (λ asked. MayAsk hosts.now request.now) }
    ensures asked { IfOk result (AsksFor key.now request.now) }
    ensures refused { IfErr result (IsRefused hosts.now key.now request.now) }
{
    check_sender(request, hosts)?;
    let uri = request.uri();
    let Some(name) = key.rest_of(uri.path().as_bytes()) else {
        return Err(RequestRefusal::NoKey);
    };
    let Some(resource) = Resource::named(name) else {
        return Err(RequestRefusal::NoPath);
    };
    asked_at(resource, request.method().as_str(), uri.query())
}
