//! Why a request is refused.

ghost use Rattle.std.specs.Prelude.{◌≡◌};
ghost use Rattle.page_service.specs.AnswerFields.{status_of, words_of, allow_of};

use crate::table::Resource;
use http::StatusCode;

/// Why a request is refused: the first of these that holds. A request that is refused asks for nothing.
#[derive(Clone, Copy, Debug, PartialEq, Eq)]
pub enum RequestRefusal {
    /// There is no `Host` field, or more than one. 400 (RFC 9112, section 3.2).
    NotOneHost,
    /// The host is none of this server's, or the target is more than a path and a query. 421 (RFC 9110, section
    /// 15.5.20).
    NotToUs,
    /// It is a post, and its one `Origin` field does not say that a page of this server sent it. 403.
    NotFromUs,
    /// The path does not begin with the key. 404.
    NoKey,
    /// There is nothing behind the key at this path. 404.
    NoPath,
    /// What stands there takes other methods. 405, with an `Allow` field (RFC 9110, section 15.5.6).
    WrongMethod(Resource),
    /// There is a query where none is taken, or it is not `run=R&since=N` where that is taken, with decimal numbers
    /// below 2^64. 400.
    WrongQuery,
}

impl RequestRefusal {
    /// The status.
    pub fn status(self) -> StatusCode
        ensures { result ≡ status_of self }
    {
        match self {
            RequestRefusal::NotOneHost | RequestRefusal::WrongQuery => StatusCode::BAD_REQUEST,
            RequestRefusal::NotToUs => StatusCode::MISDIRECTED_REQUEST,
            RequestRefusal::NotFromUs => StatusCode::FORBIDDEN,
            RequestRefusal::NoKey | RequestRefusal::NoPath => StatusCode::NOT_FOUND,
            RequestRefusal::WrongMethod(_) => StatusCode::METHOD_NOT_ALLOWED,
        }
    }

    /// The reason in words. A wrong key is told as a wrong path is.
    pub fn words(self) -> &'static str
        ensures { result.now ≡ words_of self }
    {
        match self {
            RequestRefusal::NotOneHost => "not one host",
            RequestRefusal::NotToUs => "not to this server",
            RequestRefusal::NotFromUs => "not from a page of this server",
            RequestRefusal::NoKey | RequestRefusal::NoPath => "no such path",
            RequestRefusal::WrongMethod(_) => "no such method here",
            RequestRefusal::WrongQuery => "no such query here",
        }
    }
}

/// The value of `Allow`: the methods that a resource takes.
pub(crate) fn allow(resource: Resource) -> &'static str
    ensures { result.now ≡ allow_of resource }
{
    match resource {
        Resource::Edits => "POST",
        Resource::State => "GET, POST",
        _ => "GET",
    }
}
