//! The table of requests.

ghost use Rattle.std.specs.Prelude.{◌≡◌, IfSome, IfNone};
ghost use Rattle.page_service.specs.Table.{name_of};
ghost use Rattle.page_service.specs.declared.table.Resource.{Resource as ResourceSeen};

/// What a page has, by the run of the program that answered it and the step that it was told.
#[derive(Clone, Copy, Debug, PartialEq, Eq)]
pub struct Moment {
    /// The run: new with each start of the program.
    pub run: u64,
    /// The step within that run.
    pub step: u64,
}

/// What a request asks for, with what the page has where the answer depends on it.
#[derive(Clone, Copy, Debug, PartialEq, Eq)]
pub enum Asked {
    /// `GET /KEY/`: the page.
    Page,
    /// `GET /KEY/mask`: the mask, a raw PGM file.
    Mask,
    /// `GET /KEY/image`: the image as it is, a raw PGM file.
    Image,
    /// `GET /KEY/state`: the state file.
    State,
    /// `GET /KEY/strokes`: the live strokes, in the edit language.
    Strokes,
    /// `GET /KEY/changes?run=R&since=N`: what changed since.
    Changes(Moment),
    /// `POST /KEY/edits?run=R&since=N`: that the edit text in the body is taken.
    Edits(Moment),
    /// `POST /KEY/state`: that the state file in the body is joined.
    Join,
}

/// What stands at a path behind the key.
#[derive(Clone, Copy, Debug, PartialEq, Eq)]
pub enum Resource {
    /// Nothing behind the key.
    Page,
    /// `mask`.
    Mask,
    /// `image`.
    Image,
    /// `state`.
    State,
    /// `strokes`.
    Strokes,
    /// `changes`.
    Changes,
    /// `edits`.
    Edits,
}

impl Resource {
    /// The resource of this name, compared byte by byte.
    pub fn named(name: &[u8]) -> Option<Resource>
        ensures some { IfSome result (λ resource. name.now ≡ name_of resource) }
        ensures none { IfNone result ((resource : ResourceSeen) → name.now ≡ name_of resource → ⊥) }
    {
        match name {
            b"" => Some(Resource::Page),
            b"mask" => Some(Resource::Mask),
            b"image" => Some(Resource::Image),
            b"state" => Some(Resource::State),
            b"strokes" => Some(Resource::Strokes),
            b"changes" => Some(Resource::Changes),
            b"edits" => Some(Resource::Edits),
            _ => None,
        }
    }
}
