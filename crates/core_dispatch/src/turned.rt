//! What a turn did.

ghost use Rattle.std.specs.Prelude.{◌≡◌, ◌+◌, ◌<◌, ◌||◌};
ghost use Rattle.core_dispatch.specs.Reports.{results_in, is_wanting as report_is_wanting};
ghost use Rattle.core_dispatch.specs.Jobs.{pushed_in, is_wanting as job_is_wanting};

/// What a dispatcher did in one turn.
#[derive(Clone, Copy, Debug, PartialEq, Eq)]
pub struct Turned {
    /// How many edits were taken of pens: merged or listed.
    pub edits: u64,
    /// How many reports were taken of hands.
    pub results: u64,
    /// How many hints were handed over, or 2^64 - 1 where there were more.
    pub hints: u64,
    /// How many jobs were pushed.
    pub jobs: u64,
    /// Whether memory was wanting, for anything but a push.
    pub memory: bool,
}

/// What came of the reports that were taken in one turn.
#[derive(Clone, Copy)]
pub(crate) struct Results {
    /// How many there were.
    pub results: u64,
    /// Whether memory was wanting to give one to the core.
    pub memory: bool,
}

/// What became of a dirty tile that was not out.
#[derive(Clone, Copy)]
pub(crate) enum Pushing {
    /// Its job was pushed.
    Pushed,
    /// Its job was taken and abandoned: it found no place in the deque, or the tile waits for one that touches it.
    Refused,
    /// Memory was wanting to take its job.
    Wanting,
}

/// What came of the tiles of one turn.
#[derive(Clone, Copy)]
pub(crate) struct Jobs {
    /// How many jobs were pushed.
    pub jobs: u64,
    /// Whether memory was wanting to take one.
    pub memory: bool,
}

impl Results {
    // These, and what came of one hand more.
    pub(crate) fn and(self, answer: Option<bool>) -> Results
        requires { self.results < u64.MAX }
        ensures results { result.results ≡ self.results + results_in answer }
        ensures memory { result.memory ≡ (self.memory || report_is_wanting answer) }
    {
        match answer {
            Some(wanting) => Results {
                results: self.results + 1,
                memory: self.memory || wanting,
            },
            None => self,
        }
    }
}

impl Jobs {
    // These, and what came of one tile more.
    pub(crate) fn and(self, pushing: Pushing) -> Jobs
        requires { self.jobs < u64.MAX }
        ensures jobs { result.jobs ≡ self.jobs + pushed_in pushing }
        ensures memory { result.memory ≡ (self.memory || job_is_wanting pushing) }
    {
        match pushing {
            Pushing::Pushed => Jobs {
                jobs: self.jobs + 1,
                memory: self.memory,
            },
            Pushing::Refused => self,
            Pushing::Wanting => Jobs {
                jobs: self.jobs,
                memory: true,
            },
        }
    }
}
