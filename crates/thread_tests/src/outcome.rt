//! How a test ends.

use std::test::Fail;

/// All is as it has to be, or what is not.
pub type OutcomeOf<T> = Result<T, &'static str>;

pub type Outcome = OutcomeOf<()>;

/// There is no memory for what a call is made on.
pub const NO_MEMORY: &str = "no memory to begin with";

/// A call that found no memory changed something.
pub const CHANGED: &str = "changed by a refusal";

/// Right where this is so, and else this is not.
pub fn right_if(is_so: bool, what: &'static str) -> Outcome {
    if is_so { Ok(()) } else { Err(what) }
}

/// Whether a call succeeded. What it answered is let go by one call.
pub fn succeeded<T: Drop, E: Drop>(answer: Result<T, E>) -> bool {
    let has_succeeded = answer.is_ok();
    drop(answer);
    has_succeeded
}

/// The end of a test.
pub fn told(outcome: Outcome) -> Result<(), Fail> {
    outcome.map_err(|what| Fail::new(what))
}
