//! What is published.

ghost use Rattle.std.specs.Arc.{arc_value};

use crate::shots::prefix::Prefix;
use crate::shots::shot::Shot;
use left_right::Absorb;
use std::alloc::AllocError;
use std::sync::Arc;

/// A shot, with the history in which it is the last to be announced.
#[derive(Drop)]
pub struct Shown {
    pub(crate) shot: Arc<Shot>,
    pub(crate) prefix: Prefix,
}

/// How clauses see it. No value of it is made.
pub struct Published {
    pub(crate) shot: Shot,
    pub(crate) prefix: Prefix,
}

impl Absorb<Shown> for Shown {
    type State = Published;

    ghost state = { λ s. record { shot = arc_value s.shot; prefix = s.prefix } };

    ghost applied = { λ s x. record { shot = arc_value x.shot; prefix = x.prefix } };

    fn absorb_first(&mut self, operation: &Shown, _other: &Shown) -> Result<(), AllocError> {
        self.shot = Arc::try_clone(&operation.shot)?;
        self.prefix = operation.prefix.again();
        Ok(())
    }

    fn absorb_second(&mut self, operation: Shown, _other: &Shown) -> Result<(), Shown> {
        let Shown { shot, prefix } = operation;
        self.shot = shot;
        self.prefix = prefix;
        Ok(())
    }
}
