//! Who looks, and what is seen.

ghost use Rattle.std.specs.Prelude.{◌≡◌, ◌∷◌, []};
ghost use Rattle.std.specs.Coded.{Coded-set, coded_list};
ghost use Rattle.left_right.specs.Sides.{view};
ghost use Rattle.studio.specs.contracts.shots.shot.Shot as shot_row;
ghost use Rattle.studio.specs.Chains.{Holds};
ghost use Rattle.studio.specs.History.{whole};
ghost use Rattle.studio.specs.Publishing.{books};

use crate::shots::prefix::Prefix;
use crate::shots::rule::{ChainView, Look, Shots};
use crate::shots::shot::Shot;
use crate::shots::shown::Shown;
use crate::shots::told::Told;
use grid_core::{Conn, Grid, Pixel};
use left_right::reader::{Reader, Reading};
use stroke_lattice::State;
use thiserror::Error;

/// Each place for an eye was found in use.
#[derive(Clone, Copy, Debug, PartialEq, Eq, Error)]
#[error("no place for another eye")]
pub struct NoPlace;

/// Who looks. It may stand in a thread of its own, and may outlive its studio. It knows the chain that it saw last, and
/// the longest that it was told of.
#[derive(Drop)]
pub struct Eye {
    pub(crate) reader: Reader<Shown, ChainView, Shots>,
    pub(crate) seen: Prefix,
    pub(crate) learnt: Prefix,
    ghost book: { books (view reader.place) ≡ learnt.reached.book ∷ [] },
    ghost sees: { Holds (view reader.place).seen
        (whole seen.reached.log) } by { Coded-set (coded_list shot_row.the_row.coded) _ _ },
}

/// What a look found: the last shot of a chain. A show may wait for it. End it by [`Glimpse::leave`].
pub struct Glimpse {
    pub(crate) reading: Reading<Shown, ChainView, Shots>,
    pub(crate) learnt: Prefix,
    ghost book: { books (view reading.place) ≡ learnt.reached.book ∷ [] },
    ghost sees: { (view reading.place).seen
        ≡ whole reading.part.value.prefix.reached.log } by { Coded-set (coded_list shot_row.the_row.coded) _ _ },
}

impl Eye {
    ghost use Rattle.std.specs.Prelude.{◌≡◌, ◌⊎◌, Some, All, IfOk, MatchResult};
    ghost use Rattle.studio.specs.Shots.{IsSound};
    ghost use Rattle.studio.specs.Chains.{last_of, Begins, IsChain, LeadsTo};
    ghost use Rattle.studio.specs.Words.{told_by, seen_by, learnt_by, glimpsed_by, shot_by, remembered_by};
    ghost use Rattle.studio.specs.Words.{told_studio, eye_studio, glimpse_studio};

    /// Looks at the shot that was shown last. It takes no memory, and waits for nobody.
    ///
    /// Errors: the eye as it was, where the studio is closed; also where what is published lacks more than one entry of
    /// what the eye was told, which nothing brings about. No clause of a look says when they come.
    pub fn look(self) -> Result<Glimpse, Eye>
        ensures chain { IfOk result (λ g. IsChain (glimpsed_by g)) }
        ensures last { IfOk result (λ g. last_of (glimpsed_by g) ≡ Some (shot_by g)) }
        ensures sound { IfOk result (λ g. IsSound (shot_by g)) }
        ensures above { IfOk result (λ g. All (λ s. LeadsTo s (shot_by g)) (glimpsed_by g)) }
        ensures seen { MatchResult result (λ g. Begins (glimpsed_by g) (seen_by self)) (λ e. seen_by e ≡ seen_by self) }
        ensures learnt { MatchResult result (λ g. Begins (glimpsed_by g) (learnt_by self))
            (λ e. learnt_by e ≡ learnt_by self) }
        ensures remembered { IfOk result (λ g. remembered_by g ≡ learnt_by self) }
        ensures studio { MatchResult result (λ g. glimpse_studio g ≡ eye_studio self)
            (λ e. eye_studio e ≡ eye_studio self) }
    {
        let Eye {
            reader,
            seen,
            learnt,
        } = self;
        match reader.enter_as::<Look>() {
            Ok(reading) => {
                // It never is: a receipt is given behind its shot, and so is what a new eye knows. But no rule ties
                // what was told to what is published.
                if reading.get().prefix.is_behind(&learnt) {
                    return Err(Eye {
                        reader: reading.leave(),
                        seen,
                        learnt,
                    });
                }
                Ok(Glimpse { reading, learnt })
            }
            Err(reader) => Err(Eye {
                reader,
                seen,
                learnt,
            }),
        }
    }

    /// Learns of a show of its studio: from now on each glimpse is the last of a chain that begins with what was told.
    /// It takes no memory, and waits for nobody.
    #[tactic(auto, using(crate::proofs::Telling::confirmed_grows))]
    pub fn learn(&mut self, told: Told)
        requires studio { told_studio told ≡ eye_studio self.old }
        ensures told { Begins (learnt_by self.new) (told_by told) }
        ensures kept { Begins (learnt_by self.new) (learnt_by self.old) }
        ensures one { (learnt_by self.new ≡ learnt_by self.old) ⊎ (learnt_by self.new ≡ told_by told) }
        ensures seen { seen_by self.new ≡ seen_by self.old }
        ensures studio { eye_studio self.new ≡ eye_studio self.old }
    {
        self.learnt = self.learnt.longer(&told.prefix);
    }
}

impl Glimpse {
    ghost use Rattle.std.specs.Prelude.{◌≡◌};
    ghost use Rattle.grid_core.specs.Raster.{IsInside, value_at};
    ghost use Rattle.studio.specs.Words.{seen_by, learnt_by, glimpsed_by, shot_by, remembered_by};
    ghost use Rattle.studio.specs.Words.{eye_studio, glimpse_studio};

    /// The shot.
    pub fn shot(&self) -> &Shot
        ensures { result.now ≡ shot_by self.now }
    {
        &*self.reading.get().shot
    }

    /// The mask.
    pub fn mask(&self) -> &Grid
        ensures { result.now ≡ (shot_by self.now).mask }
    {
        &**self.shot().mask()
    }

    /// Which pixels are neighbours.
    pub fn conn(&self) -> Conn
        ensures { result ≡ (shot_by self.now).conn }
    {
        self.shot().conn()
    }

    /// The strokes and tombstones.
    pub fn state(&self) -> &State
        ensures { result.now ≡ (shot_by self.now).state }
    {
        &**self.shot().state()
    }

    /// The image at a pixel.
    pub fn pixel(&self, p: Pixel) -> u16
        requires { IsInside (shot_by self.now).mask.width (shot_by self.now).mask.height p }
        ensures { result ≡ value_at (shot_by self.now).image p }
    {
        self.shot().pixel(p)
    }

    /// Whether the shot is marked as quiet. If so its image is the reconstruction of the mask from the marker of its
    /// strokes, as [`Eye::look`] says in `sound`.
    pub fn quiet(&self) -> bool
        ensures { result ≡ (shot_by self.now).quiet }
    {
        self.shot().is_quiet()
    }

    /// Lets the shot go. The eye has then seen the chain. It waits for nobody.
    pub fn leave(self) -> Eye
        ensures seen { seen_by result ≡ glimpsed_by self }
        ensures learnt { learnt_by result ≡ remembered_by self }
        ensures studio { eye_studio result ≡ glimpse_studio self }
    {
        let Glimpse { reading, learnt } = self;
        let seen = reading.get().prefix.again();
        Eye {
            reader: reading.leave(),
            seen,
            learnt,
        }
    }
}
