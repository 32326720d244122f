//! What seats know of pixels.

ghost use Rattle.std.specs.Prelude.{◌≡◌};
ghost use Rattle.live_board.specs.Seats.{IsAnswer, IsSeen};
ghost use Rattle.live_board.specs.Words.{fact_of};

use grid_core::Pixel;

/// How many values a word has for each generation.
pub(crate) const LEVELS: u64 = 65_536;

/// A pixel had at least this value in the generation.
#[derive(Clone, Copy, Debug, PartialEq, Eq)]
pub struct Fact {
    /// The pixel.
    pub pixel: Pixel,
    /// The generation, at most 2^48 - 1.
    pub generation: u64,
    /// The value.
    pub value: u16,
}

/// What a hand read.
#[derive(Clone, Copy, Debug, PartialEq, Eq)]
pub enum Seen {
    /// A value of the hand's generation.
    Value(Fact),
    /// The pixel has no value of the hand's generation yet.
    Older,
    /// A later generation has begun.
    Newer,
}

/// What a peek found.
#[derive(Clone, Copy, Debug, PartialEq, Eq)]
pub enum Peek {
    /// The pixel has this value, of the generation that was present right after it was loaded.
    Live(u16),
    /// The pixel's word and word 0 were of two generations.
    Moved,
}

// The fact for which a number stands in the word of the pixel.
fn fact_in(pixel: Pixel, word: u64) -> Fact
    ensures { result ≡ fact_of pixel word }
{
    Fact {
        pixel,
        generation: word / LEVELS,
        value: (word % LEVELS) as u16,
    }
}

impl Seen {
    /// What a number in the word of the pixel tells a hand of this generation.
    pub(crate) fn of(pixel: Pixel, word: u64, generation: u64) -> Seen
        ensures { IsSeen generation (fact_of pixel word) result }
    {
        let loaded = fact_in(pixel, word);
        if loaded.generation < generation {
            return Seen::Older;
        }
        if loaded.generation > generation {
            return Seen::Newer;
        }
        Seen::Value(loaded)
    }
}

impl Peek {
    /// What a number in the word of the pixel tells, where this generation was found after it.
    pub(crate) fn of(pixel: Pixel, word: u64, generation: u64) -> Peek
        ensures { IsAnswer generation (fact_of pixel word) result }
    {
        let loaded = fact_in(pixel, word);
        if loaded.generation == generation {
            Peek::Live(loaded.value)
        } else {
            Peek::Moved
        }
    }
}
