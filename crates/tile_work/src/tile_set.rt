//! Sets of tiles, as words of bits.

ghost use Rattle.std.specs.Prelude.{◌≡◌, ℕ, ◌+◌, ◌-◌, ◌*◌, ◌/◌, ◌%◌, ◌^◌, ◌<◌, ◌≤◌, ◌==◌, length, replicate, true};
ghost use Rattle.std.specs.Prelude.{false, IfOk, IfSome, MatchOption, slice_index_or, slice_set};
ghost use Rattle.std.specs.Int.{bit_at};
ghost use Rattle.tile_work.specs.{Counts.count_from, Least.IsLeastFrom};
ghost use Rattle.tile_work.specs.TileSet.{AreZeroFrom, Has, HasNoneFrom, HasGained, IsFirstFrom, bit_of, IsLowestFrom};
ghost use Rattle.tile_work.specs.TileSet.{AreUnited, IsInFirstOfWord, IsWordOf, IsWritten, is_without};

use grid_core::Memory;
use std::alloc::Global;
use std::marker::Model;

/// A set of the tiles of an image, as words of bits.
#[derive(Debug, Drop)]
pub struct TileSet {
    count: usize,
    // Bit t % 64 of word t / 64 says whether tile t is in the set.
    words: Vec<u64>,
    // Bit w % 64 of word w / 64 says whether `words[w]` is not 0.
    summary: Vec<u64>,
}

impl Model for TileSet {
    ghost use Rattle.std.specs.Prelude.{Bool, List};
    ghost use Rattle.tile_work.specs.TileSet.{tiles_of, IsSummed};

    ghost Value = { List Bool };

    ghost view = { λ s. tiles_of s.count s.words.items };

    ghost invariant = { λ s. IsSummed s.count s.words.items s.summary.items };
}

impl TileSet {
    /// The empty set, over so many tiles.
    ///
    /// Errors: out of memory.
    pub fn empty(alloc: Global, count: usize) -> Result<TileSet, Memory>
        ensures { IfOk result (λ set. set ≡ replicate count false) }
    {
        let words = vec![in alloc; 0; count / 64 + 1]?;
        let summary = vec![in alloc; 0; words.len() / 64 + 1]?;
        Ok(TileSet {
            count,
            words,
            summary,
        })
    }

    /// How many tiles there are, in the set or not.
    pub fn len(&self) -> usize
        ensures { result ≡ length self.now }
    {
        self.count
    }

    /// Whether the tile is in the set.
    pub fn contains(&self, tile: usize) -> bool
        requires { tile < length self.now }
        ensures { result ≡ slice_index_or self.now tile false }
    {
        self.words[tile / 64] >> (tile % 64) & 1 == 1
    }

    /// Puts the tile into the set. It takes no memory.
    pub fn insert(&mut self, tile: usize)
        requires { tile < length self.old }
        ensures { self.new ≡ slice_set self.old tile true }
    {
        set_place(&mut self.words, tile);
        set_place(&mut self.summary, tile / 64);
    }

    /// Puts each tile of the other set into this one, 64 tiles a step. Both sets are over as many tiles. It takes no
    /// memory.
    pub fn insert_all(&mut self, other: &TileSet)
        requires { length other.now ≡ length self.old }
        ensures { HasGained self.old (Has other.now) self.new }
    {
        unite(&mut self.words, &other.words);
        unite(&mut self.summary, &other.summary);
    }

    /// Puts each tile of the other set into this one, `first` further on. It costs about the tiles that are in the
    /// other set, and takes no memory.
    pub fn insert_from(&mut self, first: usize, other: &TileSet)
        requires { first + length other.now ≤ length self.old }
        ensures { HasGained self.old (λ t. (u : ℕ) × (t ≡ first + u) × Has other.now u) self.new }
    {
        // For its clause alone: there are no more tiles than a `usize` counts.
        let _ = self.len();
        let mut next = 0;
        while let Some(tile) = other.first_from(next) {
            self.insert(first + tile);
            next = tile + 1;
        }
    }

    /// Takes the tile out of the set.
    pub fn remove(&mut self, tile: usize)
        requires { tile < length self.old }
        ensures { self.new ≡ slice_set self.old tile false }
    {
        clear_place(&mut self.words, tile);
        if self.words[tile / 64] == 0 {
            clear_place(&mut self.summary, tile / 64);
        }
    }

    /// The first tile of the set from `start` on, if there is one.
    pub fn first_from(&self, start: usize) -> Option<usize>
        ensures { MatchOption result (HasNoneFrom self.now start) (IsFirstFrom self.now start) }
    {
        if start >= self.count {
            return None;
        }
        let word = start / 64;
        if let Some(bit) = lowest_bit(self.words[word], start % 64) {
            return Some(word * 64 + bit);
        }
        let next = lowest_place(&self.summary, word + 1)?;
        Some(next * 64 + self.words[next].trailing_zeros() as usize)
    }

    /// The first tile from `start` on that is in this set and not in the other one, if there is one. Both sets are over
    /// as many tiles. To pass over tiles that are in both it costs one step for 64 of them.
    pub fn first_without(&self, other: &TileSet, start: usize) -> Option<usize>
        requires { length other.now ≡ length self.now }
        ensures { IsLeastFrom (λ t. Has self.now t × (Has other.now t → ⊥)) start result }
    {
        self.first_without_both(other, other, start)
    }

    /// The first tile from `start` on that is in this set and in neither of the other two, if there is one. All three
    /// are over as many tiles. To pass over tiles of this set that are in another one it costs one step for 64 of them.
    pub fn first_without_both(
        &self,
        other: &TileSet,
        third: &TileSet,
        start: usize,
    ) -> Option<usize>
        requires other { length other.now ≡ length self.now }
        requires third { length third.now ≡ length self.now }
        ensures { IsLeastFrom (λ t. Has self.now t × (Has other.now t → ⊥) × (Has third.now t → ⊥)) start result }
    {
        // For its clause alone: the number of tiles is a usize.
        let _ = self.len();
        let mut from = start;
        while let Some(tile) = self.first_from(from) {
            if let Some(left) = self.first_of_word(other, third, tile) {
                return Some(left);
            }
            from = (tile / 64 * 64).saturating_add(64);
        }
        None
    }

    /// How many tiles, from `start` on and before `end`, are in this set and not in the other one. Both sets are over
    /// as many tiles. It costs one step for 64 tiles.
    pub fn count_without(&self, other: &TileSet, start: usize, end: usize) -> usize
        requires count { length other.now ≡ length self.now }
        requires within { end ≤ length self.now }
        ensures { result ≡ count_from (is_without self.now other.now) start (end - start) }
    {
        let mut total = 0;
        let mut from = start;
        while from < end {
            let tiles = (64 - from % 64).min(end - from);
            total += self.count_of_word(other, from, tiles);
            from += tiles;
        }
        total
    }

    // The first tile from `start` on, of those of one word, that is in this set and in neither of the other two.
    fn first_of_word(&self, other: &TileSet, third: &TileSet, start: usize) -> Option<usize>
        requires within { start < length self.now }
        requires other { length other.now ≡ length self.now }
        requires third { length third.now ≡ length self.now }
        ensures { IsLeastFrom (IsInFirstOfWord self.now other.now third.now start) start result }
    {
        let left = self.word_without(other, start) & self.word_without(third, start);
        let bit = lowest_bit(left, start % 64)?;
        Some(start / 64 * 64 + bit)
    }

    // How many of so many tiles from `start` on, all of one word, are in this set and not in the other one.
    fn count_of_word(&self, other: &TileSet, start: usize, tiles: usize) -> usize
        requires some { 0 < tiles }
        requires within { start + tiles ≤ length self.now }
        requires word { start % 64 + tiles ≤ 64 }
        requires count { length other.now ≡ length self.now }
        ensures { result ≡ count_from (is_without self.now other.now) start tiles }
    {
        count_low(self.word_without(other, start) >> (start % 64), tiles)
    }

    // Which of the tiles whose word is this tile's are in this set and not in the other one, as bits.
    fn word_without(&self, other: &TileSet, tile: usize) -> u64
        requires within { tile < length self.now }
        requires count { length other.now ≡ length self.now }
        ensures { IsWordOf (is_without self.now other.now) tile result }
    {
        let word = tile / 64;
        self.words[word] & !other.words[word]
    }

    /// Takes all tiles out of the set. It costs about the tiles that are in it.
    pub fn clear(&mut self)
        ensures { self.new ≡ replicate (length self.old) false }
    {
        clear_words(&mut self.words, &self.summary);
        self.summary.fill(0);
    }
}

// Sets the bit at the place.
fn set_place(words: &mut [u64], place: usize)
    requires { place < 64 * length words.old }
    ensures { IsWritten words.old words.new place 1 }
{
    words[place / 64] |= 1 << (place % 64);
}

// Sets each bit that is set in the others.
fn unite(words: &mut [u64], others: &[u64])
    requires { length others.now ≡ length words.old }
    ensures { AreUnited words.old others.now words.new }
{
    for i in 0..words.len() {
        words[i] |= others[i];
    }
}

// Clears the bit at the place.
fn clear_place(words: &mut [u64], place: usize)
    requires { place < 64 * length words.old }
    ensures { IsWritten words.old words.new place 0 }
{
    words[place / 64] &= !(1 << (place % 64));
}

// The lowest bit that is set in the word, of those from `from` on.
fn lowest_bit(word: u64, from: usize) -> Option<usize>
    requires { from < 64 }
    ensures set { MatchOption result (AreZeroFrom (bit_at word) from) (IsLowestFrom (bit_at word) from) }
    ensures within { IfSome result (λ bit. bit < 64) }
{
    let rest = word >> from;
    if rest == 0 {
        None
    } else {
        Some(from + rest.trailing_zeros() as usize)
    }
}

// How many of so many of the lowest bits of the word are set.
fn count_low(word: u64, bits: usize) -> usize
    requires some { 0 < bits }
    requires most { bits ≤ 64 }
    ensures { result ≡ count_from (λ bit. bit_at word bit == 1) 0 bits }
{
    (word << (64 - bits)).count_ones() as usize
}

// The lowest place whose bit is set, of those from `start` on.
fn lowest_place(words: &[u64], start: usize) -> Option<usize>
    requires { 64 * length words.now < 2 ^ 64 }
    ensures { MatchOption result (AreZeroFrom (bit_of words.now) start) (IsLowestFrom (bit_of words.now) start) }
{
    let word = start / 64;
    if word >= words.len() {
        return None;
    }
    if let Some(bit) = lowest_bit(words[word], start % 64) {
        return Some(word * 64 + bit);
    }
    for next in word + 1..words.len() {
        if words[next] != 0 {
            return Some(next * 64 + words[next].trailing_zeros() as usize);
        }
    }
    None
}

// Makes each word 0. The words that are not 0 have their bits set in the summary.
fn clear_words(words: &mut [u64], summary: &[u64])
    requires count { 64 * length summary.now < 2 ^ 64 }
    requires within { (word : ℕ) → bit_of summary.now word ≡ 1 → word < length words.old }
    requires summed { (place : ℕ) → bit_of words.old place ≡ 1 → bit_of summary.now (place / 64) ≡ 1 }
    ensures { (place : ℕ) → bit_of words.new place ≡ 0 }
{
    let mut from = 0;
    while let Some(word) = lowest_place(summary, from) {
        words[word] = 0;
        from = word + 1;
    }
}
