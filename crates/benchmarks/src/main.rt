#![tactic(auto)]
//! Measures single edits, hands in threads, glimpses and live boards, and puts studios under stress.
//!
//! The input, on standard input, is one of Seedpaint: edit lines, a line `image` and a PGM file. SIDE is that of the
//! tiles, else 64. Times are in nanoseconds, and a sum is that of the image at the end.
//!
//! - `edit COUNT SIDE` merges all edits but the last COUNT and settles. Each of these is merged, and the core settles
//!   again. A line for each: `placed` or `withdrawn`; how many tiles were reset and swept; the processor time. With
//!   `edit COUNT SIDE THREADS` the core settles in bands, by at most so many threads, and the clock tells the time.
//! - `bands THREADS SIDE` merges all edits and lets the core settle in bands, by at most so many threads: the sum, how
//!   many jobs there were, and the time.
//! - `settle HANDS SIDE` merges all edits and lets so many hands settle, in threads of their own; with none the core
//!   settles by itself: the sum, how many jobs there were, and the time.
//! - `studio HANDS SIDE` does as `settle HANDS SIDE`, but where that takes less time the keeper settles in bands, by
//!   one thread more than there are hands, as that of a node does. With `studio HANDS SIDE COUNT` it begins as `edit`
//!   does: each of the last edits is submitted, taken in, and its work done so. A line for each, as of `edit`, with how
//!   many jobs there were and the time of the clock.
//! - `settle parts SIDE` works the same off in one thread, job by job: how many jobs there were, and the time to take
//!   them, to push them, to sweep and report them, to collect them and give them back, and to hand hints over; then the
//!   sum.
//! - `watch COUNT` begins as `edit` does. Each of the last edits is submitted while two hands run in threads. A line
//!   for each: the time until a glimpse has it; that of the show before it; and that of one more, after nothing.
//! - `board HANDS` brings the marker of all edits but the last two to a board, and then that after each: the times of
//!   the first, after a stroke and after a withdrawal (0 where there is none). Then it lets so many hands go round in
//!   threads until nothing rises: the time of it, and how many rounds there were. Then once more in the next generation
//!   with a peek beside them: the time of it, how many peeks, the processor times of these and of as many peeks after
//!   that, and the time of one more round; then the sum.
//! - `flood HANDS CONNECTIVITY` does the same by floods of strips, with 4 or 8 neighbours. In the place of the rounds
//!   is how many floods there were.
//! - `stress ROUNDS SEED` reads nothing. It plays rounds of pens, hands, eyes and a keeper in threads (`stress`).

mod boards;
mod drawn;
mod input;
mod outcome;
mod parts;
mod settling;
mod stress;
mod studios;
mod system;

use grid_core::Conn;
use input::{Input, read};
use outcome::{Fault, MEMORY, Outcome};
use pgm_codec::{Source, StdSource};
use std::env;
use studios::Task;
use system::System;

/// The side of the tiles where the call does not say it.
const SIDE: u32 = 64;

fn main(rt: HostRuntime) -> Outcome {
    let words: Vec<String> = env::args(&rt)?.collect(rt.alloc()).or(Err(MEMORY))?;
    measure(&rt, &mut StdSource::new(rt.stdin()), &words)
}

// No words of the list above.
const OTHER_WORDS: Fault = Fault(
    "the words are none of: edit, bands, settle, studio, watch, board, flood, stress and numbers",
);

// Measures what the words say.
fn measure(rt: &impl System, source: &mut impl Source, words: &[String]) -> Outcome {
    let word = words.get(1).map(|word| word.as_str()).unwrap_or("");
    match (word, number_at(words, 2), number_at(words, 3)) {
        ("stress", Some(rounds), Some(seed)) => stress::play_all(rt, rounds, seed),
        ("edit" | "bands" | "settle" | "studio" | "watch" | "board" | "flood", _, _) => {
            measure_on(rt, read(rt, source)?, word, words)
        }
        _ => Err(OTHER_WORDS),
    }
}

// Measures what the words say on an input.
fn measure_on(rt: &impl System, mut input: Input, word: &str, words: &[String]) -> Outcome {
    let third = number_at(words, 4);
    match (word, number_at(words, 2), number_at(words, 3)) {
        ("edit", Some(count), Some(side)) => settling::each(rt, input, side, count, third),
        ("bands", Some(threads), Some(side)) => settling::in_bands(rt, input, side, threads),
        ("settle", Some(0), Some(side)) => settling::once(rt, input, side),
        ("settle", Some(hands), Some(side)) => {
            studios::run(rt, input, hands, side, Task::Settle, None)
        }
        ("studio", Some(hands), Some(side)) => {
            let task = third.map_or(Task::Settle, Task::Edit);
            studios::run(rt, input, hands, side, task, Some(hands as usize + 1))
        }
        ("settle", None, Some(side)) => parts::measure(rt, input, side),
        ("watch", Some(count), None) => { studios::run(rt, input, 2, SIDE, Task::See(count), None) }
        ("board", Some(hands), None) => boards::measure(rt, input, hands, false),
        ("flood", Some(hands), Some(4)) => boards::measure(rt, input, hands, true),
        ("flood", Some(hands), Some(8)) => {
            input.conn = Conn::Eight;
            boards::measure(rt, input, hands, true)
        }
        _ => OTHER_WORDS.dropping(input),
    }
}

// The number at this place.
fn number_at(words: &[String], place: usize) -> Option<u32> {
    words.get(place)?.parse::<u32>().ok()
}
