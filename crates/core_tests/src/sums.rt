//! What is there, in one number. Numbers are mixed in as FNV-1a does with bytes (Fowler, Noll and Vo). That takes no
//! memory.

use reset_core::Core;
use stroke_core::Tag;
use stroke_lattice::State;

/// The sum of nothing.
pub const START: u64 = 0xcbf2_9ce4_8422_2325;

/// The sum with one more number.
pub fn with(sum: u64, number: u64) -> u64 {
    (sum ^ number).wrapping_mul(0x0100_0000_01b3)
}

// A tag as a number, where it is small.
fn number_of(tag: Tag) -> u64 {
    u64::try_from(tag.0).unwrap_or(u64::MAX)
}

/// The sum with more cells.
pub fn with_cells(sum: u64, cells: &[u16]) -> u64 {
    let mut sum = sum;
    for cell in cells {
        sum = with(sum, u64::from(*cell));
    }
    sum
}

/// The sum with the strokes and tombstones of a state.
pub fn with_state(sum: u64, state: &State) -> u64 {
    let mut sum = sum;
    for (tag, stroke) in state.strokes() {
        sum = with(with(sum, number_of(*tag)), u64::from(stroke.level()));
    }
    for tag in state.tombstones() {
        sum = with(with(sum, number_of(*tag)), 0);
    }
    sum
}

/// The sum with the strokes, the marker and the image of a core, and what is to be done at each tile.
pub fn with_core(sum: u64, core: &Core) -> u64 {
    let mut sum = with_state(sum, core.state());
    sum = with_cells(sum, core.marker().marker().cells());
    sum = with_cells(sum, core.image().cells());
    for tile in 0..core.tiles() {
        sum = with(sum, core.generation(tile));
        sum = with(sum, u64::from(core.is_dirty(tile)));
        sum = with(sum, core.waiting(tile) as u64);
        if let Some(ticket) = core.ticket_out(tile) {
            sum = with(sum, ticket.serial);
        }
    }
    sum
}
