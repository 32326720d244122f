//! How a hand floods a band of rows.

ghost use Rattle.std.specs.Prelude.{◌*◌, ◌+◌, ◌<◌, ◌≡◌, ◌≤◌};
ghost use Rattle.live_board.specs.Bands.{ArePartOf};

use crate::board::Board;
use crate::draft::Draft;
use crate::fact::Fact;
use crate::hand::HandSeat;
use crate::strips::{Rows, Strips, Work};
use crate::trail::Trail;
use grid_core::laws::cells_given_back;
use grid_core::{Grid, Pixel, Rect};
use raster_sweeps::grow_within;

// How often a hand looks for a strip before it is done.
const VAIN: u64 = 4096;

// How many pixels a hand follows at once beyond the rows that it flooded.
const FEW: u64 = 16;

impl HandSeat {
    ghost use Rattle.std.specs.Prelude.{◌*◌, ◌<◌, length, ◌≡◌, ◌≤◌};
    ghost use Rattle.grid_core.specs.Raster.{IsBelow};
    ghost use Rattle.live_board.specs.Bands.{AreNext, ArePartOf, AreRowsOf, IsDrawn};
    ghost use Rattle.live_board.specs.Flooding.{AreFounded, AreLow, IsRowKnown};
    ghost use Rattle.live_board.specs.Floods.{IsDraftOf, IsStripsOf, KnowsAsMuch};
    ghost use Rattle.live_board.specs.Following.{IsTrailOf};
    ghost use Rattle.live_board.specs.Seats.{IsHandOf, ground_of, hand_view};
    ghost use Rattle.live_board.specs.Words.{mask_of, size_of};

    /// Floods strips, at most so many at once, and marks those beyond which its floods raised pixels. It begins with
    /// those from `near` on, and is done where it has looked for one in vain again and again. It answers how often it
    /// flooded.
    ///
    /// Several hands that do so in threads, over the same strips, flood the board together. Who is the last to mark a
    /// strip floods it, if nobody else does. A hand that has followed a chain of pixels for too long floods all rows
    /// the next time.
    pub fn flood_strips(
        &mut self,
        board: &Board,
        strips: &Strips,
        near: usize,
        most: usize,
        draft: &mut Draft,
    ) -> u64
        requires hand { IsHandOf board.now self.old }
        requires draft { IsDraftOf board.now draft.old }
        requires strips { IsStripsOf board.now strips.now }
        ensures hand { IsHandOf board.now self.new }
        ensures draft { IsDraftOf board.now draft.new }
    {
        let (mut floods, mut vain, mut is_chain) = (0, 0, false);
        for turn in 0..u64::MAX {
            match strips.hold(near, most) {
                Some(band) => {
                    is_chain = self.flood_held(board, strips, band, is_chain, draft);
                    strips.release(band);
                    vain = turn;
                    floods += 1;
                }
                None => {
                    if turn - vain >= VAIN {
                        break;
                    }
                }
            }
        }
        floods
    }

    // Floods a band that this hand holds, or all rows where it is to follow a chain. It says whether there is one.
    fn flood_held(
        &mut self,
        board: &Board,
        strips: &Strips,
        band: Rows,
        is_chain: bool,
        draft: &mut Draft,
    ) -> bool
        requires hand { IsHandOf board.now self.old }
        requires draft { IsDraftOf board.now draft.old }
        requires strips { IsStripsOf board.now strips.now }
        requires band { AreRowsOf (ground_of board.now) band }
        ensures hand { IsHandOf board.now self.new }
        ensures draft { IsDraftOf board.now draft.new }
    {
        if is_chain {
            strips.clear();
            self.flood(board, 0, board.height(), draft);
            return false;
        }
        self.flood_band(board, strips, band, draft)
    }

    // Floods the rows of a band, and then again and again what others have raised in them. It gives out what they have
    // grown to once nothing is left to be grown. It says whether it has followed pixels for too long.
    fn flood_band(&mut self, board: &Board, strips: &Strips, band: Rows, draft: &mut Draft) -> bool
        requires hand { IsHandOf board.now self.old }
        requires draft { IsDraftOf board.now draft.old }
        requires strips { IsStripsOf board.now strips.now }
        requires band { AreRowsOf (ground_of board.now) band }
        ensures hand { IsHandOf board.now self.new }
        ensures draft { IsDraftOf board.now draft.new }
    {
        self.draw_band(board, band, &mut draft.image);
        self.grow_rows(board, band, band, draft);
        strips.ask(band, Work::Give);
        let mut is_chain = self.show(board, strips, band, band, draft);
        for _ in 0..u64::MAX {
            match strips.next(band) {
                Some((work, rows)) => {
                    is_chain |= self.work_on(board, strips, band, work, rows, draft);
                }
                None => break,
            }
        }
        is_chain
    }

    // Does one thing with some rows of a band. It says whether it has followed pixels for too long.
    fn work_on(
        &mut self,
        board: &Board,
        strips: &Strips,
        band: Rows,
        work: Work,
        rows: Rows,
        draft: &mut Draft,
    ) -> bool
        requires hand { IsHandOf board.now self.old }
        requires band { AreRowsOf (ground_of board.now) band }
        requires rows { ArePartOf band rows }
        requires drawn { IsDrawn (ground_of board.now) band (hand_view self.old) draft.old.image }
        ensures hand { IsHandOf board.now self.new }
        ensures drawn { IsDrawn (ground_of board.now) band (hand_view self.new) draft.new.image }
    {
        match work {
            Work::Look => {
                if self.look_again(board, band, rows, &mut draft.image) {
                    strips.ask(rows, Work::Grow);
                }
                false
            }
            Work::Grow => self.grow_again(board, strips, band, rows, draft),
            Work::Give => {
                self.give_rows(board, band, rows, &draft.image);
                false
            }
        }
    }

    // Learns the generation, and reads the rows of a band into the image.
    fn draw_band(&mut self, board: &Board, band: Rows, image: &mut Grid)
        requires hand { IsHandOf board.now self.old }
        requires band { AreRowsOf (ground_of board.now) band }
        requires image { IsBelow image.old (mask_of (ground_of board.now)) }
        ensures hand { IsHandOf board.now self.new }
        ensures drawn { IsDrawn (ground_of board.now) band (hand_view self.new) image.new }
    {
        self.start(board);
        let width = board.width() as usize;
        let (from, to) = (width * band.first as usize, width * band.end as usize);
        self.draw(board, from, to, image);
    }

    // Raises what the image has in some rows to what is read there, and says whether any of it rose.
    fn look_again(&mut self, board: &Board, band: Rows, rows: Rows, image: &mut Grid) -> bool
        requires hand { IsHandOf board.now self.old }
        requires band { AreRowsOf (ground_of board.now) band }
        requires rows { ArePartOf band rows }
        requires drawn { IsDrawn (ground_of board.now) band (hand_view self.old) image.old }
        ensures hand { IsHandOf board.now self.new }
        ensures drawn { IsDrawn (ground_of board.now) band (hand_view self.new) image.new }
    {
        let width = board.width() as usize;
        let (from, to) = (width * rows.first as usize, width * rows.end as usize);
        cells_given_back();
        self.take_again(board, band, from, to, image.cells_mut())
    }

    // Raises the cells from `from` to before `to` to what is read there, as far as the mask lets them, and says whether
    // any of them rose.
    fn take_again(
        &mut self,
        board: &Board,
        band: Rows,
        from: usize,
        to: usize,
        cells: &mut [u16],
    ) -> bool
        requires hand { IsHandOf board.now self.old }
        requires cells { to ≤ size_of (ground_of board.now) }
        requires low { AreLow (ground_of board.now) cells.old }
        requires founded { AreFounded (ground_of board.now) (hand_view self.old)
            ((mask_of (ground_of board.now)).width * band.first)
            ((mask_of (ground_of board.now)).width * band.end) cells.old }
        ensures hand { IsHandOf board.now self.new }
        ensures low { AreLow (ground_of board.now) cells.new }
        ensures founded { AreFounded (ground_of board.now) (hand_view self.new)
            ((mask_of (ground_of board.now)).width * band.first)
            ((mask_of (ground_of board.now)).width * band.end) cells.new }
    {
        // The clauses alone speak of the band.
        let _ = band;
        let mask = board.base.mask.samples();
        let mut rose = false;
        for cell in from..to {
            let level = self.level(board, cell).min(mask[cell]);
            rose |= level > cells[cell];
            cells[cell] = cells[cell].max(level);
        }
        rose
    }

    // Grows some rows of a band in the image.
    fn grow_rows(&self, board: &Board, band: Rows, rows: Rows, draft: &mut Draft)
        requires band { AreRowsOf (ground_of board.now) band }
        requires rows { ArePartOf band rows }
        requires drawn { IsDrawn (ground_of board.now) band (hand_view self.now) draft.old.image }
        ensures drawn { IsDrawn (ground_of board.now) band (hand_view self.now) draft.new.image }
    {
        // The clauses alone speak of the band.
        let _ = band;
        let rect = Rect {
            x: 0,
            y: rows.first,
            w: board.width(),
            h: rows.end - rows.first,
        };
        let mask = board.base.mask.grid();
        grow_within(
            &mut draft.room,
            mask,
            &mut draft.image,
            rect,
            board.base.conn,
        );
    }

    // Grows some rows of a band and the row beside them on either side, asks for what is to be done with these then,
    // and shows the band's edges. It says whether it has followed pixels for too long.
    fn grow_again(
        &mut self,
        board: &Board,
        strips: &Strips,
        band: Rows,
        rows: Rows,
        draft: &mut Draft,
    ) -> bool
        requires hand { IsHandOf board.now self.old }
        requires band { AreRowsOf (ground_of board.now) band }
        requires rows { ArePartOf band rows }
        requires drawn { IsDrawn (ground_of board.now) band (hand_view self.old) draft.old.image }
        ensures hand { IsHandOf board.now self.new }
        ensures drawn { IsDrawn (ground_of board.now) band (hand_view self.new) draft.new.image }
    {
        let wider = wider_in(band, rows);
        let above = row_sum(&draft.image, wider.first);
        let below = row_sum(&draft.image, wider.end - 1);
        self.grow_rows(board, band, wider, draft);
        strips.ask(wider, Work::Give);
        if wider.first < rows.first && row_sum(&draft.image, wider.first) != above {
            strips.ask(one_row(wider.first), Work::Grow);
        }
        if rows.end < wider.end && row_sum(&draft.image, wider.end - 1) != below {
            strips.ask(one_row(wider.end - 1), Work::Grow);
        }
        self.show(board, strips, band, rows, draft)
    }

    // Raises the pixels of some rows of a band to what the image has there.
    fn give_rows(&mut self, board: &Board, band: Rows, rows: Rows, image: &Grid)
        requires hand { IsHandOf board.now self.old }
        requires band { AreRowsOf (ground_of board.now) band }
        requires rows { ArePartOf band rows }
        requires drawn { IsDrawn (ground_of board.now) band (hand_view self.old) image.now }
        ensures hand { IsHandOf board.now self.new }
        ensures drawn { IsDrawn (ground_of board.now) band (hand_view self.new) image.now }
        ensures known { IsRowKnown (ground_of board.now) rows.first image.now (hand_view self.new) }
    {
        // The clauses alone speak of the band.
        let _ = band;
        let width = board.width() as usize;
        let (from, to) = (width * rows.first as usize, width * rows.end as usize);
        self.give_out(board, from, to, image.cells());
    }

    // Shows those edges of a band that lie in some rows of it to the rows beyond. It says whether it has followed
    // pixels for too long.
    fn show(
        &mut self,
        board: &Board,
        strips: &Strips,
        band: Rows,
        rows: Rows,
        draft: &mut Draft,
    ) -> bool
        requires hand { IsHandOf board.now self.old }
        requires band { AreRowsOf (ground_of board.now) band }
        requires rows { ArePartOf band rows }
        requires drawn { IsDrawn (ground_of board.now) band (hand_view self.old) draft.old.image }
        ensures hand { IsHandOf board.now self.new }
        ensures drawn { IsDrawn (ground_of board.now) band (hand_view self.new) draft.new.image }
    {
        let mut is_chain = false;
        if rows.first == band.first && band.first > 0 {
            let (edge, beyond) = (band.first, band.first - 1);
            is_chain |= self.show_row(board, strips, band, edge, beyond, draft);
        }
        if rows.end == band.end && band.end < board.height() {
            let (edge, beyond) = (band.end - 1, band.end);
            is_chain |= self.show_row(board, strips, band, edge, beyond, draft);
        }
        is_chain
    }

    // Raises the pixels of a row of a band, and then those of the row beyond by them. Where many of these rise it marks
    // their strip, and else it follows them. It says whether it has done so for too long.
    fn show_row(
        &mut self,
        board: &Board,
        strips: &Strips,
        band: Rows,
        edge: u32,
        beyond: u32,
        draft: &mut Draft,
    ) -> bool
        requires hand { IsHandOf board.now self.old }
        requires band { AreRowsOf (ground_of board.now) band }
        requires edge { (band.first ≤ edge) × (edge < band.end) }
        requires next { AreNext edge beyond }
        requires beyond { beyond < (mask_of (ground_of board.now)).height }
        requires drawn { IsDrawn (ground_of board.now) band (hand_view self.old) draft.old.image }
        ensures hand { IsHandOf board.now self.new }
        ensures drawn { IsDrawn (ground_of board.now) band (hand_view self.new) draft.new.image }
    {
        let height = board.height();
        self.give_rows(board, band, one_row(edge), &draft.image);
        draft.trail.clear();
        let rose = self.pass_over(board, edge, beyond, &draft.image, &mut draft.trail);
        if rose > FEW {
            strips.ask(one_row(beyond), Work::Look);
            return false;
        }
        self.serve(board, &mut draft.trail);
        draft.trail.name_all(height);
        strips.mark(draft.trail.first, draft.trail.end);
        draft.trail.first < draft.trail.end
    }

    // Raises the pixels of the next row beside each pixel of a row by what the image has there, which this hand knows,
    // and leaves in the trail those that rose. It answers how many did.
    fn pass_over(
        &mut self,
        board: &Board,
        edge: u32,
        beyond: u32,
        image: &Grid,
        trail: &mut Trail,
    ) -> u64
        requires hand { IsHandOf board.now self.old }
        requires edge { edge < (mask_of (ground_of board.now)).height }
        requires next { AreNext edge beyond }
        requires beyond { beyond < (mask_of (ground_of board.now)).height }
        requires image { IsBelow image.now (mask_of (ground_of board.now)) }
        requires known { IsRowKnown (ground_of board.now) edge image.now (hand_view self.old) }
        requires trail { IsTrailOf (ground_of board.now) (hand_view self.old) trail.old }
        ensures hand { IsHandOf board.now self.new }
        ensures trail { IsTrailOf (ground_of board.now) (hand_view self.new) trail.new }
        ensures later { KnowsAsMuch (hand_view self.old) (hand_view self.new) }
    {
        let aslant = board.has_diagonals();
        let mut rose = 0;
        for x in 0..board.width() {
            let pixel = Pixel { x, y: edge };
            let from = Fact {
                pixel,
                generation: self.generation,
                value: image.get(pixel),
            };
            rose += self.trail_row(board, from, beyond, aslant, true, trail);
        }
        rose
    }
}

// Some rows of a band, with the row beside them on either side where the band has one.
fn wider_in(band: Rows, rows: Rows) -> Rows
    requires { ArePartOf band rows }
    ensures { ArePartOf band result × (result.first ≤ rows.first) × (rows.end ≤ result.end) }
{
    Rows {
        first: if band.first < rows.first {
            rows.first - 1
        } else {
            rows.first
        },
        end: if rows.end < band.end {
            rows.end + 1
        } else {
            rows.end
        },
    }
}

// This row alone.
fn one_row(y: u32) -> Rows
    requires { y < 4294967295 }
    ensures { (result.first ≡ y) × (result.end ≡ y + 1) }
{
    Rows {
        first: y,
        end: y + 1,
    }
}

// The sum of a row, modulo 2^32: where the row rises it is another one.
fn row_sum(image: &Grid, y: u32) -> u32
    requires { y < image.now.height }
{
    let whole = Rect {
        x: 0,
        y: 0,
        w: image.width(),
        h: image.height(),
    };
    let mut sum = 0u32;
    for value in image.row_in(whole, y) {
        sum = sum.wrapping_add(u32::from(*value));
    }
    sum
}
