//! The board.

ghost use Rattle.std.specs.Prelude.{◌≡◌, ◌↔◌, IsTrue};
ghost use Rattle.core_rules.specs.Work.{IsQuiet};

use crate::news::News;
use reset_core::Core;
use spd_codec::Print;
use std::marker::Model;
use stroke_lattice::State;
use tile_work::TileSet;

mod changes;
mod files;
mod growing;
mod opening;
mod taking;

/// What stands behind a page: a core, the greatest level of its files, and the numbers by which a page knows what it
/// has seen.
#[derive(Drop)]
pub struct PageBoard {
    core: Core,
    maxval: u16,
    print: Print,
    run: u64,
    version: u64,
    step: u64,
    // For each tile the step at which it last changed.
    shown: Vec<u64>,
    news: Vec<News>,
    // Empty but within a call.
    marks: TileSet,
}

impl Model for PageBoard {
    ghost use Rattle.stroke_core.specs.contracts.stroke.Stroke as stroke;
    ghost use Rattle.page_board.specs.Board.{PageBoard as Data, board_code};
    ghost use Rattle.page_board.specs.Stored.{board_of, IsStored};

    ghost Value = { Data };

    ghost coded = { board_code stroke.the_row.coded };

    ghost view = { board_of };

    ghost invariant = { IsStored };
}

impl PageBoard {
    /// The number by which pages tell this board from another.
    pub fn run(&self) -> u64
        ensures { result ≡ self.now.run }
    {
        self.run
    }

    /// How many texts and files were taken.
    pub fn version(&self) -> u64
        ensures { result ≡ self.now.version }
    {
        self.version
    }

    /// The step, which rises with each change.
    pub fn step(&self) -> u64
        ensures { result ≡ self.now.step }
    {
        self.step
    }

    /// Whether no work is left, so that the image is the reconstruction.
    pub fn is_quiet(&self) -> bool
        ensures { IsTrue result ↔ IsQuiet self.now.core }
    {
        self.core.is_quiet()
    }

    /// The strokes and tombstones.
    pub fn state(&self) -> &State
        ensures { result.now ≡ self.now.core.state }
    {
        self.core.state()
    }
}
