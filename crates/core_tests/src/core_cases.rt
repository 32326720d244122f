//! Cases that a core plays, line by line.

use crate::cores::{CoreStage, Line};
use crate::pictures::{ENDS, FOURS, HILLS, Mask};
use crate::played::{play, told};
use grid_core::Conn;
use reset_core::{Back, Handed, TILE_SIDE};
use std::alloc::Global;
use std::test::Fail;
use tile_generations::MAX_GENERATION;

// A row of three tiles of fours.
const LONG: Mask<'static> = Mask(192, 1, &[(192, 4)]);

// Two pixels of 7 that touch at a corner.
const CORNERS: Mask<'static> = Mask(2, 2, &[(1, 7), (2, 0), (1, 7)]);

// Four pixels, of which the third is dark.
const GAP: Mask<'static> = Mask(4, 1, &[(2, 9), (1, 0), (1, 9)]);

// A square of 25 nines.
const NINES: Mask<'static> = Mask(5, 5, &[(25, 9)]);

// What a disc of radius 2 round the middle marks there.
const DISC: &[u16] = &[
    0, 0, 5, 0, 0, 0, 5, 5, 5, 0, 5, 5, 5, 5, 5, 0, 5, 5, 5, 0, 0, 0, 5, 0, 0,
];

// How a core is opened: its mask, who are neighbours, the side of its tiles, and the generation that they begin with.
#[derive(Clone, Copy)]
struct Opening(Mask<'static>, Conn, u32, u64);

const ON_HILLS: Opening = Opening(HILLS, Conn::Four, TILE_SIDE, 0);

const ON_FOURS: Opening = Opening(FOURS, Conn::Four, TILE_SIDE, 0);

// What a case shows, how its core is opened, and what happens to it.
struct Case {
    name: &'static str,
    opening: Opening,
    lines: &'static [Line],
}

// Whichever growth of memory is refused, once, each line comes out so.
const CASES: &[Case] = &[
    Case {
        name: "strokes grow under the mask and go with their withdrawal",
        opening: ON_HILLS,
        lines: &[
            Line::Merge("place #01 9 0:1-1"),
            Line::Settle(1, 0),
            Line::Image(&[(1, 3), (1, 5), (3, 2)]),
            Line::Merge("place #02 3 0:4-4"),
            Line::Settle(1, 0),
            Line::Image(&[(1, 3), (1, 5), (1, 2), (2, 3)]),
            Line::Merge("withdraw #01"),
            Line::Settle(1, 0),
            Line::Image(&[(3, 2), (2, 3)]),
        ],
    },
    Case {
        name: "a stroke that clashes and one beside the image change nothing",
        opening: ON_HILLS,
        lines: &[
            Line::Merge("place #01 3 0:1-1"),
            Line::Refuse("place #01 4 0:1-1", "C2"),
            Line::Refuse("place #01 3 0:5-5", "C1"),
        ],
    },
    Case {
        name: "a disc marks what lies within its radius and in the mask, where its centre has to lie",
        opening: Opening(NINES, Conn::Four, TILE_SIDE, 0),
        lines: &[
            Line::Merge("disc #01 5 0:0+1"),
            Line::Image(&[(2, 5), (3, 0), (1, 5), (19, 0)]),
            Line::Settle(1, 0),
            Line::Image(&[(25, 5)]),
            Line::Merge("withdraw #01\ndisc #02 5 2:2+0"),
            Line::Image(&[(12, 0), (1, 5), (12, 0)]),
            Line::Settle(1, 0),
            Line::Image(&[(25, 5)]),
            Line::Merge("withdraw #02\ndisc #03 5 2:2+2"),
            Line::Cells(DISC),
            Line::Settle(1, 0),
            Line::Image(&[(25, 5)]),
            Line::Refuse("disc #04 5 9:9+2", "C1"),
        ],
    },
    Case {
        name: "a hint of a tile that was reset is stale",
        opening: ON_FOURS,
        lines: &[
            Line::Merge("place #01 4 0:0-0"),
            Line::Take(0, 0),
            Line::Return(0, Back::Joined),
            Line::Image(&[(64, 4), (64, 0)]),
            Line::Waiting(1, 1),
            Line::Merge("withdraw #01"),
            Line::Tiles(&[0], &[0, 1]),
            Line::Hand(1, 0, Handed::Stale),
            Line::Image(&[(128, 0)]),
            Line::Hand(1, 0, Handed::Nothing),
        ],
    },
    Case {
        name: "a result from before a reset is stale each time",
        opening: ON_FOURS,
        lines: &[
            Line::Merge("place #01 4 0:0-0"),
            Line::Take(0, 0),
            Line::Merge("withdraw #01"),
            Line::Return(0, Back::Stale),
            Line::Return(0, Back::Stale),
            Line::Take(0, 1),
        ],
    },
    Case {
        name: "a result is joined with what rose meanwhile",
        opening: Opening(GAP, Conn::Four, TILE_SIDE, 0),
        lines: &[
            Line::Merge("place #01 2 0:0-0"),
            Line::Take(0, 0),
            Line::Merge("place #02 5 0:1-1"),
            Line::Return(0, Back::Again),
            Line::Image(&[(1, 2), (1, 5), (2, 0)]),
            Line::Settle(1, 0),
            Line::Image(&[(2, 5), (2, 0)]),
        ],
    },
    Case {
        name: "a tile that no growth reached keeps its pixels",
        opening: Opening(ENDS, Conn::Four, TILE_SIDE, 0),
        lines: &[
            Line::Merge("place #01 4 0:0-0\nplace #02 3 0:191-191"),
            Line::Settle(2, 0),
            Line::Image(&[(10, 4), (172, 0), (10, 3)]),
            Line::Merge("withdraw #01"),
            Line::Tiles(&[0], &[0, 1]),
            Line::Image(&[(182, 0), (10, 3)]),
            Line::Settle(2, 0),
            Line::Image(&[(182, 0), (10, 3)]),
        ],
    },
    Case {
        name: "small tiles that no growth reached keep their pixels",
        opening: Opening(ENDS, Conn::Four, 8, 0),
        lines: &[
            Line::Merge("place #01 4 0:0-0\nplace #02 3 0:191-191"),
            Line::Settle(4, 0),
            Line::Merge("withdraw #01"),
            Line::Tiles(&[0, 1], &[0, 1, 2]),
            Line::Settle(3, 0),
            Line::Image(&[(182, 0), (10, 3)]),
        ],
    },
    Case {
        name: "each tile to which light came is reset",
        opening: Opening(LONG, Conn::Four, TILE_SIDE, 0),
        lines: &[
            Line::Merge("place #01 4 0:0-0\nplace #02 3 0:191-191"),
            Line::Settle(3, 0),
            Line::Merge("withdraw #01"),
            Line::Tiles(&[0, 1, 2], &[0, 1, 2]),
            Line::Settle(5, 0),
            Line::Image(&[(192, 3)]),
        ],
    },
    Case {
        name: "a withdrawal past the last generation is refused",
        opening: Opening(FOURS, Conn::Four, TILE_SIDE, MAX_GENERATION),
        lines: &[
            Line::Merge("place #01 4 0:0-0"),
            Line::Refuse("withdraw #01", "C3"),
            Line::Live(1, true),
        ],
    },
    Case {
        name: "a result of the other connectivity is a stranger",
        opening: Opening(CORNERS, Conn::Four, TILE_SIDE, 0),
        lines: &[
            Line::Merge("place #01 7 0:0-0"),
            Line::Take(0, 0),
            Line::ReturnForeign,
            Line::Return(0, Back::Joined),
            Line::Image(&[(1, 7), (3, 0)]),
        ],
    },
];

// What is cut off by want of memory has come to pass in part, and is not played once more.
const SCHEDULE: Case = Case {
    name: "an abandoned job is work once more",
    opening: ON_FOURS,
    lines: &[
        Line::Merge("place #01 4 0:0-0"),
        Line::Owes(508),
        Line::RunLate,
        Line::Image(&[(65, 4), (63, 0)]),
        Line::Owes(252),
        Line::Tiles(&[], &[1]),
    ],
};

// Sides of tiles, and how many jobs it takes until light has come through the fours.
const SIDES: [(u32, u64); 3] = [(TILE_SIDE, 2), (8, 16), (256, 1)];

fn plays(alloc: Global, case: &Case) -> Result<(), Fail> {
    let Opening(mask, conn, side, first) = case.opening;
    let stage = CoreStage::open(alloc, &mask, conn, side, first);
    told(case.name, play(stage, case.lines))
}

#[test]
fn cores_answer_and_show_what_each_line_says_tried_again(rt: HostRuntime) -> Result<(), Fail> {
    for case in CASES {
        plays(rt.alloc(), case)?;
    }
    for (side, jobs) in SIDES {
        let lines = [
            Line::Merge("place #01 4 0:0-0"),
            Line::Settle(jobs, 0),
            Line::Image(&[(128, 4)]),
        ];
        let stage = CoreStage::open(rt.alloc(), &FOURS, Conn::Four, side, 0);
        told("light takes a job a tile", play(stage, &lines))?;
    }
    Ok(())
}

#[test]
fn a_schedule_does_what_each_line_says(rt: HostRuntime) -> Result<(), Fail> {
    plays(rt.alloc(), &SCHEDULE)
}
