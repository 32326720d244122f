//! Cases that some replicas play, line by line.

use crate::pictures::{ENDS, FOURS, HILLS, Mask};
use crate::played::{play, told};
use crate::worlds::{Line, WorldStage};
use std::test::Fail;

// What a case shows, its mask, how many replicas there are, and what happens to them.
struct Case {
    name: &'static str,
    mask: Mask<'static>,
    replicas: usize,
    lines: &'static [Line],
}

const CASES: &[Case] = &[
    // The first stroke at the first replica, the second at the other; each is sent, the second one comes twice; a job
    // of each, and its result to its own replica, and one to the other; and a packet that was never sent.
    Case {
        name: "both show both strokes",
        mask: HILLS,
        replicas: 2,
        lines: &[
            Line::Run(
                &[
                    Line::Edit(0, "place #01 9 0:1-1"),
                    Line::Send(0, 0),
                    Line::Edit(1, "place #02 3 0:4-4"),
                    Line::Send(1, 0),
                    Line::Deliver(0, 1),
                    Line::Deliver(1, 0),
                    Line::Deliver(1, 0),
                    Line::Take(0, 0),
                    Line::Take(1, 0),
                    Line::Return(0, 0),
                    Line::Return(1, 1),
                    Line::Return(0, 1),
                    Line::Deliver(0, 7),
                ],
                12,
            ),
            Line::Image(&[(1, 3), (1, 5), (1, 2), (2, 3)]),
            Line::Agree,
            Line::Took(&[2, 3]),
        ],
    },
    Case {
        name: "a withdrawal of runs and of a disc wins in either order",
        mask: HILLS,
        replicas: 2,
        lines: &[
            Line::Edit(0, "withdraw #01\nwithdraw #02"),
            Line::Edit(0, "place #01 9 0:1-1\ndisc #02 9 0:2+1"),
            Line::Edit(0, "withdraw #01\nwithdraw #02"),
            Line::Edit(0, "place #01 9 0:1-1\ndisc #02 9 0:2+1"),
            Line::Edit(1, "place #01 9 0:1-1\ndisc #02 9 0:2+1"),
            Line::Edit(1, "withdraw #01\nwithdraw #02"),
            Line::Edit(1, "place #01 9 0:1-1\ndisc #02 9 0:2+1"),
            Line::Edit(1, "withdraw #01\nwithdraw #02"),
            Line::Settle,
            Line::Agree,
            Line::Dead(1),
            Line::Dead(2),
            Line::Image(&[(5, 0)]),
        ],
    },
    // The job of tile 0 is out when its stroke is withdrawn. Its result changes nothing then, however often it comes.
    Case {
        name: "a result of before a withdrawal is stale",
        mask: FOURS,
        replicas: 1,
        lines: &[
            Line::Edit(0, "place #01 4 0:0-0"),
            Line::Take(0, 0),
            Line::Edit(0, "withdraw #01"),
            Line::Return(0, 0),
            Line::Tiles(&[0], &[0, 1]),
            Line::Image(&[(128, 0)]),
            Line::Return(0, 0),
            Line::Tiles(&[0], &[0, 1]),
            Line::Image(&[(128, 0)]),
            Line::Return(0, 0),
            Line::Tiles(&[0], &[0, 1]),
            Line::Image(&[(128, 0)]),
            Line::Dead(1),
            Line::Take(0, 0),
            Line::ResultOf(1, 1),
        ],
    },
    Case {
        name: "a withdrawal resets its own tiles at each replica",
        mask: ENDS,
        replicas: 2,
        lines: &[
            Line::Edit(0, "place #01 4 0:0-0"),
            Line::Edit(1, "place #02 3 0:191-191"),
            Line::Send(0, 0),
            Line::Send(1, 0),
            Line::Deliver(0, 1),
            Line::Deliver(1, 1),
            Line::Deliver(1, 0),
            Line::Settle,
            Line::Agree,
            Line::Results(4),
            Line::Edit(0, "withdraw #01"),
            Line::Send(0, 0),
            Line::Deliver(1, 2),
            Line::Tiles(&[0], &[0, 1]),
            Line::Image(&[(182, 0), (10, 3)]),
            Line::Settle,
            Line::Results(8),
            Line::Agree,
        ],
    },
];

#[test]
fn replicas_answer_and_show_what_each_line_says_tried_again(rt: HostRuntime) -> Result<(), Fail> {
    for case in CASES {
        let stage = WorldStage::open(rt.alloc(), &case.mask, case.replicas);
        told(case.name, play(stage, case.lines))?;
    }
    Ok(())
}
