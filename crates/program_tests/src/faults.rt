//! The lines and the status of faults.

use crate::cases::{Case, ON_ROW, is_told, play, play_all};
use core_rules::CoreError;
use edit_lang::EditError;
use pgm_codec::PgmError;
use run_faults::{RunError, StudioFault};
use spd_codec::SpdError;
use std::test::Fail;
use stroke_core::{StrokeError, Tag};

// Edits on the row, and the line of their fault, of which the program's name is left out.
const ON_THE_ROW: &str = "place #1 9 0:1 -> E1 1
    withdraw zz -> E2 1
    place #1 0 0:1-1 -> E3 1 S1
    place #1 9 0:1-2,0:3-4 -> E3 1 S4
    disc #1 0 0:1+1 -> E3 1 S1
    disc #1 5 2:2+256 -> E3 1 S7
    place #1 9 0:5-5 -> C1 #1
    place #1 3 0:1-1 / place #1 4 0:1-1 -> C2 #1
    place #1 3 0:1-1 / disc #1 3 0:1+0 -> C2 #1";

// Inputs that are refused beside those.
const REFUSALS: &[Case] = &[
    Case {
        name: "an empty input",
        behind: "",
        fault: (1, "V1"),
        ..ON_ROW
    },
    Case {
        name: "a disc whose centre is beside the image",
        edits: "disc #1 5 9:9+9",
        behind: "image\nP2\n5 5\n9\n9 9 9 9 9 9 9 9 9 9 9 9 9 9 9 9 9 9 9 9 9 9 9 9 9\n",
        fault: (1, "C1 #1"),
        ..ON_ROW
    },
];

#[test]
fn inputs_are_refused(rt: HostRuntime) -> Result<(), Fail> {
    for line in ON_THE_ROW.lines() {
        let (edits, code) = line.split_once("->").unwrap_or((line, ""));
        let case = Case {
            name: code,
            edits: edits.trim(),
            fault: (1, code.trim()),
            ..ON_ROW
        };
        play(rt.alloc(), &case)?;
    }
    play_all(rt.alloc(), REFUSALS)
}

// Faults beside those of other tests, with the status of each and its line.
const FAULTS: [(RunError, u8, &str); 16] = [
    (RunError::Memory, 3, "memory"),
    (RunError::Pgm(PgmError::Memory), 3, "P10"),
    (RunError::Edit(EditError::Memory), 3, "E4"),
    (RunError::Edit(EditError::BadTag(12)), 1, "E2 12"),
    (RunError::Core(CoreError::OutOfImage(Tag(15))), 1, "C1 #f"),
    (RunError::Core(CoreError::GenerationsSpent), 1, "C3"),
    (RunError::Core(CoreError::Memory), 3, "C4"),
    (RunError::Spd(SpdError::Truncated), 1, "M3"),
    (RunError::Spd(BAD_LEVEL), 1, "M5 S1"),
    (RunError::Spd(SpdError::Memory), 3, "M8"),
    (RunError::Studio(StudioFault::BadCounts), 1, "U1"),
    (RunError::Studio(StudioFault::OpenMemory), 3, "U2"),
    (RunError::Studio(StudioFault::NoPlace), 3, "U3"),
    (RunError::Studio(StudioFault::EndMissing), 3, "B1"),
    (RunError::Studio(StudioFault::CloseMemory), 3, "B2"),
    (RunError::Studio(StudioFault::CountSpent), 3, "B3"),
];

const BAD_LEVEL: SpdError = SpdError::BadStroke(StrokeError::BadLevel);

#[test]
fn faults_have_lines_and_a_status(rt: HostRuntime) -> Result<(), Fail> {
    for (fault, code, line) in FAULTS {
        assert!(rt; is_told(rt.alloc(), &fault, (code, line))?, "{line}");
    }
    Ok(())
}
