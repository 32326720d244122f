//! Edit texts: worked lines, and the first fault.

use crate::states::whole;
use edit_lang::EditError::{BadLine, BadStroke, BadTag};
use edit_lang::{EditError, parse};
use std::alloc::Global;
use stroke_core::StrokeError::{BadLevel, BadRadius, RunOrder};

// Lines, and how many edits they are, or their fault.
const LINES: &[(&str, Result<usize, EditError>)] = &[
    ("place #01 9 0:1-2,0:4-4", Ok(1)),
    ("place #01 9 0:1-2,0:3-4", Err(BadStroke(1, RunOrder))),
    ("place #01 0 0:1-2", Err(BadStroke(1, BadLevel))),
    ("place #01 9 0:1", Err(BadLine(1))),
    ("place #01 000009 0:1-2", Err(BadLine(1))),
    ("place #01 9 0:1-65536", Err(BadLine(1))),
    ("disc #01 5 2:2+256", Err(BadStroke(1, BadRadius))),
    ("disc #01 0 2:2+2", Err(BadStroke(1, BadLevel))),
    ("withdraw urn:uuid:#01", Ok(1)),
    ("withdraw zz", Err(BadTag(1))),
    ("withdraw zz\nplace", Err(BadTag(1))),
];

const LINE: &[u8; 51] = b"place 00000000-0000-0000-0000-000000000001 73 0:1-1";

fn count_of(alloc: Global, text: &[u8]) -> Result<usize, EditError> {
    parse(alloc, text).map(|deltas| deltas.len())
}

// The same of a text in which `#` stands for all of a tag but its last two digits.
fn count_of_whole(alloc: Global, text: &str) -> Result<usize, EditError> {
    match whole(alloc, text) {
        Some(text) => count_of(alloc, text.as_bytes()),
        None => Err(EditError::Memory),
    }
}

#[test]
fn edits_are_counted_or_the_first_fault_is_told(rt: HostRuntime) {
    for (line, count) in LINES {
        assert!(rt; count_of_whole(rt.alloc(), line) == *count, "{line}");
    }
    for end in 0..52usize {
        let count = match end {
            0 => Ok(0),
            51 => Ok(1),
            _ => Err(BadLine(1)),
        };
        assert!(rt; count_of(rt.alloc(), &LINE[..end]) == count, "{end} bytes");
    }
}
