/// Pixels side by side on one row: the row `y` from the top, and the columns `x0` to `x1` from the left,
/// both ends included, all counted from 0. In a stroke `x0` is at most `x1`.
#[derive(Clone, Copy, Debug, PartialEq, Eq)]
pub struct Run {
    pub y: u16,
    pub x0: u16,
    pub x1: u16,
}
