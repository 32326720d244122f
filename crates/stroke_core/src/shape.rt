use crate::run::Run;

// What a stroke is painted on. Its model is the stroke's, since an enum cannot have one.
#[derive(Debug, Drop)]
pub(crate) enum Shape {
    Runs(Vec<Run>),
    Disc { x: u16, y: u16, r: u8 },
}
