// What the word of a signal is made from.
use crate::tables::WordTable;
use sv_design::Design;
use sv_obl::Bodies;

/// What drives the signals of a design: the bodies of its processes, and the words of what these
/// read.
#[derive(Clone, Copy)]
pub struct FanIn<'a, 'b> {
    pub design: &'a Design,
    pub bodies: &'a Bodies<'b>,
    pub words: &'a WordTable,
}
