use edges::{Fault, OffsetSize};
use table_grids::Dimension;

// The kinds of grid with one edge for each axis.
#[derive(Clone, Copy)]
pub enum LengthKind {
    Regular,
    Bounded,
}

// The kinds of grid over a table.
#[derive(Clone, Copy)]
pub enum TableKind {
    Rectangular,
    Rectilinear,
}

// The grid that questions are asked of, as it was described: its kind and its sizes, and its edges
// or its axes and their table. A grid that is refused keeps its refusal, and has no axes.
#[derive(Drop)]
pub enum Current {
    Lengths(LengthKind, Vec<u64>, Vec<u64>),
    Tables(TableKind, Vec<u64>, Vec<Dimension>, Vec<OffsetSize>),
    Refused(Fault),
}
