use edges::{OffsetSize, Run};
use table_grids::Dimension;

// An axis of a grid over a table, as a text writes it.
#[derive(Drop)]
pub(crate) enum AxisText {
    Fixed(u64),
    Runs(Vec<Run>),
}

// The axes of a grid over a table, as they are laid one after another: their descriptions, and the
// table so far.
#[derive(Drop)]
pub(crate) struct Tables {
    pub(crate) dimensions: Vec<Dimension>,
    pub(crate) table: Vec<OffsetSize>,
}
