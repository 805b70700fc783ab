use edges::{Cause, Fault, Layer, OffsetSize};
use table_grids::Dimension;

pub(crate) const NONE: OffsetSize = OffsetSize { offset: 9, size: 9 };

// The span of the table below.
pub(crate) const SPAN: Dimension = Dimension::Varying {
    first: 0,
    number: 3,
};

// The table of the runs 3x2,5.
pub(crate) fn table() -> [OffsetSize; 3] {
    [row(0, 3), row(3, 3), row(6, 5)]
}

pub(crate) fn row(offset: u64, size: u64) -> OffsetSize {
    OffsetSize { offset, size }
}

// What a making answers that is refused at an axis; 255 names none.
pub(crate) fn refused(cause: Cause, axis: u8) -> Result<(), Fault> {
    Err(Fault::on_axis(cause, Layer::Grid, axis))
}
