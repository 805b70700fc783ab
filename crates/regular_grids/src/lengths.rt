ghost use Rattle.std.specs.Prelude.{◌^◌, ◌<◌, ◌≤◌};

use edges::Edge;

// The size and the edge of one axis.
#[derive(Clone, Copy)]
pub struct AxisLengths {
    pub(crate) size: u64,
    pub(crate) edge: Edge,
    ghost size_fits: { size < 2 ^ 64 },
    ghost edge_fits: { edge.number < 2 ^ 64 },
}

// The sizes and the edges of the axes, in the first places of the array: there is no heap for
// a list, and an `ArrayVec` is not `Copy`, as a grid is.
#[derive(Clone, Copy)]
pub(crate) struct Lengths {
    pub(crate) number: usize,
    pub(crate) places: [AxisLengths; 8],
    ghost few: { number ≤ 8 },
}
