ghost use Rattle.std.specs.Prelude.{◌^◌, ◌<◌, ◌≤◌};
ghost use Rattle.edges.specs.Runs.{total};
ghost use Rattle.table_grids.specs.Spans.{sizes, OffsetsAreSums, SizesPositive};

use edges::OffsetSize;

// The entries of an axis, laid one after another: from 0 to its size or past it.
#[derive(Clone, Copy)]
pub(crate) struct Span<'a> {
    pub(crate) size: u64,
    pub(crate) entries: &'a [OffsetSize],
    ghost offsets: { OffsetsAreSums entries.now },
    ghost positive: { SizesPositive entries.now },
    ghost end_fits: { total (sizes entries.now) < 2 ^ 64 },
    ghost reaches: { size ≤ total (sizes entries.now) },
}
