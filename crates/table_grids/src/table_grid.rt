ghost use Rattle.std.specs.Prelude.{◌≡◌, ◌≤◌, length};
ghost use Rattle.grids.specs.Arrays.{Fit};
ghost use Rattle.table_grids.specs.Spans.{FixedFit, CountsAre, LongestAre};
ghost use Rattle.table_grids.specs.Causes.{NoneRefused};

use crate::dimension::Dimension;
use crate::sum_rule::SumRule;
use edges::OffsetSize;
use std::alloc::AllocError;
use std::marker::PhantomData;

// A grid over a table, whose spans keep a sum rule. There is no heap, so plain arrays stand beside the shared slice; `fits_by` reads two
// of them as they are.
// `none_refused` keeps what was checked of each span: it is within the table, its offsets are sums, its sizes are
// at least 1, its end has 64 bits, and its sum keeps the rule.
pub struct TableGrid<'a, R: SumRule> {
    pub(crate) table: &'a [OffsetSize],
    pub(crate) rule: PhantomData<R>,
    pub(crate) number: usize,
    pub(crate) array_shape: [u64; 8],
    pub(crate) axes: [Dimension; 8],
    pub(crate) grid_shape: [u64; 8],
    pub(crate) longest: [u64; 8],
    ghost short: { length table.now ≤ 65536 },
    ghost few: { number ≤ 8 },
    ghost sizes_fit: { Fit number array_shape },
    ghost edges_fit: { FixedFit number axes },
    ghost none_refused: { NoneRefused R.keeps number table.now array_shape axes },
    ghost counts_are: { CountsAre number table.now array_shape axes grid_shape },
    ghost longest_are: { LongestAre number table.now axes longest },
}

impl<'a, R: SumRule> Copy for TableGrid<'a, R> {}

// Written by hand, since a derive is refused beside a ghost field that names the rule.
impl<'a, R: SumRule> Clone for TableGrid<'a, R> {
    ghost is_clone = { λ given copy. copy ≡ given };

    ghost is_infallible = { λ _. Unit {0} };

    fn clone(&self) -> Result<TableGrid<'a, R>, AllocError> {
        Ok(*self)
    }
}
