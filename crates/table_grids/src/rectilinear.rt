ghost use Rattle.grids.specs.Making.{Makes};
ghost use Rattle.table_grids.specs.Causes.{at_least};
ghost use Rattle.table_grids.specs.Kinds.{rectilinear_axes, new_rectilinear};
ghost use Rattle.table_grids.specs.LaidSpans.{LaidAccepted};
ghost use Rattle.table_grids.specs.Valid.{at_least_reaches};

use crate::dimension::Dimension;
use crate::sum_rule::SumRule;
use crate::table_grid::TableGrid;
use edges::{Fault, OffsetSize};

// The sum is the size or more.
#[derive(Clone, Copy)]
pub struct AtLeast;

// A rectilinear grid: each axis has one edge throughout, or a span of a table that sums to at least the size.
pub type Rectilinear<'a> = TableGrid<'a, AtLeast>;

impl<'a> TableGrid<'a, AtLeast> {
    // The grid with these sizes and axes over a table, or a refusal beside a grid of no axes.
    pub fn new(
        array_shape: &[u64],
        axes: &[Dimension],
        table: &'a [OffsetSize],
    ) -> (Rectilinear<'a>, Result<(), Fault>)
        ensures made { Makes result.1 (rectilinear_axes result.0) (new_rectilinear array_shape.now axes.now table.now) }
        ensures laid { LaidAccepted at_least array_shape.now axes.now table.now (rectilinear_axes result.0) result.1 }
    {
        TableGrid::made(array_shape, axes, table)
    }
}

impl SumRule for AtLeast {
    ghost keeps = { at_least };

    ghost reaches = { at_least_reaches };

    fn keeps_rule(size: u64, sum: u128) -> bool {
        size as u128 <= sum
    }
}
