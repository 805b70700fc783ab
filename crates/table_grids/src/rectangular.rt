ghost use Rattle.grids.specs.Making.{Makes};
ghost use Rattle.table_grids.specs.Causes.{exactly};
ghost use Rattle.table_grids.specs.Kinds.{rectangular_axes, new_rectangular};
ghost use Rattle.table_grids.specs.LaidSpans.{LaidAccepted};
ghost use Rattle.table_grids.specs.Valid.{exactly_reaches};

use crate::dimension::Dimension;
use crate::sum_rule::SumRule;
use crate::table_grid::TableGrid;
use edges::{Fault, OffsetSize};

// The sum is the size.
#[derive(Clone, Copy)]
pub struct Exact;

// A rectangular grid: each axis has one edge throughout, or a span of a table that sums to exactly the size.
pub type Rectangular<'a> = TableGrid<'a, Exact>;

impl<'a> TableGrid<'a, Exact> {
    // The grid with these sizes and axes over a table, or a refusal beside a grid of no axes.
    pub fn new(
        array_shape: &[u64],
        axes: &[Dimension],
        table: &'a [OffsetSize],
    ) -> (Rectangular<'a>, Result<(), Fault>)
        ensures made { Makes result.1 (rectangular_axes result.0) (new_rectangular array_shape.now axes.now table.now) }
        ensures laid { LaidAccepted exactly array_shape.now axes.now table.now (rectangular_axes result.0) result.1 }
    {
        TableGrid::made(array_shape, axes, table)
    }
}

impl SumRule for Exact {
    ghost keeps = { exactly };

    ghost reaches = { exactly_reaches };

    fn keeps_rule(size: u64, sum: u128) -> bool {
        sum == size as u128
    }
}
