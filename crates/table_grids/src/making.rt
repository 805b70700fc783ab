ghost use Rattle.std.specs.Prelude.{◌≡◌, ◌≤◌, [], length};
ghost use Rattle.edges.specs.Refusals.{mapped};
ghost use Rattle.grids.specs.Making.{Makes};
ghost use Rattle.table_grids.specs.Causes.{axis_by_axis, new_table};
ghost use Rattle.table_grids.specs.LaidSpans.{LaidAccepted};
ghost use Rattle.table_grids.specs.TableAxes.{table_axes};

use crate::checking::check_axis;
use crate::dimension::Dimension;
use crate::sum_rule::SumRule;
use crate::table_grid::TableGrid;
use edges::{Cause, Fault, Layer, OffsetSize};
use grids::check_axes;
use std::marker::PhantomData;

impl<'a, R: SumRule> TableGrid<'a, R> {
    // The grid with these sizes and axes over a table, or a refusal beside a grid of no axes.
    // A rule of the library: a refused making leaves a grid of no axes. The pair is made here, and nowhere below; a grid
    // over lengths makes its own, in a crate apart.
    pub(crate) fn made(
        array_shape: &[u64],
        axes: &[Dimension],
        table: &'a [OffsetSize],
    ) -> (TableGrid<'a, R>, Result<(), Fault>)
        ensures made { Makes result.1 (table_axes result.0) (new_table R.keeps array_shape.now axes.now table.now) }
        ensures laid { LaidAccepted R.keeps array_shape.now axes.now table.now (table_axes result.0) result.1 }
    {
        match TableGrid::checked(array_shape, axes, table) {
            Ok(grid) => (grid, Ok(())),
            Err(fault) => (TableGrid::none(), Err(fault)),
        }
    }

    // A grid of no axes.
    fn none() -> TableGrid<'a, R>
        ensures { table_axes result ≡ [] }
    {
        TableGrid {
            table: &[],
            rule: PhantomData,
            number: 0,
            array_shape: [0; 8],
            axes: [Dimension::Fixed(1); 8],
            grid_shape: [0; 8],
            longest: [1; 8],
        }
    }

    // The grid with these sizes and axes over a table. The two steps below `made` take what it takes: a struct of the
    // three would be made to be taken apart at once.
    fn checked(
        array_shape: &[u64],
        axes: &[Dimension],
        table: &'a [OffsetSize],
    ) -> Result<TableGrid<'a, R>, Fault>
        ensures { mapped table_axes result ≡ new_table R.keeps array_shape.now axes.now table.now }
    {
        check_axes(array_shape.len(), axes.len())?;
        if table.len() > 65536 {
            return Err(Fault::new(Cause::Short, Layer::Grid));
        }
        TableGrid::axis_by_axis(array_shape, axes, table)
    }

    // The grid with these axes, or the refusal of the first one at fault.
    fn axis_by_axis(
        array_shape: &[u64],
        axes: &[Dimension],
        table: &'a [OffsetSize],
    ) -> Result<TableGrid<'a, R>, Fault>
        requires { (length array_shape.now ≡ length axes.now) × ((length array_shape.now ≤ 8) × (length table.now ≤ 65536)) }
        ensures { mapped table_axes result ≡ axis_by_axis R.keeps array_shape.now axes.now table.now }
    {
        let mut sizes = [0; 8];
        let mut dimensions = [Dimension::Fixed(1); 8];
        let mut counts = [0; 8];
        let mut longest = [1; 8];
        for (a, size) in array_shape.iter().enumerate() {
            let checked = check_axis::<R>(table, *size, axes[a]);
            let axis = checked.map_err(move |cause| Fault::on_axis(cause, Layer::Grid, a as u8))?;
            sizes[a] = *size;
            dimensions[a] = axes[a];
            counts[a] = axis.chunks();
            longest[a] = axis.longest();
        }
        Ok(TableGrid {
            table,
            rule: PhantomData,
            number: array_shape.len(),
            array_shape: sizes,
            axes: dimensions,
            grid_shape: counts,
            longest,
        })
    }
}
