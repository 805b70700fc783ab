ghost use Rattle.std.specs.Prelude.{◌≡◌};
ghost use Rattle.std.specs.List.{slice_get};
ghost use Rattle.table_grids.specs.TableAxes.{table_axes, table_lawful};
ghost use Rattle.table_grids.specs.Views.{meanings};

use crate::dimension::Dimension;
use crate::span::Span;
use crate::sum_rule::SumRule;
use crate::table_axis::TableAxis;
use crate::table_grid::TableGrid;
use edges::{Edge, Fault};
use grids::{ChunkGrid, fits_by};

impl<'a, R: SumRule> TableGrid<'a, R> {
    // An axis of the grid; absent for one that is not there.
    fn axis(&self, axis: usize) -> Option<TableAxis<'a>>
        ensures { meanings result ≡ slice_get (table_axes self.now) axis }
    {
        if axis >= self.number {
            return None;
        }
        let size = self.array_shape[axis];
        let dimension = self.axes[axis];
        match dimension {
            Dimension::Fixed(number) => Some(TableAxis::Equal {
                size,
                edge: Edge { number },
            }),
            Dimension::Varying { first, number } => Some(TableAxis::Listed(Span {
                size,
                entries: &self.table[first..first + number],
            })),
        }
    }
}

impl<'a, R: SumRule> ChunkGrid for TableGrid<'a, R> {
    ghost axes = { table_axes };

    ghost lawful = { λ g. table_lawful R.keeps R.reaches g.table.now g.number g.array_shape g.axes g.few g.sizes_fit g.edges_fit g.none_refused };

    fn dimensionality(&self) -> usize {
        self.number
    }

    fn size(&self, axis: usize) -> Option<u64> {
        self.array_shape[..self.number].get(axis).copied()
    }

    fn chunks(&self, axis: usize) -> Option<u64> {
        self.grid_shape[..self.number].get(axis).copied()
    }

    fn edge(&self, axis: usize, chunk: u64) -> Option<Edge> {
        self.axis(axis)?.edge(chunk)
    }

    fn origin(&self, axis: usize, chunk: u64) -> Result<Option<u64>, Fault> {
        // `?` would hand up a refusal here, and no absence. A grid over lengths has the same lines, in a crate apart.
        match self.axis(axis) {
            Some(there) => there.origin(axis as u8, chunk),
            None => Ok(None),
        }
    }

    fn chunk_at(&self, axis: usize, index: u64) -> Option<u64> {
        self.axis(axis)?.chunk_at(index)
    }

    fn fits(&self, limit: u64, width: u64) -> bool {
        let counts = &self.grid_shape[..self.number];
        let longest = &self.longest[..self.number];
        fits_by(counts, longest, limit, width)
    }
}
