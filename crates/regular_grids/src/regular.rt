ghost use Rattle.std.specs.Prelude.{◌≡◌};
ghost use Rattle.axes.specs.Axes.{fixed};
ghost use Rattle.grids.specs.Making.{Makes};
ghost use Rattle.regular_grids.specs.RegularAxes.{fixed_kept, regular_axes, new_regular};

use crate::edge_rule::EdgeRule;
use crate::length_grid::LengthGrid;
use crate::lengths::AxisLengths;
use edges::{Cause, Edge, Fault, Layer};
use grids::ChunkGrid;

// Every chunk has the edge of its axis. An axis of equal edges over a table answers likewise, in a crate apart.
#[derive(Clone, Copy)]
pub struct EqualEdges;

// A regular grid: on each axis every chunk has the same edge.
pub type Regular = LengthGrid<EqualEdges>;

impl LengthGrid<EqualEdges> {
    // The grid with these sizes and edges, or a refusal beside a grid of no axes.
    pub fn new(array_shape: &[u64], chunk_shape: &[u64]) -> (Regular, Result<(), Fault>)
        ensures made { Makes result.1 (regular_axes result.0) (new_regular array_shape.now chunk_shape.now) }
        ensures means { ⟦<Regular as ChunkGrid>⟧.axes result.0 ≡ regular_axes result.0 }
    {
        LengthGrid::made(array_shape, chunk_shape)
    }
}

impl EdgeRule for EqualEdges {
    ghost axis = { fixed };

    ghost kept = { fixed_kept };

    fn edge(sides: AxisLengths, _chunk: u64) -> Option<Edge> {
        Some(sides.edge)
    }

    fn origin(sides: AxisLengths, axis_number: u8, chunk: u64) -> Result<Option<u64>, Fault> {
        let origin = chunk
            .checked_mul(sides.edge.get())
            .ok_or(Fault::on_axis(Cause::Overflow, Layer::Grid, axis_number))?;
        Ok(Some(origin))
    }

    fn chunk_at(sides: AxisLengths, index: u64) -> Option<u64> {
        Some(index / sides.edge.get())
    }

    fn longest(sides: AxisLengths) -> u64 {
        sides.edge.get()
    }
}
