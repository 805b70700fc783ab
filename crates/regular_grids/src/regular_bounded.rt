ghost use Rattle.std.specs.Prelude.{◌≡◌};
ghost use Rattle.axes.specs.Axes.{bounded};
ghost use Rattle.grids.specs.Making.{Makes};
ghost use Rattle.regular_grids.specs.LengthAxes.{start_below};
ghost use Rattle.regular_grids.specs.RegularAxes.{bounded_kept, bounded_axes, new_bounded};

use crate::edge_rule::EdgeRule;
use crate::length_grid::LengthGrid;
use crate::lengths::AxisLengths;
use edges::{Edge, Fault};
use grids::ChunkGrid;

// As equal edges, but the last chunk ends at the size and none follows.
#[derive(Clone, Copy)]
pub struct BoundedEdges;

// A bounded grid: as a regular one, but the last chunk ends at the size and none follows.
pub type RegularBounded = LengthGrid<BoundedEdges>;

impl LengthGrid<BoundedEdges> {
    // The grid with these sizes and edges, or a refusal beside a grid of no axes.
    pub fn new(array_shape: &[u64], chunk_shape: &[u64]) -> (RegularBounded, Result<(), Fault>)
        ensures made { Makes result.1 (bounded_axes result.0) (new_bounded array_shape.now chunk_shape.now) }
        ensures means { ⟦<RegularBounded as ChunkGrid>⟧.axes result.0 ≡ bounded_axes result.0 }
    {
        LengthGrid::made(array_shape, chunk_shape)
    }
}

// Where a chunk begins that is below the number of chunks.
fn start(sides: AxisLengths, chunk: u64) -> Option<u64>
    ensures { result ≡ start_below sides.size sides.edge.number chunk }
{
    (chunk < sides.chunks()).then(|| chunk * sides.edge.get())
}

impl EdgeRule for BoundedEdges {
    ghost axis = { bounded };

    ghost kept = { bounded_kept };

    fn edge(sides: AxisLengths, chunk: u64) -> Option<Edge> {
        let begin = start(sides, chunk)?;
        let number = sides.edge.get().min(sides.size - begin);
        Some(Edge { number })
    }

    fn origin(sides: AxisLengths, _axis_number: u8, chunk: u64) -> Result<Option<u64>, Fault> {
        Ok(start(sides, chunk))
    }

    fn chunk_at(sides: AxisLengths, index: u64) -> Option<u64> {
        (index < sides.size).then(|| index / sides.edge.get())
    }

    fn longest(sides: AxisLengths) -> u64 {
        sides.edge.get().min(sides.size)
    }
}
