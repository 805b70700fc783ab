ghost use Rattle.std.specs.Prelude.{◌≡◌, ◌+◌, ◌-◌, ◌^◌, ◌<◌, ◌≤◌, length};
ghost use Rattle.std.specs.List.{slice_get};
ghost use Rattle.axes.specs.Axes.{chunk_of};
ghost use Rattle.grids.specs.Answers.{end_answer, asked, element_of, chunks_between, axis_inbounds};

use crate::grid::ChunkGrid;
use edges::{Cause, Fault, Layer};

// The questions of one axis. A struct of a grid and an axis would be made at each call and taken apart in it.

// The length of a chunk's edge.
pub(crate) fn edge_length<G: ChunkGrid>(grid: &G, axis: usize, chunk: u64) -> Option<u64>
    ensures { result ≡ asked (G.axes grid.now) axis (λ x. x.edge chunk) }
{
    grid.edge(axis, chunk).map(|edge| edge.get())
}

// Where a chunk ends.
pub(crate) fn end<G: ChunkGrid>(grid: &G, axis: usize, chunk: u64) -> Result<Option<u64>, Fault>
    requires { axis < length (G.axes grid.now) }
    ensures { result ≡ end_answer (G.axes grid.now) axis chunk }
{
    // `?` serves refusals here, so an absence is answered by hand.
    let Some(length) = edge_length(grid, axis, chunk) else {
        return Ok(None);
    };
    let Some(origin) = grid.origin(axis, chunk)? else {
        return Ok(None);
    };
    let end = origin.checked_add(length);
    end.map(Some)
        .ok_or(Fault::on_axis(Cause::Overflow, Layer::Grid, axis as u8))
}

// An index less the origin of its chunk.
pub(crate) fn element<G: ChunkGrid>(grid: &G, axis: usize, index: u64) -> Option<u64>
    ensures { result ≡ asked (G.axes grid.now) axis (λ x. element_of x index) }
{
    let chunk = grid.chunk_at(axis, index)?;
    let origin = grid.origin(axis, chunk).ok()??;
    Some(index - origin)
}

// The number of chunks that hold `extent` indices from `start` on.
pub(crate) fn chunk_number<G: ChunkGrid>(
    grid: &G,
    axis: usize,
    start: u64,
    extent: u64,
) -> Option<u64>
    requires { (1 ≤ extent) × (start + extent < 2 ^ 64) }
    ensures { result ≡ asked (G.axes grid.now) axis (λ x. chunks_between (chunk_of x start) (chunk_of x (start + extent - 1))) }
{
    let first = grid.chunk_at(axis, start)?;
    let last = grid.chunk_at(axis, start + extent - 1)?;
    Some(last - first + 1)
}

// Whether an index is in bounds on an axis.
pub(crate) fn axis_inbounds<G: ChunkGrid>(grid: &G, axis: usize, index: u64) -> bool
    ensures { result ≡ axis_inbounds index (slice_get (G.axes grid.now) axis) }
{
    grid.chunk_at(axis, index).is_some()
        && grid
            .size(axis)
            .is_some_and(|size| size == 0 || index < size)
}
