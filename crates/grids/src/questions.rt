ghost use Rattle.std.specs.Prelude.{◌≡◌, ℕ, ◌^◌, ◌<◌, List, [], ◌∷◌, length, slice_index};
ghost use Rattle.axes.specs.Axes.{Axis};
ghost use Rattle.grids.specs.Places.{Answer, Gives, sized};
ghost use Rattle.grids.specs.Answers.{array_shape_answer, grid_shape_answer, chunk_shape_answer, chunk_origin_answer, chunk_indices_answer, chunk_element_indices_answer, subset_answer, chunks_in_answer, inbounds, each_answer, list_answer, edge_answer, origin_answer};
ghost use Rattle.grids.specs.Gathers.{Asks};
ghost use Rattle.grids.specs.Found.{AxisByAxis, Tells, FoundAt, PlacedAt};

use crate::axis::{axis_inbounds, chunk_number, edge_length, element, end};
use crate::gather::{gather, write, write_both};
use crate::grid::ChunkGrid;
use crate::regions::{ends_fit, has_zero};
use edges::{Cause, Fault, Layer};

// Each question tests the lengths of what it is given, two to four of them; a function for that would take a list of lengths.

// Asks each axis, whatever the place holds.
fn answer_shape<G: ChunkGrid, F: Fn(usize, u64) -> Result<Option<u64>, Fault>>(
    grid: &G,
    place: &mut [u64],
    ask: F,
) -> Result<Option<()>, Fault>
    requires { (a k : ℕ) → a < length (G.axes grid.now) → k < 2 ^ 64 → F.pre ask a k }
    ensures { (f : List Axis → ℕ → ℕ → Answer ℕ) → Asks (F.post ask) (G.axes grid.now) f → Gives place.old place.new result (sized (length place.old ∷ []) (length (G.axes grid.now)) (each_answer f (G.axes grid.now) place.old)) }
{
    if place.len() != grid.dimensionality() {
        return Err(Fault::new(Cause::Length, Layer::Grid));
    }
    write(gather(place, ask), place)
}

// Asks each axis about its number.
fn answer_list<G: ChunkGrid, F: Fn(usize, u64) -> Result<Option<u64>, Fault>>(
    grid: &G,
    numbers: &[u64],
    place: &mut [u64],
    ask: F,
) -> Result<Option<()>, Fault>
    requires { (a k : ℕ) → a < length (G.axes grid.now) → k < 2 ^ 64 → F.pre ask a k }
    ensures { (f : List Axis → ℕ → ℕ → Answer ℕ) → Asks (F.post ask) (G.axes grid.now) f → Gives place.old place.new result (list_answer f (G.axes grid.now) numbers.now (length place.old)) }
{
    let number = grid.dimensionality();
    if numbers.len() != number || place.len() != number {
        return Err(Fault::new(Cause::Length, Layer::Grid));
    }
    write(gather(numbers, ask), place)
}

// The size of each axis.
pub fn array_shape<G: ChunkGrid>(grid: &G, place: &mut [u64]) -> Result<Option<()>, Fault>
    ensures { Gives place.old place.new result (array_shape_answer (G.axes grid.now) (length place.old)) }
{
    answer_shape(grid, place, |axis, _| Ok(grid.size(axis)))
}

// The number of chunks on each axis.
pub fn grid_shape<G: ChunkGrid>(grid: &G, place: &mut [u64]) -> Result<Option<()>, Fault>
    ensures { Gives place.old place.new result (grid_shape_answer (G.axes grid.now) (length place.old)) }
{
    answer_shape(grid, place, |axis, _| Ok(grid.chunks(axis)))
}

// The edges of a chunk.
pub fn chunk_shape<G: ChunkGrid>(
    grid: &G,
    chunk: &[u64],
    place: &mut [u64],
) -> Result<Option<()>, Fault>
    ensures answer { Gives place.old place.new result (chunk_shape_answer (G.axes grid.now) chunk.now (length place.old)) }
    ensures by_axis { AxisByAxis (λ a. edge_answer (G.axes grid.now) a (slice_index chunk.now a)) (length (G.axes grid.now)) result place.new }
{
    answer_list(
        grid,
        chunk,
        place,
        |axis, chunk| Ok(edge_length(grid, axis, chunk)),
    )
}

// Where a chunk begins, on each axis.
pub fn chunk_origin<G: ChunkGrid>(
    grid: &G,
    chunk: &[u64],
    place: &mut [u64],
) -> Result<Option<()>, Fault>
    ensures answer { Gives place.old place.new result (chunk_origin_answer (G.axes grid.now) chunk.now (length place.old)) }
    ensures by_axis { AxisByAxis (λ a. origin_answer (G.axes grid.now) a (slice_index chunk.now a)) (length (G.axes grid.now)) result place.new }
{
    answer_list(grid, chunk, place, |axis, chunk| grid.origin(axis, chunk))
}

// The chunk that contains the index, on each axis.
pub fn chunk_indices<G: ChunkGrid>(
    grid: &G,
    indices: &[u64],
    place: &mut [u64],
) -> Result<Option<()>, Fault>
    ensures answer { Gives place.old place.new result (chunk_indices_answer (G.axes grid.now) indices.now (length place.old)) }
    ensures found { Tells FoundAt (G.axes grid.now) indices.now result place.new }
{
    answer_list(
        grid,
        indices,
        place,
        |axis, index| Ok(grid.chunk_at(axis, index)),
    )
}

// The index less the origin of its chunk, on each axis.
pub fn chunk_element_indices<G: ChunkGrid>(
    grid: &G,
    indices: &[u64],
    place: &mut [u64],
) -> Result<Option<()>, Fault>
    ensures answer { Gives place.old place.new result (chunk_element_indices_answer (G.axes grid.now) indices.now (length place.old)) }
    ensures placed { Tells PlacedAt (G.axes grid.now) indices.now result place.new }
{
    answer_list(
        grid,
        indices,
        place,
        |axis, index| Ok(element(grid, axis, index)),
    )
}

// Where a chunk begins and where it ends, on each axis.
pub fn subset<G: ChunkGrid>(
    grid: &G,
    chunk: &[u64],
    origins: &mut [u64],
    ends: &mut [u64],
) -> Result<Option<()>, Fault>
    ensures { Gives (origins.old, ends.old) (origins.new, ends.new) result (subset_answer (G.axes grid.now) chunk.now (length origins.old) (length ends.old)) }
{
    let number = grid.dimensionality();
    if chunk.len() != number || origins.len() != number || ends.len() != number {
        return Err(Fault::new(Cause::Length, Layer::Grid));
    }
    write_both(
        gather(chunk, |axis, chunk| grid.origin(axis, chunk)),
        gather(chunk, |axis, chunk| end(grid, axis, chunk)),
        origins,
        ends,
    )
}

// Whether the lengths match and each index is in a chunk, and below the size unless that is 0.
pub fn array_indices_inbounds<G: ChunkGrid>(grid: &G, indices: &[u64]) -> bool
    ensures { result ≡ inbounds (G.axes grid.now) indices.now }
{
    indices.len() == grid.dimensionality()
        && indices
            .iter()
            .enumerate()
            .all(|(axis, index)| axis_inbounds(grid, axis, *index))
}

// The first chunk of a region and the number of its chunks, on each axis.
pub fn chunks_in_array_subset<G: ChunkGrid>(
    grid: &G,
    start: &[u64],
    shape: &[u64],
    firsts: &mut [u64],
    counts: &mut [u64],
) -> Result<Option<()>, Fault>
    ensures { Gives (firsts.old, counts.old) (firsts.new, counts.new) result (chunks_in_answer (G.axes grid.now) start.now shape.now (length firsts.old) (length counts.old)) }
{
    let number = grid.dimensionality();
    if start.len() != number
        || shape.len() != number
        || firsts.len() != number
        || counts.len() != number
    {
        return Err(Fault::new(Cause::Length, Layer::Grid));
    }
    if has_zero(shape) {
        firsts.fill(0);
        counts.fill(0);
        return Ok(Some(()));
    }
    ends_fit(start, shape)?;
    write_both(
        gather(start, |axis, start| Ok(grid.chunk_at(axis, start))),
        gather(
            start,
            |axis, start| Ok(chunk_number(grid, axis, start, shape[axis])),
        ),
        firsts,
        counts,
    )
}
