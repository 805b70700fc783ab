ghost use Rattle.std.specs.Prelude.{◌≡◌, ◌-◌, List, length, Some, Decides};
ghost use Rattle.axes.specs.Axes.{Axis, Lawful, chunk_of};
ghost use Rattle.grids.specs.Answers.{asked, lengths, origin_answer};
ghost use Rattle.axes.specs.Fitting.{Fits};

use edges::{Edge, Fault};

// A chunk grid: it means a list of axes.
pub trait ChunkGrid {
    ghost axes: { Self → List Axis };

    ghost lawful: { (g : Self) → Lawful (axes g) };

    // The number of axes.
    fn dimensionality(&self) -> usize
        ensures { result ≡ length (axes self.now) };

    // The size of an axis.
    fn size(&self, axis: usize) -> Option<u64>
        ensures { result ≡ asked (axes self.now) axis (λ x. Some x.size) };

    // The number of chunks of an axis.
    fn chunks(&self, axis: usize) -> Option<u64>
        ensures { result ≡ asked (axes self.now) axis (λ x. Some x.count) };

    // The edge of a chunk.
    fn edge(&self, axis: usize, chunk: u64) -> Option<Edge>
        ensures { lengths result ≡ asked (axes self.now) axis (λ x. x.edge chunk) };

    // Where a chunk begins.
    fn origin(&self, axis: usize, chunk: u64) -> Result<Option<u64>, Fault>
        ensures { result ≡ origin_answer (axes self.now) axis chunk };

    // The chunk that contains an index.
    fn chunk_at(&self, axis: usize, index: u64) -> Option<u64>
        ensures { result ≡ asked (axes self.now) axis (λ x. chunk_of x index) };

    // Whether there are at most `limit` chunks in the grid shape, each of at most `width` cells.
    fn fits(&self, limit: u64, width: u64) -> bool
        ensures { Decides result (Fits (axes self.now) limit width) };
}
