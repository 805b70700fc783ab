ghost use Rattle.std.specs.Prelude.{◌≡◌, min, [], ◌∷◌};
ghost use Rattle.own_grid.specs.DoublingAxes.{doubling, doubling_axes, doubling_grid_lawful};

use crate::doubling::Doubling;
use edges::{Edge, Fault};
use grids::{ChunkGrid, fits_by};

impl Doubling {
    // The grid with so many chunks, at most 63.
    pub fn new(chunks: u32) -> Doubling
        ensures { doubling_axes result ≡ doubling (min chunks 63) ∷ [] }
    {
        Doubling {
            number: chunks.min(63),
        }
    }
}

impl ChunkGrid for Doubling {
    ghost axes = { doubling_axes };

    ghost lawful = { doubling_grid_lawful };

    fn dimensionality(&self) -> usize {
        1
    }

    fn size(&self, axis: usize) -> Option<u64> {
        (axis == 0).then(|| 2u64.pow(self.number) - 1)
    }

    fn chunks(&self, axis: usize) -> Option<u64> {
        (axis == 0).then(|| u64::from(self.number))
    }

    fn edge(&self, axis: usize, chunk: u64) -> Option<Edge> {
        let there = axis == 0 && chunk < u64::from(self.number);
        there.then(|| Edge {
            number: 2u64.pow(chunk as u32),
        })
    }

    fn origin(&self, axis: usize, chunk: u64) -> Result<Option<u64>, Fault> {
        // `?` would hand up a refusal here, and no absence.
        let Some(edge) = self.edge(axis, chunk) else {
            return Ok(None);
        };
        Ok(Some(edge.get() - 1))
    }

    fn chunk_at(&self, axis: usize, index: u64) -> Option<u64> {
        if axis != 0 {
            return None;
        }
        let chunk = (0..self.number).find(|chunk| index < 2u64.pow(chunk + 1) - 1)?;
        Some(u64::from(chunk))
    }

    fn fits(&self, limit: u64, width: u64) -> bool {
        let counts = [u64::from(self.number)];
        let longest = [2u64.pow(self.number.saturating_sub(1))];
        fits_by(&counts, &longest, limit, width)
    }
}
