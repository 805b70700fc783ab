ghost use Rattle.grids.specs.Making.{Makes};
ghost use Rattle.regular_grids.specs.LengthAxes.{length_axes, length_lawful, new_lengths};

use crate::edge_rule::EdgeRule;
use crate::lengths::Lengths;
use edges::{Edge, Fault, Layer};
use grids::{ChunkGrid, fits_by};
use std::marker::PhantomData;

// A grid with a size and an edge on each axis, whose chunks follow a rule.
#[derive(Clone, Copy)]
pub struct LengthGrid<R> {
    lengths: Lengths,
    rule: PhantomData<R>,
}

impl<R: EdgeRule> LengthGrid<R> {
    // The grid with these sizes and edges, or a refusal beside a grid of no axes.
    // A rule of the library: a refused making leaves a grid of no axes. The pair is made here, and nowhere below; a grid
    // over a table makes its own, in a crate apart.
    pub(crate) fn made(
        array_shape: &[u64],
        chunk_shape: &[u64],
    ) -> (LengthGrid<R>, Result<(), Fault>)
        ensures { Makes result.1 (length_axes R.axis result.0.lengths) (new_lengths R.axis array_shape.now chunk_shape.now) }
    {
        let (lengths, made) = match Lengths::new(array_shape, chunk_shape) {
            Ok(lengths) => (lengths, Ok(())),
            Err(fault) => (Lengths::none(), Err(fault)),
        };
        let grid = LengthGrid {
            lengths,
            rule: PhantomData,
        };
        (grid, made)
    }
}

impl<R: EdgeRule> ChunkGrid for LengthGrid<R> {
    ghost axes = { λ g. length_axes R.axis g.lengths };

    ghost lawful = { λ g. length_lawful R.axis R.kept.lawful g.lengths };

    fn dimensionality(&self) -> usize {
        self.lengths.axes().len()
    }

    fn size(&self, axis: usize) -> Option<u64> {
        self.lengths.axis(axis).map(|lengths| lengths.size)
    }

    fn chunks(&self, axis: usize) -> Option<u64> {
        self.lengths.axis(axis).map(|lengths| lengths.chunks())
    }

    fn edge(&self, axis: usize, chunk: u64) -> Option<Edge> {
        R::edge(self.lengths.axis(axis)?, chunk)
    }

    fn origin(&self, axis: usize, chunk: u64) -> Result<Option<u64>, Fault> {
        // `?` would hand up a refusal here, and no absence. A grid over a table has the same lines, in a crate apart.
        match self.lengths.axis(axis) {
            Some(lengths) => R::origin(lengths, axis as u8, chunk),
            None => Ok(None),
        }
    }

    fn chunk_at(&self, axis: usize, index: u64) -> Option<u64> {
        R::chunk_at(self.lengths.axis(axis)?, index)
    }

    fn fits(&self, limit: u64, width: u64) -> bool {
        // Of the axes there are alone: `map` of the places would work out all eight.
        let mut counts = [0; 8];
        let mut longest = [0; 8];
        for (axis, lengths) in self.lengths.axes().iter().enumerate() {
            counts[axis] = lengths.chunks();
            longest[axis] = R::longest(*lengths);
        }
        let number = self.lengths.number;
        fits_by(&counts[..number], &longest[..number], limit, width)
    }
}
