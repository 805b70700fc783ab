ghost use Rattle.std.specs.Prelude.{◌≡◌, ℕ, Ok};
ghost use Rattle.axes.specs.Axes.{chunk_of};
ghost use Rattle.grids.specs.Answers.{lengths, origin_at};
ghost use Rattle.table_grids.specs.Spans.{longest_of};
ghost use Rattle.table_grids.specs.Views.{span_axis, meaning, longest_edge};

use crate::span::Span;
use crate::table_axis::TableAxis;
use edges::{Cause, Edge, Fault, Layer};

impl<'a> Span<'a> {
    // The longest edge, 0 where there is none.
    fn longest(self) -> u64
        ensures { result ≡ longest_of self.entry.entries.now }
    {
        self.entries
            .iter()
            .fold(0, |longest, row| row.size.max(longest))
    }

    // The edge of a chunk.
    fn edge(self, chunk: u64) -> Option<Edge>
        ensures { lengths result ≡ (span_axis self.entry).edge chunk }
    {
        let row = self.entries.get(chunk as usize)?;
        Some(Edge { number: row.size })
    }

    // Where a chunk begins.
    fn origin(self, chunk: u64) -> Option<u64>
        ensures { (a : ℕ) → Ok result ≡ origin_at a chunk (span_axis self.entry) }
    {
        self.entries.get(chunk as usize).map(|row| row.offset)
    }

    // The chunk that contains an index. A rule of the library: the span is halved by a loop that yields the chunk by
    // `break`, and by no search of std.
    fn chunk_at(self, index: u64) -> Option<u64>
        ensures { result ≡ chunk_of (span_axis self.entry) index }
    {
        let mut low = 0;
        let mut high = self.entries.len();
        loop {
            if low >= high {
                break None;
            }
            let middle = low + (high - low) / 2;
            let found = self.entries[middle];
            if index < found.offset {
                high = middle;
            } else if index - found.offset < found.size {
                break Some(middle as u64);
            } else {
                low = middle + 1;
            }
        }
    }
}

// An axis of equal edges answers as one of a regular grid does: a line for each question, in crates that do not know each
// other.
impl<'a> TableAxis<'a> {
    // The number of chunks.
    pub(crate) fn chunks(self) -> u64
        ensures { result ≡ (meaning self.entry).count }
    {
        match self {
            TableAxis::Equal { size, edge } => size.div_ceil(edge.get()),
            TableAxis::Listed(span) => span.entries.len() as u64,
        }
    }

    // The longest edge.
    pub(crate) fn longest(self) -> u64
        ensures { result ≡ longest_edge self.entry }
    {
        match self {
            TableAxis::Equal { size: _, edge } => edge.get(),
            TableAxis::Listed(span) => span.longest(),
        }
    }

    // The edge of a chunk.
    pub(crate) fn edge(self, chunk: u64) -> Option<Edge>
        ensures { lengths result ≡ (meaning self.entry).edge chunk }
    {
        match self {
            TableAxis::Equal { size: _, edge } => Some(edge),
            TableAxis::Listed(span) => span.edge(chunk),
        }
    }

    // Where a chunk begins.
    pub(crate) fn origin(self, axis: u8, chunk: u64) -> Result<Option<u64>, Fault>
        ensures { result ≡ origin_at axis chunk (meaning self.entry) }
    {
        match self {
            TableAxis::Equal { size: _, edge } => {
                let origin = chunk
                    .checked_mul(edge.get())
                    .ok_or(Fault::on_axis(Cause::Overflow, Layer::Grid, axis))?;
                Ok(Some(origin))
            }
            TableAxis::Listed(span) => Ok(span.origin(chunk)),
        }
    }

    // The chunk that contains an index.
    pub(crate) fn chunk_at(self, index: u64) -> Option<u64>
        ensures { result ≡ chunk_of (meaning self.entry) index }
    {
        match self {
            TableAxis::Equal { size: _, edge } => Some(index / edge.get()),
            TableAxis::Listed(span) => span.chunk_at(index),
        }
    }
}
