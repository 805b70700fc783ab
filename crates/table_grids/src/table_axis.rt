use crate::span::Span;
use edges::Edge;

// An axis over a table, as it was checked: one edge for every chunk, or the entries of a span.
#[derive(Clone, Copy)]
pub(crate) enum TableAxis<'a> {
    Equal { size: u64, edge: Edge },
    Listed(Span<'a>),
}
