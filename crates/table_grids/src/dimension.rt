// What is said of one axis: one edge for every chunk, or a span of a table, by its first entry and its number of entries.
#[derive(Clone, Copy)]
pub enum Dimension {
    Fixed(u64),
    Varying { first: usize, number: usize },
}
