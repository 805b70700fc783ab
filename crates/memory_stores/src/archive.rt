ghost use Rattle.std.specs.Prelude.{◌≡◌};
ghost use Rattle.memory_stores.specs.Meanings.{archive_held, archive_sound};

use crate::extent::{capped, whole_chunks};
use crate::row::row;
use edges::Fault;
use stores::{Element, ReadStore, in_range, in_store};

// A store for reading only, over values that are held for reading: chunk after chunk, each
// present.
#[derive(Drop)]
pub struct Archive<'a, E> {
    values: &'a [E],
    width: u64,
}

impl<'a, E: Element> Archive<'a, E> {
    pub fn new(values: &'a [E], width: u64) -> Self
        ensures { archive_held E.Element.blank result.values.now result.width ≡ archive_held E.Element.blank values.now width }
    {
        Archive { values, width }
    }
}

impl<'a, E: Element> ReadStore for Archive<'a, E> {
    type Item = E;

    ghost held = { λ s. archive_held E.Element.blank s.values.now s.width };

    ghost sound = { λ s. archive_sound E.Element.blank s.values.now s.width };

    fn fill(&self) -> E {
        E::fill()
    }

    fn limit(&self) -> u64 {
        whole_chunks(self.width, self.values.len())
    }

    fn width(&self) -> u64 {
        capped(self.width)
    }

    fn slots(&self) -> u64 {
        self.limit()
    }

    fn free(&self) -> u64 {
        0
    }

    fn present(&self, chunk: u64) -> Result<bool, Fault> {
        in_range(chunk, self.limit())?;
        Ok(true)
    }

    fn get(&self, chunk: u64, place: u64) -> Result<E, Fault> {
        let width = self.width();
        in_store(chunk, self.limit(), place, width)?;
        Ok(self.values[row(chunk, width)][place as usize])
    }
}
