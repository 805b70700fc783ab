ghost use Rattle.std.specs.Prelude.{◌≡◌, ◌<◌, ◌≤◌, length};
ghost use Rattle.memory_stores.specs.Extents.{capped, flat_limit};
ghost use Rattle.memory_stores.specs.Laid.{IsRow};
ghost use Rattle.memory_stores.specs.Meanings.{flat_means, flat_sound, new_flat, marks_cleared, with_chunk};

use crate::extent::{capped, whole_chunks};
use crate::row::{clear, row};
use edges::Fault;
use std::ops::Range;
use stores::{Element, ReadStore, WriteStore, in_range, in_store};

// A store with a row of values and a mark for each chunk: the chunk is present where the mark is
// set. Both lie in memory that the caller supplies, so they are two slices.
#[derive(Drop)]
pub struct Flat<'a, E> {
    values: &'a mut [E],
    marks: &'a mut [bool],
    width: u64,
}

impl<'a, E: Element> Flat<'a, E> {
    // The store over this memory, with no chunk present.
    pub fn new(values: &'a mut [E], marks: &'a mut [bool], width: u64) -> Self
        ensures held { flat_means E.Element.blank result ≡ new_flat E.Element.blank (length values.old) (length marks.old) width }
        ensures values { result.values.now ≡ values.old }
        ensures marks { result.marks.now ≡ marks_cleared (flat_limit width (length values.old) (length marks.old)) marks.old }
    {
        let limit = flat_limit(width, values.len(), marks.len());
        marks[..limit as usize].fill(false);
        Flat {
            values,
            marks,
            width,
        }
    }

    // Where the values of a chunk lie.
    fn places(&self, chunk: u64) -> Range<usize>
        requires { chunk < (flat_means E.Element.blank self.now).limit }
        ensures row { IsRow chunk (capped self.now.width) result }
        ensures within { result.end ≤ length self.now.values.now }
    {
        row(chunk, self.width())
    }

    // Makes a chunk present. Where it was absent, every value of it is put to fill.
    fn make_present(&mut self, chunk: u64)
        requires { chunk < (flat_means E.Element.blank self.old).limit }
        ensures { flat_means E.Element.blank self.new ≡ with_chunk (flat_means E.Element.blank self.old) chunk }
    {
        if self.marks[chunk as usize] {
            return;
        }
        self.marks[chunk as usize] = true;
        let places = self.places(chunk);
        clear(&mut self.values[places]);
    }
}

// The chunks for which there are a row of values and a mark.
fn flat_limit(width: u64, values: usize, marks: usize) -> u64
    ensures { result ≡ flat_limit width values marks }
{
    (marks as u64).min(whole_chunks(width, values))
}

impl<'a, E: Element> ReadStore for Flat<'a, E> {
    type Item = E;

    ghost held = { λ s. flat_means E.Element.blank s };

    ghost sound = { λ s. flat_sound E.Element.blank s.values.now s.marks.now s.width };

    fn fill(&self) -> E {
        E::fill()
    }

    fn limit(&self) -> u64 {
        flat_limit(self.width, self.values.len(), self.marks.len())
    }

    fn width(&self) -> u64 {
        capped(self.width)
    }

    fn slots(&self) -> u64 {
        self.limit()
    }

    fn free(&self) -> u64 {
        let limit = self.limit() as usize;
        // Counted by hand: `count` after `filter` takes two to three times as long.
        let mut free = 0;
        for mark in &self.marks[..limit] {
            if !*mark {
                free += 1;
            }
        }
        free
    }

    fn present(&self, chunk: u64) -> Result<bool, Fault> {
        in_range(chunk, self.limit())?;
        Ok(self.marks[chunk as usize])
    }

    fn get(&self, chunk: u64, place: u64) -> Result<E, Fault> {
        in_store(chunk, self.limit(), place, self.width())?;
        if self.marks[chunk as usize] {
            Ok(self.values[self.places(chunk)][place as usize])
        } else {
            Ok(E::fill())
        }
    }
}

impl<'a, E: Element> WriteStore for Flat<'a, E> {
    fn put(&mut self, chunk: u64, place: u64, value: E) -> Result<(), Fault> {
        in_store(chunk, self.limit(), place, self.width())?;
        self.make_present(chunk);
        let places = self.places(chunk);
        self.values[places][place as usize] = value;
        Ok(())
    }

    fn erase(&mut self, chunk: u64) -> Result<bool, Fault> {
        let was = self.present(chunk)?;
        self.marks[chunk as usize] = false;
        Ok(was)
    }
}
