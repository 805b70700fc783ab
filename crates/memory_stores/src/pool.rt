ghost use Rattle.std.specs.Prelude.{◌≡◌, ◌<◌, ◌≤◌, Some, Ok, Err, length, IfOk, MatchResult};
ghost use Rattle.stores.specs.Held.{Kept};
ghost use Rattle.memory_stores.specs.Entries.{slot_of};
ghost use Rattle.memory_stores.specs.Extents.{capped};
ghost use Rattle.memory_stores.specs.Laid.{IsRow};
ghost use Rattle.memory_stores.specs.Meanings.{slots_in, pool_means, pool_sound, new_pool, room_answer, with_chunk};

use crate::directory::{Directory, Entry};
use crate::extent::{capped, whole_widths};
use crate::row::{clear, row};
use edges::{Cause, Fault, Layer};
use std::ops::Range;
use stores::{Element, ReadStore, WriteStore, in_range, in_store};

// The most slots of a pool.
const MOST_SLOTS: usize = 256;

// A store with fewer rows of values than chunks: a present chunk lies in a slot, and the entries
// say in which. They are a fixed table, since there is no heap.
#[derive(Drop)]
pub struct Pool<'a, E> {
    values: &'a mut [E],
    entries: [Entry; MOST_SLOTS],
    width: u64,
    limit: u64,
}

impl<'a, E: Element> Pool<'a, E> {
    // The store over this memory, with no chunk present.
    pub fn new(values: &'a mut [E], width: u64, limit: u64) -> Self
        ensures held { pool_means E.Element.blank result ≡ new_pool E.Element.blank (length values.old) width limit }
        ensures values { result.values.now ≡ values.old }
    {
        Pool {
            values,
            entries: [Entry { chunk: None }; MOST_SLOTS],
            width,
            limit,
        }
    }

    // The entries of the slots.
    fn directory(&self) -> Directory<'_>
        ensures entries { result.entries.now ≡ slots_in self.now }
        ensures limit { result.limit ≡ (pool_means E.Element.blank self.now).limit }
    {
        let slots = self.slots() as usize;
        Directory {
            entries: &self.entries[..slots],
            limit: self.limit(),
        }
    }

    // Where the values of a slot lie.
    fn places(&self, slot: usize) -> Range<usize>
        requires { slot < (pool_means E.Element.blank self.now).slots }
        ensures row { IsRow slot (capped self.now.width) result }
        ensures within { result.end ≤ length self.now.values.now }
    {
        row(slot as u64, self.width())
    }

    // The slot of a chunk. An absent chunk takes the lowest slot that holds none, and every value of
    // it is put to fill.
    fn slot_for(&mut self, chunk: u64) -> Result<usize, Fault>
        requires { chunk < (pool_means E.Element.blank self.old).limit }
        ensures answer { MatchResult result (λ _. Ok tt ≡ room_answer (pool_means E.Element.blank self.old) chunk) (λ e. Err e ≡ room_answer (pool_means E.Element.blank self.old) chunk) }
        ensures slot { IfOk result (λ slot. slot_of (slots_in self.new) chunk ≡ Some slot) }
        ensures after { IfOk result (λ _. pool_means E.Element.blank self.new ≡ with_chunk (pool_means E.Element.blank self.old) chunk) }
        ensures refused { Kept result self.old self.new }
    {
        let directory = self.directory();
        if let Some(slot) = directory.slot_of(chunk) {
            return Ok(slot);
        }
        let slot = directory
            .vacant()
            .ok_or(Fault::new(Cause::Full, Layer::Store))?;
        let entry = &mut self.entries[slot];
        entry.chunk = Some(chunk);
        let places = self.places(slot);
        clear(&mut self.values[places]);
        Ok(slot)
    }
}

impl<'a, E: Element> ReadStore for Pool<'a, E> {
    type Item = E;

    ghost held = { λ s. pool_means E.Element.blank s };

    ghost sound = { λ s. pool_sound E.Element.blank s.values.now s.entries s.width s.limit };

    fn fill(&self) -> E {
        E::fill()
    }

    fn limit(&self) -> u64 {
        if self.width == 0 {
            0
        } else {
            capped(self.limit)
        }
    }

    fn width(&self) -> u64 {
        capped(self.width)
    }

    fn slots(&self) -> u64 {
        (MOST_SLOTS as u64).min(whole_widths(capped(self.width), self.values.len()))
    }

    fn free(&self) -> u64 {
        self.slots() - self.directory().taken()
    }

    fn present(&self, chunk: u64) -> Result<bool, Fault> {
        in_range(chunk, self.limit())?;
        Ok(self.directory().slot_of(chunk).is_some())
    }

    fn get(&self, chunk: u64, place: u64) -> Result<E, Fault> {
        in_store(chunk, self.limit(), place, self.width())?;
        match self.directory().slot_of(chunk) {
            Some(slot) => Ok(self.values[self.places(slot)][place as usize]),
            None => Ok(E::fill()),
        }
    }
}

impl<'a, E: Element> WriteStore for Pool<'a, E> {
    fn put(&mut self, chunk: u64, place: u64, value: E) -> Result<(), Fault> {
        in_store(chunk, self.limit(), place, self.width())?;
        let slot = self.slot_for(chunk)?;
        let places = self.places(slot);
        self.values[places][place as usize] = value;
        Ok(())
    }

    fn erase(&mut self, chunk: u64) -> Result<bool, Fault> {
        in_range(chunk, self.limit())?;
        let slots = self.slots() as usize;
        let mut was = false;
        for entry in &mut self.entries[..slots] {
            if entry.chunk == Some(chunk) {
                entry.chunk = None;
                was = true;
            }
        }
        Ok(was)
    }
}
