ghost use Rattle.std.specs.Prelude.{◌≡◌, ◌<◌, length, count_by};
ghost use Rattle.std.specs.List.{range_with_len};
ghost use Rattle.memory_stores.specs.Entries.{slot_of, busy, vacant};

// The chunk that a slot of a pool is used for, if there is one.
#[derive(Clone, Copy)]
pub(crate) struct Entry {
    pub(crate) chunk: Option<u64>,
}

// An entry for each slot of a pool, and the pool's limit. A slot holds a chunk below the limit if
// it is the lowest that is used for it.
#[derive(Clone, Copy)]
pub(crate) struct Directory<'a> {
    pub(crate) entries: &'a [Entry],
    pub(crate) limit: u64,
}

impl<'a> Directory<'a> {
    // The lowest slot that is used for a chunk.
    pub(crate) fn slot_of(&self, chunk: u64) -> Option<usize>
        ensures { result ≡ slot_of self.now.entries.now chunk }
    {
        for (slot, entry) in self.entries.iter().enumerate() {
            if entry.chunk == Some(chunk) {
                return Some(slot);
            }
        }
        None
    }

    // Whether a slot holds a chunk.
    fn busy(&self, slot: usize) -> bool
        requires { slot < length self.now.entries.now }
        ensures { result ≡ busy self.now.entries.now self.now.limit slot }
    {
        match self.entries[slot].chunk {
            Some(chunk) => chunk < self.limit && self.slot_of(chunk) == Some(slot),
            None => false,
        }
    }

    // The lowest slot that holds no chunk.
    pub(crate) fn vacant(&self) -> Option<usize>
        ensures { result ≡ vacant self.now.entries.now self.now.limit }
    {
        (0..self.entries.len()).find(|slot| !self.busy(*slot))
    }

    // The number of slots that hold a chunk.
    pub(crate) fn taken(&self) -> u64
        ensures { result ≡ count_by (busy self.now.entries.now self.now.limit) (range_with_len 0 (length self.now.entries.now)) }
    {
        (0..self.entries.len())
            .filter(|slot| self.busy(*slot))
            .count() as u64
    }
}
