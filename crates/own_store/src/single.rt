ghost use Rattle.std.specs.Prelude.{◌≡◌};
ghost use Rattle.own_store.specs.Single.{single_held, single_sound, new_single, readings};

use crate::moisture::Moisture;
use edges::Fault;
use stores::{Element, ReadStore, WriteStore, in_range, in_store};

// A store with one chunk, which has values while it is present.
#[derive(Drop)]
pub struct Single {
    values: Option<[Moisture; 4]>,
}

impl Single {
    // The store with no chunk present.
    pub fn new() -> Single
        ensures { single_held result.values ≡ new_single }
    {
        Single { values: None }
    }

    // What the places of the chunk read as.
    fn readings(&self) -> [Moisture; 4]
        ensures { result ≡ readings self.now.values }
    {
        self.values.unwrap_or([Moisture::fill(); 4])
    }
}

impl ReadStore for Single {
    type Item = Moisture;

    ghost held = { λ s. single_held s.values };

    ghost sound = { λ s. single_sound s.values };

    fn fill(&self) -> Moisture {
        Moisture::fill()
    }

    fn limit(&self) -> u64 {
        1
    }

    fn width(&self) -> u64 {
        4
    }

    fn slots(&self) -> u64 {
        1
    }

    fn free(&self) -> u64 {
        if self.values.is_some() { 0 } else { 1 }
    }

    fn present(&self, chunk: u64) -> Result<bool, Fault> {
        in_range(chunk, 1)?;
        Ok(self.values.is_some())
    }

    fn get(&self, chunk: u64, place: u64) -> Result<Moisture, Fault> {
        in_store(chunk, 1, place, 4)?;
        Ok(self.readings()[place as usize])
    }
}

impl WriteStore for Single {
    fn put(&mut self, chunk: u64, place: u64, value: Moisture) -> Result<(), Fault> {
        in_store(chunk, 1, place, 4)?;
        let mut values = self.readings();
        values[place as usize] = value;
        self.values = Some(values);
        Ok(())
    }

    fn erase(&mut self, chunk: u64) -> Result<bool, Fault> {
        in_range(chunk, 1)?;
        Ok(self.values.take().is_some())
    }
}
