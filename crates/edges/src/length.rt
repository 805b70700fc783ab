ghost use Rattle.std.specs.Prelude.{◌≡◌, ◌≤◌};
ghost use Rattle.edges.specs.Refusals.{mapped, positive_answer};

use crate::fault::{Cause, Fault, Layer};

// A number that is never 0. It is not std's type of this name, since a 0 is refused by number here.
#[derive(Clone, Copy, PartialEq, Eq, Debug)]
pub struct NonZeroU64 {
    pub number: u64,
    ghost positive: { 1 ≤ number },
}

// An edge length.
pub type Edge = NonZeroU64;

// How often a run repeats its edge.
pub type RunCount = NonZeroU64;

impl NonZeroU64 {
    // This number; 0 is refused.
    pub fn new(number: u64) -> Result<NonZeroU64, Fault>
        ensures { mapped (λ n. n.number) result ≡ positive_answer number }
    {
        if number == 0 {
            return Err(Fault::new(Cause::Zero, Layer::Edges));
        }
        Ok(NonZeroU64 { number })
    }

    pub fn get(self) -> u64
        ensures { result ≡ self.number }
    {
        self.number
    }
}
