ghost use Rattle.std.specs.Prelude.{◌≡◌, ◌<◌, Ok};
ghost use Rattle.stores.specs.Held.{range_answer, place_answer};

use edges::{Cause, Fault, Layer};

// Refusal 11 unless a number is below its bound.
pub fn in_range(number: u64, bound: u64) -> Result<(), Fault>
    ensures answer { result ≡ range_answer number bound }
    ensures below { result ≡ Ok tt → number < bound }
{
    if number >= bound {
        return Err(Fault::new(Cause::Range, Layer::Store));
    }
    Ok(())
}

// Refusal 11 unless a chunk is below the limit, and a place below the width.
pub fn in_store(chunk: u64, limit: u64, place: u64, width: u64) -> Result<(), Fault>
    ensures answer { result ≡ place_answer chunk limit place width }
    ensures below { result ≡ Ok tt → (chunk < limit) × (place < width) }
{
    in_range(chunk, limit)?;
    in_range(place, width)
}
