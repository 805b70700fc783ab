ghost use Rattle.std.specs.Prelude.{◌≡◌, ℕ, ◌<◌, ◌≤◌, length, slice_index};
ghost use Rattle.grids.specs.Places.{Answer, Gives};
ghost use Rattle.grids.specs.Answers.{gathered, both};
ghost use Rattle.grids.specs.Gathers.{front, Answering};

use edges::Fault;

// What the axes answer together: absent where an axis is absent, else the first refusal, else the numbers. There is no
// heap for a list: the numbers of the axes are the first of eight, and who asked knows how many axes there are. Every list
// here is at most eight long, which each function says in a word; a type for that would be made and taken apart at each call.
pub(crate) type Gathered = Result<Option<[u64; 8]>, Fault>;

// Asks each axis about its number.
pub(crate) fn gather<F: Fn(usize, u64) -> Result<Option<u64>, Fault>>(
    numbers: &[u64],
    ask: F,
) -> Gathered
    requires few { length numbers.now ≤ 8 }
    requires can_ask { (a : ℕ) → a < length numbers.now → F.pre ask a (slice_index numbers.now a) }
    ensures { (f : ℕ → Answer ℕ) → Answering (F.post ask) numbers.now f → front (length numbers.now) result ≡ gathered f (length numbers.now) }
{
    let mut values = [0; 8];
    let mut refused = Ok(());
    for (axis, number) in numbers.iter().enumerate() {
        match ask(axis, *number) {
            Ok(Some(value)) => values[axis] = value,
            Ok(None) => return Ok(None),
            Err(fault) => refused = refused.and(Err(fault)),
        }
    }
    refused?;
    Ok(Some(values))
}

// Writes an answer to a place, where it is there.
pub(crate) fn write(found: Gathered, place: &mut [u64]) -> Result<Option<()>, Fault>
    requires { length place.old ≤ 8 }
    ensures { Gives place.old place.new result (front (length place.old) found) }
{
    // `?` serves refusals here, so an absence is answered by hand.
    let Some(values) = found? else {
        return Ok(None);
    };
    place.copy_from_slice(&values[..place.len()]);
    Ok(Some(()))
}

// Writes two answers to two places, where both are there; what the second lacks or refuses comes first.
pub(crate) fn write_both(
    firsts: Gathered,
    seconds: Gathered,
    first: &mut [u64],
    second: &mut [u64],
) -> Result<Option<()>, Fault>
    requires first { length first.old ≤ 8 }
    requires second { length second.old ≤ 8 }
    ensures { Gives (first.old, second.old) (first.new, second.new) result (both (front (length first.old) firsts) (front (length second.old) seconds)) }
{
    // `?` serves refusals here, so an absence is answered by hand.
    let Some(values) = seconds? else {
        return Ok(None);
    };
    let Some(()) = write(firsts, first)? else {
        return Ok(None);
    };
    second.copy_from_slice(&values[..second.len()]);
    Ok(Some(()))
}
