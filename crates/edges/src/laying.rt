ghost use Rattle.std.specs.Prelude.{◌≡◌, ◌+◌, ◌*◌, ◌^◌, ◌<◌, length, replicate};
ghost use Rattle.edges.specs.Runs.{offsets};
ghost use Rattle.edges.specs.Answers.{number_answer, lay_answer, counted, placed, Laid};

use crate::fault::{Cause, Fault, Layer};
use crate::group::Group;
use crate::length::{Edge, RunCount};
use crate::table::{OffsetSize, Run};

// How many edges the runs stand for; a 0 in any run is refused, and then a sum above 2^64 - 1.
fn number_of_edges(runs: &[Run]) -> Result<u64, Fault>
    ensures { result ≡ number_answer runs.now }
{
    let mut sum: u128 = 0;
    let mut number: u64 = 0;
    for run in runs {
        let Group { edge, count } = Group::try_from(*run)?;
        sum = sum.saturating_add(edge.get() as u128 * count.get() as u128);
        number = number.saturating_add(count.get());
    }
    if sum > u64::MAX as u128 {
        return Err(Fault::new(Cause::Overflow, Layer::Edges));
    }
    Ok(number)
}

// Fills the place with edges of one length, from an offset on.
fn lay_run(place: &mut [OffsetSize], offset: u64, edge: Edge)
    requires { offset + edge.number * length place.old < 2 ^ 64 }
    ensures { place.new ≡ offsets offset (replicate (length place.old) edge.number) }
{
    let mut next = offset;
    for row in place.iter_mut() {
        *row = OffsetSize {
            offset: next,
            size: edge.get(),
        };
        next += edge.get();
    }
}

// Lays the runs one after another into the table, and answers the number of entries.
pub fn lay(runs: &[Run], table: &mut [OffsetSize]) -> Result<usize, Fault>
    ensures answer { result ≡ counted (lay_answer runs.now (length table.old)) }
    ensures after { table.new ≡ placed (lay_answer runs.now (length table.old)) table.old }
    ensures laid { Laid runs.now result table.new }
{
    let entries = number_of_edges(runs)? as usize;
    if entries > table.len() {
        return Err(Fault::new(Cause::Short, Layer::Edges));
    }
    // The place is counted by hand: where `split_at_mut` gives the parts of the table one after
    // another, no proof knows what the table holds afterwards.
    let mut at = 0;
    let mut offset = 0;
    for run in runs {
        // As `Group::try_from` takes a run apart; no 0 is left here, so nothing is refused.
        let (length, number) = match *run {
            Run::Single(length) => (length, 1),
            Run::Repeated(length, number) => (length, number),
        };
        let edge = Edge { number: length };
        let count = RunCount { number };
        let end = at + count.get() as usize;
        lay_run(&mut table[at..end], offset, edge);
        offset += edge.get() * count.get();
        at = end;
    }
    Ok(entries)
}
