ghost use Rattle.std.specs.Prelude.{◌≡◌, ◌≤◌, false, ◌++◌, length, drop};
ghost use Rattle.edges.specs.Runs.{runs_of, has_zero};
ghost use Rattle.edges.specs.Answers.{runs_answer, compress_answer, counted, placed, Shortest};

use crate::fault::{Cause, Fault, Layer};
use crate::group::Group;
use crate::length::{Edge, RunCount};
use crate::table::Run;

// How many runs the edges make; a 0 is refused.
fn number_of_runs(edges: &[u64]) -> Result<usize, Fault>
    ensures { result ≡ runs_answer edges.now }
{
    let [first, rest @ ..] = edges else {
        return Ok(0);
    };
    let mut edge = Edge::new(*first)?;
    let mut number = 1;
    for length in rest {
        let next = Edge::new(*length)?;
        if next != edge {
            number += 1;
        }
        edge = next;
    }
    Ok(number)
}

// Writes the runs of the edges to the front of the place.
fn write_runs(edges: &[u64], place: &mut [Run])
    requires edges { has_zero edges.now ≡ false }
    requires room { length (runs_of edges.now) ≤ length place.old }
    ensures { place.new ≡ runs_of edges.now ++ drop (length (runs_of edges.now)) place.old }
{
    let [first, rest @ ..] = edges else {
        return;
    };
    let mut group = Group::one(Edge { number: *first });
    // Counted by hand: a place is written only where a group ends.
    let mut at = 0;
    for next in rest {
        if *next == group.edge.get() {
            group.count = RunCount {
                number: group.count.get() + 1,
            };
        } else {
            place[at] = Run::from(group);
            at += 1;
            group = Group::one(Edge { number: *next });
        }
    }
    place[at] = Run::from(group);
}

// Joins equal neighbours among the edges into runs, and answers the number of runs.
pub fn compress(edges: &[u64], place: &mut [Run]) -> Result<usize, Fault>
    ensures answer { result ≡ counted (compress_answer edges.now (length place.old)) }
    ensures after { place.new ≡ placed (compress_answer edges.now (length place.old)) place.old }
    ensures shortest { Shortest edges.now result place.new }
{
    let number = number_of_runs(edges)?;
    if number > place.len() {
        return Err(Fault::new(Cause::Short, Layer::Edges));
    }
    write_runs(edges, place);
    Ok(number)
}
