ghost use Rattle.std.specs.Prelude.{◌≡◌};
ghost use Rattle.edges.specs.Refusals.{mapped};
ghost use Rattle.edges.specs.Runs.{run_of};
ghost use Rattle.edges.specs.Answers.{parts_answer};

use crate::fault::Fault;
use crate::length::{Edge, RunCount};
use crate::table::Run;

// Neighbouring chunks of one edge, and how many they are.
#[derive(Clone, Copy)]
pub(crate) struct Group {
    pub(crate) edge: Edge,
    pub(crate) count: RunCount,
}

impl Group {
    // One chunk.
    pub(crate) fn one(edge: Edge) -> Group
        ensures edge { result.edge.number ≡ edge.number }
        ensures count { result.count.number ≡ 1 }
    {
        Group {
            edge,
            count: RunCount { number: 1 },
        }
    }
}

// A single edge, or more of them repeated.
impl From<Group> for Run {
    ghost from_gives = { λ g r. r ≡ run_of g.edge.number g.count.number };

    fn from(group: Group) -> Run {
        match group.count.get() {
            number if number > 1 => Run::Repeated(group.edge.get(), number),
            _ => Run::Single(group.edge.get()),
        }
    }
}

// The edge and the count of a run; a 0 is refused.
impl TryFrom<Run> for Group {
    type Error = Fault;

    ghost try_from_gives = { λ r g. mapped (λ p. (p.edge.number, p.count.number)) g ≡ parts_answer r };

    fn try_from(run: Run) -> Result<Group, Fault> {
        match run {
            Run::Single(edge) => Ok(Group::one(Edge::new(edge)?)),
            Run::Repeated(edge, count) => Ok(Group {
                edge: Edge::new(edge)?,
                count: RunCount::new(count)?,
            }),
        }
    }
}
