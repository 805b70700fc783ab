ghost use Rattle.std.specs.Prelude.{◌≡◌, ℕ, [], MatchResult};
ghost use Rattle.edges.specs.Refusals.{mapped};
ghost use Rattle.edges.specs.declared.fault.Cause.TheVariants.{Zero};
ghost use Rattle.grids.specs.Places.{refused_at};
ghost use Rattle.axes.specs.Axes.{Axis};
ghost use Rattle.regular_grids.specs.LengthAxes.{length_axes, new_lengths};

use crate::lengths::{AxisLengths, Lengths};
use edges::{Edge, Fault, Layer};
use grids::check_axes;

impl AxisLengths {
    // What stands in a place of no axis.
    fn unused() -> AxisLengths {
        AxisLengths {
            size: 0,
            edge: Edge { number: 1 },
        }
    }

    // The lengths of an axis; an edge of 0 is refused.
    fn new(size: u64, edge: u64, axis: u8) -> Result<AxisLengths, Fault>
        ensures { MatchResult result (λ x. (x.size ≡ size) × (x.edge.number ≡ edge)) (λ f. (edge ≡ 0) × (f ≡ refused_at Zero axis)) }
    {
        let edge = Edge::new(edge).map_err(|fault| Fault::on_axis(fault.cause, Layer::Grid, axis))?;
        Ok(AxisLengths { size, edge })
    }
}

impl Lengths {
    // No axes.
    pub(crate) fn none() -> Lengths
        ensures { (rule : ℕ → ℕ → Axis) → length_axes rule result ≡ [] }
    {
        Lengths {
            number: 0,
            places: [AxisLengths::unused(); 8],
        }
    }

    // These sizes and edges, whatever rule makes an axis from a size and an edge.
    pub(crate) fn new(sizes: &[u64], edges: &[u64]) -> Result<Lengths, Fault>
        ensures { (rule : ℕ → ℕ → Axis) → mapped (length_axes rule) result ≡ new_lengths rule sizes.now edges.now }
    {
        check_axes(sizes.len(), edges.len())?;
        let mut places = [AxisLengths::unused(); 8];
        for (axis, size) in sizes.iter().enumerate() {
            places[axis] = AxisLengths::new(*size, edges[axis], axis as u8)?;
        }
        Ok(Lengths {
            number: sizes.len(),
            places,
        })
    }
}
