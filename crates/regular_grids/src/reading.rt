ghost use Rattle.std.specs.Prelude.{◌≡◌, take};
ghost use Rattle.std.specs.List.{slice_get};
ghost use Rattle.axes.specs.Axes.{rounded_up};

use crate::lengths::{AxisLengths, Lengths};

impl AxisLengths {
    // The number of chunks.
    pub(crate) fn chunks(self) -> u64
        ensures { result ≡ rounded_up self.size self.edge.number }
    {
        self.size.div_ceil(self.edge.get())
    }
}

impl Lengths {
    // The lengths of each axis.
    pub(crate) fn axes(&self) -> &[AxisLengths]
        ensures { result.now ≡ take self.now.number self.now.places }
    {
        &self.places[..self.number]
    }

    // The lengths of an axis; absent for an axis that is not there.
    pub(crate) fn axis(&self, axis: usize) -> Option<AxisLengths>
        ensures { result ≡ slice_get (take self.now.number self.now.places) axis }
    {
        self.axes().get(axis).copied()
    }
}
