ghost use Rattle.std.specs.Prelude.{◌≡◌, Some};
ghost use Rattle.edges.specs.Refusals.{cause_number, layer_number, refusal, axis_refusal, fault_text};

use std::fmt;

// Why a call declines.
#[derive(Clone, Copy, PartialEq, Eq, Debug)]
pub enum Cause {
    Length = 1,
    Axes = 2,
    Zero = 3,
    Sum = 4,
    Overflow = 5,
    Short = 6,
    Outside = 7,
    Values = 8,
    Full = 9,
    Shut = 10,
    Range = 11,
}

// Where it declines.
#[derive(Clone, Copy, PartialEq, Eq, Debug)]
pub enum Layer {
    Edges = 1,
    Grid = 2,
    Sheet = 3,
    Store = 4,
}

// A refusal. The axis is 255 where none is named: a refusal is three numbers to whoever reads it.
#[derive(Clone, Copy, PartialEq, Eq, Debug)]
pub struct Fault {
    pub cause: Cause,
    pub layer: Layer,
    pub axis: u8,
}

impl From<Cause> for u8 {
    ghost from_gives = { λ c n. n ≡ cause_number c };

    fn from(cause: Cause) -> u8 {
        cause as u8
    }
}

impl From<Layer> for u8 {
    ghost from_gives = { λ l n. n ≡ layer_number l };

    fn from(layer: Layer) -> u8 {
        layer as u8
    }
}

impl Fault {
    // A refusal that names no axis.
    pub fn new(cause: Cause, layer: Layer) -> Fault
        ensures { result ≡ refusal cause layer }
    {
        Fault {
            cause,
            layer,
            axis: 255,
        }
    }

    // A refusal that names an axis.
    pub fn on_axis(cause: Cause, layer: Layer, axis: u8) -> Fault
        ensures { result ≡ axis_refusal cause layer axis }
    {
        Fault { cause, layer, axis }
    }
}

impl fmt::Display for Fault {
    ghost output = { λ f. Some (fault_text f) };

    fn fmt<W: fmt::Write>(&self, f: &mut fmt::Formatter<W>) -> fmt::Result {
        let cause = u8::from(self.cause);
        let layer = u8::from(self.layer);
        let axis = self.axis;
        if axis == 255 {
            write!(f, "refused {cause} layer {layer}")
        } else {
            write!(f, "refused {cause} layer {layer} axis {axis}")
        }
    }
}
