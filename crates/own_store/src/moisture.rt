use stores::Element;

// How moist the material is, in per cent; 255 where it was not measured, so that a kind is shown whose fill value is not 0.
#[derive(Clone, Copy, PartialEq, Eq, Debug)]
pub struct Moisture {
    pub percent: u8,
}

impl Element for Moisture {
    ghost blank = { record { percent = 255 } };

    fn fill() -> Moisture {
        Moisture { percent: 255 }
    }
}
