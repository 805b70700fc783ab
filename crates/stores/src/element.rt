ghost use Rattle.std.specs.Prelude.{◌≡◌};

// A kind of element: it is copied and has a fill value.
pub trait Element: Copy {
    ghost blank: { Self };

    // The fill value.
    fn fill() -> Self
        ensures { result ≡ blank };
}

// A thickness, in hundredths of a millimetre.
#[derive(Clone, Copy, PartialEq, Eq, Debug)]
pub struct Thickness {
    pub hundredths: u16,
}

impl Element for Thickness {
    ghost blank = { record { hundredths = 0 } };

    fn fill() -> Thickness {
        Thickness { hundredths: 0 }
    }
}

// A flaw of the scanned material: what sort it is, by the number that the scanner gives it, and how severe.
#[derive(Clone, Copy, PartialEq, Eq, Debug)]
pub struct Flaw {
    pub sort: u8,
    pub severity: u8,
}

impl Element for Flaw {
    ghost blank = { record { sort = 0; severity = 0 } };

    fn fill() -> Flaw {
        Flaw {
            sort: 0,
            severity: 0,
        }
    }
}
