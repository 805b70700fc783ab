ghost use Rattle.std.specs.Prelude.{◌≤◌};

// A grid of one axis, on which each chunk is twice as long as the one before.
#[derive(Clone, Copy)]
pub struct Doubling {
    pub(crate) number: u32,
    ghost few: { number ≤ 63 },
}
