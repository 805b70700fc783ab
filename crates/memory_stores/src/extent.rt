ghost use Rattle.std.specs.Prelude.{◌≡◌};
ghost use Rattle.memory_stores.specs.Extents.{capped, whole_widths, archive_limit};

// The most that a limit, a width or a number of slots is.
const MOST: u64 = 65536;

pub(crate) fn capped(number: u64) -> u64
    ensures { result ≡ capped number }
{
    number.min(MOST)
}

// The whole widths in some values; none where the width is 0.
pub(crate) fn whole_widths(width: u64, values: usize) -> u64
    ensures { result ≡ whole_widths width values }
{
    if width == 0 { 0 } else { values as u64 / width }
}

// The chunks that lie in some values one after another.
pub(crate) fn whole_chunks(width: u64, values: usize) -> u64
    ensures { result ≡ archive_limit width values }
{
    capped(whole_widths(capped(width), values))
}
