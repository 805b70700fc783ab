ghost use Rattle.std.specs.Prelude.{◌≡◌, ◌+◌, ◌*◌, ◌^◌, ◌<◌, length, replicate};
ghost use Rattle.memory_stores.specs.Laid.{IsRow};

use std::ops::Range;
use stores::Element;

// The places of a row among values that lie in rows of one width.
pub(crate) fn row(slot: u64, width: u64) -> Range<usize>
    requires { slot * width + width < 2 ^ 64 }
    ensures { IsRow slot width result }
{
    let start = (slot * width) as usize;
    start..start + width as usize
}

// Puts a row to fill.
pub(crate) fn clear<E: Element>(row: &mut [E])
    ensures { row.new ≡ replicate (length row.old) E.Element.blank }
{
    // Asked once: a kind of the user's own may take long to answer.
    let fill = E::fill();
    row.fill_with(|| fill);
}
