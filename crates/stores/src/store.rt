ghost use Rattle.std.specs.Prelude.{◌≡◌};
ghost use Rattle.stores.specs.Held.{Held, Sound, free, get_answer, present_answer, put_answer, after_put, erase_answer, after_erase, Kept};

use crate::element::Element;
use edges::Fault;

// A store for reading. It means a `Held`: a limit, a width and slots, and for each chunk below the
// limit either nothing or one value for each place below the width.
pub trait ReadStore {
    type Item: Element;

    ghost held: { Self → Held Self.Item };

    ghost sound: { (s : Self) → Sound (held s) };

    // The fill value of the kind of element: what an absent chunk reads as. Each store writes it, since no body here could
    // show what the store means.
    fn fill(&self) -> Self::Item
        ensures held { result ≡ (held self.now).fill }
        ensures kind { result ≡ Self.Item.Element.blank };

    // Chunk numbers are below the limit.
    fn limit(&self) -> u64
        ensures { result ≡ (held self.now).limit };

    // Places are below the width.
    fn width(&self) -> u64
        ensures { result ≡ (held self.now).width };

    // The most chunks that can be present at once.
    fn slots(&self) -> u64
        ensures { result ≡ (held self.now).slots };

    // The slots that no chunk takes.
    fn free(&self) -> u64
        ensures { result ≡ free (held self.now) };

    // Whether a chunk is present.
    fn present(&self, chunk: u64) -> Result<bool, Fault>
        ensures { result ≡ present_answer (held self.now) chunk };

    // The value at a place of a chunk, the fill value where the chunk is absent.
    fn get(&self, chunk: u64, place: u64) -> Result<Self::Item, Fault>
        ensures { result ≡ get_answer (held self.now) chunk place };
}

// A store for reading and writing. A refused call leaves it as it was.
pub trait WriteStore: ReadStore {
    // Makes an absent chunk present with every value at fill, then sets one value.
    fn put(&mut self, chunk: u64, place: u64, value: Self::Item) -> Result<(), Fault>
        ensures answer { result ≡ put_answer (Self.ReadStore.held self.old) chunk place }
        ensures after { Self.ReadStore.held self.new ≡ after_put (Self.ReadStore.held self.old) chunk place value }
        ensures refused { Kept result self.old self.new };

    // Makes a chunk absent, and answers whether it was present.
    fn erase(&mut self, chunk: u64) -> Result<bool, Fault>
        ensures answer { result ≡ erase_answer (Self.ReadStore.held self.old) chunk }
        ensures after { Self.ReadStore.held self.new ≡ after_erase (Self.ReadStore.held self.old) chunk }
        ensures refused { Kept result self.old self.new };
}
