ghost use Rattle.notation.specs.Shown.{list_shown};

use std::fmt;

// Some items as a list: `-` for none, else with a mark between each two.
#[derive(Drop)]
pub struct Listed<'a, T> {
    pub items: &'a [T],
    pub mark: char,
}

impl<'a, T: fmt::Display> fmt::Display for Listed<'a, T> {
    ghost output = { λ l. list_shown T.Display.output l.mark l.items.now };

    fn fmt<W: fmt::Write>(&self, f: &mut fmt::Formatter<W>) -> fmt::Result {
        let mark = self.mark;
        let [first, rest @ ..] = self.items else {
            return write!(f, "-");
        };
        write!(f, "{first}")?;
        for item in rest {
            write!(f, "{mark}{item}")?;
        }
        Ok(())
    }
}
