// What trim answered, and the tree it wrote, as they are printed.
ghost use Rattle.std.specs.Prelude.{◌++◌, Some, codes};
ghost use Rattle.std.specs.Fmt.{decimal};

use std::fmt;
use travelring::Trimming;

// Answer, place, questions and ends.
#[derive(Clone, Copy)]
pub struct Told(pub Trimming);

impl fmt::Display for Told {
    ghost output = { λ told. Some (decimal told.0.answer ++ codes " " ++ decimal told.0.place ++ codes " "
        ++ decimal told.0.questions ++ codes " " ++ decimal told.0.ends) };

    fn fmt<W: fmt::Write>(&self, f: &mut fmt::Formatter<W>) -> fmt::Result {
        let told = self.0;
        write!(
            f,
            "{} {} {} {}",
            told.answer, told.place, told.questions, told.ends
        )
    }
}

// Bytes in hex, a space between them.
#[derive(Clone, Copy)]
pub struct Hex<'a>(pub &'a [u8]);

impl fmt::Display for Hex<'_> {
    fn fmt<W: fmt::Write>(&self, f: &mut fmt::Formatter<W>) -> fmt::Result {
        for (i, byte) in self.0.iter().enumerate() {
            if 0 < i {
                write!(f, " ")?;
            }
            write!(f, "{byte:02x}")?;
        }
        Ok(())
    }
}
