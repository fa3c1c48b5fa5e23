// How many cases were run, how many of the answers differ from the stored ones, and how many cases were not run because no
// value of the enum says them: those are refused at the C boundary alone.
ghost use Rattle.std.specs.Prelude.{◌≡◌, ◌==◌, IfOk};
ghost use Rattle.stored.specs.Tally as Tallies;

use std::{fmt, io};

#[derive(Clone, Copy, Debug, Default, PartialEq, Eq)]
pub struct Tally {
    pub cases: u64,
    pub differences: u64,
    pub unnamed: u64,
}

impl Tally {
    // One case more.
    pub fn counted(self, same: bool) -> Tally
        ensures { result ≡ Tallies.counted self same }
    {
        let cases = self.cases.wrapping_add(1);
        if same {
            return Tally { cases, ..self };
        }
        let differences = self.differences.wrapping_add(1);
        Tally {
            cases,
            differences,
            ..self
        }
    }

    // One case more that is not run.
    pub fn unnamed(self) -> Tally
        ensures { result ≡ Tallies.unnamed self }
    {
        Tally {
            unnamed: self.unnamed.wrapping_add(1),
            ..self
        }
    }

    // The tally of a list that is read to its end; one that may go on counts as a difference.
    pub fn whole(self, ended: bool) -> Tally
        ensures { result ≡ Tallies.whole self ended }
    {
        if ended { self } else { self.counted(false) }
    }

    // Prints the tally after a name, and how many cases were not run, if any; says whether none differ. Where a write fails, it
    // gives the error.
    // What may not change: a name of type `&str` would ask more of `print`'s callers.
    pub fn print(self, rt: &impl Print, name: &[u8]) -> io::Result<bool>
        ensures { IfOk result (λ none_differ. none_differ ≡ (self.differences == 0)) }
    {
        rt.write_all(name)?;
        println!(rt; ": {}", self)?;
        if self.unnamed > 0 {
            rt.write_all(name)?;
            println!(rt; ": {} cases not run, which only C can say", self.unnamed)?;
        }
        Ok(self.differences == 0)
    }
}

impl fmt::Display for Tally {
    fn fmt<W: fmt::Write>(&self, f: &mut fmt::Formatter<W>) -> fmt::Result {
        write!(f, "{} cases, {} differences", self.cases, self.differences)
    }
}
