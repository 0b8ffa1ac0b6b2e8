// Tallies: how many cases there were, and how many of them agreed.
ghost use Rattle.std.specs.Prelude.{◌≡◌, ℕ, ◌↔◌, ◌++◌, Some, IsTrue, IsFalse, codes, decimal};

use std::fmt;
use std::ops::AddAssign;

#[derive(Clone, Copy, PartialEq, Eq, Debug, Default)]
pub struct Tally {
    pub cases: u32,
    pub agreed: u32,
}

impl Tally {
    // The tally of one case.
    pub fn of(agrees: bool) -> Tally
        ensures cases { result.cases ≡ 1 }
        ensures agreed { IsTrue agrees → result.agreed ≡ 1 }
        ensures differed { IsFalse agrees → result.agreed ≡ 0 }
    {
        Tally {
            cases: 1,
            agreed: u32::from(agrees),
        }
    }

    // Whether all cases agreed.
    pub fn is_whole(self) -> bool
        ensures { IsTrue result ↔ (self.agreed ≡ self.cases) }
    {
        self.agreed == self.cases
    }
}

// Both tallies together; a count stays at its largest number.
impl AddAssign for Tally {
    ghost use Rattle.vectors.specs.Sums.{Together};

    ghost add_assign_gives = { Together };

    fn add_assign(&mut self, more: Tally) {
        self.cases = self.cases.saturating_add(more.cases);
        self.agreed = self.agreed.saturating_add(more.agreed);
    }
}

impl fmt::Display for Tally {
    ghost output = { λ t. Some (decimal t.agreed ++ (codes " of " ++ (decimal t.cases ++ codes " agree"))) };

    fn fmt<W: fmt::Write>(&self, f: &mut fmt::Formatter<W>) -> fmt::Result {
        let Tally { cases, agreed } = *self;
        write!(f, "{agreed} of {cases} agree")
    }
}
