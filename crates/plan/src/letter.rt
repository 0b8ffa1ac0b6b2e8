// The letters of a plan.
ghost use Rattle.std.specs.Prelude.{◌≡◌};
ghost use Rattle.plan.specs.Letters.{letter_of};

#[derive(Clone, Copy, PartialEq, Eq, Debug)]
pub enum Letter {
    // s: the matrix of the next symbol comes to stand on top
    Single,
    // j: the top two matrices become their product
    Join,
    // a: the only matrix is applied, and stands no more
    Apply,
}

impl Letter {
    // The letter of a byte of a plan. No byte but those of s, j and a is left once a plan was asked for its letters, so
    // any byte but those of s and j is an a here. It is no `TryFrom`: every reading after the questions would have an
    // error to handle that cannot come.
    pub fn of(code: u8) -> Letter
        ensures { result ≡ letter_of code }
    {
        match code {
            b's' => Letter::Single,
            b'j' => Letter::Join,
            _ => Letter::Apply,
        }
    }
}
