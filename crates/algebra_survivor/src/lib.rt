// Survivors: of the paths from one state to another, the least by length, cost and word.
#![tactic(auto)]

ghost use Rattle.std.specs.Prelude.{◌≡◌, true};
ghost use Rattle.algebra_survivor.specs.Survivors.{Path, path_ops, row_ranged, path_of, normal_of, normal_row, key_of};
ghost use Rattle.algebra_survivor.specs.Formulas.{Formulas};
ghost use Rattle.algebra_survivor.specs.Paths.{path_laws};

use algebra::Algebra;

// The greatest length of a path: its word has a bit for each step.
pub const LONGEST: u16 = 32;

// The highest cost of one step.
const STEP_COST: u16 = 14;

// A path from one state to another: `length` steps, their `cost`, and the `word` of the bits dropped
// on the way, the earliest lowest. A plain row, laid out as in C: one out of range means none, so none is
// no `Option`, being in range no invariant, and `==` is not derived, as it would tell rows of none apart.
#[derive(Clone, Copy, Debug)]
#[repr(C)]
pub struct Survivor {
    pub word: u32,
    pub cost: u16,
    pub length: u16,
}

impl Survivor {
    // The row of none: longer than any path, and so is its sum with another length.
    const NONE: Survivor = Survivor {
        word: 0,
        cost: 0,
        length: 64,
    };

    // Most rows are none, which the length alone tells: the other two tests stand together behind it.
    fn in_range(self) -> bool
        ensures { result ≡ row_ranged self }
    {
        self.length <= LONGEST
            && (self.cost <= STEP_COST * self.length && (self.word as u64) < 1 << self.length)
    }

    // The three numbers as one: keys are in the order of the paths, and lengths and costs add in one step. A derived
    // order would begin with the word, the first field in C; a `From` would make this inner number public.
    fn key(self) -> u64
        ensures { result ≡ key_of self }
    {
        (self.length as u64) << 48 | (self.cost as u64) << 32 | self.word as u64
    }

    fn from_key(key: u64) -> Survivor
        ensures { key_of result ≡ key }
    {
        Survivor {
            word: (key & 0xffff_ffff) as u32,
            cost: (key >> 32 & 0xffff) as u16,
            length: (key >> 48) as u16,
        }
    }

    // The sum of normal rows.
    fn lesser(self, other: Survivor) -> Survivor
        ensures value { normal_row self ≡ true → normal_row other ≡ true →
            path_of result ≡ path_ops.add (path_of self) (path_of other) }
        ensures normal { normal_row self ≡ true → normal_row other ≡ true → normal_row result ≡ true }
    {
        if other.key() < self.key() {
            other
        } else {
            self
        }
    }

    // The product of normal rows. No range is tested, so what could overflow on other rows wraps.
    fn joined(self, later: Survivor) -> Survivor
        ensures value { normal_row self ≡ true → normal_row later ≡ true →
            path_of result ≡ path_ops.mul (path_of self) (path_of later) }
        ensures normal { normal_row self ≡ true → normal_row later ≡ true → normal_row result ≡ true }
    {
        let high = self.key().wrapping_add(Survivor { word: 0, ..later }.key());
        let word = (later.word as u64).wrapping_shl(self.length as u32);
        if high >> 48 <= LONGEST as u64 {
            Survivor::from_key(high.wrapping_add(word))
        } else {
            Survivor::NONE
        }
    }
}

impl Algebra for Survivor {
    ghost Value = { Path };

    ghost mean = { path_of };

    ghost ops = { path_ops };

    ghost normal = { normal_row };

    ghost lawful = { path_laws };

    fn zero() -> Survivor {
        Survivor::NONE
    }

    fn one() -> Survivor {
        Survivor {
            word: 0,
            cost: 0,
            length: 0,
        }
    }

    fn sum(self, other: Survivor) -> Survivor {
        self.normalized().lesser(other.normalized())
    }

    fn product(self, other: Survivor) -> Survivor {
        self.normalized().joined(other.normalized())
    }

    fn same(self, other: Survivor) -> bool {
        self.normalized().key() == other.normalized().key()
    }

    // A row in range stays, and any other becomes the one row of none.
    fn normalized(self) -> Survivor
        ensures value { path_of result ≡ path_of self }
        ensures normal { normal_row result ≡ true }
        ensures row { result ≡ normal_of self }
    {
        if self.in_range() {
            self
        } else {
            Survivor::NONE
        }
    }

    // This and the next are the inner loop, where the trait's bodies would test each row's range again.
    fn is_zero(self) -> bool {
        self.length > LONGEST
    }

    fn accumulate(self, a: Survivor, b: Survivor) -> Survivor {
        self.lesser(a.joined(b))
    }
}

// The formulas by which rows have a meaning, and paths a sum, a product, a zero and a one.
pub fn survivor_formulas()
    ensures { Formulas }
{}
