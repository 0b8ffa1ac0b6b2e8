// Plans: lines of letters that say which neighbouring matrices are joined first.
#![tactic(auto)]

ghost use Rattle.std.specs.Prelude.{◌≡◌, ℕ, ◌+◌, ◌^◌, ◌<◌, ◌≤◌, true, [], ◌∷◌, length, nat_le};
ghost use Rattle.refusal.specs.Questions.{asked};
ghost use Rattle.plan.specs.Plans.{after};
ghost use Rattle.plan.specs.Letters.{code};
ghost use Rattle.plan.specs.Asks.{asks, finds, fits, height, knows, served, shape, stands, top};
ghost use Rattle.plan.specs.Tallies.{counting, tallied};

use refusal::Refusal;

mod letter;

pub use letter::Letter;

// The most symbols that one block may have.
pub const BLOCK: usize = 32;

// What a plan comes to.
#[derive(Clone, Copy, PartialEq, Eq, Debug)]
pub struct Shape {
    // how many joins it makes
    pub joins: usize,
    // the most matrices that ever stand
    pub most: usize,
}

// What the letters so far come to.
#[derive(Clone, Copy, Default)]
struct Tally {
    singles: usize,
    joins: usize,
    standing: usize,
    most: usize,
}

// Is every letter s, j or a? No `position` here and in the two questions below: one loop, one invariant is shorter.
fn ask_letters(plan: &[u8]) -> Result<(), Refusal>
    ensures { result ≡ asked (knows plan.now ∷ []) (record {}) }
{
    for (place, code) in plan.iter().enumerate() {
        match *code {
            b's' | b'j' | b'a' => {}
            _ => return Err(Refusal::Letter { place }),
        }
    }
    Ok(())
}

// Whether a letter finds what it needs where so many matrices stand.
fn is_served(letter: Letter, standing: usize) -> bool
    ensures { result ≡ served (code letter) standing }
{
    match letter {
        Letter::Single => true,
        Letter::Join => standing >= 2,
        Letter::Apply => standing == 1,
    }
}

impl Tally {
    // One letter more, which finds what it needs.
    fn with(self, letter: Letter) -> Tally
        requires standing_value { served (code letter) self.standing ≡ true }
        requires singles_bound { self.singles + 1 < 2 ^ 64 }
        requires joins_bound { self.joins + 1 < 2 ^ 64 }
        requires standing_bound { self.standing + 1 < 2 ^ 64 }
        ensures { result ≡ counting self (code letter) }
    {
        match letter {
            Letter::Single => Tally {
                singles: self.singles + 1,
                standing: self.standing + 1,
                most: self.most.max(self.standing + 1),
                ..self
            },
            Letter::Join => Tally {
                joins: self.joins + 1,
                standing: self.standing - 1,
                ..self
            },
            Letter::Apply => Tally {
                standing: 0,
                ..self
            },
        }
    }
}

// Does each j find two or more matrices, each a exactly one?
fn ask_standing(plan: &[u8]) -> Result<Tally, Refusal>
    ensures { result ≡ asked (stands plan.now ∷ []) (tallied plan.now) }
{
    let mut tally = Tally::default();
    for (place, code) in plan.iter().enumerate() {
        let letter = Letter::of(*code);
        if !is_served(letter, tally.standing) {
            return Err(Refusal::Standing { place });
        }
        tally = tally.with(letter);
    }
    Ok(tally)
}

// Whether the letter j at this place makes a block of at most 32 symbols. Counted backwards, with no
// memory: a letter s is one of the matrices that are still wanted, a letter j stands for two.
fn is_block(plan: &[u8], place: usize) -> bool
    requires place_in_bounds { place ≤ length plan.now }
    requires by_index { (p : ℕ) → p < place → finds plan.now p ≡ true }
    requires bound { 2 ≤ height plan.now place }
    ensures { result ≡ nat_le (top 2 (after plan.now place).stack) 32 }
{
    let mut wanted = 2;
    let mut found = 0;
    for code in plan[..place].iter().rev() {
        if wanted == 0 || found + wanted > BLOCK {
            break;
        }
        match Letter::of(*code) {
            Letter::Single => {
                wanted -= 1;
                found += 1;
            }
            _ => wanted += 1,
        }
    }
    found + wanted <= BLOCK
}

// Does each j make at most 32 symbols?
fn ask_blocks(plan: &[u8]) -> Result<(), Refusal>
    requires { (p : ℕ) → p < length plan.now → finds plan.now p ≡ true }
    ensures { result ≡ asked (fits plan.now ∷ []) (record {}) }
{
    for (place, code) in plan.iter().enumerate() {
        if Letter::of(*code) == Letter::Join && !is_block(plan, place) {
            return Err(Refusal::Block { place });
        }
    }
    Ok(())
}

// Reads a plan whole, for that many symbols.
pub fn read(plan: &[u8], symbols: usize) -> Result<Shape, Refusal>
    ensures { result ≡ asked (asks plan.now symbols) (shape plan.now) }
{
    ask_letters(plan)?;
    let tally = ask_standing(plan)?;
    ask_blocks(plan)?;
    if tally.singles != symbols || tally.standing != 0 {
        return Err(Refusal::Unfinished);
    }
    Ok(Shape {
        joins: tally.joins,
        most: tally.most,
    })
}
