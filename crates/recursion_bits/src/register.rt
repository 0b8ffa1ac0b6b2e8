// The check register: 32 places for its bits, and one that stays 1, by which a symbol enters.
ghost use Rattle.std.specs.Prelude.{◌≡◌, ◌&&◌, nat_lt};
ghost use Rattle.recursion_bits.specs.Register.{polynomial, bit, register_accepts, register_entry};
ghost use Rattle.std.proofs.Common.{arith, rules};
ghost use Rattle.std.proofs.lemmas.Bool.Decides.{nat_tests};

use algebra_scalars::Bit;
use recursion::Recursion;

// the polynomial of the register, the bit of weight 2^k standing for place k
pub const POLYNOMIAL: u32 = 0xEDB8_8320;

// the place that stays 1, after those of the register's bits
const STAYS: usize = 32;

// Whether the polynomial's bit of weight 2^k is 1; it has none from place 32 on.
fn in_polynomial(k: usize) -> bool
    ensures { result ≡ (nat_lt k 32 && bit polynomial k) }
{
    k < STAYS && (POLYNOMIAL >> k) % 2 == 1
}

#[derive(Clone, Copy)]
pub struct CheckRegister;

impl Recursion for CheckRegister {
    type Element = Bit;

    ghost dim = { λ _. 33 };

    ghost takes = { λ _ symbol. register_accepts symbol };

    ghost cell = { λ _ symbol i j. record { 0 = register_entry symbol i j } };

    ghost bounded = { Prim.search rules };

    ghost positive = { Prim.search rules };

    ghost outside = { unfold register_entry in λ r y i j h. Prim.grind (arith, nat_tests) };

    ghost refused = { unfold register_entry in λ r y i j h. Prim.grind (arith, nat_tests) };

    fn size(&self) -> usize {
        33
    }

    fn accepts(&self, symbol: u32) -> bool {
        symbol <= 1
    }

    #[tactic(auto, using(std::proofs::lemmas::Bool::Decides::nat_tests), unfolding(crate::specs::Register::register_entry))]
    fn entry(&self, symbol: u32, i: usize, j: usize) -> Bit {
        let is_one = match i {
            0 => in_polynomial(j),
            STAYS => j == STAYS || symbol == 1 && in_polynomial(j),
            _ => i < STAYS && j == i - 1,
        };
        Bit(self.accepts(symbol) && is_one)
    }
}
