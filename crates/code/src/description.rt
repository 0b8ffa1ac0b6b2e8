// The description of a code.
ghost use Rattle.std.specs.Prelude.{◌≡◌, ◌-◌, ◌/◌, ◌^◌, ◌≤◌};

#[derive(Clone, Copy)]
pub struct Code {
    // the constraint length K: the input bits that a code bit can depend on
    pub(crate) constraint: u32,
    // the generators: which of these K bits each code bit sums, the newest at weight 2^(K−1)
    pub(crate) first: u32,
    pub(crate) second: u32,
    ghost least: { 2 ≤ constraint },
    ghost most: { constraint ≤ 7 },
    // both generators have K bits, and the newest of them is 1
    ghost newest: { (first / 2 ^ (constraint - 1) ≡ 1) × (second / 2 ^ (constraint - 1) ≡ 1) },
}
