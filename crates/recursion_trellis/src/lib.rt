// The trellises of a code as recursions: of its survivors, and of its path counts. They are no instances of one type:
// they share only what is a call of the code, and one type over the element would want a trait for the entries and a
// marker field, which every `CountTrellis { code }` would have to write.
#![tactic(auto)]

mod count;
mod survivor;

pub use count::CountTrellis;
pub use survivor::SurvivorTrellis;
