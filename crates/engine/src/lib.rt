// The engine: matrices, blocks, plans and runs, written once for every algebra.
#![tactic(auto)]

mod delivery;
mod letters;
mod load;
mod matrix;
mod product;
mod run;
mod size;
mod target;
mod vector;

pub use delivery::deliver;
pub use product::multiply;
pub use run::{LIMIT, Run};
pub use target::Target;
