// Path metrics: the total of the best path to each state, and letter a, which carries them over a block.
#![tactic(auto)]

mod metrics;
mod offer;
mod select;
mod target;

pub use metrics::Metrics;
