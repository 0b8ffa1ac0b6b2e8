// Tests of plans, runs and check values, published vectors, limits and bad input; and of fields of cases.
#![tactic(auto)]

#[cfg(test)]
mod checks;
#[cfg(test)]
mod fields;
#[cfg(test)]
mod plans;
#[cfg(test)]
mod runs;
