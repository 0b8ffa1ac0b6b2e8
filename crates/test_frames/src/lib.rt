// Tests of frames: every plan against a direct search, worked lines, limits and bad input.
#![tactic(auto)]

#[cfg(test)]
mod alike;
#[cfg(test)]
mod damage;
#[cfg(test)]
mod letters;
#[cfg(test)]
mod limits;
#[cfg(test)]
mod marks;
#[cfg(test)]
mod search;
#[cfg(test)]
mod takes;
#[cfg(test)]
mod worked;
