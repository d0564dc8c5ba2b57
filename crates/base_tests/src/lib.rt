//! Tests of the lowest crates: the outside, whole numbers, places, grammars.
#![tactic(auto)]

#[cfg(test)]
mod grammars;
#[cfg(test)]
mod outside;
#[cfg(test)]
mod places;
#[cfg(test)]
mod whole_numbers;
