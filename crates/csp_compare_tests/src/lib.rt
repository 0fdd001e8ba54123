//! Tests of the crates that compare two lists of policies, where no command shows what they give: formulas,
//! cells, and fields of embedded responses.
//!
//! Nothing stands on this crate. What a proved clause says of every input is not tested again.
#![tactic(auto)]

#[cfg(test)]
mod asked;
#[cfg(test)]
mod cells;
#[cfg(test)]
mod embedding;
#[cfg(test)]
mod formulas;
#[cfg(test)]
mod values;
