//! Tests of the public calls below `csp_verdict` that no command shows: worked examples, each call once with
//! memory enough. What a command shows is a stored run of `csp_sample`.
//!
//! Nothing stands on this crate. What a proved clause says of every input is not tested again.
//! A value of many cases is let go by `drop`, since its end is dear to prove where it stands.
#![tactic(auto)]

#[cfg(test)]
mod atoms;
#[cfg(test)]
mod copies;
#[cfg(test)]
mod shapes;
#[cfg(test)]
mod sources;
#[cfg(test)]
mod tokens;
#[cfg(test)]
mod urls;
#[cfg(test)]
mod values;
