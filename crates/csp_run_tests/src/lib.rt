//! Tests of `csp_run::run` that the stored runs of `csp_sample` can't be: a reporter of another crate, one that
//! refuses later, and an allocation that fails. Beside them stand those of the calls that it is made of: of
//! checks that are read and printed, of a request file that is cut before each of its bytes, and of inputs and
//! sinks.
//!
//! Nothing stands on this crate. What a proved clause says of every input is not tested again.
#![tactic(auto)]

#[cfg(test)]
mod checks;
#[cfg(test)]
mod descriptions;
#[cfg(test)]
mod faults;
#[cfg(test)]
mod inputs;
#[cfg(test)]
mod learning;
#[cfg(test)]
mod limited;
#[cfg(test)]
mod reports;
#[cfg(test)]
mod runs;
#[cfg(test)]
mod sinks;
