//! Lists of policies without tokens that change nothing of what is allowed: an equivalent list, a proof of each
//! inclusion, and for each token that stays a check that shows why.
#![tactic(auto)]

mod asking;
mod candidates;
mod governed;
mod place;
mod rounds;
mod tidying;
mod without;

pub use tidying::{Needed, Tidied, tidy};
