//! The search for a proof about one shape and one policy of the second list, or for a check that shows that
//! there is none.
#![tactic(auto)]

mod cover;
mod goals;
mod leaf;
mod named_question;
mod open;
mod parts;
mod plan;
mod probing;
mod searching;
mod step;
mod tree;
mod view;

pub use probing::probe;
pub use searching::{AnsweredLists, Found, Question, search};
