//! Answers: what a policy says of every check of a shape, told by the names of atoms.
//!
//! What a policy says at a shape has one form: a disjunction of conjunctions of at most one name on each part
//! of a check, beside the rule on integrity metadata. So it is a sorted list of such conjunctions.
#![tactic(auto)]

mod answer;
mod asking;
mod collecting;
mod conjunction;
mod deciding;
pub mod laws;
mod listed;
mod naming;
mod policy;
mod source;
mod table;
mod words;

pub use answer::{Integrity, ShapeAnswer};
pub use conjunction::Conjunction;
pub use deciding::{Ground, decide, decided_by};
pub use policy::PolicyAnswers;
pub use table::{AnswerTable, NamedAnswers, answers_of};
