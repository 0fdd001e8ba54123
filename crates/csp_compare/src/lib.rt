//! Whether one list of policies is at least as strict as another: a proof of it, or one check that shows that
//! it isn't.
#![tactic(auto)]

mod comparing;
mod comparison;
mod difference;
mod differences;
mod directives;
mod draft;
pub mod laws;
mod natural;
mod numbers;

pub use comparing::{Answer, compare};
pub use difference::find_difference_among;
pub use differences::{Difference, find_differences};
pub use directives::effective_directives;
