//! What a policy and a list of policies answer to checks and requests (Content Security Policy Level 3,
//! sections 4.1.2, 4.2 and 6.3.1.1).
#![tactic(auto)]

mod algorithms;
mod allowed;
mod compiled_directive;
mod compiled_list;
mod compiled_policy;
mod item;
pub mod laws;
mod verdict;
mod violation;

pub use allowed::{allows, list_allows};
pub use compiled_list::CompiledList;
pub use item::effective_name;
pub use verdict::judge;
pub use violation::violations;
