//! Why a policy allows or blocks a check: which token of which directive decided, and which tokens nearly
//! did (Content Security Policy Level 3, sections 6.7.1 to 6.7.3).
#![tactic(auto)]

mod allowance;
mod displacement;
mod explaining;
pub mod laws;
mod missing;
mod near;
mod reason;

pub use explaining::explain;
pub use missing::missing_url;
pub use reason::{Allowance, Near, Obstacle, Reason, Rule};
