//! What becomes of a response of which its embedder requires a policy (Content Security Policy: Embedded
//! Enforcement).
#![tactic(auto)]

mod allowing;
mod decision;
pub mod laws;
mod requirement;

pub use allowing::allow_from;
pub use decision::{Decision, decide};
pub use requirement::{policy_alone, required_policy};
