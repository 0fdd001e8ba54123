//! What is read is valid: origins, policies, and the URLs of described requests.
#![tactic(auto)]

pub mod laws;
