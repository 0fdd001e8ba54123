//! The top call.
#![tactic(auto)]

mod answer;
pub mod command_laws;
mod ending;
mod fault;
mod fault_text;
mod files;
mod gathered;
pub mod laws;
mod output;
mod plan;
mod report;
mod top;

pub use csp_output::{Status, exit_code};
pub use top::run;
