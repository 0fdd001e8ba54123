//! What commands print, a module each, and what `report` hands out; the lines of verdicts, and the statuses
//! that runs end with.
#![tactic(auto)]

mod built;
mod check_output;
mod compare_output;
pub mod differ_laws;
mod differ_output;
mod drill_output;
mod embed_output;
mod judge_output;
pub mod laws;
mod learn_output;
mod lines;
mod order_output;
mod read_output;
mod reason_lines;
mod report_output;
mod shown_items;
mod status;
mod tidy_output;
mod verdict_lines;
pub mod why_laws;
mod why_output;

pub use built::Built;
pub use check_output::check;
pub use compare_output::compare;
pub use differ_output::differ;
pub use drill_output::drill;
pub use embed_output::{Response, embed};
pub use judge_output::judge;
pub use learn_output::{learn, read_log};
pub use order_output::order;
pub use read_output::read;
pub use report_output::Violations;
pub use status::{Status, exit_code};
pub use tidy_output::tidy;
pub use why_output::why;
