//! Reporters that a caller hands in, the handing out of violations to them, and reports as JSON (Content Security
//! Policy Level 3, section 5.3).
#![tactic(auto)]

mod counts;
mod desk;
mod ending;
mod failing_lines;
mod front;
pub mod laws;
mod lines;
mod recent;
mod report;
pub mod report_laws;
mod reporter;
mod tally;
mod telling;
mod texts;
mod weave;

pub use desk::{DeskError, hand_out, sections_of};
pub use failing_lines::FailingLines;
pub use front::push_front;
pub use lines::Lines;
pub use recent::Recent;
pub use report::{push_report, report_ending, report_json};
pub use reporter::{AcceptError, Kind, Reporter};
pub use tally::Tally;
pub use telling::{Section, Telling};
pub use texts::text_of;
