//! Sentences over atoms: what a policy says of every check of a shape, and what a list of policies doesn't tell
//! apart.
#![tactic(auto)]

mod digests;
pub mod laws;
mod outline;
mod question;
mod shapes;
pub mod stranger_laws;

pub use digests::source_digest;
pub use outline::{Outline, PathOutline, PortOutline, source_outline};
pub use question::{ListQuestion, ShapeQuestion, is_dynamic, question_at, sources_at};
