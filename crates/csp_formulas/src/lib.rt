//! Formulas over atoms, as values: that of a policy at a shape, what literals decide of one, and what is left of
//! one in a cell. Tests alone run them.
#![tactic(auto)]

mod compiling;
mod deciding;
mod formula;
mod parts;
mod residuals;
mod sources;
mod tokens;

pub use compiling::compile;
pub use deciding::surely;
pub use formula::Formula;
pub use residuals::residual;
