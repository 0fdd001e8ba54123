//! Formulas.
use csp_facts::Atom;

/// A formula over atoms.
#[derive(Debug, Drop)]
pub enum Formula {
    Constant(bool),
    Fact(Atom),
    Not(Box<Formula>),
    /// The and of its parts.
    Every(Vec<Formula>),
    /// The or of its parts.
    OneOf(Vec<Formula>),
}
