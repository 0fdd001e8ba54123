//! A literal by a name.

/// A literal, by the name of its atom.
#[derive(Clone, Copy, Debug)]
pub struct NamedLiteral {
    pub name: usize,
    /// False for the negation.
    pub positive: bool,
}
