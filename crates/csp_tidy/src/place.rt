//! Places of tokens.

// Where a token stands in a list of policies: the numbers of its policy, of its directive there and of the
// token there, each counted from 0.
#[derive(Clone, Copy)]
pub(crate) struct TokenPlace {
    pub(crate) policy: usize,
    pub(crate) directive: usize,
    pub(crate) token: usize,
}
