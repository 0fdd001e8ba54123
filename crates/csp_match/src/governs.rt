//! What governs a check.
use csp_model::{Directive, Name};

/// A directive that governs a check, and the name under which it does.
#[derive(Clone, Copy)]
pub struct Governor<'a> {
    /// A name in the fallback list of the directive that the check asks for. It is the directive's own.
    pub name: Name,
    pub directive: &'a Directive,
}
