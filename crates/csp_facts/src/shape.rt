//! The shapes.
use csp_model::{Capability, Group, InlineKind, Scheme};

/// What checks have in common: their kind, and of their URL its scheme and whether a redirect led to it. A
/// scheme of None stands for every scheme but the five of `Scheme`.
#[derive(Clone, Copy, Debug, PartialEq, Eq)]
pub enum Shape {
    /// Fetches. Only scripts and workers are told apart by whether the parser inserted them: for the other
    /// groups `parser_inserted` is false.
    Fetch {
        group: Group,
        scheme: Option<Scheme>,
        redirected: bool,
        parser_inserted: bool,
    },
    Form {
        scheme: Option<Scheme>,
        redirected: bool,
    },
    Base {
        scheme: Option<Scheme>,
    },
    Ancestor {
        scheme: Option<Scheme>,
    },
    OpaqueAncestor,
    Inline {
        kind: InlineKind,
    },
    Eval,
    Wasm,
    Capability {
        capability: Capability,
    },
    WorkerStart,
}
