//! Conjunctions of names.
ghost use Rattle.std.specs.Prelude.{◌≡◌, Some, None};

/// A conjunction of at most one name on each part of a check. Of nothing it always holds.
#[derive(Clone, Copy, Debug, PartialEq, Eq, PartialOrd, Ord)]
pub struct Conjunction {
    /// The name of a host, or of what the conjunction asks for alone: a nonce, a digest or a scheme that
    /// isn't one of the five.
    pub lead: Option<usize>,
    pub port: Option<usize>,
    pub path: Option<usize>,
}

impl Conjunction {
    /// The conjunction of one name.
    pub fn of(lead: usize) -> Conjunction
        ensures { result ≡ record { lead = Some lead; port = None; path = None } }
    {
        Conjunction {
            lead: Some(lead),
            port: None,
            path: None,
        }
    }

    /// The conjunction that always holds.
    pub fn always() -> Conjunction
        ensures { result ≡ record { lead = None; port = None; path = None } }
    {
        Conjunction {
            lead: None,
            port: None,
            path: None,
        }
    }
}
