//! How domains end.
ghost use Rattle.std.specs.Prelude.{◌≡◌, ◌↔◌, IsTrue, List as Items, ℕ, ◌∷◌, ◌++◌};
ghost use Rattle.csp_model.specs.Ascii.{code};
ghost use Rattle.csp_model.specs.DecideEnds as spec;

/// Whether a domain lies under a suffix, as `a.b.example` under `b.example`: it ends in a dot and the suffix.
/// It is compared from its end. No domain lies under itself.
pub fn is_subdomain(domain: &str, suffix: &str) -> bool
    ensures value { result ≡ spec.is_subdomain domain.now suffix.now }
    ensures under { IsTrue result ↔ ((front : Items ℕ) × (domain.now ≡ front ++ code "." ∷ suffix.now)) }
{
    ends_in_dot_and(domain.as_bytes(), suffix.as_bytes())
}

// Most domains have no dot before the end that the suffix would be, so the dot is looked for first.
fn ends_in_dot_and(domain: &[u8], suffix: &[u8]) -> bool
    ensures value { result ≡ spec.is_subdomain domain.now suffix.now }
    ensures under { IsTrue result ↔ ((front : Items ℕ) × (domain.now ≡ front ++ code "." ∷ suffix.now)) }
{
    match domain.len().checked_sub(suffix.len()) {
        None | Some(0) => false,
        Some(front) => domain[front - 1] == b'.' && suffix == &domain[front..],
    }
}
