//! Which shapes a person would think of first.
use csp_facts::Shape;
use csp_model::{Origin, PolicyList, Scheme};

// The strangeness of the strangest shapes.
pub(crate) const STRANGEST: u8 = 7;

// How far a shape is from what a person would think of: a redirect counts for more than the parser, and the
// parser for more than a scheme other than https.
pub(crate) fn strangeness(shape: Shape, over_https: bool) -> u8 {
    let (scheme, redirected, parser_inserted) = match shape {
        Shape::Fetch {
            scheme,
            redirected,
            parser_inserted,
            ..
        } => (scheme, redirected, parser_inserted),
        Shape::Form { scheme, redirected } => (scheme, redirected, false),
        Shape::Base { scheme } | Shape::Ancestor { scheme } => (scheme, false, false),
        _ => return 0,
    };
    let is_other = over_https && !matches!(scheme, Some(Scheme::Https));
    4 * u8::from(redirected) + 2 * u8::from(parser_inserted) + u8::from(is_other)
}

// Whether the pages of the list are over https, or have an opaque origin.
pub(crate) fn is_over_https(list: &PolicyList) -> bool {
    match list.policies.get(0) {
        Some(policy) => !matches!(
            policy.origin,
            Origin::Tuple {
                scheme: Scheme::Http,
                ..
            }
        ),
        None => true,
    }
}
