//! Which responses leave it to their embedder what is required of them.
ghost use Rattle.std.specs.Prelude.{◌≡◌, ◌↔◌, IfOk, IsTrue};
ghost use Rattle.csp_embed.specs.AllowFrom as spec;

use csp_model::{Memory, Origin, Scheme};
use csp_policy::field_values;
use csp_url::{OriginError, read_origin};
use std::alloc::Global;

// The port that is meant: the scheme's default, where none is named.
fn effective_port(scheme: Scheme, port: Option<u16>) -> u16
    ensures { result ≡ spec.effective_port scheme port }
{
    port.unwrap_or(scheme.default_port())
}

// An opaque origin is the same as nothing that a text names.
fn are_same_origin(one: &Origin, other: &Origin) -> bool
    ensures { IsTrue result ↔ spec.AreSameOrigin one.now other.now }
{
    match (one, other) {
        (
            Origin::Tuple { scheme, host, port },
            Origin::Tuple {
                scheme: other_scheme,
                host: other_host,
                port: other_port,
            },
        ) => {
            scheme == other_scheme
                && host == other_host
                && effective_port(*scheme, *port) == effective_port(*other_scheme, *other_port)
        }
        _ => false,
    }
}

// Whether a value is a text that reads as the embedder's origin.
fn names(alloc: Global, value: &[u8], embedder: &Origin) -> Result<bool, Memory>
    ensures { IfOk result (λ named. IsTrue named ↔ spec.Names value.now embedder.now) }
{
    let Ok(text) = str::from_utf8(value) else {
        return Ok(false);
    };
    match read_origin(alloc, text) {
        Ok(named) => Ok(are_same_origin(&named, embedder)),
        Err(OriginError::BadOrigin) => Ok(false),
        Err(OriginError::Memory) => Err(Memory),
    }
}

fn stands_for(alloc: Global, value: &[u8], embedder: &Origin) -> Result<bool, Memory>
    ensures { IfOk result (λ stands. IsTrue stands ↔ spec.StandsFor value.now embedder.now) }
{
    if value == b"*".as_slice() {
        return Ok(true);
    }
    names(alloc, value, embedder)
}

/// Whether the response of a header block leaves it to this embedder what is required of the response (Content
/// Security Policy: Embedded Enforcement, "Does response allow blanket enforcement of policy from request?").
///
/// The block has exactly one field `Allow-CSP-From`, whose name may be of either case. Its value, without
/// whitespace at its ends, is `*` or reads as the embedder's origin, where a default port is no port. Two such
/// fields, whatever they say, are none. A value that isn't UTF-8 names no origin, and an opaque embedder is
/// helped by `*` alone. The lines of the block are read as `csp_policy::read_block` reads them; a line that it
/// refuses is no field.
pub fn allow_from(alloc: Global, bytes: &[u8], embedder: &Origin) -> Result<bool, Memory>
    ensures { IfOk result
        (λ allowed. IsTrue allowed ↔ spec.AllowsBlanketEnforcement bytes.now embedder.now) }
{
    let mut values = field_values(alloc, bytes, "Allow-CSP-From")?;
    match values.pop() {
        Some(value) if values.is_empty() => stands_for(alloc, value, embedder),
        _ => Ok(false),
    }
}
