//! Builders of values, so that a row of a table is short.
ghost use Rattle.std.specs.Prelude.{IfOk};
ghost use Rattle.csp_model.specs.Policies.{IsReadable};

use csp_facts::{Atom, Literal};
use csp_model::{Algorithm, Digest, Hash, Host, List, Memory, Path, PolicyList, Text};
use csp_policy::{BlockError, read_block};
use csp_url::read_origin;
use std::alloc::Global;
use std::process::Abort;

// The policies of a header block, of the origin `https://a.example`.
pub(crate) fn policies(
    rt: &(impl Abort + AllocGlobal),
    block: &str,
) -> Result<PolicyList, BlockError>
    ensures { IfOk result IsReadable }
{
    let bytes = block.as_bytes();
    assert!(rt; bytes.len() < 4_000_000_000);
    match read_origin(rt.alloc(), "https://a.example") {
        Ok(origin) => read_block(rt.alloc(), bytes, &origin),
        Err(_) => Err(BlockError::Memory),
    }
}

// The atom of a kind and a text behind a space.
pub(crate) fn atom(alloc: Global, spelling: &str) -> Result<Atom, Memory> {
    let (kind, text) = spelling.split_once(' ').unwrap_or((spelling, ""));
    Ok(match kind {
        "host" => Atom::HostIs(Host::Domain(Text::new(alloc, text)?)),
        "address" => Atom::HostIs(Host::Address(Text::new(alloc, text)?)),
        "under" => Atom::HostUnder(Text::new(alloc, text)?),
        "domain" => Atom::HostDomain,
        "https" => Atom::PortIs(443),
        "8080" => Atom::PortIs(8080),
        "path" => Atom::PathIs(Path::read(alloc, text.as_bytes())?),
        "below" => Atom::PathUnder(Path::read(alloc, text.as_bytes())?),
        "scheme" => Atom::SchemeIs(Text::new(alloc, text)?),
        "nonce" => Atom::NonceIs(Text::new(alloc, text)?),
        "has" => Atom::IntegrityHas(Hash {
            algorithm: Algorithm::Sha256,
            value: Text::new(alloc, text)?,
        }),
        "zeros" => Atom::DigestIs(Digest::Sha256([0; 32])),
        "ones" => Atom::DigestIs(Digest::Sha384([1; 48])),
        _ => Atom::IntegrityOutside,
    })
}

// Facts, each with its sign and ended by a semicolon.
pub(crate) fn literals(alloc: Global, spelling: &str) -> Result<List<Literal>, Memory> {
    let mut made = List::new(alloc);
    for fact in spelling.split_terminator(';') {
        let (positive, atom_text) = match fact.strip_prefix('-') {
            Some(text) => (false, text),
            None => (true, fact),
        };
        made.push(Literal {
            atom: atom(alloc, atom_text)?,
            positive,
        })?;
    }
    Ok(made)
}
