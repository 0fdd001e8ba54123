//! Copies, equal to what they are copies of.
use crate::atom::{Atom, Literal};
use csp_model::{Duplicate, Memory};
use std::alloc::Global;

impl Duplicate for Atom {
    fn copy(&self, alloc: Global) -> Result<Atom, Memory> {
        Ok(match self {
            Atom::HostIs(host) => Atom::HostIs(host.copy(alloc)?),
            Atom::HostUnder(suffix) => Atom::HostUnder(suffix.copy(alloc)?),
            Atom::HostDomain => Atom::HostDomain,
            Atom::PortIs(port) => Atom::PortIs(*port),
            Atom::PathIs(pieces) => Atom::PathIs(pieces.copy(alloc)?),
            Atom::PathUnder(pieces) => Atom::PathUnder(pieces.copy(alloc)?),
            Atom::SchemeIs(scheme) => Atom::SchemeIs(scheme.copy(alloc)?),
            Atom::NonceIs(value) => Atom::NonceIs(value.copy(alloc)?),
            Atom::IntegrityHas(hash) => Atom::IntegrityHas(hash.copy(alloc)?),
            Atom::IntegrityOutside => Atom::IntegrityOutside,
            Atom::DigestIs(digest) => Atom::DigestIs(*digest),
        })
    }
}

impl Duplicate for Literal {
    fn copy(&self, alloc: Global) -> Result<Literal, Memory> {
        Ok(Literal {
            atom: self.atom.copy(alloc)?,
            positive: self.positive,
        })
    }
}
