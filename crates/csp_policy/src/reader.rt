//! Reads the policies of headers (Content Security Policy Level 3, sections 2.2 and 3.1 to 3.3).
ghost use Rattle.std.specs.Prelude.{◌≡◌, ◌++◌, [], List as Items, MatchOption, OnOk, None, Some};
ghost use Rattle.csp_model.specs.Policies as spec;
ghost use Rattle.csp_policy.specs.Types.{Policy as AnyPolicy};
ghost use Rattle.csp_policy.specs.Reads.{ReadsOn};
ghost use Rattle.csp_policy.specs.Refusal as refusal;
ghost use Rattle.csp_policy.specs.Room.{AreRead, kept_of};

use crate::directive::read_directives;
use crate::error::BlockError;
use crate::longest::longest_text;
use crate::pieces::Pieces;
use crate::serialized::{Delivery, delivery_of};
use csp_model::{Disposition, Duplicate, List, Memory, Origin, Policy};
use std::alloc::Global;

const MOST_POLICIES: usize = 64;

const MOST_TOKENS: usize = 1024;

const LONGEST_TEXT: usize = 4096;

// The policies that are read so far, up to the first that is too many, and the room for further tokens,
// up to the first that is too many.
#[derive(Drop)]
pub(crate) struct Reader {
    pub(crate) policies: List<Policy>,
    pub(crate) room: usize,
}

impl Reader {
    // Nothing is read.
    pub(crate) fn new(alloc: Global) -> Reader
        ensures { AreRead [] result.policies result.room }
    {
        Reader {
            policies: List::new(alloc),
            room: MOST_TOKENS + 1,
        }
    }

    // Reads a serialized policy, and adds it where it has a directive.
    fn add_policy(
        &mut self,
        alloc: Global,
        origin: &Origin,
        disposition: Disposition,
        meta: bool,
        value: &[u8],
    ) -> Result<(), Memory>
        ensures { OnOk result (ReadsOn self.old self.new
            (spec.policy_with origin.now disposition meta (kept_of meta (spec.directives_of value.now)))) }
    {
        if self.policies.len() > MOST_POLICIES {
            return Ok(());
        }
        let directives = read_directives(alloc, value, meta, &mut self.room)?;
        if !directives.is_empty() {
            self.policies.push(Policy {
                disposition,
                meta,
                origin: origin.copy(alloc)?,
                directives,
            })?;
        }
        Ok(())
    }

    // Reads the policies between a header's commas. An empty piece is passed at once: a file may hold nothing
    // else.
    fn add_policies(
        &mut self,
        alloc: Global,
        origin: &Origin,
        disposition: Disposition,
        value: &[u8],
    ) -> Result<(), Memory>
        ensures { OnOk result
            (ReadsOn self.old self.new (spec.policies_in origin.now disposition value.now)) }
    {
        for piece in Pieces::new_short(value, b',') {
            if !piece.is_empty() {
                self.add_policy(alloc, origin, disposition, false, piece)?;
            }
        }
        Ok(())
    }

    // Reads the policies of a header. A header of another name has none.
    pub(crate) fn add_header(
        &mut self,
        alloc: Global,
        origin: &Origin,
        name: &[u8],
        value: &[u8],
    ) -> Result<(), Memory>
        ensures { OnOk result
            (ReadsOn self.old self.new (spec.policies_of origin.now (spec.Header name.now value.now))) }
    {
        match delivery_of(name) {
            Delivery::InHeader { disposition } => self.add_policies(
                alloc,
                origin,
                disposition,
                value,
            ),
            Delivery::InMeta => self.add_policy(alloc, origin, Disposition::Enforce, true, value),
            Delivery::Not => Ok(()),
        }
    }

    // What the policies have too much of.
    pub(crate) fn excess(&self) -> Option<BlockError>
        ensures { (ps : Items AnyPolicy) → AreRead ps self.now.policies self.now.room
            → MatchOption result ((refusal.excess ps ≡ None) × (self.now.policies ≡ ps))
            (λ error. refusal.excess ps ≡ Some error) }
    {
        if self.policies.len() > MOST_POLICIES {
            Some(BlockError::TooManyPolicies)
        } else if self.room == 0 {
            Some(BlockError::TooManySources)
        } else if longest_text(self.policies.as_slice()) > LONGEST_TEXT {
            Some(BlockError::LongToken)
        } else {
            None
        }
    }
}
