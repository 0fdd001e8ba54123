//! What `report` hands out: the violations of each request of a request file.
ghost use Rattle.std.specs.Prelude.{◌≡◌, ◌≢◌, ◌<◌, ◌^◌, ℕ, Err, IfErr, IfOk, IsErrOf, Ok, OnOk, length, map};
ghost use Rattle.csp_desk.specs.Desk.{HasStopped, IsKept, desk as lent};
ghost use Rattle.csp_desk.specs.Growth.{all_grown};
ghost use Rattle.csp_model.specs.Policies.{IsReadable};
ghost use Rattle.csp_output.specs.Reports.{all_violations, violations_in};
ghost use Rattle.csp_request.specs.Requests.{requests_of};

use csp_desk::{DeskError, Reporter, hand_out};
use csp_model::{Described, List, Memory, PolicyList};
use csp_request::{ReportTexts, RequestError, Take, Wanted, each};
use csp_verdict::CompiledList;
use std::alloc::Global;
use std::marker::Model;

// The requests to report.
#[derive(Drop)]
pub(crate) struct Held<'a> {
    list: CompiledList<'a>,
    requests: List<Described>,
}

// Only digests that some policy names are computed.
impl<'a> Take for Held<'a> {
    ghost use Rattle.std.specs.Prelude.{◌≡◌, [], refl};
    ghost use Rattle.std.proofs.Common.{ap};
    ghost use Rattle.csp_output.specs.Reports.{all_violations};
    ghost use Rattle.csp_request.specs.declared.texts.ReportTexts.{ReportTexts};
    ghost use Rattle.csp_verdict.specs.Algorithms.{algorithms_of};

    ghost wants = { λ held. record { digests = algorithms_of held.list; texts = ReportTexts.Made } };

    ghost Took = { λ first requests held. (held.list ≡ first.list) × (first.requests ≡ []
        → all_violations held.list held.requests ≡ all_violations held.list requests) };

    fn wanted(&self) -> Wanted {
        Wanted {
            digests: self.list.algorithms(),
            texts: ReportTexts::Made,
        }
    }

    fn take(&mut self, _: Global, _: u32, request: Described) -> Result<(), Memory> {
        Ok(self.requests.push(request)?)
    }

    ghost none = { λ first. (refl, λ none. ap (all_violations first.list) none) };
}

/// The violations of the requests of a request file, in order. They are found while they are handed out.
#[derive(Drop)]
pub struct Violations<'a> {
    held: Held<'a>,
}

impl<'a> Model for Violations<'a> {
    ghost use Rattle.std.specs.Prelude as std_words;
    ghost use Rattle.csp_model.specs.declared.verdict.Violation.{Violation};
    ghost use Rattle.csp_output.specs.Reports.{all_violations};

    ghost Value = { std_words.List Violation };

    ghost view = { λ a. all_violations a.held.list a.held.requests };
}

impl<'a> Violations<'a> {
    /// Reads the whole file, before one violation can be handed out. Errors are those of `csp_request::each`.
    pub fn read(
        alloc: Global,
        list: &'a PolicyList,
        bytes: &[u8],
    ) -> Result<Violations<'a>, RequestError>
        requires { IsReadable list.now }
        ensures read { IfOk result (λ all. violations_in list.now (requests_of bytes.now) ≡ Ok all) }
        ensures refused { IfErr result (λ e. e ≢ RequestError.Memory → requests_of bytes.now ≡ Err e) }
    {
        let mut held = Held {
            list: CompiledList::for_reports(alloc, list)?,
            requests: List::new(alloc),
        };
        each(alloc, bytes, &mut held)?;
        Ok(Violations { held })
    }

    /// Hands them out as `csp_desk::hand_out` does. The violations of one request are let go before those of
    /// the next are found.
    pub fn hand_out(
        &self,
        alloc: Global,
        desk: &mut Vec<Box<dyn Reporter>>,
    ) -> Result<(), DeskError>
        requires { length desk.old.items < 2 ^ 32 }
        ensures took { OnOk result (map (λ b. held b) desk.new.items
            ≡ all_grown self.now (map (λ b. held b) desk.old.items)) }
        ensures stopped { IfErr result (λ e. HasStopped e self.now
            (lent (λ b. kind b) (λ b. may_refuse b) (λ b. held b) (λ b. faults b)
            desk.old.items desk.new.items)) }
        ensures no_fault { ((n : ℕ) → IsErrOf result (DeskError.Refused n) → ⊥)
            → map (λ b. faults b) desk.new.items ≡ map (λ b. faults b) desk.old.items }
        ensures kept { IsKept (lent (λ b. kind b) (λ b. may_refuse b) (λ b. held b) (λ b. faults b)
            desk.old.items desk.new.items) }
    {
        hand_out_each(alloc, &self.held.list, self.held.requests.as_slice(), desk)
    }
}

// Hands out the violations of each of these requests.
fn hand_out_each(
    alloc: Global,
    list: &CompiledList<'_>,
    requests: &[Described],
    desk: &mut Vec<Box<dyn Reporter>>,
) -> Result<(), DeskError>
    requires { length desk.old.items < 2 ^ 32 }
    ensures took { OnOk result (map (λ b. held b) desk.new.items
        ≡ all_grown (all_violations list.now requests.now) (map (λ b. held b) desk.old.items)) }
    ensures stopped { IfErr result (λ e. HasStopped e (all_violations list.now requests.now)
        (lent (λ b. kind b) (λ b. may_refuse b) (λ b. held b) (λ b. faults b)
        desk.old.items desk.new.items)) }
    ensures no_fault { ((n : ℕ) → IsErrOf result (DeskError.Refused n) → ⊥)
        → map (λ b. faults b) desk.new.items ≡ map (λ b. faults b) desk.old.items }
    ensures kept { IsKept (lent (λ b. kind b) (λ b. may_refuse b) (λ b. held b) (λ b. faults b)
        desk.old.items desk.new.items) }
{
    for request in requests {
        let Ok(violations) = list.violations(alloc, request) else {
            return Err(DeskError::Memory);
        };
        hand_out(alloc, desk, &violations)?;
    }
    Ok(())
}
