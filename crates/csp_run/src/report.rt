//! What `report` does: it hands the violations of each request to a desk, whose reporters then tell of them.
ghost use Rattle.std.specs.Prelude.{◌≡◌, ◌≢◌, ◌⊎◌, ◌<◌, ◌^◌, ℕ, length, map, Ok, List as Items};
ghost use Rattle.csp_desk.specs.Desk.{IsKept, IsUntouched, desk as lent};
ghost use Rattle.csp_desk.specs.Growth.{GrewInPart};
ghost use Rattle.csp_model.specs.Policies.{IsReadable};
ghost use Rattle.csp_model.specs.declared.verdict.Violation.{Violation};
ghost use Rattle.csp_output.specs.Reports.{violations_in};
ghost use Rattle.csp_request.specs.Requests.{requests_of};
ghost use Rattle.csp_run.specs.Outputs.{IsReportOn};
ghost use Rattle.csp_run.specs.Reports.{IsReport};
ghost use Rattle.csp_run.specs.Shown.{end_of};
ghost use Rattle.csp_run.specs.declared.fault.Fault.TheVariants as fault;

use crate::fault::Fault;
use crate::output::Outcome;
use csp_desk::Reporter;
use csp_model::PolicyList;
use csp_output::Violations;
use std::alloc::Global;

// The violations of all requests of a request file go to the desk, whose reporters then tell of them.
pub(crate) fn report(
    alloc: Global,
    list: &PolicyList,
    bytes: &[u8],
    desk: &mut Vec<Box<dyn Reporter>>,
) -> Result<Outcome, Fault>
    requires readable { IsReadable list.now }
    requires few { length desk.old.items < 2 ^ 32 }
    ensures end { let d = lent (λ b. kind b) (λ b. may_refuse b) (λ b. held b) (λ b. faults b)
        desk.old.items desk.new.items in
        result ≢ Err Fault.Memory → IsReportOn (violations_in list.now (requests_of bytes.now)) d
        (end_of d.kinds d.held_now result) }
    ensures grown { let d = lent (λ b. kind b) (λ b. may_refuse b) (λ b. held b) (λ b. faults b)
        desk.old.items desk.new.items in
        IsUntouched d ⊎ ((all : Items Violation) × (violations_in list.now (requests_of bytes.now) ≡ Ok all)
        × GrewInPart all d.held_before d.held_now) }
    ensures none_refused { ((n : ℕ) → result ≢ Err (fault.Refused n))
        → map (λ b. faults b) desk.new.items ≡ map (λ b. faults b) desk.old.items }
    ensures kept { IsKept (lent (λ b. kind b) (λ b. may_refuse b) (λ b. held b) (λ b. faults b)
        desk.old.items desk.new.items) }
{
    match Violations::read(alloc, list, bytes) {
        Ok(violations) => report_all(alloc, &violations, desk),
        Err(error) => Err(Fault::from(error)),
    }
}

// All these violations go to the desk.
fn report_all(
    alloc: Global,
    violations: &Violations<'_>,
    desk: &mut Vec<Box<dyn Reporter>>,
) -> Result<Outcome, Fault>
    requires { length desk.old.items < 2 ^ 32 }
    ensures end { let d = lent (λ b. kind b) (λ b. may_refuse b) (λ b. held b) (λ b. faults b)
        desk.old.items desk.new.items in
        result ≢ Err Fault.Memory → IsReport violations.now d (end_of d.kinds d.held_now result) }
    ensures grown { GrewInPart violations.now
        (map (λ b. held b) desk.old.items) (map (λ b. held b) desk.new.items) }
    ensures none_refused { ((n : ℕ) → result ≢ Err (fault.Refused n))
        → map (λ b. faults b) desk.new.items ≡ map (λ b. faults b) desk.old.items }
    ensures kept { IsKept (lent (λ b. kind b) (λ b. may_refuse b) (λ b. held b) (λ b. faults b)
        desk.old.items desk.new.items) }
{
    violations.hand_out(alloc, desk)?;
    Ok(Outcome::Reporters)
}
