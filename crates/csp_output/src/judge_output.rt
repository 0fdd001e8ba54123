//! What `judge` prints: a line for each request of a request file.
ghost use Rattle.std.specs.Prelude.{◌≡◌, ◌≢◌, Err, IfErr, IfOk, List as Items, Ok, if◌then◌else◌, map};
ghost use Rattle.csp_model.specs.Policies.{IsReadable};
ghost use Rattle.csp_model.specs.declared.verdict.Described.{Described as Request};
ghost use Rattle.csp_output.specs.Lines.{judgment};
ghost use Rattle.csp_request.specs.Requests.{requests_of};

use crate::built::Built;
use crate::status::Status;
use crate::verdict_lines::VerdictLines;
use csp_model::{Described, Memory, PolicyList};
use csp_request::{ReportTexts, RequestError, Take, Wanted, each};
use csp_verdict::CompiledList;
use std::alloc::Global;

// The lines of the requests that were judged, and whether one of these is blocked.
#[derive(Drop)]
pub(crate) struct Judging<'a> {
    list: CompiledList<'a>,
    lines: VerdictLines,
    blocked: bool,
}

// Only digests that some policy names are computed, and no text that only a report shows is made.
impl<'a> Take for Judging<'a> {
    ghost use Rattle.std.specs.Prelude.{◌≡◌, []};
    ghost use Rattle.csp_model.specs.declared.policy.PolicyList.{PolicyList};
    ghost use Rattle.csp_output.specs.Taken.{judging_of};
    ghost use Rattle.csp_request.specs.declared.texts.ReportTexts.{ReportTexts};
    ghost use Rattle.csp_verdict.specs.Algorithms.{algorithms_of};

    ghost wants = { λ judging. record { digests = algorithms_of judging.list; texts = ReportTexts.Empty } };

    ghost Took = { λ first requests judging. (list : PolicyList) → first ≡ judging_of list []
        → judging ≡ judging_of list requests };

    fn wanted(&self) -> Wanted {
        Wanted {
            digests: self.list.algorithms(),
            texts: ReportTexts::Empty,
        }
    }

    fn take(&mut self, alloc: Global, number: u32, request: Described) -> Result<(), Memory> {
        let verdict = self.list.judge(alloc, &request)?;
        self.blocked |= verdict.blocked;
        self.lines.push(alloc, number, verdict)?;
        Ok(())
    }

    ghost none = { λ first list is. is };
}

/// What `judge` prints: the line of the verdict on each request of a request file. The status is `Found`
/// where one is blocked, and else `Clean`. Errors are those of `csp_request::each`.
pub fn judge(alloc: Global, list: &PolicyList, bytes: &[u8]) -> Result<Built, RequestError>
    requires { IsReadable list.now }
    ensures output { IfOk result (λ built. (requests : Items Request) × (requests_of bytes.now ≡ Ok requests)
        × (built ≡ judgment list.now (map (λ request. request.checks) requests))) }
    ensures refused { IfErr result (λ e. e ≢ RequestError.Memory → requests_of bytes.now ≡ Err e) }
{
    let mut judging = Judging {
        list: CompiledList::new(alloc, list)?,
        lines: VerdictLines::new(alloc),
        blocked: false,
    };
    each(alloc, bytes, &mut judging)?;
    let Judging { lines, blocked, .. } = judging;
    Ok(Built {
        status: judged_status(blocked),
        text: lines.into_bytes(),
    })
}

// The status of requests of which some are blocked or none.
pub(crate) fn judged_status(blocked: bool) -> Status
    ensures { result ≡ (if blocked then Status.Found else Status.Clean) }
{
    if blocked {
        Status::Found
    } else {
        Status::Clean
    }
}
