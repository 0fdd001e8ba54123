//! What `why` prints: the verdict on each request of a request file, and what decided it.
ghost use Rattle.std.specs.Prelude.{◌≡◌, ◌≢◌, Err, IfErr, IfOk, List as Items, Ok, OnOk};
ghost use Rattle.csp_model.specs.Policies.{IsReadable};
ghost use Rattle.csp_model.specs.declared.verdict.Described.{Described as Request};
ghost use Rattle.csp_output.specs.Explanations as spec;
ghost use Rattle.csp_request.specs.Requests.{requests_of};

use crate::built::Built;
use crate::judge_output::judged_status;
use crate::lines::push_verdict;
use crate::reason_lines::push_reasons;
use csp_model::{Bytes, Described, Memory, PolicyList};
use csp_request::{ReportTexts, RequestError, Take, Wanted, each};
use csp_verdict::CompiledList;
use std::alloc::Global;
use std::marker::Model;

// What is printed of the requests so far, and whether one of these is blocked.
#[derive(Drop)]
pub(crate) struct Explanation<'a> {
    list: &'a PolicyList,
    compiled: CompiledList<'a>,
    text: Vec<u8>,
    blocked: bool,
}

impl<'a> Model for Explanation<'a> {
    ghost use Rattle.std.specs.Prelude.{◌≡◌, ◌≤◌, length};
    ghost use Rattle.csp_model.specs.Policies.{policy_limit};
    ghost use Rattle.csp_output.specs.Explanations.{Explained};

    ghost Value = { Explained };

    ghost view = { λ a. record { list = a.list.now; blocked = a.blocked; text = a.text.items } };

    ghost invariant = { λ a. (a.compiled ≡ a.list.now) × (length a.list.now.policies ≤ policy_limit) };
}

impl<'a> Explanation<'a> {
    // Explains the request of this number.
    fn push(&mut self, alloc: Global, number: u32, request: &Described) -> Result<(), Memory>
        ensures { OnOk result (self.new ≡ spec.with_request self.old number request.now.checks) }
    {
        let verdict = self.compiled.judge(alloc, request)?;
        self.blocked |= verdict.blocked;
        push_verdict(&mut self.text, number, &verdict)?;
        push_reasons(alloc, &mut self.text, self.list, request.checks.as_slice())
    }
}

// Only digests that some policy names are computed, and no text that only a report shows is made.
impl<'a> Take for Explanation<'a> {
    ghost use Rattle.std.specs.Prelude.{◌≡◌, []};
    ghost use Rattle.csp_model.specs.declared.policy.PolicyList.{PolicyList};
    ghost use Rattle.csp_output.specs.Taken.{explained_of};
    ghost use Rattle.csp_request.specs.declared.texts.ReportTexts.{ReportTexts};
    ghost use Rattle.csp_verdict.specs.Algorithms.{algorithms_of};

    ghost wants = { λ so_far. record { digests = algorithms_of so_far.list; texts = ReportTexts.Empty } };

    ghost Took = { λ first requests so_far. (list : PolicyList) → first ≡ explained_of list []
        → so_far ≡ explained_of list requests };

    fn wanted(&self) -> Wanted {
        Wanted {
            digests: self.compiled.algorithms(),
            texts: ReportTexts::Empty,
        }
    }

    fn take(&mut self, alloc: Global, number: u32, request: Described) -> Result<(), Memory> {
        self.push(alloc, number, &request)?;
        Ok(())
    }

    ghost none = { λ first list is. is };
}

/// What `why` prints of the requests of a request file. Errors are those of `csp_request::each`.
///
/// For each request there is the line of its verdict, as `judge` prints it, and then of some of its checks
/// the URL, where it has one, and for each policy in order why that allows or blocks it
/// (`csp_why::explain`). These are the checks that were judged and that some policy doesn't allow, whether
/// it is enforced or only reports. Where there is none, it is the last check. Of a request without checks
/// nothing is told but its verdict. The status is `Found` where a request is blocked, and else `Clean`.
pub fn why(alloc: Global, list: &PolicyList, bytes: &[u8]) -> Result<Built, RequestError>
    requires { IsReadable list.now }
    ensures output { IfOk result (λ built. (requests : Items Request) × (requests_of bytes.now ≡ Ok requests)
        × (built ≡ spec.explanation list.now requests)) }
    ensures refused { IfErr result (λ e. e ≢ RequestError.Memory → requests_of bytes.now ≡ Err e) }
{
    let mut explanation = Explanation {
        list,
        compiled: CompiledList::new(alloc, list)?,
        text: Vec::new(alloc),
        blocked: false,
    };
    each(alloc, bytes, &mut explanation)?;
    let Explanation { text, blocked, .. } = explanation;
    Ok(Built {
        status: judged_status(blocked),
        text: Bytes::from_vec(text),
    })
}
