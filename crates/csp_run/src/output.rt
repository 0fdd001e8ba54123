//! What each command prints of what its files hold.
ghost use Rattle.std.specs.Prelude.{◌≡◌, ◌≢◌, ◌⊎◌, ◌<◌, ◌^◌, IsTrue, ℕ, Ok, length, map};
ghost use Rattle.csp_desk.specs.Desk.{IsKept, IsUntouched, desk as lent};
ghost use Rattle.csp_run.specs.Outputs.{GrewOn, IsOutput, hands_out};
ghost use Rattle.csp_run.specs.Shown.{IsSound, contents_of, end_of, read_form};
ghost use Rattle.csp_run.specs.declared.fault.Fault.TheVariants as fault;

use crate::fault::Fault;
use crate::files::Operands;
use crate::plan::{Compared, Judged};
use crate::report::report;
use csp_desk::Reporter;
use csp_model::Origin;
use csp_output::{
    Built, Response, check, compare, differ, drill, embed, judge, learn, order, read, read_log,
    tidy, why,
};
use std::alloc::Global;

// What a command prints.
#[derive(Drop)]
pub(crate) enum Outcome {
    // A text that was built.
    Text(Built),
    // What the reporters of the desk tell, with the status `Clean`.
    Reporters,
}

// The output of a command on what its files hold, and what it does to the desk.
pub(crate) fn output(
    alloc: Global,
    origin: &Origin,
    operands: &Operands,
    desk: &mut Vec<Box<dyn Reporter>>,
) -> Result<Outcome, Fault>
    requires sound { IsSound operands.now }
    requires few { length desk.old.items < 2 ^ 32 }
    ensures end { let d = lent (λ b. kind b) (λ b. may_refuse b) (λ b. held b) (λ b. faults b)
        desk.old.items desk.new.items in
        result ≢ Err Fault.Memory
        → IsOutput (read_form operands.now) origin.now (Ok (contents_of operands.now)) d
        (end_of d.kinds d.held_now result) }
    ensures grown { let d = lent (λ b. kind b) (λ b. may_refuse b) (λ b. held b) (λ b. faults b)
        desk.old.items desk.new.items in
        IsUntouched d ⊎ (IsTrue (hands_out (read_form operands.now)) × GrewOn (contents_of operands.now) d) }
    ensures none_refused { ((n : ℕ) → result ≢ Err (fault.Refused n))
        → map (λ b. faults b) desk.new.items ≡ map (λ b. faults b) desk.old.items }
    ensures kept { IsKept (lent (λ b. kind b) (λ b. may_refuse b) (λ b. held b) (λ b. faults b)
        desk.old.items desk.new.items) }
{
    match operands {
        Operands::Judged {
            does: Judged::Judge,
            list,
            requests,
        } => Ok(Outcome::Text(judge(alloc, list, requests.as_slice())?)),
        Operands::Judged {
            does: Judged::Report,
            list,
            requests,
        } => report(alloc, list, requests.as_slice(), desk),
        Operands::Judged {
            does: Judged::Why,
            list,
            requests,
        } => Ok(Outcome::Text(why(alloc, list, requests.as_slice())?)),
        Operands::Compared {
            does: Compared::Compare,
            first,
            second,
        } => Ok(Outcome::Text(compare(alloc, first, second)?)),
        Operands::Compared {
            does: Compared::Differ,
            first,
            second,
        } => Ok(Outcome::Text(differ(alloc, first, second)?)),
        Operands::Checked {
            first,
            second,
            proof,
        } => Ok(Outcome::Text(check(alloc, first, second, proof.as_slice())?)),
        Operands::Drill { pairs } => Ok(Outcome::Text(drill(alloc, *pairs)?)),
        Operands::Embedded {
            embedder,
            required,
            block,
            response,
        } => {
            let response = Response {
                block: block.as_slice(),
                list: response,
            };
            Ok(Outcome::Text(embed(alloc, embedder, required, response)?))
        }
        Operands::Tidied { list } => Ok(Outcome::Text(tidy(alloc, list)?)),
        Operands::Learnt { requests } => {
            let log = read_log(alloc, requests.as_slice())?;
            Ok(Outcome::Text(learn(alloc, origin, log)?))
        }
        Operands::Ordered { lists } => Ok(Outcome::Text(order(alloc, lists)?)),
        Operands::Block { block } => Ok(Outcome::Text(read(alloc, block.as_slice())?)),
    }
}
