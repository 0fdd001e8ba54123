//! Checks that told two lists apart, tried on other lists.
ghost use Rattle.std.specs.Prelude.{◌≡◌, ◌≤◌, All, IfOk, IfSome, length, ◌∷◌, []};
ghost use Rattle.csp_compare.specs.Answers.{IsCounterexample};
ghost use Rattle.csp_model.specs.Policies.{IsReadable};
ghost use Rattle.csp_model.specs.Validity.{IsValidCheck};
ghost use Rattle.csp_model.specs.Verdict.{allows_all};
ghost use Rattle.csp_order.specs.Pairs.{IsPair};
ghost use Rattle.csp_order.specs.Relations.{list_at};
ghost use Rattle.csp_order.specs.Trials.{IsTrial};

use crate::pair::Pair;
use csp_model::{Check, Described, Duplicate, List, Memory, PolicyList, Text};
use csp_verdict::CompiledList;
use std::alloc::Global;
use std::marker::Model;

// The lists, each made ready once for all checks, and a request for each check. Seen as the lists.
#[derive(Drop)]
pub(crate) struct Trials<'a> {
    lists: Vec<CompiledList<'a>>,
    requests: Vec<Described>,
}

impl<'a> Model for Trials<'a> {
    ghost use Rattle.std.specs.Prelude as std_words;
    ghost use Rattle.std.specs.Prelude.{All};
    ghost use Rattle.csp_model.specs.declared.policy.PolicyList.{PolicyList as PolicyListValue};
    ghost use Rattle.csp_order.specs.Trials.{IsTrial};

    ghost Value = { std_words.List PolicyListValue };

    ghost view = { λ a. a.lists.items };

    ghost invariant = { λ a. All IsTrial a.requests.items };
}

impl<'a> Trials<'a> {
    // No check yet.
    pub(crate) fn new(alloc: Global, lists: &'a [PolicyList]) -> Result<Trials<'a>, Memory>
        requires { All IsReadable lists.now }
        ensures { IfOk result (λ made. made ≡ lists.now) }
    {
        Ok(Trials {
            lists: compile_all(alloc, lists)?,
            requests: Vec::new(alloc),
        })
    }

    // Adds a check.
    pub(crate) fn add(&mut self, alloc: Global, check: &Check) -> Result<(), Memory>
        requires { IsValidCheck check.now }
        ensures { self.new ≡ self.old }
    {
        let request = request_of(alloc, check)?;
        self.requests.push(request)?;
        Ok(())
    }

    // A check that the first list of a pair allows and the second doesn't, if one of the checks is one.
    pub(crate) fn difference(&self, alloc: Global, pair: Pair) -> Result<Option<Check>, Memory>
        requires { IsPair (length self.now) pair }
        ensures { IfOk result (λ found. IfSome found
            (IsCounterexample (list_at self.now pair.first) (list_at self.now pair.second))) }
    {
        for request in self.requests.as_slice() {
            if self.allows(alloc, pair.first, request)?
                && !self.allows(alloc, pair.second, request)?
            {
                return Ok(Some(check_of(alloc, request)?));
            }
        }
        Ok(None)
    }

    // Whether the list of a number allows the checks of a request.
    fn allows(&self, alloc: Global, number: u32, request: &Described) -> Result<bool, Memory>
        requires some { 1 ≤ number }
        requires few { number ≤ length self.now }
        ensures { IfOk result (λ allowed.
            allowed ≡ allows_all (list_at self.now number) request.now.checks) }
    {
        let verdict = self.lists[number as usize - 1].judge(alloc, request)?;
        Ok(!verdict.blocked)
    }
}

fn compile_all<'a>(alloc: Global, lists: &'a [PolicyList]) -> Result<Vec<CompiledList<'a>>, Memory>
    requires { All IsReadable lists.now }
    ensures { IfOk result (λ made. made.items ≡ lists.now) }
{
    let mut made = Vec::new(alloc);
    for list in lists {
        made.push(CompiledList::new(alloc, list)?)?;
    }
    Ok(made)
}

// A request of one check, of which a report would show nothing.
fn request_of(alloc: Global, check: &Check) -> Result<Described, Memory>
    requires { IsValidCheck check.now }
    ensures { IfOk result IsTrial }
{
    let mut checks = List::new(alloc);
    checks.push(check.copy(alloc)?)?;
    Ok(Described {
        checks,
        blocked_uri: Text::new(alloc, "")?,
        sample: Text::new(alloc, "")?,
    })
}

// The check of such a request.
fn check_of(alloc: Global, request: &Described) -> Result<Check, Memory>
    requires { IsTrial request.now }
    ensures { IfOk result (λ check. request.now.checks ≡ check ∷ []) }
{
    let Some(check) = request.checks.get(0) else {
        unreachable!()
    };
    check.copy(alloc)
}
