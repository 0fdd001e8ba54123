//! The endings of lines, which many lines share.
ghost use Rattle.std.specs.Prelude.{◌≡◌, ◌<◌, ◌++◌, [], IsTrue, IfOk, IfSome, OnOk, length, get_or, take};
ghost use Rattle.csp_desk.specs.Weaves.{ending_of};

use crate::report::report_ending;
use csp_model::{Disposition, Duplicate, Memory, Name, Text, Violation};
use std::alloc::Global;
use std::marker::Model;

/// What the lines of one policy's violations of one directive say behind what is blocked, if they have no
/// sample.
#[derive(Debug, Drop)]
pub(crate) struct Ending {
    disposition: Disposition,
    effective: Name,
    policy: Text,
    text: Vec<u8>,
}

impl Model for Ending {
    ghost use Rattle.std.specs.Prelude as std_words;
    ghost use Rattle.std.specs.Prelude.{◌≡◌, ℕ, []};
    ghost use Rattle.csp_desk.specs.Weaves.{line_ending};

    ghost Value = { std_words.List ℕ };

    ghost view = { λ a. a.text.items };

    ghost invariant = { λ a. a.text.items ≡ line_ending a.disposition a.effective a.policy [] };
}

impl Ending {
    // That of a violation that has no sample.
    fn new(alloc: Global, violation: &Violation) -> Result<Ending, Memory>
        requires { violation.now.sample ≡ [] }
        ensures { IfOk result (λ made. made ≡ ending_of violation.now) }
    {
        let mut text = report_ending(alloc, violation)?.into_vec();
        text.push(b'\n')?;
        Ok(Ending {
            disposition: violation.disposition,
            effective: violation.effective,
            policy: violation.policy.copy(alloc)?,
            text,
        })
    }

    // Whether it is that of a violation, which has no sample.
    fn is_of(&self, violation: &Violation) -> bool
        requires { violation.now.sample ≡ [] }
        ensures { IsTrue result → self.now ≡ ending_of violation.now }
    {
        self.effective == violation.effective
            && self.disposition == violation.disposition
            && self.policy == violation.policy
    }

    // Its text.
    pub(crate) fn as_slice(&self) -> &[u8]
        ensures { result.now ≡ self.now }
    {
        self.text.as_slice()
    }
}

// How many of the last endings are looked at.
const SEARCHED: usize = 64;

// Whether the ending at a place is that of a violation.
fn is_at(endings: &[Ending], place: usize, violation: &Violation) -> bool
    requires { violation.now.sample ≡ [] }
    ensures { IsTrue result
        → (place < length endings.now) × (get_or endings.now place [] ≡ ending_of violation.now) }
{
    match endings.get(place) {
        Some(ending) => ending.is_of(violation),
        None => false,
    }
}

// The place of the ending of a violation among the last ones.
fn search(endings: &[Ending], violation: &Violation) -> Option<usize>
    requires { violation.now.sample ≡ [] }
    ensures { IfSome result (λ place. (place < length endings.now)
        × (get_or endings.now place [] ≡ ending_of violation.now)) }
{
    for place in endings.len().saturating_sub(SEARCHED)..endings.len() {
        if is_at(endings, place, violation) {
            return Some(place);
        }
    }
    None
}

// The same, first where the last violation's was found, and behind it.
fn find(endings: &[Ending], last: usize, violation: &Violation) -> Option<usize>
    requires { violation.now.sample ≡ [] }
    ensures { IfSome result (λ place. (place < length endings.now)
        × (get_or endings.now place [] ≡ ending_of violation.now)) }
{
    if is_at(endings, last, violation) {
        return Some(last);
    }
    let next = last.saturating_add(1);
    if is_at(endings, next, violation) {
        return Some(next);
    }
    search(endings, violation)
}

// The place of the ending of a violation, which is added where it isn't found.
pub(crate) fn place_of(
    alloc: Global,
    endings: &mut Vec<Ending>,
    last: usize,
    violation: &Violation,
) -> Result<usize, Memory>
    requires { violation.now.sample ≡ [] }
    ensures kept { take (length endings.old.items) endings.new.items ≡ endings.old.items }
    ensures place { IfOk result (λ place. (place < length endings.new.items)
        × (get_or endings.new.items place [] ≡ ending_of violation.now)) }
{
    if let Some(place) = find(endings.as_slice(), last, violation) {
        return Ok(place);
    }
    let place = endings.len();
    endings.push(Ending::new(alloc, violation)?)?;
    Ok(place)
}
