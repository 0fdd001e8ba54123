//! A desk of reporters.
ghost use Rattle.std.specs.Prelude.{◌≡◌, ◌<◌, ◌≤◌, ◌^◌, ◌∷◌, ◌++◌, ℕ, [], length, map, OnOk, OnErr, IfOk, IfErr};
ghost use Rattle.std.specs.Prelude.{IsErrOf, IsTrue};
ghost use Rattle.std.specs.List.{flat_map};
ghost use Rattle.csp_io.specs.Told.{Rose};
ghost use Rattle.csp_desk.specs.Growth.{NoneFell, all_grown, MayRefuse, StopsAt};
ghost use Rattle.csp_desk.specs.Tellings.{section_text, telling_text};
ghost use Rattle.csp_desk.specs.Texts as spec;

use crate::reporter::{AcceptError, Kind, Reporter};
use crate::telling::{Section, Telling};
use csp_model::{List, Memory, Violation};
use std::alloc::Global;
use thiserror::Error;

/// Why not all violations were handed out.
#[derive(Clone, Copy, Debug, PartialEq, Eq, Error)]
pub enum DeskError {
    /// The reporter of this number, counted from 1, is one that may refuse. It refused one, and its count of
    /// faults rose.
    #[error("reporter {reporter} refused a violation")]
    Refused { reporter: u32 },

    /// There was no memory.
    #[error("no memory")]
    Memory,
}

fn accept_by(
    alloc: Global,
    reporter: &mut Box<dyn Reporter>,
    violation: &Violation,
) -> Result<(), AcceptError>
    ensures same_kind { kind reporter.new ≡ kind reporter.old }
    ensures same_may_refuse { may_refuse reporter.new ≡ may_refuse reporter.old }
    ensures later { faults reporter.old ≤ faults reporter.new }
    ensures took { OnOk result (held reporter.new ≡ held reporter.old ++ violation.now ∷ []) }
    ensures refused { OnErr result (held reporter.new ≡ held reporter.old) }
    ensures may { IsErrOf result AcceptError.Refused → IsTrue (may_refuse reporter.old) }
    ensures cause { IsErrOf result AcceptError.Refused → Rose (faults reporter.old) (faults reporter.new) }
    ensures no_fault { (IsErrOf result AcceptError.Refused → ⊥) → faults reporter.new ≡ faults reporter.old }
{
    reporter.accept(alloc, violation)
}

// Hands one violation to each reporter in turn.
fn hand_each(
    alloc: Global,
    desk: &mut [Box<dyn Reporter>],
    violation: &Violation,
) -> Result<(), DeskError>
    requires { length desk.old < 2 ^ 32 }
    ensures same_kinds { map (λ b. kind b) desk.new ≡ map (λ b. kind b) desk.old }
    ensures same_may_refuse { map (λ b. may_refuse b) desk.new ≡ map (λ b. may_refuse b) desk.old }
    ensures later { NoneFell (map (λ b. faults b) desk.old) (map (λ b. faults b) desk.new) }
    ensures took { OnOk result (map (λ b. held b) desk.new
        ≡ all_grown (violation.now ∷ []) (map (λ b. held b) desk.old)) }
    ensures may { IfErr result (λ e. MayRefuse (map (λ b. may_refuse b) desk.old) e) }
    ensures stopped { IfErr result (λ e. StopsAt e (violation.now ∷ [])
        (map (λ b. held b) desk.old) (map (λ b. held b) desk.new)
        (map (λ b. faults b) desk.old) (map (λ b. faults b) desk.new)) }
    ensures no_fault { ((n : ℕ) → IsErrOf result (DeskError.Refused n) → ⊥)
        → map (λ b. faults b) desk.new ≡ map (λ b. faults b) desk.old }
{
    for (place, reporter) in desk.iter_mut().enumerate() {
        match accept_by(alloc, reporter, violation) {
            Ok(()) => {}
            Err(AcceptError::Refused) => {
                return Err(DeskError::Refused {
                    reporter: place as u32 + 1,
                });
            }
            Err(AcceptError::Memory) => return Err(DeskError::Memory),
        }
    }
    Ok(())
}

/// Hands the violations out in order, and each of them to the reporters in order.
///
/// It stops where a reporter answers an error. What was taken before stays.
pub fn hand_out(
    alloc: Global,
    desk: &mut Vec<Box<dyn Reporter>>,
    violations: &List<Violation>,
) -> Result<(), DeskError>
    requires { length desk.old.items < 2 ^ 32 }
    ensures same_kinds { map (λ b. kind b) desk.new.items ≡ map (λ b. kind b) desk.old.items }
    ensures same_may_refuse { map (λ b. may_refuse b) desk.new.items
        ≡ map (λ b. may_refuse b) desk.old.items }
    ensures later { NoneFell (map (λ b. faults b) desk.old.items) (map (λ b. faults b) desk.new.items) }
    ensures took { OnOk result (map (λ b. held b) desk.new.items
        ≡ all_grown violations.now (map (λ b. held b) desk.old.items)) }
    ensures may { IfErr result (λ e. MayRefuse (map (λ b. may_refuse b) desk.old.items) e) }
    ensures stopped { IfErr result (λ e. StopsAt e violations.now
        (map (λ b. held b) desk.old.items) (map (λ b. held b) desk.new.items)
        (map (λ b. faults b) desk.old.items) (map (λ b. faults b) desk.new.items)) }
    ensures no_fault { ((n : ℕ) → IsErrOf result (DeskError.Refused n) → ⊥)
        → map (λ b. faults b) desk.new.items ≡ map (λ b. faults b) desk.old.items }
{
    for violation in violations.as_slice() {
        hand_each(alloc, desk.as_mut_slice(), violation)?;
    }
    Ok(())
}

fn heading(kind: Kind) -> &'static str
    ensures { result.now ≡ spec.heading kind }
{
    match kind {
        Kind::Lines => "reporter lines\n",
        Kind::Tally => "reporter tally\n",
        Kind::Recent { .. } => "reporter recent\n",
    }
}

fn kind_by(reporter: &Box<dyn Reporter>) -> Kind
    ensures { result ≡ kind reporter.now }
{
    reporter.kind()
}

fn tell_by(alloc: Global, reporter: &Box<dyn Reporter>) -> Result<Telling<'_>, Memory>
    ensures { IfOk result
        (λ told. telling_text told ≡ spec.report_text (kind reporter.now) (held reporter.now)) }
{
    reporter.tell(alloc)
}

fn section_of(alloc: Global, reporter: &Box<dyn Reporter>) -> Result<Section<'_>, Memory>
    ensures { IfOk result
        (λ made. section_text made ≡ spec.section (kind reporter.now) (held reporter.now)) }
{
    let telling = tell_by(alloc, reporter)?;
    Ok(Section {
        heading: heading(kind_by(reporter)),
        telling,
    })
}

/// What the reporters tell, in order, each behind the line `reporter lines`, `reporter tally` or
/// `reporter recent`. Of what a reporter holds nothing is copied.
pub fn sections_of(alloc: Global, desk: &[Box<dyn Reporter>]) -> Result<Vec<Section<'_>>, Memory>
    ensures { IfOk result (λ sections. flat_map section_text sections.items
        ≡ spec.desk_text (map (λ b. kind b) desk.now) (map (λ b. held b) desk.now)) }
{
    let mut sections = Vec::new(alloc);
    for reporter in desk {
        sections.push(section_of(alloc, reporter)?)?;
    }
    Ok(sections)
}
