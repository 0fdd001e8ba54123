//! How many violations there are of each directive.
ghost use Rattle.std.specs.Prelude.{◌≡◌, ◌-◌, ◌^◌, IfOk, OnOk, OnErr, slice_index, string_bytes};
ghost use Rattle.std.specs.List.{flat_map};
ghost use Rattle.csp_desk.specs.NameOrder as order;
ghost use Rattle.csp_desk.specs.Texts as spec;

use csp_model::{Bytes, Memory, Name, Violation, name_text};
use std::alloc::Global;

// How many names there are.
pub(crate) const NAMES: usize = Name::ALL.len();

// The place of a name among all names.
fn place_of(name: Name) -> usize
    ensures { result ≡ order.place_of name }
{
    name as usize
}

// Counts a violation of this name, where its count stays below 2^64.
pub(crate) fn count(counts: &mut [usize; NAMES], name: Name) -> Result<(), Memory>
    ensures ok { OnOk result (counts.new ≡ order.counted name counts.old) }
    ensures full { OnErr result (slice_index counts.old (order.place_of name) ≡ 2 ^ 64 - 1) }
    ensures err { OnErr result (counts.new ≡ counts.old) }
{
    let place = place_of(name);
    match counts[place].checked_add(1) {
        Some(count) => {
            counts[place] = count;
            Ok(())
        }
        None => Err(Memory),
    }
}

// How many violations there are of each name, in one pass.
fn counts_of(held: &[Violation]) -> [usize; NAMES]
    ensures { result ≡ spec.counts_of held.now }
{
    let mut counts = [0; NAMES];
    for violation in held {
        counts[place_of(violation.effective)] += 1;
    }
    counts
}

fn line_of(alloc: Global, name: Name, count: usize) -> Result<String, Memory>
    ensures { IfOk result (λ line. string_bytes line ≡ spec.count_line name count) }
{
    if count == 0 {
        return Ok(String::new(alloc));
    }
    let name = name_text(name);
    Ok(format!(in alloc; "{name} {count}\n")?)
}

fn lines_of(alloc: Global, names: &[Name], counts: &[usize; NAMES]) -> Result<Bytes, Memory>
    ensures { IfOk result (λ text. text ≡ flat_map (spec.line_at counts.now) names.now) }
{
    let mut text = Vec::new(alloc);
    for name in names {
        let line = line_of(alloc, *name, counts[place_of(*name)])?;
        text.extend_from_slice(line.as_bytes())?;
    }
    Ok(Bytes::from_vec(text))
}

// The lines of all names that occur.
pub(crate) fn counts_text(alloc: Global, counts: &[usize; NAMES]) -> Result<Bytes, Memory>
    ensures { IfOk result (λ text. text ≡ flat_map (spec.line_at counts.now) order.names_in_order) }
{
    lines_of(alloc, &Name::ALL, counts)
}

pub(crate) fn tally_text(alloc: Global, held: &[Violation]) -> Result<Bytes, Memory>
    ensures { IfOk result (λ text. text ≡ spec.tally_text held.now) }
{
    counts_text(alloc, &counts_of(held))
}
