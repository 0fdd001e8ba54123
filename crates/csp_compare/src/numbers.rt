//! The numbers of trees, listed by how many nodes the trees have.
ghost use Rattle.std.specs.Prelude.{Contains, OnOk};
ghost use Rattle.csp_compare.specs.Drafts.{KeepsNumbers, numbers_at};

use csp_model::Memory;
use std::alloc::Global;
use std::collections::BTreeMap;

// Adds a number to those of a count.
pub(crate) fn note(
    alloc: Global,
    by_count: &mut BTreeMap<usize, Vec<u32>>,
    count: usize,
    number: u32,
) -> Result<(), Memory>
    ensures kept { KeepsNumbers by_count.old by_count.new }
    ensures noted { OnOk result (Contains (numbers_at by_count.new count) number) }
{
    if let Some(numbers) = by_count.get_mut(&count) {
        numbers.push(number)?;
        return Ok(());
    }
    by_count.insert(count, vec![in alloc; number]?)?;
    Ok(())
}
