//! What `differ` prints: each directive under which a list of policies allows more than another, and a check
//! that shows it.
ghost use Rattle.std.specs.Prelude.{◌≡◌, ◌≤◌, ◌++◌, All, IfOk, OnOk, length};
ghost use Rattle.std.specs.List.{flat_map};
ghost use Rattle.csp_model.specs.Policies.{IsReadable, policy_limit};
ghost use Rattle.csp_model.specs.Validity.{IsValidCheck};
ghost use Rattle.csp_output.specs.Differing as spec;

use crate::built::Built;
use crate::compare_output::push_difference;
use crate::status::Status;
use csp_compare::{Difference, find_differences};
use csp_model::{Bytes, Memory, PolicyList, name_text};
use std::alloc::Global;

/// What `differ` prints: for each effective directive under which the first list allows a check that the second
/// blocks, in the order of their names, the directive's line and the lines of `compare` on one such check, with
/// the status `Found`. Where there is none, one line with the status `Clean`.
pub fn differ(alloc: Global, first: &PolicyList, second: &PolicyList) -> Result<Built, Memory>
    requires first { IsReadable first.now }
    requires second { IsReadable second.now }
    ensures { IfOk result (spec.IsDiffering first.now second.now) }
{
    let differences = find_differences(alloc, first, second)?;
    if differences.is_empty() {
        return Ok(Built {
            status: Status::Clean,
            text: Bytes::new(alloc, b"not weaker\n")?,
        });
    }
    Ok(Built {
        status: Status::Found,
        text: entries_text(alloc, second, differences.as_slice())?,
    })
}

// The lines of differences.
fn entries_text(
    alloc: Global,
    second: &PolicyList,
    differences: &[Difference],
) -> Result<Bytes, Memory>
    requires few { length second.now.policies ≤ policy_limit }
    requires valid { All spec.HasValidCheck differences.now }
    ensures text { IfOk result (λ text. text ≡ flat_map (spec.entry_text second.now) differences.now) }
    ensures read_back { IfOk result (λ text. All spec.IsReadBack differences.now) }
{
    let mut text = Vec::new(alloc);
    for difference in differences {
        push_entry(alloc, &mut text, second, difference)?;
    }
    Ok(Bytes::from_vec(text))
}

// Writes the line of a directive, and the lines on its check.
fn push_entry(
    alloc: Global,
    text: &mut Vec<u8>,
    second: &PolicyList,
    difference: &Difference,
) -> Result<(), Memory>
    requires few { length second.now.policies ≤ policy_limit }
    requires valid { IsValidCheck difference.now.check }
    ensures text { OnOk result
        (text.new.items ≡ text.old.items ++ spec.entry_text second.now difference.now) }
    ensures read_back { OnOk result (spec.IsReadBack difference.now) }
{
    text.extend_from_slice(name_text(difference.directive).as_bytes())?;
    text.push(b'\n')?;
    push_difference(alloc, text, second, &difference.check)
}
