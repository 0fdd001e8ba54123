//! The fields of a header block (RFC 9110, sections 5.1 and 5.5).
ghost use Rattle.std.specs.Prelude.{◌≡◌, IfOk, map, option_copied};
ghost use Rattle.std.specs.Str.Lines.{strip_carriage_return};
ghost use Rattle.csp_model.specs.Policies.{line_of};
ghost use Rattle.csp_policy.specs.Fields as spec;

use crate::lines::{HeaderLine, read_line, without_status};
use crate::pieces::Pieces;
use csp_model::Memory;
use std::alloc::Global;

/// The text without ASCII whitespace at its ends.
pub fn trim(text: &[u8]) -> &[u8]
    ensures { result.now ≡ spec.trimmed text.now }
{
    text.trim_ascii()
}

// The value of a line that is a field of this name.
fn value_named<'a>(line: &'a [u8], name: &str) -> Option<&'a [u8]>
    ensures { option_copied result
        ≡ spec.value_named name.now (line_of (strip_carriage_return line.now)) }
{
    match read_line(line) {
        HeaderLine::Header { name: field, value } if field.eq_ignore_ascii_case(name.as_bytes()) =>
            { Some(trim(value)) }
        _ => None,
    }
}

/// The values of the fields of this name in a header block, in order, each without whitespace at its ends (RFC
/// 9110, sections 5.1 and 5.5).
///
/// The lines are those that `read_block` reads. A line that it refuses is no field. Names that differ only in
/// the case of their letters are one name.
pub fn field_values<'a>(alloc: Global, bytes: &'a [u8], name: &str) -> Result<Vec<&'a [u8]>, Memory>
    ensures { IfOk result
        (λ values. map (λ value. value.now) values.items ≡ spec.values_named name.now bytes.now) }
{
    let mut values = Vec::new(alloc);
    for line in Pieces::new(without_status(bytes), b'\n') {
        let Some(value) = value_named(line, name) else {
            continue;
        };
        values.push(value)?;
    }
    Ok(values)
}
