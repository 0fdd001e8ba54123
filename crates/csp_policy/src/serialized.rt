//! The serialized policies of a header block (Content Security Policy Level 3, sections 3.1 to 3.3).
ghost use Rattle.std.specs.Prelude.{◌≡◌, ◌++◌, IfOk, OnOk, map};
ghost use Rattle.csp_policy.specs.Delivered.{serialized_said};
ghost use Rattle.csp_policy.specs.Fates as spec;

use crate::lines::{HeaderLine, read_line, without_status};
use crate::pieces::Pieces;
use csp_model::{Disposition, Memory};
use std::alloc::Global;

/// A serialized policy, and the line of the file that delivers it, counted from 1.
#[derive(Clone, Copy, Debug)]
pub struct SerializedPolicy<'a> {
    pub line: u64,
    pub disposition: Disposition,
    /// Whether a meta element delivers it.
    pub meta: bool,
    pub text: &'a [u8],
}

// Adds the serialized policies between the commas of a header's value.
fn add_between_commas<'a>(
    made: &mut Vec<SerializedPolicy<'a>>,
    line: u64,
    disposition: Disposition,
    value: &'a [u8],
) -> Result<(), Memory>
    ensures { OnOk result (map serialized_said made.new.items
        ≡ map serialized_said made.old.items ++ spec.between_commas line disposition value.now) }
{
    for text in Pieces::new_short(value, b',') {
        made.push(SerializedPolicy {
            line,
            disposition,
            meta: false,
            text,
        })?;
    }
    Ok(())
}

// How a header delivers policies.
#[derive(Clone, Copy, Debug)]
pub(crate) enum Delivery {
    InHeader { disposition: Disposition },
    InMeta,
    Not,
}

// How the header of this name delivers policies.
pub(crate) fn delivery_of(name: &[u8]) -> Delivery
    ensures { result ≡ spec.delivery_of name.now }
{
    if name.eq_ignore_ascii_case(b"content-security-policy") {
        Delivery::InHeader {
            disposition: Disposition::Enforce,
        }
    } else if name.eq_ignore_ascii_case(b"content-security-policy-report-only") {
        Delivery::InHeader {
            disposition: Disposition::Report,
        }
    } else if name.eq_ignore_ascii_case(b"meta-content-security-policy") {
        Delivery::InMeta
    } else {
        Delivery::Not
    }
}

// Adds the serialized policies that a header delivers.
fn add_delivered<'a>(
    made: &mut Vec<SerializedPolicy<'a>>,
    line: u64,
    name: &[u8],
    value: &'a [u8],
) -> Result<(), Memory>
    ensures { OnOk result (map serialized_said made.new.items
        ≡ map serialized_said made.old.items ++ spec.delivered_as line (spec.delivery_of name.now) value.now) }
{
    match delivery_of(name) {
        Delivery::InHeader { disposition } => add_between_commas(made, line, disposition, value),
        Delivery::InMeta => {
            made.push(SerializedPolicy {
                line,
                disposition: Disposition::Enforce,
                meta: true,
                text: value,
            })?;
            Ok(())
        }
        Delivery::Not => Ok(()),
    }
}

/// The serialized policies of a header block, in order: what stands between the commas of a header's value,
/// and the whole content of a meta element. The lines are those that `read_block` reads.
pub fn serialized_policies<'a>(
    alloc: Global,
    bytes: &'a [u8],
) -> Result<Vec<SerializedPolicy<'a>>, Memory>
    ensures { IfOk result (λ made. map serialized_said made.items ≡ spec.delivered bytes.now) }
{
    let mut made = Vec::new(alloc);
    let mut number = 0;
    for line in Pieces::new(without_status(bytes), b'\n') {
        number += 1;
        match read_line(line) {
            HeaderLine::Skipped => {}
            HeaderLine::Bad => {}
            HeaderLine::Header { name, value } => add_delivered(&mut made, number, name, value)?,
        }
    }
    Ok(made)
}
