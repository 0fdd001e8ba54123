//! The texts of faults, which are written in pieces that take no memory.
ghost use Rattle.std.specs.Prelude.{◌≡◌, ◌≤◌, OnOk, OnErr, map};
ghost use Rattle.std.specs.List.{flat_map};
ghost use Rattle.csp_io.specs.Told.{Rose, GrewBy, GrewByPrefix};
ghost use Rattle.csp_request.specs.Members as members;
ghost use Rattle.csp_run.specs.Texts as texts;

use crate::fault::{Cause, Fault, FileFault, Limit, OutputFault, Role, WordsFault};
use crate::plan::USAGE;
use csp_io::{Failed, Sink, write_all};
use csp_request::Field;
use itoa::Buffer;

#[tactic(auto, unfolding(crate::specs::Texts::role_word))]
fn role_word<'a>(role: Role) -> &'a str
    ensures { result.now ≡ texts.role_word role }
{
    match role {
        Role::Policy => "policy",
        Role::Requests => "requests",
        Role::Block => "policy",
        Role::First => "first",
        Role::Second => "second",
        Role::Proof => "proof",
        Role::Required => "required",
        Role::Response => "response",
        Role::List { .. } => "list ",
    }
}

// The number of a role, where there are many of its kind, printed into the buffer.
#[tactic(auto, unfolding(crate::specs::Texts::role_number))]
fn role_number<'a>(role: Role, digits: &'a mut Buffer) -> &'a str
    ensures { result.now ≡ texts.role_number role }
{
    match role {
        Role::List { number } => digits.format(number),
        _ => "",
    }
}

#[tactic(auto, unfolding(crate::specs::Texts::limit_text))]
fn limit_text<'a>(limit: Limit) -> &'a str
    ensures { result.now ≡ texts.limit_text limit }
{
    match limit {
        Limit::Bytes => "bytes",
        Limit::Policies => "policies",
        Limit::Sources => "sources",
        Limit::Token => "token",
        Limit::Requests => "requests",
        Limit::Hops => "hops",
    }
}

fn field_text<'a>(field: Field) -> &'a str
    ensures { result.now ≡ members.field_text field }
{
    field.as_str()
}

// Writes the pieces one after the other.
fn write_pieces<S: Sink>(out: &mut S, pieces: &[&str]) -> Result<(), Failed>
    ensures taken { OnOk result
        (GrewBy (S.taken out.old) (S.taken out.new) (flat_map (λ piece. piece.now) pieces.now)) }
    ensures prefix { OnErr result
        (GrewByPrefix (S.taken out.old) (S.taken out.new) (flat_map (λ piece. piece.now) pieces.now)) }
    ensures later { S.faults out.old ≤ S.faults out.new }
    ensures cause { OnErr result (Rose (S.faults out.old) (S.faults out.new)) }
    ensures no_fault { OnOk result (S.faults out.new ≡ S.faults out.old) }
{
    for piece in pieces {
        match write_all(out, piece.as_bytes()) {
            Err(failed) => return Err(failed),
            Ok(()) => {}
        }
    }
    Ok(())
}

// The pieces of a fault's text. The number of a role and another number are printed into the buffers.
#[tactic(auto, unfolding(crate::specs::Texts::fault_pieces))]
fn pieces<'a>(fault: Fault, list: &'a mut Buffer, digits: &'a mut Buffer) -> [&'a str; 6]
    ensures { map (λ piece. piece.now) result ≡ texts.fault_pieces fault }
{
    match fault {
        Fault::Words(fault) => words_pieces(fault),
        Fault::File(FileFault { file, cause }) => file_pieces(file, cause, list, digits),
        Fault::Output(fault) => output_pieces(fault, digits),
        Fault::Refused { reporter } => [
            "reporter fault: ",
            digits.format(reporter),
            "",
            "",
            "",
            "\n",
        ],
        Fault::Memory => ["no memory", "", "", "", "", "\n"],
    }
}

#[tactic(auto, unfolding(crate::specs::Texts::words_pieces))]
fn words_pieces<'a>(fault: WordsFault) -> [&'a str; 6]
    ensures { map (λ piece. piece.now) result ≡ texts.words_pieces fault }
{
    match fault {
        WordsFault::Usage => USAGE,
        WordsFault::BadOrigin => ["bad origin", "", "", "", "", "\n"],
    }
}

#[tactic(auto, unfolding(crate::specs::Texts::file_pieces))]
fn file_pieces<'a>(
    file: Role,
    cause: Cause,
    list: &'a mut Buffer,
    digits: &'a mut Buffer,
) -> [&'a str; 6]
    ensures { map (λ piece. piece.now) result ≡ texts.file_pieces file cause }
{
    match cause {
        Cause::Read => [
            "read fault: ",
            role_word(file),
            role_number(file, list),
            "",
            "",
            "\n",
        ],
        Cause::TooLarge { limit } => [
            "too large: ",
            role_word(file),
            role_number(file, list),
            " ",
            limit_text(limit),
            "\n",
        ],
        Cause::BadPolicy { line } => [
            "bad policy: ",
            role_word(file),
            role_number(file, list),
            " line ",
            digits.format(line),
            "\n",
        ],
        Cause::BadRequired => ["bad required policy", "", "", "", "", "\n"],
    }
}

#[tactic(auto, unfolding(crate::specs::Texts::output_pieces))]
fn output_pieces<'a>(fault: OutputFault, digits: &'a mut Buffer) -> [&'a str; 6]
    ensures { map (λ piece. piece.now) result ≡ texts.output_pieces fault }
{
    match fault {
        OutputFault::NotJson => ["bad requests: not a JSON array", "", "", "", "", "\n"],
        OutputFault::TooLarge { limit } => [
            "too large: requests ",
            limit_text(limit),
            "",
            "",
            "",
            "\n",
        ],
        OutputFault::BadRequest { request, field } => [
            "bad requests: request ",
            digits.format(request),
            " ",
            field_text(field),
            "",
            "\n",
        ],
        OutputFault::BadProof { line } => {
            ["bad proof: line ", digits.format(line), "", "", "", "\n"]
        }
    }
}

/// Writes the text of a fault. It takes no memory.
pub fn write_fault<S: Sink>(out: &mut S, fault: Fault) -> Result<(), Failed>
    ensures taken { OnOk result (GrewBy (S.taken out.old) (S.taken out.new) (texts.fault_text fault)) }
    ensures prefix { OnErr result
        (GrewByPrefix (S.taken out.old) (S.taken out.new) (texts.fault_text fault)) }
    ensures later { S.faults out.old ≤ S.faults out.new }
    ensures cause { OnErr result (Rose (S.faults out.old) (S.faults out.new)) }
    ensures no_fault { OnOk result (S.faults out.new ≡ S.faults out.old) }
{
    let mut list = Buffer::new();
    let mut digits = Buffer::new();
    let pieces = pieces(fault, &mut list, &mut digits);
    write_pieces(out, &pieces)
}
