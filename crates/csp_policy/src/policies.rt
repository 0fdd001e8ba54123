//! The line of a policy that is kept.
ghost use Rattle.std.specs.Prelude.{◌≡◌, ◌++◌, IfOk, OnOk, map};
ghost use Rattle.csp_policy.specs.Delivered.{piece_said};
ghost use Rattle.csp_policy.specs.ReadingLines.{told_line};
ghost use Rattle.csp_policy.specs.Tokens.{boolean_tokens, directive_front, directive_tokens, directives_member};
ghost use Rattle.csp_policy.specs.Tokens.{kept_tokens, number_tokens, pair, pair_tokens, policy_front, policy_tokens};
ghost use Rattle.csp_policy.specs.Tokens.{text_tokens, told_tokens, tokens_member};
ghost use Rattle.csp_policy.specs.Told.{Policy, directives_in};

use crate::fate::{Fate, Piece};
use crate::kinds::{decides, kind_text};
use crate::serialized::SerializedPolicy;
use csp_model::{Directive, Disposition, Memory, Source, Text};
use json::Writer;
use std::alloc::AllocError;

// Writes a member whose value is a text.
pub(crate) fn write_text(out: &mut Writer, name: &str, text: &str) -> Result<(), AllocError>
    ensures tokens { OnOk result (out.new.tokens ≡ out.old.tokens ++ text_tokens name.now text.now) }
    ensures before { out.new.before ≡ out.old.before }
{
    out.key(name)?;
    out.string(text)
}

// Writes a member whose value is a number.
#[tactic(auto, unfolding(crate::specs::Tokens::number_tokens))]
pub(crate) fn write_number(out: &mut Writer, name: &str, number: u64) -> Result<(), AllocError>
    ensures tokens { OnOk result (out.new.tokens ≡ out.old.tokens ++ number_tokens name.now number) }
    ensures before { out.new.before ≡ out.old.before }
{
    out.key(name)?;
    out.u64(number)
}

// Writes a member whose value is true or false.
pub(crate) fn write_boolean(out: &mut Writer, name: &str, value: bool) -> Result<(), AllocError>
    ensures tokens { OnOk result (out.new.tokens ≡ out.old.tokens ++ boolean_tokens name.now value) }
    ensures before { out.new.before ≡ out.old.before }
{
    out.key(name)?;
    out.boolean(value)
}

// Writes a token of a directive with its kind.
fn write_token(out: &mut Writer, token: &Text, source: &Source) -> Result<(), AllocError>
    ensures tokens { OnOk result (out.new.tokens ≡ out.old.tokens ++ pair token.now source.now) }
    ensures before { out.new.before ≡ out.old.before }
{
    out.begin_object()?;
    write_text(out, "text", token.as_str())?;
    write_text(out, "kind", kind_text(source))?;
    out.end_object()
}

// Writes tokens of a directive, each with its kind.
fn write_each(out: &mut Writer, tokens: &[Text], sources: &[Source]) -> Result<(), AllocError>
    ensures tokens { OnOk result (out.new.tokens ≡ out.old.tokens ++ pair_tokens tokens.now sources.now) }
    ensures before { out.new.before ≡ out.old.before }
{
    let mut sources = sources;
    for token in tokens {
        let Some((source, behind)) = sources.split_first() else {
            return Ok(());
        };
        write_token(out, token, source)?;
        sources = behind;
    }
    Ok(())
}

// Writes the member with the tokens of a directive.
#[tactic(auto, unfolding(crate::specs::Tokens::tokens_member))]
fn write_tokens(out: &mut Writer, tokens: &[Text], sources: &[Source]) -> Result<(), AllocError>
    ensures tokens { OnOk result (out.new.tokens ≡ out.old.tokens ++ tokens_member tokens.now sources.now) }
    ensures before { out.new.before ≡ out.old.before }
{
    out.key("tokens")?;
    out.begin_array()?;
    write_each(out, tokens, sources)?;
    out.end_array()
}

// Writes what a directive is, but for its tokens.
#[tactic(auto, unfolding(crate::specs::Tokens::directive_front))]
fn write_name(out: &mut Writer, disposition: Disposition, name: &str) -> Result<(), AllocError>
    ensures tokens { OnOk result (out.new.tokens ≡ out.old.tokens ++ directive_front disposition name.now) }
    ensures before { out.new.before ≡ out.old.before }
{
    out.begin_object()?;
    write_text(out, "name", name)?;
    write_boolean(out, "decides", decides(disposition, name))
}

// Writes a directive of a policy of this disposition.
#[tactic(auto, unfolding(crate::specs::Tokens::directive_tokens))]
fn write_directive(
    out: &mut Writer,
    disposition: Disposition,
    directive: &Directive,
) -> Result<(), AllocError>
    ensures tokens { OnOk result
        (out.new.tokens ≡ out.old.tokens ++ directive_tokens disposition directive.now) }
    ensures before { out.new.before ≡ out.old.before }
{
    write_name(out, disposition, directive.name.as_str())?;
    write_tokens(
        out,
        directive.tokens.as_slice(),
        directive.sources.as_slice(),
    )?;
    out.end_object()
}

// Writes the directives among these pieces.
fn write_directives(
    out: &mut Writer,
    disposition: Disposition,
    pieces: &[Piece<'_>],
) -> Result<(), AllocError>
    ensures tokens { OnOk result (out.new.tokens
        ≡ out.old.tokens ++ kept_tokens disposition (directives_in (map piece_said pieces.now))) }
    ensures before { out.new.before ≡ out.old.before }
{
    for piece in pieces {
        if let Fate::Kept { directive } = &piece.fate {
            write_directive(out, disposition, directive)?;
        }
    }
    Ok(())
}

// Writes the member with the directives among these pieces.
#[tactic(auto, unfolding(crate::specs::Tokens::directives_member))]
fn write_member(
    out: &mut Writer,
    disposition: Disposition,
    pieces: &[Piece<'_>],
) -> Result<(), AllocError>
    ensures tokens { OnOk result (out.new.tokens
        ≡ out.old.tokens ++ directives_member disposition (directives_in (map piece_said pieces.now))) }
    ensures before { out.new.before ≡ out.old.before }
{
    out.key("directives")?;
    out.begin_array()?;
    write_directives(out, disposition, pieces)?;
    out.end_array()
}

// Writes what a policy is, but for its directives.
fn write_front(
    out: &mut Writer,
    number: u64,
    policy: &SerializedPolicy<'_>,
) -> Result<(), AllocError>
    ensures tokens { OnOk result (out.new.tokens
        ≡ out.old.tokens ++ policy_front number policy.now.line policy.now.disposition policy.now.meta) }
    ensures before { out.new.before ≡ out.old.before }
{
    out.begin_object()?;
    write_number(out, "policy", number)?;
    write_number(out, "line", policy.line)?;
    write_text(out, "disposition", policy.disposition.as_str())?;
    write_boolean(out, "meta", policy.meta)
}

// Writes a policy, part by part.
#[tactic(auto, unfolding(crate::specs::Tokens::policy_tokens))]
fn write_parts(
    out: &mut Writer,
    number: u64,
    policy: &SerializedPolicy<'_>,
    pieces: &[Piece<'_>],
) -> Result<(), AllocError>
    ensures tokens { OnOk result (out.new.tokens
        ≡ out.old.tokens ++ policy_tokens number policy.now.line policy.now.disposition policy.now.meta
        (directives_in (map piece_said pieces.now))) }
    ensures before { out.new.before ≡ out.old.before }
{
    write_front(out, number, policy)?;
    write_member(out, policy.disposition, pieces)?;
    out.end_object()
}

fn write_policy(
    out: &mut Writer,
    number: u64,
    policy: &SerializedPolicy<'_>,
    pieces: &[Piece<'_>],
) -> Result<(), AllocError>
    ensures tokens { OnOk result (out.new.tokens
        ≡ out.old.tokens ++ told_tokens (Policy number policy.now.line policy.now.disposition
        policy.now.meta (directives_in (map piece_said pieces.now)))) }
    ensures before { out.new.before ≡ out.old.before }
{
    write_parts(out, number, policy, pieces)
}

// The text, and behind it the line of the policy of this number, which has these pieces.
#[tactic(auto, unfolding(crate::specs::ReadingLines::told_line, crate::specs::Tokens::told_tokens))]
pub(crate) fn append_policy(
    text: Vec<u8>,
    number: u64,
    policy: &SerializedPolicy<'_>,
    pieces: &[Piece<'_>],
) -> Result<Vec<u8>, Memory>
    ensures { IfOk result (λ made. made.items ≡ text.items ++ told_line (Policy number policy.now.line
        policy.now.disposition policy.now.meta (directives_in (map piece_said pieces.now)))) }
{
    let mut out = Writer::new(text);
    write_policy(&mut out, number, policy, pieces)?;
    let mut text = out.into_inner();
    text.push(b'\n')?;
    Ok(text)
}
