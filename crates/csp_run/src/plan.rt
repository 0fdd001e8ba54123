//! What the words ask for.
ghost use Rattle.std.specs.Prelude.{◌≡◌, ◌≢◌, ◌∷◌, [], ok_or, option_map, IfOk, IfSome};
ghost use Rattle.csp_model.specs.Answers.{Gives};
ghost use Rattle.csp_model.specs.Validity.{IsValidOrigin};
ghost use Rattle.csp_run.specs.Forms as form;
ghost use Rattle.csp_run.specs.Shown.{IsAsked, as_command, form_of, planned, words_end};
ghost use Rattle.csp_run.specs.Words as spec;
ghost use Rattle.csp_run.specs.declared.fault.Role.TheVariants as role;

use crate::fault::{Fault, WordsFault};
use csp_model::{Origin, Text, are_digits, decimal_value};
use csp_url::{OriginError, read_origin};
use std::alloc::Global;

/// What is done with a policy file and a request file.
#[derive(Clone, Copy, Debug, PartialEq, Eq)]
pub enum Judged {
    /// The verdicts on the requests.
    Judge,
    /// What reporters tell of the violations.
    Report,
    /// The verdicts, and for each policy which token decided or nearly did.
    Why,
}

/// What is done with two policy files.
#[derive(Clone, Copy, Debug, PartialEq, Eq)]
pub enum Compared {
    /// Whether the second allows all that the first allows: a proof, or a check.
    Compare,
    /// Each directive under which the first allows more than the second, with a check.
    Differ,
}

/// A command, and the names of its files.
#[derive(Drop)]
pub enum Command<'a> {
    /// What is said of the requests of a request file by a policy file.
    Judged {
        does: Judged,
        policy: &'a Text,
        requests: &'a Text,
    },
    /// How two policy files differ.
    Compared {
        does: Compared,
        first: &'a Text,
        second: &'a Text,
    },
    /// Whether a proof is accepted that the second of two policy files allows all that the first allows.
    Checked {
        first: &'a Text,
        second: &'a Text,
        proof: &'a Text,
    },
    /// The comparison of two lists that are made for it, with so many pairs of sources.
    Drill {
        pairs: u8,
    },
    /// What becomes of a response of which this embedder requires a policy.
    Embedded {
        embedder: Origin,
        required: &'a Text,
        response: &'a Text,
    },
    /// A list that allows what a policy file allows, without the tokens that change nothing.
    Tidied {
        policy: &'a Text,
    },
    /// The policy that the fetches of a request file need.
    Learnt {
        requests: &'a Text,
    },
    /// Which of 2 to 16 policy files allow all that which others allow.
    Ordered {
        lists: &'a [Text],
    },
    /// How a policy file is read, piece by piece.
    Block {
        block: &'a Text,
    },
}

/// A command, and the origin of the policies of its files.
#[derive(Drop)]
pub struct Plan<'a> {
    pub origin: Origin,
    pub command: Command<'a>,
}

// What these words ask for, or why it is nothing: `Usage` or `BadOrigin`, tested in this order, or `Memory`.
pub(crate) fn plan_of(alloc: Global, words: &[Text]) -> Result<Plan<'_>, Fault>
    ensures plan { result ≢ Err Fault.Memory → planned result ≡ words_end (spec.plan_of words.now) }
    ensures valid { IfOk result (λ plan. IsValidOrigin plan.origin) }
    ensures asked { IfOk result (λ plan. IsAsked plan.command) }
{
    match words {
        [verb, word, names @ ..] => {
            if verb.as_str() == "embed" {
                embed_plan(alloc, word.as_str(), names)
            } else {
                plan_with(
                    alloc,
                    command_of(verb.as_str(), word.as_str(), names),
                    word.as_str(),
                )
            }
        }
        _ => Err(Fault::Words(WordsFault::Usage)),
    }
}

// What `embed` asks for by the words behind it.
fn embed_plan<'a>(alloc: Global, embedder: &str, words: &'a [Text]) -> Result<Plan<'a>, Fault>
    ensures plan { result ≢ Err Fault.Memory
        → planned result ≡ words_end (spec.embed_plan embedder.now words.now) }
    ensures valid { IfOk result (λ plan. IsValidOrigin plan.origin) }
    ensures asked { IfOk result (λ plan. IsAsked plan.command) }
{
    match words {
        [origin, required, response] => match read_origin(alloc, embedder) {
            Ok(embedder) => plan_at(
                alloc,
                Command::Embedded {
                    embedder,
                    required,
                    response,
                },
                origin.as_str(),
            ),
            Err(error) => Err(Fault::from(error)),
        },
        _ => Err(Fault::Words(WordsFault::Usage)),
    }
}

// What a command asks for by the word behind its verb.
fn plan_with<'a>(alloc: Global, command: Option<Command<'a>>, word: &str) -> Result<Plan<'a>, Fault>
    requires { IfSome command IsAsked }
    ensures plan { result ≢ Err Fault.Memory
        → planned result ≡ words_end (spec.with_command (option_map as_command command.entry) word.now) }
    ensures valid { IfOk result (λ plan. IsValidOrigin plan.origin) }
    ensures asked { IfOk result (λ plan. IsAsked plan.command) }
{
    match command {
        Some(command) => plan_at(alloc, command, word),
        None => Err(Fault::Words(WordsFault::Usage)),
    }
}

// What a command asks for by the word for its origin.
fn plan_at<'a>(alloc: Global, command: Command<'a>, word: &str) -> Result<Plan<'a>, Fault>
    requires { IsAsked command }
    ensures plan { result ≢ Err Fault.Memory
        → planned result ≡ words_end (spec.with_command (Some (as_command command.entry)) word.now) }
    ensures valid { IfOk result (λ plan. IsValidOrigin plan.origin) }
    ensures asked { IfOk result (λ plan. IsAsked plan.command) }
{
    let origin = origin_for(alloc, &command, word)?;
    Ok(Plan { origin, command })
}

// The origin of the policies of a command's files, which the word behind the verb is. A drill reads no file, and
// that word is no origin.
#[tactic(auto, unfolding(crate::specs::Words::origin_for))]
fn origin_for(alloc: Global, command: &Command<'_>, word: &str) -> Result<Origin, OriginError>
    ensures origin { Gives OriginError.Memory result
        (ok_or (spec.origin_for (form_of command.now) word.now) OriginError.BadOrigin) }
    ensures valid { IfOk result IsValidOrigin }
{
    match command {
        Command::Drill { .. } => Ok(Origin::Opaque),
        _ => read_origin(alloc, word),
    }
}

// How the commands are called.
pub(crate) const USAGE: [&str; 6] = [
    "usage: judge ORIGIN POLICY REQUESTS | report ORIGIN POLICY REQUESTS",
    " | compare ORIGIN FIRST SECOND | check ORIGIN FIRST SECOND PROOF",
    " | drill N | embed EMBEDDER ORIGIN REQUIRED RESPONSE",
    " | tidy ORIGIN POLICY | learn ORIGIN REQUESTS | order ORIGIN LISTS",
    " | why ORIGIN POLICY REQUESTS",
    " | differ ORIGIN FIRST SECOND | read ORIGIN POLICY\n",
];

// The command that a verb, the word behind it and the names of files ask for.
fn command_of<'a>(verb: &str, word: &str, names: &'a [Text]) -> Option<Command<'a>>
    ensures command { option_map as_command result ≡ spec.command_of verb.now word.now names.now }
    ensures asked { IfSome result IsAsked }
{
    match verb {
        "judge" => judging(Judged::Judge, names),
        "report" => judging(Judged::Report, names),
        "compare" => comparing(Compared::Compare, names),
        "check" => checking(names),
        "drill" => drilling(word, names),
        "tidy" => tidying(names),
        "learn" => learning(names),
        "order" => ordering(names),
        "why" => judging(Judged::Why, names),
        "differ" => comparing(Compared::Differ, names),
        "read" => telling(names),
        _ => None,
    }
}

fn judging<'a>(does: Judged, names: &'a [Text]) -> Option<Command<'a>>
    ensures command { option_map as_command result
        ≡ spec.command_on (form.OnRequests does) (role.Policy ∷ role.Requests ∷ []) names.now }
    ensures asked { IfSome result IsAsked }
{
    match names {
        [policy, requests] => Some(Command::Judged {
            does,
            policy,
            requests,
        }),
        _ => None,
    }
}

fn comparing<'a>(does: Compared, names: &'a [Text]) -> Option<Command<'a>>
    ensures command { option_map as_command result
        ≡ spec.command_on (form.OnTwo does) (role.First ∷ role.Second ∷ []) names.now }
    ensures asked { IfSome result IsAsked }
{
    match names {
        [first, second] => Some(Command::Compared {
            does,
            first,
            second,
        }),
        _ => None,
    }
}

fn checking<'a>(names: &'a [Text]) -> Option<Command<'a>>
    ensures command { option_map as_command result
        ≡ spec.command_on form.Check (role.First ∷ role.Second ∷ role.Proof ∷ []) names.now }
    ensures asked { IfSome result IsAsked }
{
    match names {
        [first, second, proof] => Some(Command::Checked {
            first,
            second,
            proof,
        }),
        _ => None,
    }
}

fn drilling<'a>(word: &str, names: &'a [Text]) -> Option<Command<'a>>
    ensures command { option_map as_command result ≡ spec.drill_on (spec.drill_pairs word.now) names.now }
    ensures asked { IfSome result IsAsked }
{
    match drill_pairs(word.as_bytes()) {
        Some(pairs) if names.is_empty() => Some(Command::Drill { pairs }),
        _ => None,
    }
}

// The number that a word is: a decimal one from 1 to 200 without leading zeros.
#[tactic(auto, unfolding(crate::specs::Words::is_drill_number))]
fn drill_pairs(word: &[u8]) -> Option<u8>
    ensures { result ≡ spec.drill_pairs word.now }
{
    if are_digits(word) && word.len() < 4 && word[0] != b'0' && decimal_value(word) <= 200 {
        Some(decimal_value(word) as u8)
    } else {
        None
    }
}

fn tidying<'a>(names: &'a [Text]) -> Option<Command<'a>>
    ensures command { option_map as_command result ≡ spec.command_on form.Tidy (role.Policy ∷ []) names.now }
    ensures asked { IfSome result IsAsked }
{
    match names {
        [policy] => Some(Command::Tidied { policy }),
        _ => None,
    }
}

fn learning<'a>(names: &'a [Text]) -> Option<Command<'a>>
    ensures command { option_map as_command result
        ≡ spec.command_on form.Learn (role.Requests ∷ []) names.now }
    ensures asked { IfSome result IsAsked }
{
    match names {
        [requests] => Some(Command::Learnt { requests }),
        _ => None,
    }
}

fn ordering<'a>(names: &'a [Text]) -> Option<Command<'a>>
    ensures command { option_map as_command result ≡ spec.order_on names.now }
    ensures asked { IfSome result IsAsked }
{
    if 2 <= names.len() && names.len() <= 16 {
        Some(Command::Ordered { lists: names })
    } else {
        None
    }
}

fn telling<'a>(names: &'a [Text]) -> Option<Command<'a>>
    ensures command { option_map as_command result ≡ spec.command_on form.Read (role.Block ∷ []) names.now }
    ensures asked { IfSome result IsAsked }
{
    match names {
        [block] => Some(Command::Block { block }),
        _ => None,
    }
}
