//! What `learn` prints: the learnt policy as a header, and the fetches that no source can name.
ghost use Rattle.std.specs.Prelude.{◌≡◌, ◌≢◌, ◌++◌, IfErr, IfOk, IsErrOf, OnOk};
ghost use Rattle.std.specs.Prelude.{Err, List as Items, None, Ok, Some};
ghost use Rattle.std.specs.List.{flat_map};
ghost use Rattle.csp_learn.specs.Logs.{lesson_of};
ghost use Rattle.csp_model.specs.declared.verdict.Described.{Described as Request};
ghost use Rattle.csp_output.specs.Learnt as spec;
ghost use Rattle.csp_request.specs.Requests.{requests_of};

use crate::built::Built;
use crate::lines::push_all;
use crate::status::Status;
use csp_learn::{LearnError, Learning, Learnt, Place};
use csp_model::{Bytes, Described, Memory, Origin};
use csp_policy::policy_text;
use csp_request::{ReportTexts, RequestError, Take, Wanted, each};
use csp_token::Algorithms;
use itoa::Buffer;
use std::alloc::Global;

// A log that is being read.
#[derive(Drop)]
struct Log {
    learning: Learning,
}

// A learnt policy names no hash, and no text that only a report shows is made.
impl Take for Log {
    ghost use Rattle.std.specs.Prelude.{◌≡◌, []};
    ghost use Rattle.csp_learn.specs.Logs.{lesson_of};
    ghost use Rattle.csp_output.specs.Taken.{wanted_to_learn};

    ghost wants = { λ log. wanted_to_learn };

    ghost Took = { λ first requests log. first.learning ≡ lesson_of [] → log.learning ≡ lesson_of requests };

    fn wanted(&self) -> Wanted {
        Wanted {
            digests: Algorithms {
                sha256: false,
                sha384: false,
                sha512: false,
            },
            texts: ReportTexts::Empty,
        }
    }

    fn take(&mut self, alloc: Global, number: u32, request: Described) -> Result<(), Memory> {
        self.learning.push(alloc, number, &request)?;
        Ok(())
    }

    ghost none = { λ first is. is };
}

/// What is learnt of the requests of a request file, for `learn`. Errors are those of `csp_request::each`.
pub fn read_log(alloc: Global, bytes: &[u8]) -> Result<Learning, RequestError>
    ensures learnt { IfOk result (λ learning. (requests : Items Request)
        × (requests_of bytes.now ≡ Ok requests) × (learning ≡ lesson_of requests)) }
    ensures refused { IfErr result (λ e. e ≢ RequestError.Memory → requests_of bytes.now ≡ Err e) }
{
    let mut log = Log {
        learning: Learning::new(alloc),
    };
    each(alloc, bytes, &mut log)?;
    Ok(log.learning)
}

/// What `learn` prints of what was learnt, with a policy of this origin: the line
/// `Content-Security-Policy: ` and the policy, and the line `not learnt`, the number of the request and that
/// of the check for each fetch that no source can name. The status is `Clean`. `TooManySources` comes as from
/// `Learning::finish`.
pub fn learn(alloc: Global, origin: &Origin, learning: Learning) -> Result<Built, LearnError>
    ensures output { IfOk result (λ built. spec.lesson_output origin.now learning ≡ Some built) }
    ensures many { IsErrOf result LearnError.TooManySources
        → spec.lesson_output origin.now learning ≡ None }
{
    let learnt = learning.finish(alloc, origin)?;
    Ok(print_learnt(alloc, &learnt)?)
}

// The lines of what is learnt.
fn print_learnt(alloc: Global, learnt: &Learnt) -> Result<Built, Memory>
    ensures { IfOk result (λ built. built ≡ spec.printed learnt.now) }
{
    let mut text = Vec::from_slice(alloc, b"Content-Security-Policy: ")?;
    let policy = policy_text(alloc, &learnt.policy)?;
    text.extend_from_slice(policy.as_str().as_bytes())?;
    text.push(b'\n')?;
    push_places(&mut text, learnt.left.as_slice())?;
    Ok(Built {
        status: Status::Clean,
        text: Bytes::from_vec(text),
    })
}

// Writes a line for each of these fetches.
fn push_places(text: &mut Vec<u8>, left: &[Place]) -> Result<(), Memory>
    ensures { OnOk result (text.new.items ≡ text.old.items ++ flat_map spec.left_line left.now) }
{
    for place in left {
        push_place(text, *place)?;
    }
    Ok(())
}

#[tactic(auto, unfolding(crate::specs::Learnt::left_line))]
fn push_place(text: &mut Vec<u8>, place: Place) -> Result<(), Memory>
    ensures { OnOk result (text.new.items ≡ text.old.items ++ spec.left_line place) }
{
    let mut request = Buffer::new();
    let mut check = Buffer::new();
    let request = request.format(place.request);
    let check = check.format(place.check);
    push_all(text, &["not learnt ", request, " ", check, "\n"])
}
