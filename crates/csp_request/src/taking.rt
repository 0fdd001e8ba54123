//! One loop over a request file.
ghost use Rattle.std.specs.Prelude.{◌≡◌, ◌≢◌, ◌+◌, ◌∷◌, ◌++◌, [], All, Err, IfErr, IfOk, List as Items, Ok, OnOk, length};
ghost use Rattle.csp_json.specs.View.{view};
ghost use Rattle.csp_model.specs.Answers.{Gives};
ghost use Rattle.csp_model.specs.Validity.{IsValidCheck};
ghost use Rattle.csp_model.specs.declared.verdict.Described.{Described as Request};
ghost use Rattle.csp_token.specs.Digests.{digests_for, digests_of};
ghost use Rattle.csp_request.specs.Described.{described_for};
ghost use Rattle.csp_request.specs.Requests as spec;
ghost use Rattle.csp_request.specs.Wanted.{IsPartOf};
ghost use Rattle.csp_request.specs.declared.wanted.Wanted.{Wanted as WantedValue};

use crate::description::describe_for;
use crate::error::{DescriptionError, RequestError};
use crate::requests::Requests;
use crate::wanted::Wanted;
use csp_json::{Scratch, Value};
use csp_model::{Described, Memory};
use std::alloc::Global;

/// Takes the requests of a file, one after the other.
pub trait Take {
    ghost wants: { Self → WantedValue };

    // Whether one becomes the other by taking these requests.
    ghost Took: { Self → Items Request → Self → Type 0 };

    /// What it wants to know of the requests.
    fn wanted(&self) -> Wanted
        ensures { result ≡ wants self.now };

    /// Takes the request of this number, counted from 1, with no more than is wanted of it.
    fn take(&mut self, alloc: Global, number: u32, request: Described) -> Result<(), Memory>
        requires { All IsValidCheck request.checks }
        ensures wants { OnOk result (wants self.new ≡ wants self.old) }
        ensures took { OnOk result ((first : Self) (before : Items Request) (whole : Request)
            → Took first before self.old → number ≡ length before + 1
            → IsPartOf (wants self.old) request whole → Took first (before ++ whole ∷ []) self.new) };

    /// At first it has taken none.
    ghost none: { (first : Self) → Took first [] first };
}

/// Has the requests of a request file taken in their order. Of each description only what is wanted is made, and
/// it is dropped before the next is read. The first fault of the first description that has one comes as an
/// error, with the description's number from 1.
pub fn each<T: Take>(alloc: Global, bytes: &[u8], taker: &mut T) -> Result<(), RequestError>
    ensures took { OnOk result ((requests : Items Request) × (spec.requests_of bytes.now ≡ Ok requests)
        × T.Took taker.old requests taker.new) }
    ensures refused { IfErr result (λ e. e ≢ RequestError.Memory → spec.requests_of bytes.now ≡ Err e) }
{
    let mut scratch = Scratch::new(alloc);
    each_left(alloc, Requests::new(bytes, &mut scratch)?, taker)
}

// The same of the descriptions that are left.
fn each_left<T: Take>(
    alloc: Global,
    mut requests: Requests<'_>,
    taker: &mut T,
) -> Result<(), RequestError>
    requires { requests.limit ≡ spec.request_limit }
    ensures took { OnOk result ((taken : Items Request)
        × (spec.each_from digests_of 1 (spec.still requests.entry) ≡ Ok taken)
        × T.Took taker.old taken taker.new) }
    ensures refused { IfErr result (λ e. e ≢ RequestError.Memory
        → spec.each_from digests_of 1 (spec.still requests.entry) ≡ Err e) }
{
    let wanted = taker.wanted();
    let mut number = 0;
    'requests: while let Some(value) = requests.next(alloc)? {
        number += 1;
        match describe_one(alloc, value, wanted) {
            Ok(request) => taker.take(alloc, number, request)?,
            Err(error) => return Err(requests.refusal(alloc, error.at(number))),
        }
    }
    Ok(())
}

// The request that a description stands for. The description is dropped.
fn describe_one(
    alloc: Global,
    value: Value<'_>,
    wanted: Wanted,
) -> Result<Described, DescriptionError>
    ensures described { Gives DescriptionError.Memory result
        (described_for wanted.texts (λ source. digests_for source wanted.digests) (view value.entry)) }
    ensures valid { IfOk result (λ made. All IsValidCheck made.checks) }
{
    describe_for(alloc, &value, wanted.digests, wanted.texts)
}
