//! Request files.
ghost use Rattle.std.specs.Prelude.{◌≡◌, ◌≢◌, ◌+◌, ◌<◌, ◌∷◌, [], All, Err, IfErr, IfOk, IfSome};
ghost use Rattle.std.specs.Prelude.{MatchOption, Ok, length};
ghost use Rattle.std.specs.Result.{result_map_both};
ghost use Rattle.csp_json.specs.View.{view};
ghost use Rattle.csp_model.specs.Answers.{Gives};
ghost use Rattle.csp_model.specs.Validity.{IsValidCheck};
ghost use Rattle.csp_request.specs.Requests as spec;

use crate::error::{DescriptionError, RequestError};
use crate::taking::{Take, each};
use crate::wanted::Wanted;
use csp_json::{ArrayReader, Scratch, Value};
use csp_model::{Described, List, Memory};
use std::alloc::Global;
use std::marker::Model;

// The requests that a file may have.
const REQUEST_LIMIT: usize = 10000;

/// The descriptions of a request file, of which one is held at a time: the items of its JSON array, at most
/// 10,000 (RFC 8259). What they describe isn't looked at. Contracts see the tokens that are left, and how
/// many descriptions they may hold.
#[derive(Drop)]
pub(crate) struct Requests<'a> {
    reader: ArrayReader<'a>,
    limit: usize,
}

impl<'a> Model for Requests<'a> {
    ghost use Rattle.csp_request.specs.Requests.{Rest};

    ghost Value = { Rest };

    ghost view = { λ a. record { tokens = a.reader; limit = a.limit } };
}

impl<'a> Requests<'a> {
    /// Begins to read a request file. `NotJson` comes at once where the bytes don't begin as an array. Texts
    /// with escapes are written to the scratch, which grows to the length of the file.
    pub fn new(bytes: &'a [u8], scratch: &'a mut Scratch) -> Result<Requests<'a>, RequestError>
        ensures descriptions { IfOk result (λ requests. spec.still requests ≡ spec.requests_in bytes.now) }
        ensures limit { IfOk result (λ requests. requests.limit ≡ spec.request_limit) }
        ensures refused { IfErr result (λ e. e ≢ RequestError.Memory → spec.requests_in bytes.now ≡ Err e) }
    {
        Ok(Requests {
            reader: ArrayReader::new(bytes, scratch)?,
            limit: REQUEST_LIMIT,
        })
    }

    /// The next description, or `None` after the last one. `NotJson` comes where the file is no array after
    /// all, and else `TooManyRequests` at the description that is one too many.
    pub fn next(&mut self, alloc: Global) -> Result<Option<Value<'a>>, RequestError>
        ensures description { IfOk result (λ next. MatchOption next (spec.still self.old ≡ Ok [])
            (λ v. spec.still self.old
            ≡ result_map_both (λ rest. view v ∷ rest) (λ e. e) (spec.still self.new))) }
        ensures limit { IfOk result (λ next. IfSome next (λ _. self.old.limit ≡ self.new.limit + 1)) }
        ensures shorter { IfOk result (λ next. IfSome next
            (λ _. length self.new.tokens < length self.old.tokens)) }
        ensures refused { IfErr result (λ e. e ≢ RequestError.Memory → spec.still self.old ≡ Err e) }
    {
        let Some(value) = self.reader.next(alloc)? else {
            return Ok(None);
        };
        if self.limit == 0 {
            self.reader.has_at_most(alloc, 0)?;
            return Err(RequestError::TooManyRequests);
        }
        self.limit -= 1;
        Ok(Some(value))
    }

    /// What the file is refused for, where a description that was handed out is refused with this: that,
    /// unless the rest shows that the file isn't JSON, or that it has too many descriptions.
    pub fn refusal(mut self, alloc: Global, error: RequestError) -> RequestError
        ensures { result ≢ RequestError.Memory → result ≡ spec.refused_after error (spec.still self.entry) }
    {
        let limit = self.limit;
        match self.reader.has_at_most(alloc, limit) {
            Ok(true) => error,
            Ok(false) => RequestError::TooManyRequests,
            Err(refused) => RequestError::from(refused),
        }
    }
}

impl DescriptionError {
    /// The refusal of the description of this number, counted from 1.
    pub fn at(self, index: u32) -> RequestError
        ensures { result ≡ spec.refused_at index self }
    {
        match self {
            DescriptionError::Misused { field } => RequestError::BadRequest { index, field },
            DescriptionError::TooManyHops => RequestError::TooManyHops { index },
            DescriptionError::Memory => RequestError::Memory,
        }
    }
}

// The requests that were taken.
#[derive(Drop)]
struct Kept {
    requests: List<Described>,
}

impl Take for Kept {
    ghost use Rattle.std.specs.Prelude.{◌≡◌, ◌++◌, All};
    ghost use Rattle.std.proofs.Common.{append-nil, sym};
    ghost use Rattle.csp_model.specs.Validity.{IsValidCheck};
    ghost use Rattle.csp_model.specs.declared.verdict.Described.{Described as Request};
    ghost use Rattle.csp_request.specs.Wanted.{all_wanted};

    ghost wants = { λ kept. all_wanted };

    ghost Took = { λ first taken kept. (kept.requests ≡ first.requests ++ taken)
        × (All (λ (request : Request). All IsValidCheck request.checks) first.requests
        → All (λ (request : Request). All IsValidCheck request.checks) kept.requests) };

    fn wanted(&self) -> Wanted {
        Wanted::ALL
    }

    fn take(&mut self, _: Global, _: u32, request: Described) -> Result<(), Memory> {
        Ok(self.requests.push(request)?)
    }

    ghost none = { λ first. (sym (append-nil first.requests), λ valid. valid) };
}

/// The requests of a request file, each described. The first fault of the first description that has one
/// comes as an error, with the description's number from 1.
pub fn read_requests(alloc: Global, bytes: &[u8]) -> Result<List<Described>, RequestError>
    ensures requests { Gives RequestError.Memory result (spec.requests_of bytes.now) }
    ensures valid { IfOk result (All (λ request. All IsValidCheck request.checks)) }
{
    let mut kept = Kept {
        requests: List::new(alloc),
    };
    each(alloc, bytes, &mut kept)?;
    Ok(kept.requests)
}
