//! The faults that end a run, by what finds them, with the files and the limits that they name.
ghost use Rattle.std.specs.Prelude.{◌≡◌};
ghost use Rattle.csp_run.specs.Texts as texts;

use csp_desk::DeskError;
use csp_learn::LearnError;
use csp_model::Memory;
use csp_output::Status;
use csp_proof::ProofError;
use csp_request::{Field, RequestError};
use csp_url::OriginError;

/// What a file is to a command.
#[derive(Clone, Copy, Debug, PartialEq, Eq)]
pub enum Role {
    /// A header block.
    Policy,
    /// A request file.
    Requests,
    /// A header block of which each piece is told.
    Block,
    /// The header block of the first of two lists.
    First,
    /// The header block of the second.
    Second,
    /// The text of a proof that the second includes the first.
    Proof,
    /// The header block with the policy that an embedder requires.
    Required,
    /// The header block of the response of which it is required.
    Response,
    /// The header block of the list of this number, counted from 1.
    List { number: usize },
}

/// What is limited.
#[derive(Clone, Copy, Debug, PartialEq, Eq)]
pub enum Limit {
    /// The bytes of a file: 8,388,608, or 67,108,864 of a proof.
    Bytes,
    /// The policies of a list: 64.
    Policies,
    /// The value tokens of a list: 1,024, or 1,023 that a log needs.
    Sources,
    /// The bytes of a directive's name or a value token: 4,096.
    Token,
    /// The requests of a file: 10,000.
    Requests,
    /// The URLs of a redirect chain: 21.
    Hops,
}

/// Why words ask for nothing.
#[derive(Clone, Copy, Debug, PartialEq, Eq)]
pub enum WordsFault {
    /// They have none of the forms.
    Usage,
    /// The word for the origin is none.
    BadOrigin,
}

/// Why nothing is read of a file.
#[derive(Clone, Copy, Debug, PartialEq, Eq)]
pub enum Cause {
    /// It couldn't be read.
    Read,
    /// A count of it passes its limit.
    TooLarge { limit: Limit },
    /// The line of this number, counted from 1, is its first bad one.
    BadPolicy { line: u32 },
    /// The policies that are required aren't one enforced policy.
    BadRequired,
}

/// The first file of which nothing is read, and why.
#[derive(Clone, Copy, Debug, PartialEq, Eq)]
pub struct FileFault {
    pub file: Role,
    pub cause: Cause,
}

/// Why a request file or a proof that was read gives no output.
#[derive(Clone, Copy, Debug, PartialEq, Eq)]
pub enum OutputFault {
    /// The request file isn't a JSON array.
    NotJson,
    /// A count of the request file passes its limit.
    TooLarge { limit: Limit },
    /// A member of the description of this number, counted from 1, is missing or misused.
    BadRequest { request: u32, field: Field },
    /// The line of this number, counted from 1, is the first that can't stand in a proof.
    BadProof { line: u32 },
}

/// Why a run has no output.
#[derive(Clone, Copy, Debug, PartialEq, Eq)]
pub enum Fault {
    /// The words ask for nothing.
    Words(WordsFault),
    /// Nothing is read of a file.
    File(FileFault),
    /// What was read gives no output.
    Output(OutputFault),
    /// The reporter of this number, counted from 1, refused a violation.
    Refused { reporter: u32 },
    /// There was no memory.
    Memory,
}

/// The status that a fault ends with.
pub fn status_of(fault: Fault) -> Status
    ensures { result ≡ texts.status_of fault }
{
    match fault {
        Fault::Words(WordsFault::Usage) => Status::Usage,
        Fault::Words(WordsFault::BadOrigin) => Status::BadOrigin,
        Fault::File(FileFault { cause, .. }) => cause_status(cause),
        Fault::Output(fault) => output_status(fault),
        Fault::Refused { .. } => Status::ReporterFault,
        Fault::Memory => Status::NoMemory,
    }
}

fn cause_status(cause: Cause) -> Status
    ensures { result ≡ texts.cause_status cause }
{
    match cause {
        Cause::Read => Status::ReadFault,
        Cause::TooLarge { .. } => Status::TooLarge,
        Cause::BadPolicy { .. } => Status::BadPolicy,
        Cause::BadRequired => Status::BadRequired,
    }
}

fn output_status(fault: OutputFault) -> Status
    ensures { result ≡ texts.output_status fault }
{
    match fault {
        OutputFault::NotJson | OutputFault::BadRequest { .. } => Status::BadRequests,
        OutputFault::TooLarge { .. } => Status::TooLarge,
        OutputFault::BadProof { .. } => Status::BadProof,
    }
}

impl From<Memory> for Fault {
    ghost use Rattle.csp_run.specs.declared.fault.Fault.{Fault};

    ghost from_gives = { λ _ made. made ≡ Fault.Memory };

    fn from(_: Memory) -> Fault {
        Fault::Memory
    }
}

impl From<OriginError> for Fault {
    ghost use Rattle.csp_run.specs.Shown.{origin_fault};

    ghost from_gives = { λ error made. made ≡ origin_fault error };

    fn from(error: OriginError) -> Fault {
        match error {
            OriginError::BadOrigin => Fault::Words(WordsFault::BadOrigin),
            OriginError::Memory => Fault::Memory,
        }
    }
}

impl From<RequestError> for Fault {
    ghost use Rattle.csp_run.specs.Outputs.{request_fault};
    ghost use Rattle.csp_run.specs.Shown.{output_or_memory};

    ghost from_gives = { λ error made. made ≡ output_or_memory (request_fault error) };

    // The fault of what a request file is refused for.
    fn from(error: RequestError) -> Fault {
        Fault::Output(match error {
            RequestError::NotJson => OutputFault::NotJson,
            RequestError::TooManyRequests => OutputFault::TooLarge {
                limit: Limit::Requests,
            },
            RequestError::BadRequest { index, field } => OutputFault::BadRequest {
                request: index,
                field,
            },
            RequestError::TooManyHops { .. } => OutputFault::TooLarge { limit: Limit::Hops },
            RequestError::Memory => return Fault::Memory,
        })
    }
}

impl From<LearnError> for Fault {
    ghost use Rattle.csp_run.specs.Shown.{learn_fault};

    ghost from_gives = { λ error made. made ≡ learn_fault error };

    fn from(error: LearnError) -> Fault {
        match error {
            LearnError::TooManySources => Fault::Output(OutputFault::TooLarge {
                limit: Limit::Sources,
            }),
            LearnError::Memory => Fault::Memory,
        }
    }
}

impl From<ProofError> for Fault {
    ghost use Rattle.csp_run.specs.Shown.{proof_fault};

    ghost from_gives = { λ error made. made ≡ proof_fault error };

    fn from(error: ProofError) -> Fault {
        match error {
            ProofError::BadProof { line } => Fault::Output(OutputFault::BadProof { line }),
            ProofError::Memory => Fault::Memory,
        }
    }
}

impl From<DeskError> for Fault {
    ghost use Rattle.csp_run.specs.Shown.{desk_fault};

    ghost from_gives = { λ error made. made ≡ desk_fault error };

    fn from(error: DeskError) -> Fault {
        match error {
            DeskError::Refused { reporter } => Fault::Refused { reporter },
            DeskError::Memory => Fault::Memory,
        }
    }
}
