//! The statuses of a run, and its exit codes.
ghost use Rattle.std.specs.Prelude.{◌≡◌};
ghost use Rattle.csp_output.specs.Statuses as spec;

/// The status of a run.
#[derive(Clone, Copy, Debug, PartialEq, Eq)]
pub enum Status {
    /// No request is blocked, the second list allows what the first allows, the proof is accepted, the
    /// response may be shown, or the report, the drill, the tidied list, the learnt policy or the order is
    /// printed.
    Clean,
    /// Some request is blocked, the second list blocks what the first allows, the proof is rejected, or the
    /// response may not be shown.
    Found,
    /// The words have none of the forms.
    Usage,
    /// The origin is none.
    BadOrigin,
    /// A policy file has a bad line.
    BadPolicy,
    /// A count passes a limit.
    TooLarge,
    /// A request is malformed.
    BadRequests,
    /// A proof is malformed.
    BadProof,
    /// A file couldn't be read.
    ReadFault,
    /// The output couldn't be written.
    WriteFault,
    /// There was no memory.
    NoMemory,
    /// A reporter refused a violation.
    ReporterFault,
    /// The list that is to be required isn't exactly one enforced policy.
    BadRequired,
}

/// The number of a status, with which the program ends. No status has the number 12.
pub fn exit_code(status: Status) -> u8
    ensures { result ≡ spec.exit_code status }
{
    match status {
        Status::Clean => 0,
        Status::Found => 1,
        Status::Usage => 2,
        Status::BadOrigin => 3,
        Status::BadPolicy => 4,
        Status::TooLarge => 5,
        Status::BadRequests => 6,
        Status::BadProof => 7,
        Status::ReadFault => 8,
        Status::WriteFault => 9,
        Status::NoMemory => 10,
        Status::ReporterFault => 11,
        Status::BadRequired => 13,
    }
}
