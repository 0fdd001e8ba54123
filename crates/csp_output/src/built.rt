//! Outputs of commands.
use crate::status::Status;
use csp_model::Bytes;

/// A whole output.
#[derive(Drop)]
pub struct Built {
    pub status: Status,
    pub text: Bytes,
}
