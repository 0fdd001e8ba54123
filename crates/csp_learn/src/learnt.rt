//! What is learnt from a log.
use csp_model::{List, Policy};

/// A check of a log.
#[derive(Clone, Copy, Debug, PartialEq, Eq)]
pub struct Place {
    /// The number of its request in the log, counted from 1.
    pub request: u32,
    /// Its number among the request's checks, counted from 1.
    pub check: u32,
}

/// What is learnt from a log.
#[derive(Drop)]
pub struct Learnt {
    /// `default-src 'none'`, and for each directive that fetches of the log ask for the sources that they
    /// need.
    pub policy: Policy,
    /// The fetches that no source can name, in the order of the log.
    pub left: List<Place>,
}
