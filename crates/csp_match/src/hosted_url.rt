//! What is asked of an index.
use csp_model::{Host, Origin, Path, Scheme};

// A URL with a host, in a policy of an origin.
#[derive(Clone, Copy)]
pub(crate) struct HostedUrl<'a> {
    pub(crate) origin: &'a Origin,
    pub(crate) scheme: Scheme,
    pub(crate) host: &'a Host,
    pub(crate) port: Option<u16>,
    pub(crate) path: &'a Path,
    pub(crate) redirected: bool,
}
