//! What is wanted of requests.
use crate::texts::ReportTexts;
use csp_token::Algorithms;

/// What is wanted of the requests that descriptions stand for. The rest isn't made.
#[derive(Clone, Copy, Debug, PartialEq, Eq)]
pub struct Wanted {
    /// The digests of an inline source. In place of each other digest are bytes that are all 0.
    pub digests: Algorithms,
    /// The texts that only a report shows.
    pub texts: ReportTexts,
}

impl Wanted {
    /// All that descriptions tell.
    pub const ALL: Wanted = Wanted {
        digests: Algorithms {
            sha256: true,
            sha384: true,
            sha512: true,
        },
        texts: ReportTexts::Made,
    };
}
