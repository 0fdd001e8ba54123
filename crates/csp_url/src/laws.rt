//! Laws of the definitions, each the contract of a function with no body.
ghost use Rattle.csp_model.specs.Validity.{IsValidUrl};
ghost use Rattle.csp_url.specs.Texts as spec;

use csp_model::Url;

/// The path of a valid URL that has a host, written as a text, reads back to its pieces.
pub fn path_reads_back(url: &Url)
    requires { IsValidUrl url.now }
    ensures { spec.ReadsBack url.now }
{}
