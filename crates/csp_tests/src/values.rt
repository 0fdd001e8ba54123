//! Builders of values, so that a row of a table is short.
use csp_model::{Check, Digests, Group, InlineKind, Memory, PolicyList, Text};
use csp_policy::{BlockError, read_block};
use csp_token::read_integrity;
use csp_url::{UrlError, read_origin, read_url};
use std::alloc::Global;
use std::process::Abort;

// The policies of a header block, of the origin `https://a.example`.
pub(crate) fn policies(
    rt: &(impl Abort + AllocGlobal),
    block: &str,
) -> Result<PolicyList, BlockError> {
    let bytes = block.as_bytes();
    assert!(rt; bytes.len() < 4_000_000_000);
    match read_origin(rt.alloc(), "https://a.example") {
        Ok(origin) => read_block(rt.alloc(), bytes, &origin),
        Err(_) => Err(BlockError::Memory),
    }
}

// A fetch with the nonce `abc` and with two pairs of integrity metadata.
pub(crate) fn fetch(
    alloc: Global,
    group: Group,
    url: &str,
    redirects: u32,
    parser_inserted: bool,
) -> Result<Check, UrlError> {
    let nonce = Text::new(alloc, "abc")?;
    let integrity = read_integrity(alloc, "sha256-abc sha256-d")?;
    let url = read_url(alloc, url)?;
    Ok(Check::Fetch {
        group,
        url,
        redirects,
        nonce,
        integrity,
        parser_inserted,
    })
}

// A script, inline style whose digests are ones, and a base URL that is no more than a scheme.
pub(crate) fn check(alloc: Global, name: &str) -> Result<Check, UrlError> {
    match name {
        "script" => fetch(
            alloc,
            Group::ScriptElem,
            "https://x.a.example/p/q",
            0,
            false,
        ),
        "style" => Ok(Check::Inline {
            kind: InlineKind::Style,
            nonce: Text::new(alloc, "abc")?,
            digests: Digests {
                sha256: [1; 32],
                sha384: [1; 48],
                sha512: [1; 64],
            },
        }),
        _ => Ok(Check::Base {
            url: read_url(alloc, "data:,")?,
        }),
    }
}
