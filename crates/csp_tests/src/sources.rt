//! Tests of csp_source. The last tokens of the table are of no kind, and no policy can have them.
use csp_model::{HostPart, Memory, Path, PathPart, PortPart, Source, Text, is_ascii_text};
use csp_source::{read_source, source_text};
use std::process::Abort;
use std::test::Fail;

// The text of the source of a token, which has to be ASCII.
fn told(rt: &(impl Abort + AllocGlobal), token: &str) -> Result<Text, Memory> {
    let bytes = token.as_bytes();
    assert!(rt; is_ascii_text(bytes), "{token}");
    let source = read_source(rt.alloc(), bytes)?;
    let text = source_text(rt.alloc(), &source);
    drop(source);
    text
}

// A token, and how its source is printed. Stored runs of `read` show of which kind it is.
const TOKENS: [(&str, &str); 32] = [
    ("*", "*"),
    ("a.example:", "a.example:"),
    ("HTTPS:", "https:"),
    ("a+B-1.:", "a+b-1.:"),
    ("self", "self"),
    ("a.example.", "a.example."),
    ("A.example.:*", "a.example.:*"),
    ("*:*", "*:*"),
    ("a.example:65536", "a.example:65536"),
    (
        "A.EXAMPLE:9999999999999999999999999999999999999999",
        "a.example:65536",
    ),
    ("*:99999/", "*:65536/"),
    (
        "HTTPS://*.A.example:0080/x/%79/",
        "https://*.a.example:80/x/y/",
    ),
    ("a/", "a/"),
    ("a/x//", "a/x//"),
    ("a/x//%2f", "a/x//%2F"),
    ("a/%2f%2F%aB~!x", "a/%2F%2F%AB~%21x"),
    ("'self'", "'self'"),
    ("'Unsafe-Inline'", "'unsafe-inline'"),
    ("'unsafe-eval'", "'unsafe-eval'"),
    ("'wasm-unsafe-eval'", "'wasm-unsafe-eval'"),
    ("'strict-dynamic'", "'strict-dynamic'"),
    ("'unsafe-hashes'", "'unsafe-hashes'"),
    ("'Report-Sample'", "'report-sample'"),
    ("'NONCE-aB='", "'nonce-aB='"),
    ("'NONCE-aB+/-_0=='", "'nonce-aB+/-_0=='"),
    ("'SHA384-aB'", "'sha384-aB'"),
    ("'sha256-Zz'", "'sha256-Zz'"),
    ("'SHA384-Zz'", "'sha384-Zz'"),
    ("'sha512-Zz'", "'sha512-Zz'"),
    ("", ""),
    ("a b", "a b"),
    ("a/x;y", "a/x;y"),
];

#[test]
fn tokens(rt: HostRuntime) -> Result<(), Fail> {
    for &(token, text) in &TOKENS {
        let printed = told(&rt, token)?;
        assert_eq!(rt; printed.as_str(), text, "{token}");
    }
    Ok(())
}

fn has_every_part(source: &Source, wanted: &Path) -> bool {
    match source {
        Source::Hosted {
            scheme: Some(scheme),
            host: HostPart::Under(suffix),
            port: PortPart::Number(80),
            path: PathPart::Prefix(path),
        } => scheme.as_str() == "https" && suffix.as_str() == "a.example" && path == wanted,
        _ => false,
    }
}

#[test]
fn a_host_source_with_every_part(rt: HostRuntime) -> Result<(), Fail> {
    let wanted = Path::read(rt.alloc(), b"x/y")?;
    let token = b"HTTPS://*.A.example:0080/x/%79/".as_slice();
    assert!(rt; is_ascii_text(token));
    let found = read_source(rt.alloc(), token)?;
    assert!(rt; has_every_part(&found, &wanted));
    drop(found);
    Ok(())
}
