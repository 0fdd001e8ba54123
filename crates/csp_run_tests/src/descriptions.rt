//! A request file that ends early.
use csp_request::{RequestError, read_requests};
use std::test::Fail;

// Scripts that the parser inserts and that it doesn't.
const SCRIPTS: &str = r#"[
    {"kind":"fetch","destination":"script","url":"https://b.example/s.js","parser-inserted":true},
    {"kind":"fetch","destination":"script","url":"https://b.example/s.js"},
    {"kind":"fetch","destination":"script","url":"https://b.example/s.js",
     "parser-inserted":true,"nonce":"abc"}]"#;

// Cut before each of its bytes, also the last, a request file is no array.
#[test]
fn requests_cut_short(rt: HostRuntime) -> Result<(), Fail> {
    let mut cut = String::new(rt.alloc());
    for next in SCRIPTS.chars() {
        let found = read_requests(rt.alloc(), cut.as_bytes()).err();
        assert_eq!(rt; found, Some(RequestError::NotJson), "before {next}");
        cut.push(next)?;
    }
    assert_eq!(rt; read_requests(rt.alloc(), cut.as_bytes())?.len(), 3);
    Ok(())
}
