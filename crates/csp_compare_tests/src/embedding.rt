//! Tests of the field by which a response allows what an embedder requires.
use csp_embed::allow_from;
use csp_model::{Host, Origin, Scheme, Text};
use csp_url::read_origin;
use std::test::Fail;

const EMBEDDER: &str = "https://e.example";

// Header blocks with bytes that no stored run has, and with bad lines, which no command takes; and whether a
// response with them allows blanket enforcement.
const ALLOWING: [(&[u8], bool); 4] = [
    (b"Allow-CSP-From: https://e.example\xff", false),
    (b"Allow-CSP-From: \xff", false),
    (b"Allow-CSP-From : *", false),
    (b"Allow-CSP-From: *\nAllow-CSP-From: *\x01", true),
];

#[test]
fn fields_that_allow(rt: HostRuntime) -> Result<(), Fail> {
    let embedder = read_origin(rt.alloc(), EMBEDDER)?;
    for &(block, expected) in &ALLOWING {
        let found = allow_from(rt.alloc(), block, &embedder)?;
        assert_eq!(rt; found, expected, "{block:?}");
    }
    Ok(())
}

// An embedder whose default port is named is the one that a value without a port names.
#[test]
fn an_embedder_with_its_default_port(rt: HostRuntime) -> Result<(), Fail> {
    let embedder = Origin::Tuple {
        scheme: Scheme::Https,
        host: Host::Domain(Text::new(rt.alloc(), "e.example")?),
        port: Some(443),
    };
    let block = b"Allow-CSP-From: https://e.example".as_slice();
    assert!(rt; allow_from(rt.alloc(), block, &embedder)?);
    Ok(())
}
