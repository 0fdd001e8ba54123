//! Checks that are read and printed by the library's calls, and requests of which violations are told.
use csp_model::Origin;
use csp_policy::read_block;
use csp_request::{CheckError, Field, check_json, read_check, read_requests};
use csp_verdict::{judge, violations};
use std::test::Fail;

// A description of one check, and how the check is printed.
const PRINTED: [(&str, &str); 11] = [
    (
        r#"{"kind":"fetch","destination":"image","url":"https://b.example:8443/a%20b/"}"#,
        r#"{"destination":"image","integrity":"","kind":"fetch","nonce":"","parser-inserted":false,"redirects":0,"url":{"host":"b.example","path":"/a%20b/","port":8443,"scheme":"https"}}"#,
    ),
    (
        r#"{"kind":"fetch","destination":"paintworklet","url":"data:,","redirects":3,"nonce":"n","integrity":"SHA384-d?x"}"#,
        r#"{"destination":"script","integrity":"sha384-d","kind":"fetch","nonce":"n","parser-inserted":false,"redirects":3,"url":{"scheme":"data"}}"#,
    ),
    (
        r#"{"kind":"fetch","destination":"script","url":"data:,","integrity":"sha256-abc?x SHA384-d md5-zz"}"#,
        r#"{"destination":"script","integrity":"sha256-abc sha384-d","kind":"fetch","nonce":"","parser-inserted":false,"redirects":0,"url":{"scheme":"data"}}"#,
    ),
    (
        r#"{"kind":"fetch","destination":"script","url":"data:,","integrity":"\tsha512-a-b\n sha256 sha384?-c"}"#,
        r#"{"destination":"script","integrity":"sha512-a-b sha256- sha384-","kind":"fetch","nonce":"","parser-inserted":false,"redirects":0,"url":{"scheme":"data"}}"#,
    ),
    (r#"{"kind":"eval","source":"1"}"#, r#"{"kind":"eval"}"#),
    (r#"{"kind":"wasm"}"#, r#"{"kind":"wasm"}"#),
    (
        r#"{"kind":"base","url":"http://a.example"}"#,
        r#"{"kind":"base","url":{"host":"a.example","path":"/","port":null,"scheme":"http"}}"#,
    ),
    (
        r#"{"kind":"form","urls":["blob:x"]}"#,
        r#"{"kind":"form","redirects":0,"url":{"scheme":"blob"}}"#,
    ),
    (
        r#"{"kind":"ancestors","ancestors":["https://[::1]/x/y"]}"#,
        r#"{"ancestors":[{"host":"[::1]","path":"/","port":null,"scheme":"https"}],"kind":"ancestors"}"#,
    ),
    (
        r#"{"kind":"ancestors","ancestors":["null"]}"#,
        r#"{"ancestors":["null"],"kind":"ancestors"}"#,
    ),
    (
        r#"{"name":"same-origin","kind":"capability"}"#,
        r#"{"kind":"capability","name":"same-origin"}"#,
    ),
];

// A check is printed with all its members.
#[test]
fn checks_are_printed_whole(rt: HostRuntime) -> Result<(), Fail> {
    for &(description, text) in &PRINTED {
        let check = read_check(rt.alloc(), description.as_bytes())?;
        let printed = check_json(rt.alloc(), &check)?;
        assert_eq!(rt; printed.as_slice(), text.as_bytes(), "at {description}");
    }
    Ok(())
}

// Files that aren't one check, and why.
#[test]
fn what_is_not_one_check(rt: HostRuntime) -> Result<(), Fail> {
    for (file, error) in [
        ("", CheckError::NotJson),
        (r#"{"kind":"#, CheckError::NotJson),
        (
            "[]",
            CheckError::BadCheck {
                field: Field::Object,
            },
        ),
        ("{}", CheckError::BadCheck { field: Field::Kind }),
        (
            r#"{"kind":"fetch","destination":"report","url":"https://b.example"}"#,
            CheckError::NotOneCheck,
        ),
        (
            r#"{"kind":"ancestors","ancestors":[]}"#,
            CheckError::NotOneCheck,
        ),
        (
            r#"{"kind":"form","urls":[1,2,3,4,5,6,7,8,9,10,11,12,13,14,15,16,17,18,19,20,21,22]}"#,
            CheckError::TooManyHops,
        ),
    ] {
        match read_check(rt.alloc(), file.as_bytes()) {
            Ok(_) => assert!(rt; false, "at {file}"),
            Err(found) => assert_eq!(rt; found, error, "at {file}"),
        }
    }
    Ok(())
}

// A script that is blocked, and what is told of it without a list that is made ready.
#[test]
fn a_violation(rt: HostRuntime) -> Result<(), Fail> {
    let list = read_block(
        rt.alloc(),
        b"Content-Security-Policy: default-src 'self'",
        &Origin::Opaque,
    )?;
    let file = br#"[{"kind":"fetch","destination":"script","url":"https://b.example/s.js"}]"#;
    let requests = read_requests(rt.alloc(), file)?;
    let request = requests.get(0).ok_or("no request")?;
    assert!(rt; judge(rt.alloc(), &list, request)?.blocked);
    let found = violations(rt.alloc(), &list, request)?;
    let first = found.get(0).ok_or("no violation")?;
    assert_eq!(rt; first.blocked_uri.as_str(), "https://b.example/s.js");
    assert_eq!(rt; first.policy.as_str(), "default-src 'self'");
    Ok(())
}
