//! Tests of copies, and of the report of a violation.
use crate::atoms::literal;
use crate::values::{check, policies};
use csp_desk::report_json;
use csp_model::{Disposition, Duplicate, Memory, Name, Text, Violation};
use std::alloc::Global;
use std::test::Fail;

// Takes the value, so that it is let go here and not in each test.
fn is_copied<T: Duplicate + PartialEq>(alloc: Global, value: T) -> Result<bool, Memory> {
    Ok(value.copy(alloc)? == value)
}

const POLICIES: &str =
    "Content-Security-Policy: default-src 'self'\nContent-Security-Policy: script-src \
    'sha256-47DEQpj8HBSa-_TImW-5JCeuQeRkm5NMpJWZG3hSuFU=' https://*.a.example:80/x/";

#[test]
fn copies_of_policies(rt: HostRuntime) -> Result<(), Fail> {
    let mut list = policies(&rt, POLICIES)?;
    let last = list.policies.pop().ok_or("no policy")?;
    assert!(rt; is_copied(rt.alloc(), last)?);
    assert!(rt; is_copied(rt.alloc(), list)?);
    Ok(())
}

#[test]
fn copies_of_checks(rt: HostRuntime) -> Result<(), Fail> {
    for &name in &["script", "style"] {
        let check = check(rt.alloc(), name)?;
        assert!(rt; is_copied(rt.alloc(), check)?, "{name}");
    }
    Ok(())
}

#[test]
fn copies_of_literals_and_atoms(rt: HostRuntime) -> Result<(), Fail> {
    for &spelling in &["under a.example", "host b.example", "path x/y", "has abc"] {
        let made = literal(rt.alloc(), false, spelling)?;
        assert!(rt;
            is_copied(rt.alloc(), made.atom.copy(rt.alloc())?)?,
            "{spelling}"
        );
        assert!(rt; is_copied(rt.alloc(), made)?, "{spelling}");
    }
    Ok(())
}

const REPORT: &str =
    r#"{"blocked-uri":"https://b.example/s.js","disposition":"enforce","effective-directive":"script-src-elem","original-policy":"default-src 'self'","script-sample":"","violated-directive":"script-src-elem"}"#;

#[test]
fn a_violation(rt: HostRuntime) -> Result<(), Fail> {
    let violation = Violation {
        disposition: Disposition::Enforce,
        effective: Name::ScriptSrcElem,
        blocked_uri: Text::new(rt.alloc(), "https://b.example/s.js")?,
        sample: Text::new(rt.alloc(), "")?,
        policy: Text::new(rt.alloc(), "default-src 'self'")?,
    };
    let report = report_json(rt.alloc(), &violation)?;
    assert_eq!(rt; report.as_slice(), REPORT.as_bytes());
    assert!(rt; is_copied(rt.alloc(), violation)?);
    Ok(())
}
