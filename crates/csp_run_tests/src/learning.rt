//! A log that is there as a whole.
use csp_learn::learn;
use csp_model::{Described, List, Text};
use csp_policy::policy_text;
use csp_request::read_check;
use csp_url::read_origin;
use std::test::Fail;

// The call over a log that is there as a whole says what the program prints.
#[test]
fn a_whole_log(rt: HostRuntime) -> Result<(), Fail> {
    let alloc = rt.alloc();
    let image = r#"{"kind":"fetch","destination":"image","url":"https://b.example/x"}"#;
    let mut checks = List::new(alloc);
    checks.push(read_check(alloc, image.as_bytes())?)?;
    let mut log = List::new(alloc);
    log.push(Described {
        checks,
        blocked_uri: Text::new(alloc, "https://b.example/x")?,
        sample: Text::new(alloc, "")?,
    })?;
    let learnt = learn(alloc, &log, &read_origin(alloc, "https://a.example")?)?;
    assert_eq!(rt;
        policy_text(alloc, &learnt.policy)?.as_str(),
        "default-src 'none'; img-src https://b.example:443"
    );
    assert!(rt; learnt.left.is_empty());
    Ok(())
}
