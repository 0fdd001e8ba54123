//! What `report` writes of the desk that is lent to it.
use crate::limited::Limited;
use crate::runs::{inputs, numbers, texts};
use csp_desk::{FailingLines, Reporter, Tally};
use csp_io::MemorySink;
use csp_model::{Bytes, List, Memory};
use csp_run::{Status, run};
use std::alloc::Global;
use std::test::Fail;

const SELF: &str = "Content-Security-Policy: default-src 'self'";

const SCRIPT: &str = r#"[{"kind":"fetch","destination":"script","url":"https://b.example/s.js"}]"#;

const SCRIPT_TWICE: &str = r#"[
    {"kind":"fetch","destination":"script","url":"https://b.example/s.js"},
    {"kind":"fetch","destination":"script","url":"https://b.example/s.js"}
]"#;

// The status of a report by nine reporters at most, and what it wrote.
fn reported(
    alloc: Global,
    desk: &mut Vec<Box<dyn Reporter>>,
    requests: &str,
) -> Result<(Status, Bytes), Memory> {
    if desk.len() > 9 {
        return Err(Memory);
    }
    let words = texts(alloc, &["report", "https://a.example", "p", "r"])?;
    let mut files = inputs(alloc, SELF, requests)?;
    let mut out = MemorySink::new(alloc, 2000, 64, List::new(alloc))?;
    let status = run(alloc, &words, &mut files, &mut out, desk);
    Ok((status, Bytes::new(alloc, out.taken())?))
}

// The same with this crate's own reporter alone.
fn limited(alloc: Global, room: u32, requests: &str) -> Result<(Status, Bytes), Memory> {
    let mut desk: Vec<Box<dyn Reporter>> = Vec::new(alloc);
    desk.push(Box::new(alloc, Limited::new(alloc, room))?)?;
    reported(alloc, &mut desk, requests)
}

#[test]
fn a_reporter_of_another_crate(rt: HostRuntime) -> Result<(), Fail> {
    for &(room, requests, status, start) in &[
        (0, "[]", Status::Clean, "reporter lines\n"),
        (0, SCRIPT, Status::ReporterFault, "reporter fault: 1\n"),
        (
            1,
            SCRIPT,
            Status::Clean,
            "reporter lines\n{\"blocked-uri\":",
        ),
        (
            1,
            SCRIPT_TWICE,
            Status::ReporterFault,
            "reporter fault: 1\n",
        ),
        (
            2,
            SCRIPT_TWICE,
            Status::Clean,
            "reporter lines\n{\"blocked-uri\":",
        ),
    ] {
        let (found, written) = limited(rt.alloc(), room, requests)?;
        assert_eq!(rt; found, status, "{room}, {requests}");
        assert!(rt;
            written.as_slice().starts_with(start.as_bytes()),
            "{room}, {requests}"
        );
    }
    Ok(())
}

const AFTER_A_REFUSAL: &str = "reporter tally\nscript-src-elem 2\nreporter lines\n\
    {\"blocked-uri\":\"https://b.example/s.js\",\"disposition\":\"enforce\",\
    \"effective-directive\":\"script-src-elem\",\"original-policy\":\"default-src 'self'\",\
    \"script-sample\":\"\",\"violated-directive\":\"script-src-elem\"}\n\
    reporter tally\nscript-src-elem 1\n";

// After a refusal the desk has the very reporters that were lent, which go on from where they stopped: the one
// before that which refused took one violation more than the one after it. In their place a body could put
// reporters of its own around them, of the same kinds and with more faults.
#[test]
fn the_reporters_stay_after_a_refusal(rt: HostRuntime) -> Result<(), Fail> {
    let alloc = rt.alloc();
    let mut desk: Vec<Box<dyn Reporter>> = Vec::new(alloc);
    desk.push(Box::new(alloc, Tally::new(alloc))?)?;
    desk.push(Box::new(alloc, FailingLines::new(alloc, numbers(alloc, &[1])?))?)?;
    desk.push(Box::new(alloc, Tally::new(alloc))?)?;
    let (refused, text) = reported(alloc, &mut desk, SCRIPT_TWICE)?;
    assert_eq!(rt; refused, Status::ReporterFault);
    assert_eq!(rt; text.as_slice(), b"reporter fault: 2\n".as_slice());
    let (clean, text) = reported(alloc, &mut desk, "[]")?;
    assert_eq!(rt; clean, Status::Clean);
    assert_eq!(rt; text.as_slice(), AFTER_A_REFUSAL.as_bytes());
    Ok(())
}
