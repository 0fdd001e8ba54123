//! A program that uses the library as any other would: it reads header blocks, judges requests under one,
//! compares two of them, and checks the proof that it gets. Then it does the stored runs.
#![tactic(auto)]

ghost use Rattle.std.specs.Prelude.{◌≤◌, length};
ghost use Rattle.csp_model.specs.Policies.{IsReadable, policy_limit};

use csp_checker::Checker;
use csp_compare::{Answer, compare};
use csp_model::{PolicyList, name_text};
use csp_policy::read_block;
use csp_request::{check_json, read_requests};
use csp_url::read_origin;
use csp_verdict::CompiledList;
use std::alloc::Global;

mod stored;

// What a server sends today, and what it is to send instead.
const OLD: &[u8] = b"content-security-policy: default-src 'self'; img-src 'self' https:\n";

const NEW: &[u8] =
    b"content-security-policy: default-src 'self'; img-src 'self' https://img.example\n";

// What the server's pages load.
const REQUESTS: &[u8] = br#"[
    {"kind": "fetch", "destination": "image", "url": "https://img.example/logo.png"},
    {"kind": "fetch", "destination": "image", "url": "https://cdn.example/badge.png"},
    {"kind": "eval"}
]"#;

fn main(rt: HostRuntime) -> anyhow::Result<()> {
    let alloc = rt.alloc();
    let origin = read_origin(alloc, "https://a.example")?;
    let old = read_block(alloc, OLD, &origin)?;
    let new = read_block(alloc, NEW, &origin)?;
    judge(&rt, alloc, &new)?;
    compare_lists(&rt, alloc, &new, &old)?;
    compare_lists(&rt, alloc, &old, &new)?;
    stored::run_all(&rt, alloc)
}

// Prints which requests a list blocks, and which directives decided.
fn judge(rt: &impl Print, alloc: Global, list: &PolicyList) -> anyhow::Result<()>
    requires { length list.now.policies ≤ policy_limit }
{
    let compiled = CompiledList::new(alloc, list)?;
    let requests = read_requests(alloc, REQUESTS)?;
    for request in requests.as_slice() {
        let verdict = compiled.judge(alloc, request)?;
        println!(rt; "blocked: {}", verdict.blocked)?;
        for item in verdict.items.as_slice() {
            println!(rt; "  by {}", name_text(item.governing))?;
        }
    }
    Ok(())
}

// Prints whether the first list blocks all that the second one blocks, or a request that shows that it doesn't.
fn compare_lists(
    rt: &impl Print,
    alloc: Global,
    first: &PolicyList,
    second: &PolicyList,
) -> anyhow::Result<()>
    requires first { IsReadable first.now }
    requires second { IsReadable second.now }
{
    match compare(alloc, first, second)? {
        Answer::Subsumed { proof } => {
            let mut checker = Checker::new(alloc, first, second, &proof)?;
            println!(rt; "as strict, proof accepted: {}", checker.accepts().is_ok())?;
        }
        Answer::Counterexample { check } => {
            let text = check_json(alloc, &check)?;
            println!(rt; "weaker: {}", str::from_utf8(text.as_slice())?)?;
        }
    }
    Ok(())
}
