//! Stored runs: each row of the files `data/*.runs` is a call of `run`, and what the calls write is compared with
//! the file `stdout`. Its texts were written by hand, but for the proofs and requests that the documents' examples
//! show.
//!
//! A row is a line `=== WORDS`, lines that say what fails, what is shown and which reporters there are, and the
//! files in memory, each behind a line `--- NAME`. Where a row has no such line, the files are those of `data/`.
//! A line of the head that begins with `#` is a comment. What a file holds is made from left to right, by text
//! and by orders: `<<3 x text>>` adds so many copies, with the number of the copy in place of a `#`, and
//! `<<from NAME>>` a file of `data/`; `<<line 3 is text>>`, `<<first 3 lines>>` and `<<no last byte>>` change what
//! is there so far.

use anyhow::Context;
use csp_desk::{FailingLines, Lines, Recent, Reporter, Tally};
use csp_io::{FileInputs, Inputs, MemoryInputs, MemorySink};
use csp_model::{Bytes, List, Memory, Text};
use csp_run::{Status, exit_code, run};
use std::alloc::Global;
use std::fs;

const FILES: [&str; 19] = [
    "examples.runs",
    "words.runs",
    "policies.runs",
    "reading.runs",
    "urls.runs",
    "matching.runs",
    "kinds.runs",
    "descriptions.runs",
    "explaining.runs",
    "reasons.runs",
    "reporting.runs",
    "comparing.runs",
    "migrations.runs",
    "checking.runs",
    "embedding.runs",
    "tidying.runs",
    "learning.runs",
    "ordering.runs",
    "failing.runs",
];

// How much a read gives; a write takes one byte.
const PIECE: usize = 64;

// What of a text is shown.
#[derive(Drop)]
enum Shown {
    All,
    // So many bytes at its beginning.
    Bytes(usize),
    // The lines that begin with a digit.
    Numbered,
}

// What the head of a row says.
#[derive(Drop)]
struct Head<'a> {
    words: &'a str,
    reporters: &'a str,
    failing_read: Option<usize>,
    failing_write: Option<usize>,
    room: usize,
    shown: Shown,
}

impl Head<'_> {
    fn read(text: &str) -> anyhow::Result<Head<'_>> {
        Ok(Head {
            words: said(text, "").unwrap_or(""),
            reporters: said(text, "reporters: ").unwrap_or("lines tally"),
            failing_read: number(text, "reads fail at ")?,
            failing_write: number(text, "writes fail at ")?,
            room: number(text, "room for bytes: ")?.unwrap_or(2_000_000),
            shown: Shown::read(text)?,
        })
    }
}

impl Shown {
    fn read(head: &str) -> anyhow::Result<Shown> {
        if let Some(count) = number(head, "shown bytes: ")? {
            return Ok(Shown::Bytes(count));
        }
        Ok(match said(head, "shown lines begin with a number") {
            Some(_) => Shown::Numbered,
            None => Shown::All,
        })
    }
}

// What the first line of the head that begins so goes on with.
fn said<'a>(head: &'a str, front: &str) -> Option<&'a str> {
    for line in head.split('\n') {
        if let Some(rest) = line.strip_prefix(front) {
            return Some(rest);
        }
    }
    None
}

fn number(head: &str, front: &str) -> anyhow::Result<Option<usize>> {
    match said(head, front) {
        Some(digits) => Ok(Some(digits.parse()?)),
        None => Ok(None),
    }
}

// Does what each row says, and prints what comes of it.
pub(crate) fn run_all(rt: &HostRuntime, alloc: Global) -> anyhow::Result<()> {
    for name in FILES {
        println!(rt; "{name}")?;
        let text = fs::read_to_string(rt, name)?;
        let rows = text.as_str().strip_suffix('\n').unwrap_or("");
        for row in rows.split("\n=== ").skip(1) {
            run_row(rt, alloc, row)?;
        }
    }
    Ok(())
}

fn run_row(rt: &HostRuntime, alloc: Global, row: &str) -> anyhow::Result<()> {
    let (head, files) = match row.split_once("\n--- ") {
        Some((head, files)) => (head, Some(files)),
        None => (row, None),
    };
    let head = Head::read(head)?;
    let failing = numbers(alloc, head.failing_write)?;
    let mut out = MemorySink::new(alloc, head.room, 1, failing)?;
    let status = match files {
        None => run_words(alloc, &head, &mut FileInputs::new(rt, alloc), &mut out)?,
        Some(files) => run_in_memory(rt, alloc, &head, files, &mut out)?,
    };
    println!(rt; "=== {}\nexit code {}", head.words, exit_code(status))?;
    show(rt, str::from_utf8(out.taken())?, &head.shown)
}

fn run_in_memory(
    rt: &HostRuntime,
    alloc: Global,
    head: &Head<'_>,
    files: &str,
    out: &mut MemorySink,
) -> anyhow::Result<Status> {
    let mut held = List::new(alloc);
    for file in files.split("\n--- ") {
        let (name, content) = file.split_once('\n').context("a file has no line")?;
        let bytes = Bytes::new(alloc, spelled(rt, alloc, content)?.as_bytes())?;
        held.push((Text::new(alloc, name)?, bytes))?;
    }
    let mut inputs = MemoryInputs::new(held, PIECE, numbers(alloc, head.failing_read)?);
    run_words(alloc, head, &mut inputs, out)
}

// Does what the words say, with the reporters of the head.
fn run_words<I: Inputs>(
    alloc: Global,
    head: &Head<'_>,
    inputs: &mut I,
    out: &mut MemorySink,
) -> anyhow::Result<Status> {
    let words = texts(alloc, head.words)?;
    let mut desk: Vec<Box<dyn Reporter>> = Vec::new(alloc);
    for name in head.reporters.split(' ') {
        match name {
            "lines" => desk.push(Box::new(alloc, Lines::new(alloc))?)?,
            "tally" => desk.push(Box::new(alloc, Tally::new(alloc))?)?,
            "latest" => desk.push(Box::new(alloc, Recent::new(alloc, 1))?)?,
            "count" => desk.push(Box::new(alloc, Recent::new(alloc, 0))?)?,
            "failing" => {
                let calls = numbers(alloc, Some(0))?;
                desk.push(Box::new(alloc, FailingLines::new(alloc, calls))?)?;
            }
            _ => anyhow::ensure!(name == "none", "a reporter that isn't known"),
        }
    }
    anyhow::ensure!(desk.len() <= 9, "too many reporters");
    Ok(run(alloc, &words, inputs, out, &mut desk))
}

// The number of the call that fails, if one does.
fn numbers(alloc: Global, failing: Option<usize>) -> Result<List<u64>, Memory> {
    let mut made = List::new(alloc);
    if let Some(call) = failing {
        made.push(call as u64)?;
    }
    Ok(made)
}

// The words of a line, with one space between two; an empty line has none.
fn texts(alloc: Global, line: &str) -> Result<List<Text>, Memory> {
    let mut words = List::new(alloc);
    if !line.is_empty() {
        for word in line.split(' ') {
            words.push(Text::new(alloc, word)?)?;
        }
    }
    Ok(words)
}

// What a file holds: its text, with what the orders in it add and change.
fn spelled(rt: &HostRuntime, alloc: Global, text: &str) -> anyhow::Result<String> {
    let mut pieces = text.split("<<");
    let mut made = String::from_str(alloc, pieces.next().unwrap_or(""))?;
    for piece in pieces {
        let (order, rest) = piece.split_once(">>").context("an order has no end")?;
        made = carried_out(rt, alloc, order, made)?;
        made.push_str(rest)?;
    }
    Ok(made)
}

fn carried_out(
    rt: &HostRuntime,
    alloc: Global,
    order: &str,
    mut made: String,
) -> anyhow::Result<String> {
    if let Some(name) = order.strip_prefix("from ") {
        made.push_str(fs::read_to_string(rt, name)?.as_str())?;
    } else if let Some(order) = order.strip_prefix("line ") {
        let (number, line) = order.split_once(" is ").context("a line has no text")?;
        return Ok(with_line(alloc, made.as_str(), number.parse()?, line)?);
    } else if let Some(order) = order.strip_prefix("first ") {
        let count = order.strip_suffix(" lines").context("no count of lines")?;
        return Ok(cut(alloc, made.as_str(), count.parse()?)?);
    } else if order == "no last byte" {
        let kept = made
            .as_str()
            .strip_suffix('\n')
            .context("no line feed at the end")?;
        return Ok(String::from_str(alloc, kept)?);
    } else {
        let (count, text) = order
            .split_once(" x ")
            .context("an order that isn't known")?;
        made.push_str(copies(alloc, count.parse()?, text)?.as_str())?;
    }
    Ok(made)
}

// So many copies of the text, with the number of the copy, counted from 1, in place of a `#`.
fn copies(alloc: Global, count: usize, text: &str) -> Result<String, Memory> {
    let Some((front, end)) = text.split_once('#') else {
        return Ok(text.repeat(alloc, count)?);
    };
    let mut made = String::new(alloc);
    for number in 1..=count {
        made.push_str(format!(in alloc; "{front}{number}{end}")?.as_str())?;
    }
    Ok(made)
}

// The text with another line of this number, counted from 1.
fn with_line(alloc: Global, text: &str, number: usize, line: &str) -> Result<String, Memory> {
    let mut made = String::new(alloc);
    for (place, old) in text.split_terminator('\n').enumerate() {
        let is_it = number.checked_sub(1) == Some(place);
        made.push_str(if is_it { line } else { old })?;
        made.push_str("\n")?;
    }
    Ok(made)
}

// So many lines of the text.
fn cut(alloc: Global, text: &str, count: usize) -> Result<String, Memory> {
    let mut made = String::new(alloc);
    for line in text.split_inclusive('\n').take(count) {
        made.push_str(line)?;
    }
    Ok(made)
}

fn show(rt: &impl Print, text: &str, shown: &Shown) -> anyhow::Result<()> {
    match shown {
        Shown::All => show_whole(rt, text),
        Shown::Bytes(count) => show_whole(rt, text.get(..*count).unwrap_or(text)),
        Shown::Numbered => {
            for line in text.split_inclusive('\n') {
                if matches!(line.as_bytes().first(), Some(b'0'..=b'9')) {
                    print!(rt; "{line}")?;
                }
            }
            Ok(())
        }
    }
}

fn show_whole(rt: &impl Print, text: &str) -> anyhow::Result<()> {
    print!(rt; "{text}")?;
    if !text.is_empty() && !text.ends_with('\n') {
        println!(rt; "\n(no end of line)")?;
    }
    Ok(())
}
