//! What a page calls: the program over words and files in memory.
#![tactic(auto)]

ghost use Rattle.std.specs.Prelude.{◌≡◌, ◌≢◌, ◌≤◌, ◌⊎◌, ℕ, List as Items, IfOk, OnOk, IsErrOf, IsUtf8};
ghost use Rattle.std.specs.Prelude.{length, map, min, take};
ghost use Rattle.csp_io.specs.Files.{contents_of};
ghost use Rattle.csp_page.specs.Files.{page_contents};
ghost use Rattle.csp_page.specs.Page.{HasBad, IsCutAnswer, IsGiven, IsPageAnswer, file_of, name_of, word_of};

mod files;
pub mod laws;
mod sink;
#[cfg(test)]
mod tests;

use crate::files::PageInputs;
use crate::sink::PageSink;
use csp_desk::{Lines, Reporter, Tally};
use csp_model::{Bytes, List, Memory, Text};
use csp_run::{exit_code, run};
use std::alloc::Global;

// The code where the answer is longer than what it is written to.
const WRITE_FAULT: u32 = 9;

// The code where there is no memory for what the page gives.
const NO_MEMORY: u32 = 10;

// The code where a word or the name of a file isn't UTF-8.
const BAD_WORDS: u32 = 14;

// The room of the sink beyond that of `out`: one byte more than the line `no memory` has. So what fills the
// sink is longer than `out`, and it isn't that line.
const SPARE: usize = 11;

/// A word.
#[repr(C)]
pub struct Argument<'a> {
    pub text: &'a [u8],
}

/// A file.
#[repr(C)]
pub struct File<'a> {
    pub name: &'a [u8],
    pub bytes: &'a [u8],
}

/// Does what the words say over these files, as the program does, and answers its exit code.
///
/// The output goes to the front of `out`, and `written` says how many bytes it has. Where it is longer than
/// `out`, the code is 9, and `out` has as much of it as fits. Of two files of one name the first counts. A
/// code is a whole word, as hosts read no less.
#[unsafe(no_mangle)]
pub extern "C" fn csp_page(
    alloc: Global,
    words: &[Argument<'_>],
    files: &[File<'_>],
    out: &mut [u8],
    written: &mut usize,
) -> u32
    // Every code but three comes with the answer to these very words and bytes. 10 says that memory ran out.
    ensures answer { result ≢ 9 → result ≢ 10 → result ≢ 14
        → IsPageAnswer (map word_of words.now) (contents_of (map file_of files.now)) result
        (take written.new out.new) }

    // 9: the answer to them is longer than `out`, which its front fills.
    ensures too_long { result ≡ 9
        → IsCutAnswer (map word_of words.now) (contents_of (map file_of files.now)) (length out.new)
        (take written.new out.new) }

    // 11: never, since neither reporter refuses a violation.
    ensures never_refused { result ≢ 11 }

    // 14: a word or the name of a file isn't UTF-8. Unless memory runs out, each such call gets it.
    ensures bad_words { result ≡ 14 → HasBad (map word_of words.now) ⊎ HasBad (map name_of files.now) }
    ensures each_bad_word { HasBad (map word_of words.now) ⊎ HasBad (map name_of files.now)
        → (result ≡ 14) ⊎ (result ≡ 10) }
    ensures within { written.new ≤ length out.new }
{
    *written = 0;
    let room = out.len() + SPARE;
    match answer_words(alloc, words, files, room) {
        Err(Unfit::Memory) => NO_MEMORY,
        Err(Unfit::Text) => BAD_WORDS,
        Ok((code, text)) => {
            let text = text.as_slice();
            let code = u32::from(code);
            *written = fill(out, text);
            if code == NO_MEMORY {
                return NO_MEMORY;
            }
            if text.len() > out.len() {
                return WRITE_FAULT;
            }
            code
        }
    }
}

// Writes the front of a text, as much as fits, and answers how many bytes that is.
fn fill(out: &mut [u8], text: &[u8]) -> usize
    ensures count { result ≡ min (length out.new) (length text.now) }
    ensures front { take result out.new ≡ take (length out.new) text.now }
{
    let front = out.len().min(text.len());
    out[..front].copy_from_slice(&text[..front]);
    front
}

// Why what the page gives can't be taken over.
enum Unfit {
    Memory,
    Text,
}

impl From<Memory> for Unfit {
    ghost use Rattle.csp_page.specs.declared.Unfit.TheVariants as unfit;

    ghost from_gives = { λ _ made. made ≡ unfit.Memory };

    fn from(_: Memory) -> Unfit {
        Unfit::Memory
    }
}

// The exit code, and the output, or its front where that fills a sink of this room.
fn answer_words(
    alloc: Global,
    words: &[Argument<'_>],
    files: &[File<'_>],
    room: usize,
) -> Result<(u8, Bytes), Unfit>
    ensures given { IfOk result
        (λ got. IsGiven (map word_of words.now) (contents_of (map file_of files.now)) room got.0 got.1) }
    ensures bad { IsErrOf result Unfit.Text
        → HasBad (map word_of words.now) ⊎ HasBad (map name_of files.now) }
    ensures good_words { OnOk result (HasBad (map word_of words.now) → ⊥) }
    ensures good_names { OnOk result (HasBad (map name_of files.now) → ⊥) }
{
    let words = words_of(alloc, words)?;
    let mut inputs = inputs_of(alloc, files)?;
    Ok(run_words(alloc, &words, &mut inputs, room)?)
}

// The same with one reporter of lines and one of counts.
fn run_words(
    alloc: Global,
    words: &List<Text>,
    inputs: &mut PageInputs,
    room: usize,
) -> Result<(u8, Bytes), Memory>
    ensures { IfOk result (λ got. IsGiven words.now (page_contents inputs.old) room got.0 got.1) }
{
    let mut desk: Vec<Box<dyn Reporter>> = Vec::new(alloc);
    desk.push(Box::new(alloc, Lines::new(alloc))?)?;
    desk.push(Box::new(alloc, Tally::new(alloc))?)?;
    let mut sink = PageSink::new(alloc, room)?;
    let status = run(alloc, words, inputs, &mut sink, &mut desk);
    Ok((exit_code(status), Bytes::new(alloc, sink.bytes())?))
}

fn text_of(alloc: Global, bytes: &[u8]) -> Result<Text, Unfit>
    ensures text { IfOk result (λ text. text ≡ bytes.now) }
    ensures bad { IsErrOf result Unfit.Text → ¬ (IsUtf8 bytes.now) }
    ensures good { OnOk result (IsUtf8 bytes.now) }
{
    match str::from_utf8(bytes) {
        Ok(text) => Ok(Text::new(alloc, text)?),
        Err(_) => Err(Unfit::Text),
    }
}

fn words_of(alloc: Global, words: &[Argument<'_>]) -> Result<List<Text>, Unfit>
    ensures made { IfOk result (λ made. made ≡ map word_of words.now) }
    ensures bad { IsErrOf result Unfit.Text → HasBad (map word_of words.now) }
    ensures good { OnOk result (HasBad (map word_of words.now) → ⊥) }
{
    let mut made = List::new(alloc);
    for word in words {
        made.push(text_of(alloc, word.text)?)?;
    }
    Ok(made)
}

fn files_of(alloc: Global, files: &[File<'_>]) -> Result<List<(Text, Bytes)>, Unfit>
    ensures made { IfOk result (λ made. made ≡ map file_of files.now) }
    ensures bad { IsErrOf result Unfit.Text → HasBad (map name_of files.now) }
    ensures good { OnOk result (HasBad (map name_of files.now) → ⊥) }
{
    let mut made = List::new(alloc);
    for file in files {
        made.push((text_of(alloc, file.name)?, Bytes::new(alloc, file.bytes)?))?;
    }
    Ok(made)
}

fn inputs_of(alloc: Global, files: &[File<'_>]) -> Result<PageInputs, Unfit>
    ensures contents { IfOk result (λ inputs. (n : Items ℕ)
        → page_contents inputs n ≡ contents_of (map file_of files.now) n) }
    ensures bad { IsErrOf result Unfit.Text → HasBad (map name_of files.now) }
    ensures good { OnOk result (HasBad (map name_of files.now) → ⊥) }
{
    Ok(PageInputs::new(alloc, files_of(alloc, files)?))
}
