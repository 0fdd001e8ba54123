//! The lines of a header block (RFC 9110, sections 5.1, 5.5 and 5.6.2).
ghost use Rattle.std.specs.Prelude.{◌≡◌, ◌==◌, ◌<◌, ◌≤◌, ◌&&◌, if◌then◌else◌, true, length, IfSome, position};
ghost use Rattle.std.specs.List.{list_all, prefix_len};
ghost use Rattle.std.specs.Str.Lines.{strip_carriage_return};
ghost use Rattle.csp_model.specs.Ascii.{code};
ghost use Rattle.csp_model.specs.Policies as spec;
ghost use Rattle.csp_policy.specs.Lines.{line_said};

use http_header::is_token_char;

// What a line of a header block says.
#[derive(Clone, Copy, Debug)]
pub(crate) enum HeaderLine<'a> {
    Skipped,
    Bad,
    Header { name: &'a [u8], value: &'a [u8] },
}

#[tactic(auto, unfolding(csp_model::specs::Policies::is_token_char, http_header::specs::Token::is_token_byte))]
fn is_name_char(b: u8) -> bool
    ensures { result ≡ spec.is_token_char b }
{
    is_token_char(b)
}

// How many bytes of a name the line begins with.
fn name_len(line: &[u8]) -> usize
    ensures value { result ≡ prefix_len spec.is_token_char line.now }
    ensures bound { result ≤ length line.now }
{
    line.iter().take_while(|b| is_name_char(**b)).count()
}

// A tab, or no control. Each byte is looked at, since that takes no branch.
#[tactic(auto, unfolding(csp_model::specs::Policies::is_field_value))]
fn is_field_value(value: &[u8]) -> bool
    ensures { result ≡ spec.is_field_value value.now }
{
    value.iter().fold(
        true,
        |good, b| good & (*b == b'\t' || !b.is_ascii_control()),
    )
}

// The header of this value and of a name that has no byte but those of a name.
#[tactic(auto, unfolding(csp_model::specs::Policies::is_field_name))]
fn header_named<'a>(name: &'a [u8], value: &'a [u8]) -> HeaderLine<'a>
    requires { list_all spec.is_token_char name.now ≡ true }
    ensures { line_said result
        ≡ (if spec.is_field_name name.now && spec.is_field_value value.now
        then spec.Header name.now value.now else spec.Bad) }
{
    if !name.is_empty() && name.len() < 65536 && is_field_value(value) {
        HeaderLine::Header { name, value }
    } else {
        HeaderLine::Bad
    }
}

// What a line that isn't empty says.
fn header(line: &[u8]) -> HeaderLine<'_>
    ensures { line_said result ≡ spec.header_of line.now }
{
    let (name, rest) = line.split_at(name_len(line));
    match rest.split_first() {
        Some((first, value)) if *first == b':' => header_named(name, value),
        _ => HeaderLine::Bad,
    }
}

fn without_carriage_return(line: &[u8]) -> &[u8]
    ensures { result.now ≡ strip_carriage_return line.now }
{
    match line.split_last() {
        Some((b'\r', front)) => front,
        _ => line,
    }
}

#[tactic(auto, unfolding(csp_model::specs::Policies::line_of))]
fn filled_line(line: &[u8]) -> HeaderLine<'_>
    ensures { line_said result ≡ spec.line_of line.now }
{
    if line.is_empty() {
        HeaderLine::Skipped
    } else {
        header(line)
    }
}

// What a line says, where its line feed is taken off.
pub(crate) fn read_line(line: &[u8]) -> HeaderLine<'_>
    ensures { line_said result ≡ spec.line_of (strip_carriage_return line.now) }
{
    filled_line(without_carriage_return(line))
}

fn newline_at(bytes: &[u8]) -> Option<usize>
    ensures value { result ≡ position (λ c. c == code "\n") bytes.now }
    ensures bound { IfSome result (λ at. at < length bytes.now) }
{
    bytes.iter().position(|b| *b == b'\n')
}

// The block with a status line at its front emptied, so that its lines keep their numbers.
pub(crate) fn without_status(bytes: &[u8]) -> &[u8]
    ensures { result.now ≡ spec.without_status bytes.now }
{
    if bytes.starts_with(b"HTTP/") {
        match newline_at(bytes) {
            Some(at) => bytes.split_at(at).1,
            None => &[],
        }
    } else {
        bytes
    }
}
