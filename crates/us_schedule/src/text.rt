ghost use Rattle.std.specs.Prelude.{◌≡◌, ◌≢◌, ◌<◌, ◌≤◌, ◌↔◌, ◌∷◌, [], ℕ, length, slice_index, IsNone, IfNone, IfSome, IfOk, IfErr, OnErr, Some, None, ◌+◌};
ghost use Rattle.std.specs.Iterator.{YieldsFirstRef, item_count};
ghost use Rattle.std.specs.List.{AllByRecursion};
ghost use Rattle.std.specs.Str.Lines.{strip_carriage_return};
ghost use Rattle.us_schedule.specs.Text.{text_lines, IsFirstLine, IsParted, separator, parted_text};
ghost use Rattle.us_schedule.specs.Parts.{parted_of};

use std::marker::Model;

/// The line between the configuration and the lines of a schedule.
const SEPARATOR: &[u8] = b"---";

/// The first line of a text, without its end, and the text behind it: None where the text is empty.
pub fn next_line(text: &[u8]) -> Option<(&[u8], &[u8])>
    ensures none { IsNone result ↔ (text.now ≡ []) }
    ensures lines { IfSome result (λ found. text_lines text.now ≡ found.0.now ∷ text_lines found.1.now) }
    ensures first { IfSome result (λ found. IsFirstLine text.now found.0.now found.1.now) }
    ensures shorter { IfSome result (λ found. length found.1.now < length text.now) }
{
    if text.is_empty() {
        return None;
    }
    let Some(end) = line_feed_in(text) else {
        return Some((text, &text[text.len()..]));
    };
    Some((without_carriage_return(&text[..end]), &text[end + 1..]))
}

/// The lines of a text, one after the other: contracts see the text that is left.
#[derive(Drop)]
pub struct Lines<'a> {
    rest: &'a [u8],
}

impl<'a> Model for Lines<'a> {
    ghost use Rattle.std.specs.Prelude.{List, ℕ};

    ghost Value = { List ℕ };

    ghost view = { λ lines. lines.rest.now };
}

impl<'a> Iterator for Lines<'a> {
    type Item = &'a [u8];

    ghost next_gives = { YieldsFirstRef (λ rest. text_lines rest) };

    ghost remaining = { item_count (λ rest. text_lines rest) };

    fn next(&mut self) -> Option<&'a [u8]> {
        let (line, rest) = next_line(self.rest)?;
        self.rest = rest;
        Some(line)
    }
}

/// The lines of a text, without their ends.
pub fn lines_of(text: &[u8]) -> Lines<'_>
    ensures text { result ≡ text.now }
    ensures few { length (text_lines text.now) ≤ length text.now }
{
    Lines { rest: text }
}

/// A text around its first line `---`.
#[derive(Clone, Copy, Debug, PartialEq, Eq)]
pub struct Parts<'a> {
    /// The lines before it.
    pub before: &'a [u8],
    /// The number of that line, from 1.
    pub line: u64,
    /// The lines behind it.
    pub behind: &'a [u8],
}

/// No line of a text is `---`.
#[derive(Clone, Copy, Debug, PartialEq, Eq)]
pub struct NoSeparator {
    /// The number of the line at which it is missed: the text's lines plus 1.
    pub line: u64,
}

/// The parts of a text around its first line `---`.
///
/// # Errors
///
/// `NoSeparator` exactly where no line is `---`.
pub fn split_text(text: &[u8]) -> Result<Parts<'_>, NoSeparator>
    ensures parted { IfOk result (λ parts. parted_text text.now ≡ Some (parted_of parts)) }
    ensures lines { IfOk result (λ parts. IsParted text.now (parted_of parts)) }
    ensures none { OnErr result (parted_text text.now ≡ None) }
    ensures nowhere { OnErr result (AllByRecursion (λ line. line ≢ separator) (text_lines text.now)) }
    ensures missed { IfErr result (λ missing. missing.line ≡ length (text_lines text.now) + 1) }
{
    let mut line = 1;
    let mut rest = text;
    while let Some((content, behind)) = next_line(rest) {
        if content == SEPARATOR {
            let before = &text[..text.len() - rest.len()];
            return Ok(Parts {
                before,
                line,
                behind,
            });
        }
        line += 1;
        rest = behind;
    }
    Err(NoSeparator { line })
}

fn line_feed_in(text: &[u8]) -> Option<usize>
    ensures within { IfSome result (λ n. n < length text.now) }
    ensures found { IfSome result (λ n. slice_index text.now n ≡ 10) }
    ensures first { IfSome result (λ n. (k : ℕ) → k < n → slice_index text.now k ≢ 10) }
    ensures none { IfNone result ((k : ℕ) → k < length text.now → slice_index text.now k ≢ 10) }
{
    text.iter().position(|byte| *byte == b'\n')
}

fn without_carriage_return(line: &[u8]) -> &[u8]
    ensures { result.now ≡ strip_carriage_return line.now }
{
    match line {
        [front @ .., b'\r'] => front,
        _ => line,
    }
}
