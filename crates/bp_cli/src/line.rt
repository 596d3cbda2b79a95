//! `Line`, a text of one line without control characters.
ghost use Rattle.std.specs.Prelude.{◌≡◌, IfOk, string_bytes, true, map};
ghost use Rattle.bp_cli.specs.Line.{is_line, plain_char};
ghost use Rattle.bp_cli.specs.Line as spec;

use std::alloc::{AllocError, Global};

/// Returns a line without the white space at its start.
fn unindented(line: &str) -> &str
    ensures { result.now ≡ spec.unindented line.now }
{
    line.trim_ascii_start()
}

/// Returns the lines of a text before the first blank one, without the white space at their start.
fn first_lines<'a>(alloc: Global, text: &'a str) -> Result<Vec<&'a str>, AllocError>
    ensures { IfOk result (λ lines. map (λ line. line.now) lines.items
        ≡ spec.first_lines text.entry.now) }
{
    text.lines()
        .map(unindented)
        .take_while(|line| !line.is_empty())
        .collect(alloc)
}

/// Returns the first paragraph of a text as one line.
fn first_paragraph(alloc: Global, text: &str) -> Result<String, AllocError>
    ensures { IfOk result (λ line. string_bytes line ≡ spec.first_paragraph text.now) }
{
    let lines = first_lines(alloc, text)?;
    let line = lines.as_slice().join(alloc, " ")?;
    Ok(line)
}

/// Returns the character, or a question mark for a control character.
fn plain_char(c: char) -> char
    ensures { result ≡ plain_char c }
{
    if c.is_control() { '?' } else { c }
}

/// Replaces each control character of a text with a question mark.
pub(crate) fn plain(alloc: Global, text: &str) -> Result<String, AllocError>
    ensures { IfOk result (λ plain. string_bytes plain ≡ spec.plain text.now) }
{
    text.chars().map(plain_char).collect(alloc)
}

/// A text without a line end or another control character of ASCII.
#[derive(Drop)]
pub struct Line {
    text: String,
    /// No byte of the text is a line end or another control character of ASCII.
    pub ghost unbroken: { is_line (string_bytes text) ≡ true },
}

impl Line {
    /// Returns the first paragraph of a text: its lines before the first blank one, joined by spaces, with a question
    /// mark for each control character.
    pub fn of(alloc: Global, text: &str) -> Result<Line, AllocError>
        ensures { IfOk result (λ line. string_bytes line.text
            ≡ spec.plain (spec.first_paragraph text.now)) }
    {
        let paragraph = first_paragraph(alloc, text)?;
        let text = plain(alloc, paragraph.as_str())?;
        Ok(Line { text })
    }

    /// Returns all of a text, with a question mark for each control character.
    pub fn plain(alloc: Global, text: &str) -> Result<Line, AllocError>
        ensures { IfOk result (λ line. string_bytes line.text ≡ spec.plain text.now) }
    {
        let text = plain(alloc, text)?;
        Ok(Line { text })
    }

    pub fn as_str(&self) -> &str
        ensures { result.now ≡ string_bytes self.now.text }
    {
        self.text.as_str()
    }
}
