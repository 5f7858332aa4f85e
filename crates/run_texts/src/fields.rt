ghost use Rattle.std.specs.Prelude.{◌≡◌, ◌≤◌, length};
ghost use Rattle.std.specs.List.{prefix_len, position_or_len};
ghost use Rattle.std.specs.Iterator.{YieldsFirstRef, item_count};
ghost use Rattle.run_texts.specs.Text.{is_blank, fields, is_comment, is_statement};

use std::marker::Model;

/// The fields of a line that are left to read.
#[derive(Drop)]
pub struct Fields<'a> {
    rest: &'a [u8],
}

impl<'a> Model for Fields<'a> {
    ghost use Rattle.std.specs.Prelude.{ℕ, List};
    ghost use Rattle.run_texts.specs.Text.{fields};

    ghost Value = { List (List ℕ) };

    ghost view = { λ s. fields s.rest.now };
}

fn is_blank(byte: u8) -> bool
    ensures { result ≡ is_blank byte }
{
    byte == b' ' || byte == b'\t'
}

/// How many blanks stand at the front.
fn blanks(bytes: &[u8]) -> usize
    ensures count { result ≡ prefix_len is_blank bytes.now }
    ensures within { result ≤ length bytes.now }
{
    bytes.iter().take_while(|byte| is_blank(**byte)).count()
}

/// How many bytes stand before the first blank.
fn field_length(bytes: &[u8]) -> usize
    ensures count { result ≡ position_or_len is_blank bytes.now }
    ensures within { result ≤ length bytes.now }
{
    bytes.iter().take_while(|byte| !is_blank(**byte)).count()
}

impl<'a> Fields<'a> {
    /// All fields of a line.
    pub fn new(line: &'a [u8]) -> Self
        ensures { result ≡ fields line.now }
    {
        Fields { rest: line }
    }
}

impl<'a> Iterator for Fields<'a> {
    type Item = &'a [u8];

    ghost next_gives = { YieldsFirstRef (λ left. left) };

    ghost remaining = { item_count (λ left. left) };

    fn next(&mut self) -> Option<&'a [u8]> {
        let (_, begun) = self.rest.split_at(blanks(self.rest));
        if begun.is_empty() {
            return None;
        }
        let (field, rest) = begun.split_at(field_length(begun));
        self.rest = rest;
        Some(field)
    }
}

/// Whether a line that begins with this field is a comment.
pub fn is_comment(first: &[u8]) -> bool
    ensures { result ≡ is_comment first.now }
{
    first.starts_with(b"#")
}

/// Whether a line is neither empty nor a comment.
pub fn is_statement(line: &[u8]) -> bool
    ensures { result ≡ is_statement (fields line.now) }
{
    match Fields::new(line).next() {
        Some(first) => !is_comment(first),
        None => false,
    }
}
