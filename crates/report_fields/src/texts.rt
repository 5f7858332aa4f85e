ghost use Rattle.std.specs.Prelude.{◌≡◌, ◌∷◌, ◌≤◌, [], length, MatchOption, ℕ, List};
ghost use Rattle.std.specs.Option.{option_map};
ghost use Rattle.report_fields.specs.Reading.{without, word_at};

/// The first byte, and the bytes after it.
pub fn next(bytes: &[u8]) -> Option<(u8, &[u8])>
    ensures { MatchOption result (bytes.now ≡ []) (λ x. bytes.now ≡ x.0 ∷ x.1.now) }
{
    match bytes.split_first() {
        Some((first, rest)) => Some((*first, rest)),
        None => None,
    }
}

/// The bytes after a text that they have to begin with.
pub fn literal<'a>(text: &[u8], bytes: &'a [u8]) -> Option<&'a [u8]>
    ensures rest { option_map (λ rest. rest.now) result ≡ without text.now bytes.now }
{
    let mut wanted = text;
    let mut rest = bytes;
    while let Some((t, more)) = next(wanted) {
        let (b, after) = next(rest)?;
        if t != b {
            return None;
        }
        wanted = more;
        rest = after;
    }
    Some(rest)
}

/// A value that a word of a report means.
pub trait Word: Copy {
    ghost text: { Self → List ℕ };

    /// The word, with the byte that ends it: at most 12 bytes.
    fn text(self) -> &'static [u8]
        ensures text { result.now ≡ text self }
        ensures short { length result.now ≤ 12 };
}

/// The first of these values whose word the bytes begin with, and the bytes after it.
pub fn any_word<'a, W: Word>(words: &[W], bytes: &'a [u8]) -> Option<(W, &'a [u8])>
    ensures word { option_map (λ x. (x.0, x.1.now)) result ≡ word_at W.text words.now bytes.now }
{
    for word in words {
        if let Some(rest) = literal(word.text(), bytes) {
            return Some((*word, rest));
        }
    }
    None
}
