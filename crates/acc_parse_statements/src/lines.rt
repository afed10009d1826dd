//! The lines of a text.
ghost use Rattle.std.specs.Prelude.{◌≡◌, ◌==◌, ◌∷◌, ◌++◌, MatchOption};
ghost use Rattle.std.specs.List.{position};
ghost use Rattle.acc_parse_statements.specs.Lines.{feeds, first_lines};

/// The first lines of a text with their line feeds, or all of it where it has fewer.
pub fn first_lines(text: &[u8], lines: u64) -> &[u8]
    ensures { result.now ≡ first_lines lines text.now }
{
    let mut left = lines;
    for (i, b) in text.iter().enumerate() {
        if left == 0 {
            return &text[..i];
        }
        if *b == b'\n' {
            left -= 1;
        }
    }
    text
}

/// The place of the first line feed of a text.
fn feed_at(text: &[u8]) -> Option<usize>
    ensures { result ≡ position (λ b. b == 10) text.now }
{
    text.iter().position(|b| *b == b'\n')
}

/// The first line of a text, and what stands behind its line feed, if it has one.
pub fn split_line(text: &[u8]) -> Option<(&[u8], &[u8])>
    ensures { MatchOption result (feeds text.now ≡ 0)
        (λ p. (text.now ≡ p.0.now ++ (10 ∷ p.1.now)) × (feeds p.0.now ≡ 0)) }
{
    match feed_at(text) {
        Some(end) => Some((&text[..end], &text[end + 1..])),
        None => None,
    }
}
