//! How many bytes of a kind stand at the front.
ghost use Rattle.std.specs.Prelude.{◌≡◌};
ghost use Rattle.std.specs.List.{prefix_len};
ghost use Rattle.acc_lex.specs.ByteKinds.{is_space, is_plain, is_digit, is_leading, is_inner};
ghost use Rattle.acc_lex.specs.Readings.{is_mark};

/// Whether a byte may stand in a comment: a space, or a visible sign of ASCII.
pub fn is_plain(b: u8) -> bool
    ensures { result ≡ is_plain b }
{
    (b' '..=b'~').contains(&b)
}

/// Whether a byte may stand in a word behind its first letter.
pub fn is_inner(b: u8) -> bool
    ensures { result ≡ is_inner b }
{
    b.is_ascii_alphabetic() || b.is_ascii_digit() || b == b'_'
}

/// Whether a number other than 0 may begin with a byte.
pub fn is_leading(b: u8) -> bool
    ensures { result ≡ is_leading b }
{
    matches!(b, b'1'..=b'9')
}

/// Whether a byte is a mark with which no other mark begins.
pub fn is_mark(b: u8) -> bool
    ensures { result ≡ is_mark b }
{
    matches!(b, b'[' | b']' | b',' | b'.' | b':' | b'+' | b'-' | b'*')
}

/// How many spaces stand at the front.
pub fn spaces_len(bytes: &[u8]) -> usize
    ensures { result ≡ prefix_len is_space bytes.now }
{
    bytes.iter().take_while(|b| **b == b' ').count()
}

/// How many bytes of a comment stand at the front.
pub fn plain_len(bytes: &[u8]) -> usize
    ensures { result ≡ prefix_len is_plain bytes.now }
{
    bytes.iter().take_while(|b| is_plain(**b)).count()
}

/// How many digits stand at the front.
pub fn digits_len(bytes: &[u8]) -> usize
    ensures { result ≡ prefix_len is_digit bytes.now }
{
    bytes.iter().take_while(|b| b.is_ascii_digit()).count()
}

/// How many letters, digits and `_` stand at the front.
pub fn inner_len(bytes: &[u8]) -> usize
    ensures { result ≡ prefix_len is_inner bytes.now }
{
    bytes.iter().take_while(|b| is_inner(**b)).count()
}
