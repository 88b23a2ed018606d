//! How many bytes of a kind stand at the front of a text.
ghost use Rattle.std.specs.Prelude.{◌≡◌, ◌≤◌, length, []};
ghost use Rattle.liquid_model.specs.Bytes.{is_white, is_letter, is_digit, closes, in_word};
ghost use Rattle.liquid_model.specs.Bytes.{not_quote};
ghost use Rattle.liquid_model.specs.Front.{run_len, number_len};
ghost use Rattle.liquid_model.specs.Words.{passes, continues_number};

/// Whether the byte is a space, a tab, a carriage return or a line feed.
pub fn is_white(byte: u8) -> bool
    ensures { result ≡ is_white byte [] }
{
    byte == b' ' || byte == b'\t' || byte == b'\r' || byte == b'\n'
}

/// Whether the byte is a letter or `_`.
pub fn is_letter(byte: u8) -> bool
    ensures { result ≡ is_letter byte }
{
    byte.is_ascii_alphabetic() || byte == b'_'
}

fn closes(bytes: &[u8]) -> bool
    ensures { result ≡ closes bytes.now }
{
    matches!(bytes, [b'%' | b'}', b'}', ..])
}

/// Whether a word goes on over the byte. A `-` directly before a closer isn't taken.
#[tactic(auto, unfolding(crate::specs::Bytes::in_word))]
pub fn in_word(byte: u8, after: &[u8]) -> bool
    ensures { result ≡ in_word byte after.now }
{
    (is_letter(byte) || byte.is_ascii_digit() || byte == b'-') && !(byte == b'-' && closes(after))
}

/// How many bytes of whitespace stand at the front.
pub fn white_len(bytes: &[u8]) -> usize
    ensures { result ≡ run_len is_white bytes.now }
{
    let mut n = 0;
    while n < bytes.len() && is_white(bytes[n]) {
        n += 1;
    }
    n
}

/// How many bytes of a word stand at the front.
pub fn word_len(bytes: &[u8]) -> usize
    ensures { result ≡ run_len in_word bytes.now }
{
    let mut n = 0;
    while n < bytes.len() && in_word(bytes[n], &bytes[n + 1..]) {
        n += 1;
    }
    n
}

/// How many bytes stand before the quote, or before the end where there is none.
pub fn unquoted_len(bytes: &[u8], quote: u8) -> usize
    ensures { result ≡ run_len (not_quote quote) bytes.now }
{
    let mut n = 0;
    while n < bytes.len() && bytes[n] != quote {
        n += 1;
    }
    n
}

fn digit_len(bytes: &[u8]) -> usize
    ensures value { result ≡ run_len is_digit bytes.now }
    ensures within { result ≤ length bytes.now }
{
    let mut n = 0;
    while n < bytes.len() && bytes[n].is_ascii_digit() {
        n += 1;
    }
    n
}

/// How many bytes a number at the front takes: an optional sign and digits. It is 0 where no number
/// stands there.
pub fn number_len(bytes: &[u8]) -> usize
    ensures value { result ≡ number_len bytes.now }
    ensures within { result ≤ length bytes.now }
{
    let sign = match bytes {
        [b'+' | b'-', ..] => 1,
        _ => 0,
    };
    match digit_len(&bytes[sign..]) {
        0 => 0,
        digits => sign + digits,
    }
}

/// Whether a number before these bytes would go on: by a digit, a letter, or a `.` that begins no
/// `..`.
pub fn number_goes_on(bytes: &[u8]) -> bool
    ensures { result ≡ passes continues_number bytes.now }
{
    match bytes {
        [b'.', b'.', ..] => false,
        [b'.', ..] => true,
        [first, ..] => first.is_ascii_digit() || is_letter(*first),
        [] => false,
    }
}
