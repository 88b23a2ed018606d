//! Bytes of YAML, and what is cut off at the ends of its texts.
ghost use Rattle.std.specs.Prelude.{◌≡◌, ◌≤◌, ◌<◌, ◌-◌, ◌==◌, length, slice_index, true};
ghost use Rattle.std.specs.List.{prefix_len, suffix_len};
ghost use Rattle.liquid_model.specs.Bytes.{is_letter};
ghost use Rattle.liquid_model.specs.Front.{run_len};
ghost use Rattle.liquid_yaml.specs.Blocks.{without_feeds};
ghost use Rattle.liquid_yaml.specs.Bytes as spec;
ghost use Rattle.liquid_yaml.specs.Bytes.{first_part_view};

/// Whether a byte is a letter or `_`.
pub(crate) fn is_letter(byte: u8) -> bool
    ensures { result ≡ is_letter byte }
{
    byte.is_ascii_alphabetic() || byte == b'_'
}

/// Whether a byte is a letter, a digit, `_` or `-`.
pub(crate) fn is_key_byte(byte: u8) -> bool
    ensures { result ≡ spec.is_key_byte byte }
{
    is_letter(byte) || byte.is_ascii_digit() || byte == b'-'
}

fn is_trailing(byte: u8) -> bool
    ensures { result ≡ spec.is_trailing byte }
{
    byte == b' ' || byte == b'\t' || byte == b'\r'
}

/// Whether a text is empty, or begins with a space.
pub(crate) fn is_ended(bytes: &[u8]) -> bool
    ensures { result ≡ spec.is_ended bytes.now }
{
    match bytes {
        [] => true,
        [first, ..] => *first == b' ',
    }
}

fn space_len(bytes: &[u8]) -> usize
    ensures value { result ≡ prefix_len spec.is_space_byte bytes.now }
    ensures within { result ≤ length bytes.now }
{
    let mut n = 0;
    while n < bytes.len() && bytes[n] == b' ' {
        n += 1;
    }
    n
}

/// How many spaces stand at the front.
pub(crate) fn spaces_in(text: &str) -> usize
    ensures { result ≡ spec.spaces_in text.now }
{
    space_len(text.as_bytes())
}

/// The text without the spaces at its front.
#[tactic(auto, using(crate::proofs::Cuts::space_cut))]
pub(crate) fn without_spaces(text: &str) -> &str
    ensures { result.now ≡ spec.without_spaces text.now }
{
    &text[space_len(text.as_bytes())..]
}

/// How many bytes are left of a text without spaces, tabs and carriage returns at its end.
fn trimmed_len(bytes: &[u8]) -> usize
    ensures value { result ≡ length bytes.now - suffix_len spec.is_trailing bytes.now }
    ensures within { result ≤ length bytes.now }
    ensures ends { result < length bytes.now →
        spec.is_trailing (slice_index bytes.now result) ≡ true }
{
    let mut n = bytes.len();
    while n > 0 && is_trailing(bytes[n - 1]) {
        n -= 1;
    }
    n
}

/// The text without spaces, tabs and carriage returns at its end.
#[tactic(auto, using(crate::proofs::Cuts::trimmed_cut))]
pub(crate) fn trimmed(text: &str) -> &str
    ensures { result.now ≡ spec.end_trimmed text.now }
{
    &text[..trimmed_len(text.as_bytes())]
}

/// The part of a text before the first of these signs, and what follows that, where it is there.
pub(crate) fn first_part(text: &str, sign: char) -> (&str, Option<&str>)
    requires { sign < 128 }
    ensures { first_part_view result ≡ spec.first_part sign text.now }
{
    match text.split_once(sign) {
        Some((part, rest)) => (part, Some(rest)),
        None => (text, None),
    }
}

/// Whether a text ends with a carriage return.
pub(crate) fn ends_with_return(text: &str) -> bool
    ensures { result ≡ spec.ends_with_return text.now }
{
    matches!(text.as_bytes().last(), Some(b'\r'))
}

/// A line without the carriage return at its end.
#[tactic(auto, using(crate::proofs::Cuts::last_cut))]
pub(crate) fn without_return(line: &str) -> &str
    ensures { result.now ≡ spec.without_return line.now }
{
    match line.as_bytes().last() {
        Some(b'\r') => &line[..line.len() - 1],
        _ => line,
    }
}

fn is_clean_character(c: char) -> bool
    ensures { result ≡ spec.is_clean_character c }
{
    c >= ' '
        && !(c >= '\u{7f}' && c <= '\u{9f}')
        && !matches!(
            c,
            '\u{2028}' | '\u{2029}' | '\u{feff}' | '\u{fffe}' | '\u{ffff}'
        )
}

/// Whether no character of a line is a control, or one that YAML reads as an end of a line.
pub(crate) fn is_clean(line: &str) -> bool
    ensures { result ≡ spec.is_clean line.now }
{
    line.chars().all(|c| is_clean_character(c))
}

/// How many bytes are left of a text without line feeds at its end.
fn fed_len(bytes: &[u8]) -> usize
    ensures value { result ≡ length bytes.now - suffix_len (λ b. b == 10) bytes.now }
    ensures within { result ≤ length bytes.now }
    ensures ends { result < length bytes.now → (slice_index bytes.now result == 10) ≡ true }
{
    let mut n = bytes.len();
    while n > 0 && bytes[n - 1] == b'\n' {
        n -= 1;
    }
    n
}

/// The text without line feeds at its end.
#[tactic(auto, using(crate::proofs::Cuts::fed_cut))]
pub(crate) fn without_feeds(text: &str) -> &str
    ensures { result.now ≡ without_feeds text.now }
{
    &text[..fed_len(text.as_bytes())]
}

pub(crate) fn begins_with_byte(byte: u8, bytes: &[u8]) -> bool
    ensures { result ≡ spec.begins_with_byte byte bytes.now }
{
    match bytes {
        [] => false,
        [first, ..] => *first == byte,
    }
}

fn begins_comment(bytes: &[u8]) -> bool
    ensures { result ≡ spec.begins_comment bytes.now }
{
    match bytes {
        [] => true,
        [first, ..] => *first == b'#',
    }
}

/// Whether nothing is left, or, where a comment may follow, spaces and a comment.
pub(crate) fn is_rest(may_note: bool, bytes: &[u8]) -> bool
    ensures { result ≡ spec.is_rest may_note bytes.now }
{
    match bytes {
        [] => true,
        [b' ', after @ ..] => may_note && begins_comment(&after[space_len(after)..]),
        _ => false,
    }
}

/// Whether a plain text goes on over a byte: no colon that ends a word, and no space before `#`.
fn in_plain(byte: u8, after: &[u8]) -> bool
    ensures { result ≡ spec.in_plain byte after.now }
{
    !(byte == b':' && is_ended(after)) && !(byte == b' ' && begins_comment(after))
}

/// How many bytes of a plain text stand at the front.
pub(crate) fn plain_len(bytes: &[u8]) -> usize
    ensures value { result ≡ run_len spec.in_plain bytes.now }
    ensures within { result ≤ length bytes.now }
    ensures ends { result < length bytes.now → slice_index bytes.now result < 128 }
{
    let mut n = 0;
    while n < bytes.len() && in_plain(bytes[n], &bytes[n + 1..]) {
        n += 1;
    }
    n
}
