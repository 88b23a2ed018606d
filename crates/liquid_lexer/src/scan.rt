//! How many bytes stand before an opener, and how much whitespace at the end of a text.
ghost use Rattle.std.specs.Prelude.{◌≡◌, ◌≤◌, length, []};
ghost use Rattle.std.specs.List.{suffix_len};
ghost use Rattle.liquid_model.specs.Bytes.{is_white, plain};
ghost use Rattle.liquid_model.specs.Front.{run_len};
ghost use Rattle.liquid_lexer.specs.Values.{dotted};

use liquid_model::is_white;

#[tactic(auto, unfolding(liquid_model::specs::Bytes::plain))]
fn is_plain(byte: u8, after: &[u8]) -> bool
    ensures { result ≡ plain byte after.now }
{
    !(byte == b'{' && matches!(after, [b'{' | b'%', ..]))
}

/// How many bytes of whitespace stand at the end.
pub fn white_end(bytes: &[u8]) -> usize
    ensures value { result ≡ suffix_len (λ b. is_white b []) bytes.now }
    ensures within { result ≤ length bytes.now }
{
    bytes.iter().rev().take_while(|b| is_white(**b)).count()
}

/// How many bytes stand before the leftmost opener, or before the end where there is none. What
/// isn't a `{` is passed without a look at what follows it.
#[tactic(auto, unfolding(liquid_model::specs::Bytes::plain))]
pub fn plain_len(bytes: &[u8]) -> usize
    ensures { result ≡ run_len plain bytes.now }
{
    let mut n = 0;
    while n < bytes.len() && (bytes[n] != b'{' || is_plain(bytes[n], &bytes[n + 1..])) {
        n += 1;
    }
    n
}

/// Whether a `.` or a `[` stands at the front.
pub fn is_dotted(bytes: &[u8]) -> bool
    ensures { result ≡ dotted bytes.now }
{
    matches!(bytes, [b'.' | b'[', ..])
}
