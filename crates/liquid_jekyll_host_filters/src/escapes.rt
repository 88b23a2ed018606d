//! Marked bytes of a text, as XML has them in the value of an attribute, and the escapes that stand
//! for them.
ghost use Rattle.std.specs.Prelude.{◌≡◌, ◌<◌, ◌≤◌, ◌∷◌, ◌++◌, All, IfNone, IfSome, false, length};
ghost use Rattle.std.specs.Prelude.{slice_index, string_bytes, take, true};
ghost use Rattle.liquid_model.specs.Answer.{IsValueOrMemory};
ghost use Rattle.liquid_jekyll_host_filters.specs.Escapes.{mark_escape, escaped, is_marked};

use liquid_model::Result;

/// Appends the text, with its escape in the place of each marked byte. Where there is no memory, a
/// beginning of it may stand there.
pub(crate) fn push_escaped(out: &mut String, text: &str) -> Result<()>
    ensures { IsValueOrMemory (λ _. string_bytes out.new) result (string_bytes out.old ++
        escaped text.now) }
{
    let mut rest = text;
    while let Some((plain, mark, after)) = split_at_mark(rest) {
        out.push_str(plain)?;
        out.push_str(escape_of(mark))?;
        rest = after;
    }
    out.push_str(rest)?;
    Ok(())
}

/// The text before the first marked byte, that byte, and the text after it.
fn split_at_mark(text: &str) -> Option<(&str, u8, &str)>
    ensures none { IfNone result (All (λ b. is_marked b ≡ false) text.now) }
    ensures splits { IfSome result (λ p. text.now ≡ p.0.now ++ (p.1 ∷ p.2.now)) }
    ensures plain { IfSome result (λ p. All (λ b. is_marked b ≡ false) p.0.now) }
    ensures mark { IfSome result (λ p. is_marked p.1 ≡ true) }
{
    let bytes = text.as_bytes();
    let at = plain_len(bytes);
    if at == bytes.len() {
        return None;
    }
    let (plain, marked) = text.split_at(at);
    let (_, after) = marked.split_at(1);
    Some((plain, bytes[at], after))
}

/// How many bytes stand before the first marked one.
fn plain_len(bytes: &[u8]) -> usize
    ensures within { result ≤ length bytes.now }
    ensures plain { All (λ b. is_marked b ≡ false) (take result bytes.now) }
    ensures mark { result < length bytes.now → is_marked (slice_index bytes.now result) ≡ true }
{
    for i in 0..bytes.len() {
        if is_marked(bytes[i]) {
            return i;
        }
    }
    bytes.len()
}

#[inline(always)]
fn is_marked(byte: u8) -> bool
    ensures { result ≡ is_marked byte }
{
    byte == b'"' || byte == b'&' || byte == b'\'' || byte == b'<' || byte == b'>'
}

/// The escape of a marked byte.
fn escape_of(mark: u8) -> &'static str
    ensures { result.now ≡ mark_escape mark }
{
    match mark {
        b'"' => "&quot;",
        b'&' => "&amp;",
        b'\'' => "&apos;",
        b'<' => "&lt;",
        _ => "&gt;",
    }
}
