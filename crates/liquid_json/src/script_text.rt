//! Values as texts of JSON that can stand in a `<script>`.
ghost use Rattle.std.specs.Prelude.{◌≡◌, ◌<◌, ◌≤◌, ◌∷◌, ◌++◌, All, IfNone, IfOk, IfSome, false};
ghost use Rattle.std.specs.Prelude.{length, slice_index, string_bytes, take, true};
ghost use Rattle.liquid_model.specs.Answer.{IsValueOrMemory};
ghost use Rattle.liquid_model.specs.View.{view};
ghost use Rattle.liquid_json.specs.ScriptTexts.{HasNoMarks, for_script, is_script_mark};
ghost use Rattle.liquid_json.specs.ScriptTexts.{script_escape, script_json};

use crate::json_text::json_of;
use liquid_model::{Result, Value};
use std::alloc::Global;

/// The value as JSON, as by `json_of`, with `\u003c`, `\u003e` and `\u0026` for `<`, `>` and `&`:
/// the same value, and a text that ends no `<script>` in which it stands. `Memory` where there is
/// no room for it, and no other kind.
pub fn json_for_scripts(alloc: Global, value: &Value) -> Result<String>
    ensures text { IsValueOrMemory (λ s. string_bytes s) result (script_json (view value.now)) }
    ensures marks { IfOk result (λ s. HasNoMarks (string_bytes s)) }
{
    let text = json_of(alloc, value)?;
    if split_at_mark(text.as_str()).is_none() {
        return Ok(text);
    }
    escaped(alloc, text.as_str())
}

/// The text with an escape in the place of each mark.
fn escaped(alloc: Global, text: &str) -> Result<String>
    ensures { IsValueOrMemory (λ s. string_bytes s) result (for_script text.now) }
{
    let mut out = String::with_capacity(alloc, text.len())?;
    let mut rest = text;
    while let Some((plain, mark, after)) = split_at_mark(rest) {
        out.push_str(plain)?;
        out.push_str(escape_of(mark))?;
        rest = after;
    }
    out.push_str(rest)?;
    Ok(out)
}

/// The text before the first mark, that byte, and the text after it.
fn split_at_mark(text: &str) -> Option<(&str, u8, &str)>
    ensures none { IfNone result (All (λ b. is_script_mark b ≡ false) text.now) }
    ensures splits { IfSome result (λ p. text.now ≡ p.0.now ++ (p.1 ∷ p.2.now)) }
    ensures plain { IfSome result (λ p. All (λ b. is_script_mark b ≡ false) p.0.now) }
    ensures mark { IfSome result (λ p. is_script_mark p.1 ≡ true) }
{
    let bytes = text.as_bytes();
    let at = plain_len(bytes);
    if at == bytes.len() {
        return None;
    }
    let (plain, marked) = text.split_at(at);
    let (_, after) = marked.split_at(1);
    Some((plain, bytes[at], after))
}

/// How many bytes stand before the first mark.
fn plain_len(bytes: &[u8]) -> usize
    ensures within { result ≤ length bytes.now }
    ensures plain { All (λ b. is_script_mark b ≡ false) (take result bytes.now) }
    ensures mark { result < length bytes.now → is_script_mark (slice_index bytes.now result)
        ≡ true }
{
    for i in 0..bytes.len() {
        if is_script_mark(bytes[i]) {
            return i;
        }
    }
    bytes.len()
}

#[inline(always)]
fn is_script_mark(byte: u8) -> bool
    ensures { result ≡ is_script_mark byte }
{
    byte == b'<' || byte == b'>' || byte == b'&'
}

/// The escape of a mark.
fn escape_of(mark: u8) -> &'static str
    ensures { result.now ≡ script_escape mark }
{
    match mark {
        b'<' => "\\u003c",
        b'>' => "\\u003e",
        _ => "\\u0026",
    }
}
