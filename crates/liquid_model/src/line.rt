//! Texts that are one short line, as messages are.
ghost use Rattle.std.specs.Prelude.{◌≡◌, ◌≤◌, IsTrue, length, string_bytes, take, true};
ghost use Rattle.liquid_model.specs.Quotes.{is_line, is_line_byte};

/// The text, where it is a line of at most `most` bytes; else its beginning up to the first
/// control character, or to the last character that ends within `most` bytes. It takes no memory.
pub fn line_of(most: usize, text: String) -> String
    ensures line { is_line most (string_bytes result) ≡ true }
    ensures same { IsTrue (is_line most (string_bytes text)) → result ≡ text }
{
    let end = line_end(most, text.as_str());
    if end == text.len() {
        return text;
    }
    let mut line = text;
    let end = line.as_str().floor_char_boundary(end);
    line.truncate(end);
    line
}

/// Where the line ends that a text begins with: before the first control character, after `most`
/// bytes, or with the text, whichever comes first.
fn line_end(most: usize, text: &str) -> usize
    ensures within { result ≤ length text.now }
    ensures line { is_line most (take result text.now) ≡ true }
    ensures whole { IsTrue (is_line most text.now) → result ≡ length text.now }
{
    let bytes = text.as_bytes();
    let mut end = 0;
    while end < bytes.len() && end < most && is_line_byte(bytes[end]) {
        end += 1;
    }
    end
}

/// Whether a byte is no control character.
fn is_line_byte(byte: u8) -> bool
    ensures { result ≡ is_line_byte byte }
{
    byte >= 32 && byte != 127
}
