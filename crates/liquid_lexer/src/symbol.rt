//! Symbols.
ghost use Rattle.std.specs.Prelude.{◌≡◌, ◌≤◌, option_map};
ghost use Rattle.liquid_lexer.specs.ItemReading.{two_bytes, one_byte, long_symbol_at};
ghost use Rattle.liquid_lexer.specs.ItemReading.{short_symbol_at, symbol_at};

use liquid_model::past_byte;

/// A symbol, as it stands between the values of an output or a tag.
#[derive(Clone, Copy, Debug, PartialEq, Eq)]
pub enum Symbol {
    /// `==`
    Equals,
    /// `!=`
    NotEquals,
    /// `<>`
    LessOrGreater,
    /// `<=`
    LessThanEquals,
    /// `>=`
    GreaterThanEquals,
    /// `<`
    LessThan,
    /// `>`
    GreaterThan,
    /// `=`
    Assign,
    /// `:`
    Colon,
    /// `,`
    Comma,
    /// `|`
    Bar,
}

fn two_bytes(text: &str, first: u8, second: u8, symbol: Symbol) -> Option<(Symbol, &str)>
    requires first { first ≤ 127 }
    requires second { second ≤ 127 }
    ensures { option_map (λ x. (x.0, x.1.now)) result ≡ two_bytes first second symbol text.now }
{
    Some((symbol, past_byte(past_byte(text, first)?, second)?))
}

fn one_byte(text: &str, byte: u8, symbol: Symbol) -> Option<(Symbol, &str)>
    requires { byte ≤ 127 }
    ensures { option_map (λ x. (x.0, x.1.now)) result ≡ one_byte byte symbol text.now }
{
    Some((symbol, past_byte(text, byte)?))
}

#[tactic(auto, unfolding(crate::specs::ItemReading::long_symbol_at))]
fn long_symbol(text: &str) -> Option<(Symbol, &str)>
    ensures { option_map (λ x. (x.0, x.1.now)) result ≡ long_symbol_at text.now }
{
    if let Some(found) = two_bytes(text, b'=', b'=', Symbol::Equals) {
        return Some(found);
    }
    if let Some(found) = two_bytes(text, b'!', b'=', Symbol::NotEquals) {
        return Some(found);
    }
    if let Some(found) = two_bytes(text, b'<', b'>', Symbol::LessOrGreater) {
        return Some(found);
    }
    if let Some(found) = two_bytes(text, b'<', b'=', Symbol::LessThanEquals) {
        return Some(found);
    }
    two_bytes(text, b'>', b'=', Symbol::GreaterThanEquals)
}

#[tactic(auto, unfolding(crate::specs::ItemReading::short_symbol_at))]
fn short_symbol(text: &str) -> Option<(Symbol, &str)>
    ensures { option_map (λ x. (x.0, x.1.now)) result ≡ short_symbol_at text.now }
{
    if let Some(found) = one_byte(text, b'<', Symbol::LessThan) {
        return Some(found);
    }
    if let Some(found) = one_byte(text, b'>', Symbol::GreaterThan) {
        return Some(found);
    }
    if let Some(found) = one_byte(text, b'=', Symbol::Assign) {
        return Some(found);
    }
    if let Some(found) = one_byte(text, b':', Symbol::Colon) {
        return Some(found);
    }
    if let Some(found) = one_byte(text, b',', Symbol::Comma) {
        return Some(found);
    }
    one_byte(text, b'|', Symbol::Bar)
}

/// The longest symbol at the front, and what follows it.
pub fn read_symbol(text: &str) -> Option<(Symbol, &str)>
    ensures { option_map (λ x. (x.0, x.1.now)) result ≡ symbol_at text.now }
{
    if let Some(found) = long_symbol(text) {
        return Some(found);
    }
    short_symbol(text)
}
