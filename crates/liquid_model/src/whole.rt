//! Whole numbers, and texts that write one.
ghost use Rattle.std.specs.Prelude.{◌≡◌};
ghost use Rattle.liquid_model.specs.Whole.{whole, whole_text};
ghost use Rattle.liquid_model.specs.View.{view};

use crate::value::Value;

impl Value {
    /// The whole number of the value, where it has one: a number itself, and of a text that is an
    /// optional sign and digits, its number where that is within 64 bits. It takes no memory.
    pub fn to_integer(&self) -> Option<i64>
        ensures { result ≡ whole (view self.now) }
    {
        match self {
            Value::Integer(n) => Some(*n),
            Value::Text(text) => whole_of(text.as_str()),
            _ => None,
        }
    }
}

/// The whole number that the text writes: an optional sign and digits, within 64 bits. It takes no
/// memory.
pub fn whole_of(text: &str) -> Option<i64>
    ensures { result ≡ whole_text text.now }
{
    match text.parse::<i64>() {
        Ok(n) => Some(n),
        Err(_) => None,
    }
}
