//! Digits in groups of three.
ghost use Rattle.std.specs.Prelude.{◌++◌, string_bytes};
ghost use Rattle.std.specs.Str.{IsAscii};
ghost use Rattle.liquid_model.specs.Answer.{IsValueOrMemory};
ghost use Rattle.liquid_decimals.specs.Written.{digit_groups, separator_at};

use liquid_model::Result;

/// Appends digits with a separator between groups of three, counted from the last.
pub fn push_grouped(out: &mut String, digits: &str, separator: &str) -> Result<()>
    requires { IsAscii digits.now }
    ensures { IsValueOrMemory (λ _. string_bytes out.new) result
        (string_bytes out.old ++ digit_groups separator.now digits.now) }
{
    let bytes = digits.as_bytes();
    for (place, digit) in bytes.iter().enumerate() {
        out.push(char::from(*digit))?;
        push_separator(out, bytes.len() - place - 1, separator)?;
    }
    Ok(())
}

/// Appends the separator where a group of three digits begins: where `left` digits follow, and
/// `left` is a multiple of three but not 0.
fn push_separator(out: &mut String, left: usize, separator: &str) -> Result<()>
    ensures { IsValueOrMemory (λ _. string_bytes out.new) result
        (string_bytes out.old ++ separator_at separator.now left) }
{
    if left > 0 && left % 3 == 0 {
        return Ok(out.push_str(separator)?);
    }
    Ok(())
}
