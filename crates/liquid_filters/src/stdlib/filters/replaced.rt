//! Characters of a text that give way to texts.
ghost use Rattle.std.specs.Prelude.{◌++◌, string_bytes};
ghost use Rattle.std.specs.List.{flat_map};
ghost use Rattle.liquid_model.specs.Answer.{IsValueOrMemory};
ghost use Rattle.liquid_filters.specs.inside.Replaced.{AreAscii, replaced_by};

use liquid_model::Result;

/// Appends the text, with its own text in the place of each of these characters. One character
/// after another is looked for, each in what stands between those before it, so what stays is
/// copied in runs.
pub fn push_replaced(out: &mut String, text: &str, replacements: &[(char, &str)]) -> Result<()>
    requires ascii { AreAscii replacements.now }
    ensures { IsValueOrMemory (λ _. string_bytes out.new) result (string_bytes out.old ++
        flat_map (replaced_by replacements.now) text.now) }
{
    let Some(((wanted, instead), others)) = replacements.split_first() else {
        return Ok(out.push_str(text)?);
    };
    let mut rest = text;
    while let Some((before, after)) = rest.split_once(*wanted) {
        push_replaced(out, before, others)?;
        out.push_str(instead)?;
        rest = after;
    }
    push_replaced(out, rest, others)
}
