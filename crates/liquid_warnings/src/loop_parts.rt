//! Parts that the object of a loop hasn't.
ghost use Rattle.std.specs.Prelude.{◌≡◌, IfOk, option_map, string_bytes};
ghost use Rattle.liquid_core.specs.ExpressionView.{expression_view, steps_view};
ghost use Rattle.liquid_warnings.specs.LoopParts.{first_step, has_part, is_any_part, is_for_part};
ghost use Rattle.liquid_warnings.specs.LoopParts.{is_table_part, lacking_part, own_parts};
ghost use Rattle.liquid_warnings.specs.LoopParts.{part_lacked, part_message};

use crate::literals::literal_text;
use liquid_core::{Expression, Quoted};
use std::alloc::{AllocError, Global};

/// The object of a loop that is asked for a part which it hasn't, and the part.
pub(crate) fn lacking_part(expression: &Expression) -> Option<(&str, &str)>
    ensures { option_map (λ p. (p.0.now, p.1.now)) result
        ≡ lacking_part (expression_view expression.now) }
{
    match expression {
        Expression::Literal(_) => None,
        Expression::Variable(variable) => {
            part_lacked(variable.name.as_str(), first_step(&variable.indexes))
        }
    }
}

fn part_lacked<'t>(object: &'t str, part: Option<&'t str>) -> Option<(&'t str, &'t str)>
    ensures { option_map (λ p. (p.0.now, p.1.now)) result
        ≡ part_lacked object.now (option_map (λ p. p.now) part.entry) }
{
    match part {
        Some(part) if !has_part(object, part) => Some((object, part)),
        _ => None,
    }
}

/// The text that the first of these steps is.
fn first_step(steps: &[Expression]) -> Option<&str>
    ensures { option_map (λ p. p.now) result ≡ first_step (steps_view steps.now) }
{
    match steps {
        [first, ..] => literal_text(first),
        [] => None,
    }
}

fn has_part(object: &str, part: &str) -> bool
    ensures { result ≡ has_part object.now part.now }
{
    match object {
        "forloop" => is_for_part(part),
        "tablerow" => is_table_part(part),
        _ => true,
    }
}

fn is_for_part(part: &str) -> bool
    ensures { result ≡ is_for_part part.now }
{
    is_any_part(part) || part == "parentloop"
}

fn is_table_part(part: &str) -> bool
    ensures { result ≡ is_table_part part.now }
{
    is_any_part(part) || matches!(part, "col" | "col0" | "col_first" | "col_last")
}

fn is_any_part(part: &str) -> bool
    ensures { result ≡ is_any_part part.now }
{
    matches!(
        part,
        "first" | "index" | "index0" | "last" | "length" | "rindex" | "rindex0" | "size"
    )
}

/// What is said of a part that an object hasn't.
pub(crate) fn part_message(alloc: Global, object: &str, part: &str) -> Result<String, AllocError>
    ensures { IfOk result (λ message. string_bytes message ≡ part_message object.now part.now) }
{
    let own = own_parts(object);
    let object = Quoted { text: object };
    let part = Quoted { text: part };
    format!(in alloc;
        "`{object}` has no `{part}`; it has {own}, `first`, `index`, `index0`, `last`, `length`, \
        `rindex` and `rindex0`"
    )
}

fn own_parts(object: &str) -> &'static str
    ensures { result.now ≡ own_parts object.now }
{
    if object == "tablerow" {
        "`col`, `col0`, `col_first`, `col_last`"
    } else {
        "`parentloop`"
    }
}
