//! The group of a `cycle`, which is fixed as the template is parsed.
ghost use Rattle.std.specs.Prelude.{◌≡◌, ◌++◌, IfOk, OnOk, Some, codes, map, string_bytes};
ghost use Rattle.liquid_core.specs.ExpressionView.{expression_view};
ghost use Rattle.liquid_core.specs.Written.{written_form};
ghost use Rattle.liquid_evaluation.specs.Groups.{group_of, name_text, values_group};

use liquid_core::Expression;
use std::alloc::{AllocError, Global};
use std::fmt::Write;

/// The group of a `cycle` with a name: the name's text, or where that is empty the values' group.
pub fn named_group(
    alloc: Global,
    name: &Expression,
    values: &[Expression],
) -> Result<String, AllocError>
    ensures { IfOk result (λ group. string_bytes group ≡ group_of (Some (expression_view name.now))
        (map expression_view values.now)) }
{
    let text = name_text(alloc, name)?;
    if text.is_empty() {
        return values_group(alloc, values);
    }
    Ok(text)
}

/// An identifier's word, or a literal's text.
fn name_text(alloc: Global, name: &Expression) -> Result<String, AllocError>
    ensures { IfOk result (λ text. string_bytes text ≡ name_text (expression_view name.now)) }
{
    match name {
        Expression::Literal(value) => value.to_string(alloc),
        Expression::Variable(variable) => String::from_str(alloc, variable.name.as_str()),
    }
}

/// The group of a `cycle` without a name: the values' written forms with `-` between them.
pub fn values_group(alloc: Global, values: &[Expression]) -> Result<String, AllocError>
    ensures { IfOk result (λ group. string_bytes group ≡
        values_group (map expression_view values.now)) }
{
    let mut group = String::new(alloc);
    match values.split_first() {
        None => Ok(group),
        Some((first, rest)) => {
            write!(group, "{first}")?;
            for value in rest {
                write_further(&mut group, value)?;
            }
            Ok(group)
        }
    }
}

/// Writes a value after others, with a `-` before it.
fn write_further(group: &mut String, value: &Expression) -> Result<(), AllocError>
    ensures { OnOk result (string_bytes group.new ≡ string_bytes group.old ++
        (codes "-" ++ written_form (expression_view value.now))) }
{
    write!(group, "-{value}")?;
    Ok(())
}
