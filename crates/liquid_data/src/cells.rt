//! Cells as texts and as values.
ghost use Rattle.std.specs.Prelude.{◌≡◌, bytes_eq, option_map};
ghost use Rattle.std.specs.Fmt.{signed_decimal};
ghost use Rattle.liquid_model.specs.Answer.{IsValueOrMemory};
ghost use Rattle.liquid_model.specs.View.{view};
ghost use Rattle.liquid_model.specs.Whole.{whole_text};
ghost use Rattle.liquid_data.specs.Cells.{cell_datum, cell_read, cell_text, if_spelled};
ghost use Rattle.liquid_data.specs.Cells.{text_or_byte, typed_cell};

use crate::form::CellForm;
use itoa::Buffer;
use liquid_model::{Result, Value, whole_of};
use std::alloc::Global;

/// The text of a cell, where it is UTF-8.
pub(crate) fn cell_text(cell: &[u8]) -> Option<&str>
    ensures { option_map (λ t. t.now) result ≡ cell_text cell.now }
{
    match str::from_utf8(cell) {
        Ok(text) => Some(text),
        Err(_) => None,
    }
}

/// The text of a cell, or the first byte that makes it no UTF-8, from 1.
pub(crate) fn cell_read(cell: &[u8]) -> std::result::Result<&str, usize>
    ensures { text_or_byte result ≡ cell_read cell.now }
{
    match str::from_utf8(cell) {
        Ok(text) => Ok(text),
        Err(refused) => Err(refused.valid_up_to().saturating_add(1)),
    }
}

/// The value of a cell. The answer is `Memory` where a growth was refused, and no other kind.
pub(crate) fn cell_value(alloc: Global, cell: &str, form: CellForm) -> Result<Value>
    ensures { IsValueOrMemory view result (cell_datum form cell.now) }
{
    match form {
        CellForm::Texts => Ok(Value::Text(String::from_str(alloc, cell)?)),
        CellForm::Typed => typed_cell(alloc, cell),
    }
}

fn typed_cell(alloc: Global, cell: &str) -> Result<Value>
    ensures { IsValueOrMemory view result (typed_cell cell.now) }
{
    match cell {
        "" => Ok(Value::Nil),
        "true" => Ok(Value::Bool(true)),
        "false" => Ok(Value::Bool(false)),
        _ => number_or_text(alloc, cell),
    }
}

/// A number, where the cell is spelled as the number is printed.
fn number_or_text(alloc: Global, cell: &str) -> Result<Value>
    ensures { IsValueOrMemory view result (if_spelled cell.now (whole_text cell.now)) }
{
    match whole_of(cell) {
        Some(n) if is_spelled(n, cell) => Ok(Value::Integer(n)),
        _ => Ok(Value::Text(String::from_str(alloc, cell)?)),
    }
}

/// Whether a number is printed as this text.
fn is_spelled(n: i64, text: &str) -> bool
    ensures { result ≡ bytes_eq (signed_decimal n) text.now }
{
    Buffer::new().format(n) == text
}
