//! Whether the JSON of a value is read as the value again.
use crate::given::number_or;
use liquid_core::{Result, Value};
use liquid_filter_sets::is_read_back;
use liquid_test_refusals::WorkedRow;
use std::alloc::Global;

/// Whether the JSON of the row's value is read back, with as many lists around it as `with` says.
pub(crate) fn read_back(alloc: Global, row: &WorkedRow) -> Result<bool> {
    let value = in_lists(alloc, row.on.copy(alloc)?, number_or(&row.with, 0))?;
    Ok(is_read_back(&value))
}

/// The value inside `count` lists, each of one item.
fn in_lists(alloc: Global, value: Value, count: usize) -> Result<Value> {
    let mut nested = value;
    for _ in 0..count {
        let mut items = Vec::new(alloc);
        items.push(nested)?;
        nested = Value::Array(items);
    }
    Ok(nested)
}
