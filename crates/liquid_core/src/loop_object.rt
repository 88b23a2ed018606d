//! The object of a loop as a value, for where a template asks for the whole of it.
ghost use Rattle.std.specs.Prelude.{◌<◌, ◌≤◌, ◌+◌, ◌-◌, ◌%◌, ◌==◌, ◌||◌, codes};
ghost use Rattle.liquid_model.specs.Answer.{IsValueOrMemory};
ghost use Rattle.liquid_model.specs.Data.{object, put, truth};
ghost use Rattle.liquid_model.specs.View.{view, pairs_view};
ghost use Rattle.liquid_core.specs.Loops.{count, forloop_object, tablerow_object};

use liquid_model::{Object, Result, Value, store};
use std::alloc::Global;
use std::collections::BTreeMap;

/// What `forloop` is at item `at` of `total`.
pub(crate) fn forloop_object(
    alloc: Global,
    at: usize,
    total: usize,
    parent: Value,
) -> Result<Object>
    requires item { at < total }
    requires within { total ≤ 9223372036854775807 }
    ensures { IsValueOrMemory (λ o. object (pairs_view o.entries)) result
        (forloop_object at total (view parent)) }
{
    let mut object: Object = BTreeMap::new(alloc);
    put_number(alloc, &mut object, "length", total)?;
    put(alloc, &mut object, "parentloop", parent)?;
    put_places(alloc, &mut object, at, total)?;
    put_ends(alloc, &mut object, at, total)?;
    Ok(object)
}

/// What `tablerow` is at item `at` of `total`, in rows of `columns` columns.
pub(crate) fn tablerow_object(
    alloc: Global,
    at: usize,
    total: usize,
    columns: usize,
) -> Result<Object>
    requires item { at < total }
    requires within { total ≤ 9223372036854775807 }
    requires some { 0 < columns }
    requires few { columns ≤ 9223372036854775807 }
    ensures { IsValueOrMemory (λ o. object (pairs_view o.entries)) result
        (tablerow_object at total columns) }
{
    let mut object: Object = BTreeMap::new(alloc);
    put_number(alloc, &mut object, "length", total)?;
    put_places(alloc, &mut object, at, total)?;
    put_ends(alloc, &mut object, at, total)?;
    put_columns(alloc, &mut object, at % columns, columns, at + 1 == total)?;
    Ok(object)
}

/// The place of the item, counted from both ends, from 0 and from 1.
fn put_places(alloc: Global, object: &mut Object, at: usize, total: usize) -> Result<()>
    requires item { at < total }
    requires within { total ≤ 9223372036854775807 }
    ensures { IsValueOrMemory (λ _. pairs_view object.new.entries) result
        (put (codes "rindex") (count (total - at)) (put (codes "rindex0") (count (total - at - 1))
        (put (codes "index") (count (at + 1))
        (put (codes "index0") (count at) (pairs_view object.old.entries))))) }
{
    let remaining = total - at;
    put_number(alloc, object, "index0", at)?;
    put_number(alloc, object, "index", at + 1)?;
    put_number(alloc, object, "rindex0", remaining - 1)?;
    put_number(alloc, object, "rindex", remaining)
}

/// Whether the item is the first, and the last.
fn put_ends(alloc: Global, object: &mut Object, at: usize, total: usize) -> Result<()>
    requires { at < total }
    ensures { IsValueOrMemory (λ _. pairs_view object.new.entries) result
        (put (codes "last") (truth (at + 1 == total)) (put (codes "first") (truth (at == 0))
        (pairs_view object.old.entries))) }
{
    put(alloc, object, "first", Value::Bool(at == 0))?;
    put(alloc, object, "last", Value::Bool(at + 1 == total))
}

/// The column of the item, counted from 0 and from 1, and whether it is the first of its row, and
/// the last.
fn put_columns(
    alloc: Global,
    object: &mut Object,
    column: usize,
    columns: usize,
    is_end: bool,
) -> Result<()>
    requires inside { column < columns }
    requires few { columns ≤ 9223372036854775807 }
    ensures { IsValueOrMemory (λ _. pairs_view object.new.entries) result
        (put (codes "col_last") (truth ((column + 1 == columns) || is_end))
        (put (codes "col_first") (truth (column == 0))
        (put (codes "col") (count (column + 1))
        (put (codes "col0") (count column) (pairs_view object.old.entries))))) }
{
    put_number(alloc, object, "col0", column)?;
    put_number(alloc, object, "col", column + 1)?;
    put(alloc, object, "col_first", Value::Bool(column == 0))?;
    put(
        alloc,
        object,
        "col_last",
        Value::Bool(column + 1 == columns || is_end),
    )
}

fn put_number(alloc: Global, object: &mut Object, name: &str, number: usize) -> Result<()>
    requires { number ≤ 9223372036854775807 }
    ensures { IsValueOrMemory (λ _. pairs_view object.new.entries) result
        (put name.now (count number) (pairs_view object.old.entries)) }
{
    put(alloc, object, name, Value::Integer(number as i64))
}

fn put(alloc: Global, object: &mut Object, name: &str, value: Value) -> Result<()>
    ensures { IsValueOrMemory (λ _. pairs_view object.new.entries) result
        (put name.now (view value) (pairs_view object.old.entries)) }
{
    store(object, String::from_str(alloc, name)?, value)
}
