//! The head of a table: the names of its columns.
ghost use Rattle.std.specs.Prelude.{◌≡◌, IfOk, OnOk, Some};
ghost use Rattle.csv.specs.Records.{fields_of};
ghost use Rattle.liquid_data.specs.Cells.{cell_text};
ghost use Rattle.liquid_data.specs.Heads.{added_view, column_names, columns_view};
ghost use Rattle.liquid_data.specs.Heads.{head_fault_text, if_new, names_view, one_name};
ghost use Rattle.liquid_data.specs.Heads.{with_column};

use crate::cells::cell_text;
use crate::form::NameForm;
use crate::names::column_name;
use csv::ByteRecord;
use std::alloc::{AllocError, Global};
use std::collections::BTreeMap;
use std::fmt;

/// Why a first row names no columns.
#[derive(Clone, Copy, Debug, Drop)]
pub enum HeadFault {
    /// The name of this column, from 1, isn't UTF-8.
    NotUtf8(usize),
    /// This column has no name.
    Unnamed(usize),
    /// The first of these columns has the name that the second has.
    Again(usize, usize),
}

/// What follows the name of the file.
impl fmt::Display for HeadFault {
    ghost output = { λ fault. Some (head_fault_text fault) };

    fn fmt<W: fmt::Write>(&self, f: &mut fmt::Formatter<W>) -> fmt::Result {
        match self {
            HeadFault::NotUtf8(column) => {
                write!(
                    f,
                    "the name of column {column} isn't UTF-8; save the table as UTF-8"
                )
            }
            HeadFault::Unnamed(column) => write!(f, "column {column} has no name in the first row"),
            HeadFault::Again(before, column) => {
                write!(
                    f,
                    "columns {before} and {column} have the same name in the first row"
                )
            }
        }
    }
}

/// The columns that were named so far.
#[derive(Drop)]
struct Columns {
    names: Vec<String>,
    /// Each name with its column, from 1.
    places: BTreeMap<String, usize>,
}

/// The names of the columns that a first row has, in this form: each of them a text, none of them
/// empty, and no two alike. Else what is wrong with the first column that has no name of its own.
///
/// `AllocError` where there is no room for them, and nowhere else.
pub fn column_names(
    alloc: Global,
    head: &ByteRecord,
    form: NameForm,
) -> Result<Result<Vec<String>, HeadFault>, AllocError>
    ensures { IfOk result (λ names. names_view names ≡ column_names form (fields_of head.now)) }
{
    let mut columns = Columns {
        names: Vec::new(alloc),
        places: BTreeMap::new(alloc),
    };
    for cell in head.iter() {
        if let Err(fault) = add_column(alloc, cell, form, &mut columns)? {
            return Ok(Err(fault));
        }
    }
    let Columns { names, places } = columns;
    drop(places);
    Ok(Ok(names))
}

/// Adds the column of a cell, where that is a name of its own.
fn add_column(
    alloc: Global,
    cell: &[u8],
    form: NameForm,
    columns: &mut Columns,
) -> Result<Result<(), HeadFault>, AllocError>
    ensures { IfOk result (λ r. added_view r (columns_view columns.new)
        ≡ one_name form (columns_view columns.old) (cell_text cell.now)) }
{
    let column = columns.names.len().saturating_add(1);
    let Some(name) = cell_text(cell) else {
        return Ok(Err(HeadFault::NotUtf8(column)));
    };
    if name.is_empty() {
        return Ok(Err(HeadFault::Unnamed(column)));
    }
    let name = column_name(alloc, name, form)?;
    add_name(alloc, name.as_str(), columns)
}

/// Adds the column of a name, where that stands at none before.
fn add_name(
    alloc: Global,
    name: &str,
    columns: &mut Columns,
) -> Result<Result<(), HeadFault>, AllocError>
    ensures { IfOk result (λ r. added_view r (columns_view columns.new)
        ≡ if_new (columns_view columns.old) name.now) }
{
    let column = columns.names.len().saturating_add(1);
    match columns.places.get(name) {
        Some(before) => Ok(Err(HeadFault::Again(*before, column))),
        None => {
            push_column(alloc, name, column, columns)?;
            Ok(Ok(()))
        }
    }
}

/// Puts a name after the others.
fn push_column(
    alloc: Global,
    name: &str,
    column: usize,
    columns: &mut Columns,
) -> Result<(), AllocError>
    ensures { OnOk result (columns_view columns.new
        ≡ with_column (columns_view columns.old) name.now column) }
{
    columns.names.push(String::from_str(alloc, name)?)?;
    drop(
        columns
            .places
            .insert(String::from_str(alloc, name)?, column)?,
    );
    Ok(())
}
