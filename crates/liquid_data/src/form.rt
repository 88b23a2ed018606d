//! How a table is written, and how its cells are read.
ghost use Rattle.std.specs.Prelude.{◌≡◌};
ghost use Rattle.liquid_data.specs.TableForms.{plain_form};

/// How the cells of a table are read.
#[derive(Clone, Copy, Debug, Drop)]
pub enum CellForm {
    /// Each cell is a text.
    Texts,
    /// A whole number within 64 bits is a number where its cell is spelled as it is printed, so
    /// without a `+` and without zeros in front; `true` and `false` are truth values, and an empty
    /// cell is nil. Each other cell is a text.
    Typed,
}

/// How the names of a table's columns are read.
#[derive(Clone, Copy, Debug, Drop)]
pub enum NameForm {
    /// As they stand in the first row.
    AsWritten,
    /// In lower case, with one `_` for each run of what is no ASCII letter or digit, and none at
    /// the ends. A `_` stands before what a template couldn't write otherwise.
    Snake,
}

/// How a table is written, and how it is read.
#[derive(Clone, Copy, Debug, Drop)]
pub struct TableForm {
    /// The byte between cells.
    pub delimiter: u8,
    pub cells: CellForm,
    pub names: NameForm,
}

impl TableForm {
    /// Commas between cells, each of which is a text, under the names that the first row has.
    pub fn plain() -> TableForm
        ensures { result ≡ plain_form }
    {
        TableForm {
            delimiter: b',',
            cells: CellForm::Texts,
            names: NameForm::AsWritten,
        }
    }
}
