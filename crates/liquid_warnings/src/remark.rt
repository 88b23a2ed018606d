//! What is said of a template.
ghost use Rattle.std.specs.Prelude.{◌≡◌, ◌++◌, IfErr, IfOk, OnOk, string_bytes};
ghost use Rattle.liquid_warnings.specs.Remarks.{all_said, remark_view, warning, warning_at};
ghost use Rattle.liquid_warnings.specs.inside.Added.{maybe_said, said_at_each};

use liquid_core::{ErrorKind, Location};
use liquid_syntax::Position;
use std::alloc::{AllocError, Global};

/// What is said of a place of a template: a fault, or a warning.
#[derive(Drop)]
pub struct Remark {
    /// In characters and from 1.
    pub line: usize,
    pub column: usize,
    pub kind: &'static str,
    pub is_warning: bool,
    pub message: String,
}

impl Remark {
    /// A warning. It takes no memory.
    pub fn warning(position: Position, kind: &'static str, message: String) -> Remark
        ensures { remark_view result ≡ warning position kind.now (string_bytes message) }
    {
        Remark {
            line: position.line as usize,
            column: position.column as usize,
            kind,
            is_warning: true,
            message,
        }
    }

    /// A warning with this message at a place of a source.
    pub(crate) fn at(
        alloc: Global,
        place: &Location,
        kind: &'static str,
        message: &str,
    ) -> Result<Remark, AllocError>
        ensures { IfOk result (λ r. remark_view r
            ≡ warning_at place.now.line place.now.column kind.now message.now) }
    {
        Ok(Remark {
            line: place.line,
            column: place.column,
            kind,
            is_warning: true,
            message: String::from_str(alloc, message)?,
        })
    }
}

/// Adds a warning with this message at each of these places of a source, in their order.
pub(crate) fn add_at_each(
    alloc: Global,
    places: &[Location],
    kind: &'static str,
    message: &str,
    remarks: &mut Vec<Remark>,
) -> liquid_core::Result<()>
    ensures added { OnOk result (all_said remarks.new.items ≡ all_said remarks.old.items
        ++ said_at_each kind.entry.now message.now places.now) }
    ensures memory { IfErr result (λ e. e.kind ≡ ErrorKind.Memory) }
{
    for place in places {
        remarks.push(Remark::at(alloc, place, kind, message)?)?;
    }
    Ok(())
}

/// Adds a remark, where there is one.
pub(crate) fn push_found(remarks: &mut Vec<Remark>, found: Option<Remark>) -> Result<(), AllocError>
    ensures { OnOk result
        (all_said remarks.new.items ≡ all_said remarks.old.items ++ maybe_said found) }
{
    match found {
        Some(remark) => {
            remarks.push(remark)?;
            Ok(())
        }
        None => Ok(()),
    }
}
