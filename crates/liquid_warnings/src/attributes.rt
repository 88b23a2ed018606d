//! Outputs in attributes that aren't escaped.
ghost use Rattle.std.specs.Prelude.{◌≡◌, All, IfErr, OnOk};
ghost use Rattle.liquid_warnings.specs.Sorts.{IsUnescaped, OnlyWhere};
ghost use Rattle.liquid_warnings.specs.inside.Added.{AddsRemarks};

use crate::remark::{Remark, add_at_each};
use crate::unescaped::unescaped_attributes;
use crate::warnings::Given;
use liquid_core::{ErrorKind, Result};
use std::alloc::Global;

/// `UnescapedAttribute`: an output stands in the value of an attribute, and nothing escapes it. It
/// is looked for only where that is asked for.
pub(crate) fn add_unescaped(
    alloc: Global,
    given: Given<'_>,
    source: &str,
    remarks: &mut Vec<Remark>,
) -> Result<()>
    ensures added { OnOk result (AddsRemarks
        (OnlyWhere given.entry.attributes (All IsUnescaped)) remarks.old.items remarks.new.items) }
    ensures memory { IfErr result (λ e. e.kind ≡ ErrorKind.Memory) }
{
    if !given.attributes {
        return Ok(());
    }
    let message = "a quote in this value ends the attribute; write `| escape`";
    let places = unescaped_attributes(alloc, source, given.language)?;
    add_at_each(alloc, &places, "UnescapedAttribute", message, remarks)
}
