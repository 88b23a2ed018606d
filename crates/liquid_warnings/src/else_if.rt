//! An `else` with a condition.
ghost use Rattle.std.specs.Prelude.{◌≡◌, All, IfErr, OnOk};
ghost use Rattle.liquid_warnings.specs.Sorts.{IsElseIf};
ghost use Rattle.liquid_warnings.specs.inside.Added.{AddsRemarks};

use crate::otherwise::else_items;
use crate::remark::{Remark, add_at_each};
use liquid_core::{ErrorKind, Result};
use liquid_language::Language;
use std::alloc::Global;

/// `ElseIf`: something stands after `else`, which nothing reads.
pub(crate) fn add_else_if(
    alloc: Global,
    language: &Language,
    source: &str,
    remarks: &mut Vec<Remark>,
) -> Result<()>
    ensures added { OnOk result
        (AddsRemarks (All IsElseIf) remarks.old.items remarks.new.items) }
    ensures memory { IfErr result (λ e. e.kind ≡ ErrorKind.Memory) }
{
    let message = "what stands after `else` isn't read; for a condition write `elsif`";
    let places = else_items(alloc, source, language)?;
    add_at_each(alloc, &places, "ElseIf", message, remarks)
}
