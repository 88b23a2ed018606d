//! What Liquid for Ruby does otherwise with the data that templates ask for.
ghost use Rattle.std.specs.Prelude.{◌≡◌, All, IfErr, IfOk, OnOk, length, option_map};
ghost use Rattle.std.specs.Prelude.{string_bytes};
ghost use Rattle.liquid_warnings.specs.Differences.{AreOfData, IsOfRuby, difference_kind};
ghost use Rattle.liquid_warnings.specs.Differences.{difference_message, difference_said};
ghost use Rattle.liquid_warnings.specs.Differences.{difference_words};
ghost use Rattle.liquid_warnings.specs.Paths.{data_path_text};
ghost use Rattle.liquid_warnings.specs.Remarks.{remark_view};
ghost use Rattle.liquid_warnings.specs.Sorts.{OnlyWhere};
ghost use Rattle.liquid_warnings.specs.Ported.{is_for_ruby};
ghost use Rattle.liquid_warnings.specs.inside.Added.{AddsRemarks};

use crate::doubts::{add_doubts, in_data, unless_seen};
use crate::path_texts::path_text;
use crate::remark::{Remark, push_found};
use crate::used_path::UsedPath;
use crate::warnings::is_full;
use crate::written_for::WrittenFor;
use crate::{Difference, difference_of};
use liquid_core::{ErrorKind, Object, Result};
use std::alloc::{AllocError, Global};
use std::collections::BTreeSet;

/// Adds the warnings about the data that a template asks for by these paths.
pub(crate) fn add_of_data(
    alloc: Global,
    paths: &[UsedPath],
    data: &Object,
    written_for: WrittenFor,
    remarks: &mut Vec<Remark>,
) -> Result<()>
    ensures added { OnOk result
        (AddsRemarks (AreOfData written_for) remarks.old.items remarks.new.items) }
    ensures memory { IfErr result (λ e. e.kind ≡ ErrorKind.Memory) }
{
    add_doubts(alloc, paths, data, remarks)?;
    add_of_ruby(alloc, paths, data, written_for, remarks)
}

/// Adds what Liquid for Ruby does otherwise, of templates that are written for it.
fn add_of_ruby(
    alloc: Global,
    paths: &[UsedPath],
    data: &Object,
    written_for: WrittenFor,
    remarks: &mut Vec<Remark>,
) -> Result<()>
    ensures added { OnOk result (AddsRemarks
        (OnlyWhere (is_for_ruby written_for) (All IsOfRuby))
        remarks.old.items remarks.new.items) }
    ensures memory { IfErr result (λ e. e.kind ≡ ErrorKind.Memory) }
{
    if written_for.is_for_ruby() {
        add_differences(alloc, paths, data, remarks)
    } else {
        Ok(())
    }
}

/// Adds what Liquid for Ruby does otherwise, each once, where it is asked for first.
fn add_differences(
    alloc: Global,
    paths: &[UsedPath],
    data: &Object,
    remarks: &mut Vec<Remark>,
) -> Result<()>
    ensures added { OnOk result
        (AddsRemarks (All IsOfRuby) remarks.old.items remarks.new.items) }
    ensures memory { IfErr result (λ e. e.kind ≡ ErrorKind.Memory) }
{
    let mut seen = BTreeSet::new(alloc);
    for asked in paths {
        if is_full(remarks) {
            return Ok(());
        }
        let difference = difference_of(alloc, data, &asked.path, asked.want)?;
        let found = difference_remark(alloc, asked, difference)?;
        push_found(remarks, unless_seen(alloc, found, &mut seen)?)?;
    }
    Ok(())
}

/// `KeyOrder` or `NilContains`, where there is a difference.
fn difference_remark(
    alloc: Global,
    asked: &UsedPath,
    difference: Option<Difference>,
) -> std::result::Result<Option<Remark>, AllocError>
    ensures { IfOk result (λ r. option_map remark_view r
        ≡ option_map (difference_said asked.now.position
        (data_path_text asked.now.path (length asked.now.path.steps.items))) difference) }
{
    let Some(difference) = difference else {
        return Ok(None);
    };
    let path = path_text(alloc, &asked.path, asked.path.steps.len())?;
    let message = difference_message(alloc, difference, path.as_str())?;
    let kind = difference_kind(difference);
    Ok(Some(Remark::warning(asked.position, kind, message)))
}

fn difference_kind(difference: Difference) -> &'static str
    ensures { result.now ≡ difference_kind difference }
{
    match difference {
        Difference::KeyOrder => "KeyOrder",
        Difference::NilSearched | Difference::NilContained => "NilContains",
    }
}

fn difference_message(
    alloc: Global,
    difference: Difference,
    path: &str,
) -> std::result::Result<String, AllocError>
    ensures { IfOk result (λ m. string_bytes m ≡ difference_message difference path.now) }
{
    let mut message = in_data(alloc, path)?;
    message.push_str(difference_words(difference))?;
    Ok(message)
}

fn difference_words(difference: Difference) -> &'static str
    ensures { result.now ≡ difference_words difference }
{
    match difference {
        Difference::KeyOrder =>
            " is a map: a loop goes by its keys, Ruby's by the file; make it a list of pairs",
        Difference::NilSearched =>
            " has no value: `contains` is a fault, in Ruby false; use `--missing nil` or `default`",
        Difference::NilContained => {
            " is nil: every text contains it, in Ruby none; test for it first"
        }
    }
}
