//! Doubts about values of another shape than a template takes them for.
ghost use Rattle.std.specs.Prelude.{◌≡◌, IfOk, IfSome, string_bytes};
ghost use Rattle.liquid_warnings.specs.Messages.{false_message, no_key_message, no_other};
ghost use Rattle.liquid_warnings.specs.Messages.{size_message};
ghost use Rattle.liquid_warnings.specs.Messages.{number_date, whole_map_message};
ghost use Rattle.liquid_warnings.specs.Remarks.{remark_view};
ghost use Rattle.liquid_warnings.specs.Sorts.{IsNoKey, IsNoNumber, IsNoTruth, IsTestedSize};
ghost use Rattle.liquid_warnings.specs.Sorts.{IsFalseDefault, IsNumberDate, IsWholeMap};

use crate::loops::kind_word;
use crate::remark::Remark;
use liquid_core::{Quoted, Value};
use liquid_syntax::Position;
use std::alloc::{AllocError, Global};

type Said = Result<String, AllocError>;

type Found = Result<Option<Remark>, AllocError>;

/// `NoNumber`: what is compared with a number is a truth value, a list or a map.
pub(crate) fn no_number_in(alloc: Global, at: Position, path: &str, value: &Value) -> Found
    ensures { IfOk result (λ r. IfSome r (λ w. IsNoNumber (remark_view w))) }
{
    let message = no_other(alloc, path, kind_word(value), "number")?;
    Ok(Some(Remark::warning(at, "NoNumber", message)))
}

/// `NoTruth`: what is compared with a truth value is a number.
pub(crate) fn no_truth_in(alloc: Global, at: Position, path: &str, value: &Value) -> Found
    ensures { IfOk result (λ r. IfSome r (λ w. IsNoTruth (remark_view w))) }
{
    let message = no_other(alloc, path, kind_word(value), "truth value")?;
    Ok(Some(Remark::warning(at, "NoTruth", message)))
}

fn no_other(alloc: Global, path: &str, kind: &str, other: &str) -> Said
    ensures { IfOk result (λ message. string_bytes message
        ≡ no_other path.now kind.now other.now) }
{
    let path = Quoted { text: path };
    format!(in alloc;
        "`{path}` is {kind} in the data, and no {other}: such a comparison never holds"
    )
}

/// `WholeMap`: what an output shows is a map, or a list that begins with one.
pub(crate) fn whole_map_in(alloc: Global, at: Position, path: &str) -> Found
    ensures { IfOk result (λ r. IfSome r (λ w. IsWholeMap (remark_view w))) }
{
    let message = whole_map_message(alloc, path)?;
    Ok(Some(Remark::warning(at, "WholeMap", message)))
}

fn whole_map_message(alloc: Global, path: &str) -> Said
    ensures { IfOk result (λ message. string_bytes message ≡ whole_map_message path.now) }
{
    let path = Quoted { text: path };
    format!(in alloc;
        "`{path}` is a map or a list of maps in the data, and is shown with all that it has; \
        name a part, as `{path}.name`"
    )
}

/// `NoKey`: what is asked for a key is a list.
pub(crate) fn no_key_in(alloc: Global, at: Position, path: &str) -> Found
    ensures { IfOk result (λ r. IfSome r (λ w. IsNoKey (remark_view w))) }
{
    let message = no_key_message(alloc, path)?;
    Ok(Some(Remark::warning(at, "NoKey", message)))
}

fn no_key_message(alloc: Global, path: &str) -> Said
    ensures { IfOk result (λ message. string_bytes message ≡ no_key_message path.now) }
{
    let path = Quoted { text: path };
    format!(in alloc;
        "`{path}` is a list in the data, which has no such key; take each item by `for`, \
        or one as `{path}[0]`"
    )
}

/// `AlwaysTrue`: what a condition tests is a `size`, of which 0 counts as true too.
pub(crate) fn tested_size_in(alloc: Global, at: Position, path: &str) -> Found
    ensures { IfOk result (λ r. IfSome r (λ w. IsTestedSize (remark_view w))) }
{
    let message = size_message(alloc, path)?;
    Ok(Some(Remark::warning(at, "AlwaysTrue", message)))
}

fn size_message(alloc: Global, path: &str) -> Said
    ensures { IfOk result (λ message. string_bytes message ≡ size_message path.now) }
{
    let path = Quoted { text: path };
    format!(in alloc;
        "`{path}.size` is a number, and 0 counts as true too; write `{path}.size > 0`"
    )
}

/// `FalseDefault`: what `default` gets is `false`.
pub(crate) fn false_default_in(alloc: Global, at: Position, path: &str) -> Found
    ensures { IfOk result (λ r. IfSome r (λ w. IsFalseDefault (remark_view w))) }
{
    let message = false_message(alloc, path)?;
    Ok(Some(Remark::warning(at, "FalseDefault", message)))
}

fn false_message(alloc: Global, path: &str) -> Said
    ensures { IfOk result (λ message. string_bytes message ≡ false_message path.now) }
{
    let path = Quoted { text: path };
    format!(in alloc;
        "`{path}` is `false` in the data, which `default` replaces too; test it by `if`"
    )
}

/// `NumberDate`: what is to be a date is a number.
pub(crate) fn number_date_in(alloc: Global, at: Position, path: &str) -> Found
    ensures { IfOk result (λ r. IfSome r (λ w. IsNumberDate (remark_view w))) }
{
    let message = number_date(alloc, path)?;
    Ok(Some(Remark::warning(at, "NumberDate", message)))
}

fn number_date(alloc: Global, path: &str) -> Said
    ensures { IfOk result (λ message. string_bytes message ≡ number_date path.now) }
{
    let path = Quoted { text: path };
    format!(in alloc; "`{path}` is a number in the data, which `date` prints as it is")
}
