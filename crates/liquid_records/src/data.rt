//! Lays data over other data, and takes it off again.
ghost use Rattle.std.specs.Prelude.{◌≡◌, IfOk, IfErr, OnErr, OnOk, IsSome, Some, None, option_map};
ghost use Rattle.std.specs.Prelude.{string_bytes};
ghost use Rattle.liquid_model.specs.Maps.{merged};
ghost use Rattle.liquid_model.specs.View.{view};
ghost use Rattle.liquid_core.specs.Held.{held};
ghost use Rattle.liquid_core.specs.DataChanges.{with_value};
ghost use Rattle.liquid_records.specs.inside.Covered.{AreThere, covered_view, uncovered};

use liquid_core::{Error, ErrorKind, Object, Result, Value};
use std::alloc::{AllocError, Global};

/// Lays these members over the data. The answer is what they cover: the name of each in turn, with
/// the value that stood there. It is `Memory` where a growth was refused, and no other kind; then
/// the data is as it was.
pub(crate) fn lay_over(
    alloc: Global,
    data: &mut Object,
    members: Object,
) -> Result<Vec<(String, Option<Value>)>>
    ensures over { OnOk result (held «data».new ≡ merged (held members) (held «data».old)) }
    ensures back { IfOk result (λ covered. uncovered (covered_view covered.items)
        (held «data».new) ≡ held «data».old) }
    ensures there { IfOk result (λ covered. AreThere (covered_view covered.items)
        (held «data».new)) }
    ensures untouched { OnErr result (held «data».new ≡ held «data».old) }
    ensures memory { IfErr result (λ e. e.kind ≡ ErrorKind.Memory) }
{
    let mut covered = Vec::new(alloc);
    for (name, value) in members {
        match cover(alloc, data, name, value, &mut covered) {
            Ok(()) => {}
            Err(refused) => {
                take_off(data, covered);
                return Err(refused);
            }
        }
    }
    Ok(covered)
}

/// Takes off what was laid over data: what was covered stands in its place again. It takes no
/// memory.
pub(crate) fn take_off(data: &mut Object, covered: Vec<(String, Option<Value>)>)
    requires { AreThere (covered_view covered.items) (held «data».old) }
    ensures { held «data».new ≡ uncovered (covered_view covered.items) (held «data».old) }
{
    let mut left = covered;
    while let Some((name, before)) = left.pop() {
        put_back(data, name, before);
    }
}

/// Lays one value over the data, after what is covered already. Where a growth was refused, both
/// are as they were.
fn cover(
    alloc: Global,
    data: &mut Object,
    name: String,
    value: Value,
    covered: &mut Vec<(String, Option<Value>)>,
) -> Result<()>
    ensures put { OnOk result (held «data».new
        ≡ with_value (held «data».old) (string_bytes name) (Some (view value))) }
    ensures back { OnOk result (uncovered (covered_view covered.new.items) (held «data».new)
        ≡ uncovered (covered_view covered.old.items) (held «data».old)) }
    ensures there { OnOk result (AreThere (covered_view covered.old.items) (held «data».old)
        → AreThere (covered_view covered.new.items) (held «data».new)) }
    ensures untouched { OnErr result (held «data».new ≡ held «data».old) }
    ensures same { OnErr result (covered.new.items ≡ covered.old.items) }
    ensures memory { IfErr result (λ e. e.kind ≡ ErrorKind.Memory) }
{
    let kept = String::from_str(alloc, name.as_str())?;
    let before = exchange(data, name, value)?;
    match covered.push((kept, before)) {
        Ok(()) => Ok(()),
        Err(refused) => {
            let (name, before) = refused.value;
            put_back(data, name, before);
            Err(Error::from(AllocError))
        }
    }
}

/// Puts a value at a name. The answer is the value that stood there.
fn exchange(data: &mut Object, name: String, value: Value) -> Result<Option<Value>>
    ensures put { OnOk result (held «data».new
        ≡ with_value (held «data».old) (string_bytes name) (Some (view value))) }
    ensures before { IfOk result (λ o. option_map view o ≡ held «data».old (string_bytes name)) }
    ensures untouched { OnErr result (held «data».new ≡ held «data».old) }
    ensures memory { IfErr result (λ e. e.kind ≡ ErrorKind.Memory) }
{
    Ok(data.insert(name, value)?)
}

/// Takes away what stands at a name.
fn take_away(data: &mut Object, name: &str)
    ensures { held «data».new ≡ with_value (held «data».old) name.now None }
{
    drop(data.remove(name));
}

/// Puts a value at a name at which one stands, or takes that one away.
fn put_back(data: &mut Object, name: String, before: Option<Value>)
    requires { IsSome (held «data».old (string_bytes name)) }
    ensures { held «data».new
        ≡ with_value (held «data».old) (string_bytes name) (option_map view before) }
{
    match before {
        Some(value) => replace(data, name, value),
        None => take_away(data, name.as_str()),
    }
}

/// Puts a value at a name at which one stands, so that there is room for it.
fn replace(data: &mut Object, name: String, value: Value)
    requires { IsSome (held «data».old (string_bytes name)) }
    ensures { held «data».new
        ≡ with_value (held «data».old) (string_bytes name) (Some (view value)) }
{
    match data.insert(name, value) {
        Ok(before) => drop(before),
        Err(refused) => drop(refused),
    }
}
