//! The values that the command line gives.
ghost use Rattle.liquid_model.specs.Answer.{Answers};
ghost use Rattle.liquid_model.specs.View.{pairs_view, view};
ghost use Rattle.liquid_commands.specs.Words.{value_view};
ghost use Rattle.liquid_commands.specs.Inputs.{value_given, with_value_given};

use crate::faults::{print_fault, print_tip};
use crate::stop::Stop;
use crate::{NamedValue, value_tip};
use liquid_data::{DataForm, text_in_form, value_in_form, with_value};
use liquid_model::{Error, ErrorKind, Object, Result, Value};
use std::alloc::Global;

/// The data with a value of the command line under its name, in place of what stands there.
///
/// Its word is refused where it is to be JSON and isn't, by `InvalidInput`, and by `Float` where a
/// number isn't whole, unless such a number is to be a text. `Memory` where a growth was refused.
pub fn with_value_given(
    alloc: Global,
    data: Object,
    given: &NamedValue<'_>,
    form: DataForm,
) -> Result<Object>
    ensures { Answers (λ m. pairs_view m.entries) result
        (with_value_given (value_view given.now) form (pairs_view «data».entries)) }
{
    let value = value_given(alloc, given, form)?;
    with_value(alloc, data, given.name, value)
}

fn value_given(alloc: Global, given: &NamedValue<'_>, form: DataForm) -> Result<Value>
    ensures { Answers view result (value_given (value_view given.now) form) }
{
    if given.is_json {
        value_in_form(alloc, given.word, form)
    } else {
        text_in_form(alloc, given.word, form)
    }
}

/// The data with all values of the command line, of which the later of one name wins. A word that
/// is refused is printed.
pub(crate) fn with_values(
    rt: &HostRuntime,
    data: Object,
    values: &[NamedValue<'_>],
    form: DataForm,
) -> std::result::Result<Object, Stop> {
    let mut data = data;
    for given in values {
        data = match with_value_given(rt.alloc(), data, given, form) {
            Ok(data) => data,
            Err(fault) => return Err(refused(rt, given, fault)),
        };
    }
    Ok(data)
}

/// Prints why the word of a value is refused, unless memory ran out.
fn refused(rt: &HostRuntime, given: &NamedValue<'_>, fault: Error) -> Stop {
    if fault.kind == ErrorKind::Memory {
        return Stop::from(fault);
    }
    let name = given.name;
    match format!(in rt.alloc(); "-D {name}") {
        Ok(called) => {
            print_fault(rt, called.as_str(), &fault, Some(given.word));
            print_tip(rt, value_tip(fault.kind));
            Stop::Refused
        }
        Err(refused) => Stop::from(refused),
    }
}
