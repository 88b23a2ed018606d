//! Answers that a caller gives to calls of its filters.
ghost use Rattle.std.specs.Prelude.{◌≡◌, ⊤, Err, Ok, MatchOption, Some, option_map};
ghost use Rattle.std.specs.Prelude.{Result as Answered};
ghost use Rattle.std.specs.Result.{result_map_both};
ghost use Rattle.liquid_model.specs.Data.{Datum};
ghost use Rattle.liquid_model.specs.View.{view};
ghost use Rattle.liquid_model.specs.declared.error.ErrorKind.{ErrorKind};
ghost use Rattle.liquid_answers.specs.Tables.{said_by};
ghost use Rattle.liquid_c.specs.Tables.{ChangesTable, Given, IsAnswering, IsRefusing, StoresAnswer};
ghost use Rattle.liquid_c.specs.Tables.{answer_among, answer_of_handle, call_of_handle};
ghost use Rattle.liquid_c.specs.Tables.{calls_of_handle, kind_among, kinds_of_runs};
ghost use Rattle.liquid_c.specs.Shared.{Regaining, shared_content};
ghost use Rattle.liquid_c.specs.declared.content.Content.TheVariants as content;
ghost use Rattle.liquid_c.specs.declared.handle_content.HandleContent.TheVariants.{Own};
ghost use Rattle.liquid_c.specs.declared.refusal.Refusal.{Refusal};

use crate::content::Content;
use crate::handle::Handle;
use crate::handle_content::{HandleContent, held_content};
use crate::refusal::Refusal;
use liquid_answers::{Answer, Answers};
use liquid_core::{ErrorKind, Object, Value, look_up};
use std::alloc::Global;

/// The kinds by which a run ends, but for `Memory` and `Write`.
const KINDS: [ErrorKind; 16] = [
    ErrorKind::UnknownVariable,
    ErrorKind::InvalidInput,
    ErrorKind::InvalidArgument,
    ErrorKind::UnexpectedValue,
    ErrorKind::NumberRange,
    ErrorKind::DivideByZero,
    ErrorKind::Float,
    ErrorKind::CycleBounds,
    ErrorKind::ZeroColumns,
    ErrorKind::RangeTooLong,
    ErrorKind::UnknownPartial,
    ErrorKind::PartialName,
    ErrorKind::TooDeep,
    ErrorKind::DateFormat,
    ErrorKind::TimezoneRange,
    ErrorKind::Unsupported,
];

/// How many calls a handle holds; 0 where it holds something else.
#[unsafe(no_mangle)]
pub extern "C" fn bikleinu_calls(alloc: Global, calls: &mut Handle) -> usize
    ensures count { result ≡ calls_of_handle (shared_content calls.old.held) }
    ensures same { calls.new.held ≡ calls.old.held }
{
    let held = calls.take(alloc);
    let count = count_seen(held_content(&held));
    calls.put(alloc, held);
    count
}

fn count_seen(held: Option<&Content>) -> usize
    ensures { result ≡ calls_of_handle (option_map (λ h. h.now) held.entry) }
{
    match held {
        Some(Content::Lacking(calls)) => calls.len(),
        _ => 0,
    }
}

/// Puts an answer to the call of this number into a table, in place of the one that is there: what
/// data have as `answer`, or nil. 0, or `Memory`; then nothing changed.
#[unsafe(no_mangle)]
pub extern "C" fn bikleinu_answer(
    alloc: Global,
    answers: &mut Handle,
    calls: &mut Handle,
    number: usize,
    data: &mut Handle,
) -> u32
    ensures answered { Regaining (λ was. IsAnswering was
        (call_of_handle number (shared_content calls.old.held))
        (answer_of_handle (shared_content «data».old.held))
        result answers.new.held) answers.old.held }
    ensures calls { calls.new.held ≡ calls.old.held }
    ensures data { «data».new.held ≡ «data».old.held }
{
    let mut held = answers.take_to_change(alloc);
    let held_calls = calls.take(alloc);
    let held_data = data.take(alloc);
    let call = call_seen(held_content(&held_calls), number);
    let answer = answer_seen(alloc, held_content(&held_data));
    let status = put(alloc, &mut held, call, answer);
    answers.put(alloc, held);
    calls.put(alloc, held_calls);
    data.put(alloc, held_data);
    status
}

/// Puts a fault of this kind, with this message, as the answer to the call of a number into a
/// table. A number that is no kind of a run stands for `InvalidInput`. 0, or `Memory`; then nothing
/// changed.
#[unsafe(no_mangle)]
pub extern "C" fn bikleinu_refuse(
    alloc: Global,
    answers: &mut Handle,
    calls: &mut Handle,
    number: usize,
    kind: u32,
    message: &[u8],
) -> u32
    ensures answered { Regaining (λ was. IsRefusing was
        (call_of_handle number (shared_content calls.old.held)) kind message.now
        result answers.new.held) answers.old.held }
    ensures calls { calls.new.held ≡ calls.old.held }
{
    let mut held = answers.take_to_change(alloc);
    let held_calls = calls.take(alloc);
    let call = call_seen(held_content(&held_calls), number);
    let status = refuse(alloc, &mut held, call, kind, message);
    answers.put(alloc, held);
    calls.put(alloc, held_calls);
    status
}

/// Puts a fault as the answer to a call into the table that a handle holds, where its message is a
/// text.
fn refuse(
    alloc: Global,
    held: &mut Option<Box<HandleContent>>,
    call: Result<&Value, Refusal>,
    kind: u32,
    message: &[u8],
) -> u32
    ensures { IsRefusing (option_map (λ b. b.value) held.old)
        (result_map_both (λ c. view c.now) (λ r. r) call.entry) kind message.now result
        (option_map (λ b. b.value) held.new) }
{
    match str::from_utf8(message) {
        Ok(message) => put(alloc, held, call, Ok(fault_of(alloc, kind, message))),
        Err(_) => put(alloc, held, call, Err(Refusal::NoText)),
    }
}

/// The call of a number in a handle.
fn call_seen(held: Option<&Content>, number: usize) -> Result<&Value, Refusal>
    ensures { result_map_both (λ c. view c.now) (λ r. r) result ≡
        call_of_handle number (option_map (λ h. h.now) held.entry) }
{
    match held {
        Some(Content::Lacking(calls)) => match calls.get(number) {
            Some(call) => Ok(call),
            None => Err(Refusal::NoSuchCall),
        },
        _ => Err(Refusal::OtherHandle),
    }
}

/// The answer that the data in a handle have, or none where there is no room for it.
fn answer_seen(alloc: Global, held: Option<&Content>) -> Result<Option<Answer>, Refusal>
    ensures { Given result (answer_of_handle (option_map (λ h. h.now) held.entry)) }
{
    match held {
        Some(Content::Data(data)) => Ok(answer_in(alloc, data)),
        _ => Err(Refusal::OtherHandle),
    }
}

fn answer_in(alloc: Global, data: &Object) -> Option<Answer>
    ensures { MatchOption result ⊤ (λ a. said_by a ≡ Ok (answer_among «data».now)) }
{
    let Some(value) = look_up(data, "answer") else {
        return Some(Answer::Value(Value::Nil));
    };
    match value.copy(alloc) {
        Ok(value) => Some(Answer::Value(value)),
        Err(_) => None,
    }
}

/// A fault as an answer, or none where there is no room for it.
fn fault_of(alloc: Global, kind: u32, message: &str) -> Option<Answer>
    ensures { MatchOption result ⊤ (λ a. said_by a ≡ Err (kind_among kinds_of_runs kind)) }
{
    match String::from_str(alloc, message) {
        Ok(message) => Some(Answer::Fault(kind_of(&KINDS, kind), message)),
        Err(_) => None,
    }
}

/// The one of these kinds with this number, or `InvalidInput`.
fn kind_of(kinds: &[ErrorKind], number: u32) -> ErrorKind
    ensures { result ≡ kind_among kinds.now number }
{
    for kind in kinds {
        if u32::from(kind.number()) == number {
            return *kind;
        }
    }
    ErrorKind::InvalidInput
}

/// Puts an answer to a call into the table that a handle holds.
fn put(
    alloc: Global,
    held: &mut Option<Box<HandleContent>>,
    call: Result<&Value, Refusal>,
    answer: Result<Option<Answer>, Refusal>,
) -> u32
    ensures { (wanted : Answered (Answered Datum ErrorKind) Refusal) → Given answer wanted →
        IsAnswering (option_map (λ b. b.value) held.old)
        (result_map_both (λ c. view c.now) (λ r. r) call.entry) wanted result
        (option_map (λ b. b.value) held.new) }
{
    let call = match call {
        Ok(call) => call,
        Err(refusal) => return refusal.number(),
    };
    let answer = match answer {
        Ok(answer) => answer,
        Err(refusal) => return refusal.number(),
    };
    match held {
        Some(held) => match &mut **held {
            HandleContent::Own(Content::Answers(table)) => put_answer(alloc, table, call, answer),
            HandleContent::Shared(_) => Refusal::SharedHandle.number(),
            _ => Refusal::OtherHandle.number(),
        },
        None => Refusal::OtherHandle.number(),
    }
}

fn put_answer(alloc: Global, table: &mut Answers, call: &Value, answer: Option<Answer>) -> u32
    ensures { (said : Answered Datum ErrorKind) → MatchOption answer ⊤ (λ a. said_by a ≡ said) →
        ChangesTable (StoresAnswer (view call.now) said) table.old result
        (Some (Own (content.Answers table.new))) }
{
    let Some(answer) = answer else {
        return u32::from(ErrorKind::Memory.number());
    };
    let Ok(call) = call.copy(alloc) else {
        return u32::from(ErrorKind::Memory.number());
    };
    match table.put(call, answer) {
        Ok(()) => 0,
        Err(fault) => u32::from(fault.kind.number()),
    }
}
