//! Values as texts of JSON.
ghost use Rattle.std.specs.Prelude.{◌≡◌, ◌++◌, string_bytes};
ghost use Rattle.std.specs.Str.{IsUtf8};
ghost use Rattle.liquid_model.specs.Answer.{IsValueOrMemory};
ghost use Rattle.liquid_model.specs.View.{view, items_view, pairs_view};
ghost use Rattle.liquid_json.specs.JsonTexts.{items_tokens, json_text, json_tokens, pairs_tokens};

use json::Writer;
use liquid_model::{Object, Result, Value};
use std::alloc::Global;

/// The value as JSON, with nothing between its tokens; the keys of a map stand in the order of
/// their bytes. `Memory` where there is no room for it, and no other kind.
pub fn json_of(alloc: Global, value: &Value) -> Result<String>
    ensures { IsValueOrMemory (λ s. string_bytes s) result (json_text (view value.now)) }
{
    let mut writer = Writer::new(Vec::new(alloc));
    write_value(&mut writer, value)?;
    Ok(text_of_bytes(writer.into_inner()))
}

/// The text of bytes that are UTF-8.
pub(crate) fn text_of_bytes(bytes: Vec<u8>) -> String
    requires { IsUtf8 bytes.items }
    ensures { string_bytes result ≡ bytes.items }
{
    match String::from_utf8(bytes) {
        Ok(text) => text,
        Err(_) => unreachable!(),
    }
}

/// Writes a value after what was written. Where there is no memory, a beginning of it may be
/// written.
#[cycle(write_value)]
fn write_value(writer: &mut Writer, value: &Value) -> Result<()>
    ensures tokens { IsValueOrMemory (λ _. writer.new.tokens) result
        (writer.old.tokens ++ json_tokens (view value.now)) }
    ensures before { writer.new.before ≡ writer.old.before }
{
    match value {
        Value::Nil => Ok(writer.null()?),
        Value::Bool(b) => Ok(writer.boolean(*b)?),
        Value::Integer(number) => Ok(writer.i64(*number)?),
        Value::Text(text) => Ok(writer.string(text.as_str())?),
        Value::Array(items) => {
            writer.begin_array()?;
            write_items(writer, items)
        }
        Value::Object(pairs) => {
            writer.begin_object()?;
            write_pairs(writer, pairs)
        }
    }
}

#[cycle(write_value)]
fn write_items(writer: &mut Writer, items: &Vec<Value>) -> Result<()>
    ensures tokens { IsValueOrMemory (λ _. writer.new.tokens) result
        (writer.old.tokens ++ items_tokens (items_view items.now.items)) }
    ensures before { writer.new.before ≡ writer.old.before }
{
    for item in items {
        write_value(writer, item)?;
    }
    Ok(writer.end_array()?)
}

#[cycle(write_value)]
fn write_pairs(writer: &mut Writer, pairs: &Object) -> Result<()>
    ensures tokens { IsValueOrMemory (λ _. writer.new.tokens) result
        (writer.old.tokens ++ pairs_tokens (pairs_view pairs.now.entries)) }
    ensures before { writer.new.before ≡ writer.old.before }
{
    for (key, value) in pairs.iter() {
        writer.key(key.as_str())?;
        write_value(writer, value)?;
    }
    Ok(writer.end_object()?)
}
