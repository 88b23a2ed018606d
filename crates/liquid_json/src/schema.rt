//! A JSON Schema of what a template asks of its data.
ghost use Rattle.std.specs.Prelude.{◌≡◌, ◌++◌, codes, IfOk, OnOk, string_bytes};
ghost use Rattle.liquid_model.specs.UseViews.{members_view, turns_view, use_view};
ghost use Rattle.liquid_json.specs.Schemas.{are_none, bare_tokens, entry_tokens};
ghost use Rattle.liquid_json.specs.Schemas.{item_use_tokens};
ghost use Rattle.liquid_json.specs.Schemas.{properties_start, properties_tokens};
ghost use Rattle.liquid_json.specs.Schemas.{schema_text, use_tokens};

use crate::json_text::text_of_bytes;
use json::{Pretty, Token};
use liquid_model::{ItemUse, Use, Uses};
use std::alloc::{AllocError, Global};

/// The draft of JSON Schema that the schema is of.
const DRAFT: &str = "https://json-schema.org/draft/2020-12/schema";

/// The schema of data of which this is asked, indented, its last line ended. A name and a member
/// that is asked for are a property each, and the items of a loop are `items`. Nothing is required,
/// and no value refused: data that lack a path, or have more, are of the schema as well.
///
/// `AllocError` where there is no room for it, and nowhere else.
pub fn schema_of(alloc: Global, uses: &Uses) -> Result<String, AllocError>
    ensures { IfOk result (λ text. string_bytes text
        ≡ schema_text (members_view uses.now.entries)) }
{
    let mut schema = Pretty::new(alloc);
    schema.token(Token::BeginObject)?;
    put_text(&mut schema, "$schema", DRAFT)?;
    put_text(&mut schema, "type", "object")?;
    put_properties(uses, &mut schema)?;
    schema.token(Token::EndObject)?;
    let mut text = text_of_bytes(schema.into_inner());
    text.push_str("\n")?;
    Ok(text)
}

/// Puts a text under a key.
fn put_text(schema: &mut Pretty, key: &str, text: &str) -> Result<(), AllocError>
    ensures { OnOk result (schema.new ≡ schema.old ++ entry_tokens key.now text.now) }
{
    schema.token(Token::Key(key))?;
    schema.token(Token::String(text))
}

/// Puts the schema of a value of which this is asked: `{}` where no part of it is.
#[cycle(put)]
#[tactic(auto, using(crate::proofs::Appended::around))]
fn put_schema(asked: &Use, schema: &mut Pretty) -> Result<(), AllocError>
    ensures { OnOk result (schema.new ≡ schema.old ++ use_tokens (use_view asked.now)) }
{
    match asked {
        Use::Nothing => put_bare(schema),
        Use::Everything => put_bare(schema),
        Use::Parts { members, items } => {
            schema.token(Token::BeginObject)?;
            if are_none(members) {
                put_items(items, schema)?;
                return schema.token(Token::EndObject);
            }
            put_properties(members, schema)?;
            put_items(items, schema)?;
            schema.token(Token::EndObject)
        }
    }
}

/// Puts `{}`.
fn put_bare(schema: &mut Pretty) -> Result<(), AllocError>
    ensures { OnOk result (schema.new ≡ schema.old ++ bare_tokens) }
{
    schema.token(Token::BeginObject)?;
    schema.token(Token::EndObject)
}

fn are_none(members: &Uses) -> bool
    ensures { result ≡ are_none (members_view members.now.entries) }
{
    members.is_empty()
}

/// Puts the schema of the items, where a loop goes over them.
#[cycle(put)]
fn put_items(items: &Option<ItemUse>, schema: &mut Pretty) -> Result<(), AllocError>
    ensures { OnOk result (schema.new ≡ schema.old ++ item_use_tokens (turns_view items.now)) }
{
    match items {
        Some(item) => {
            schema.token(Token::Key("items"))?;
            put_schema(&item.each, schema)
        }
        None => Ok(()),
    }
}

/// Puts the schemas of members, each under its key, as the properties.
#[cycle(put)]
fn put_properties(members: &Uses, schema: &mut Pretty) -> Result<(), AllocError>
    ensures { OnOk result
        (schema.new ≡ schema.old ++ properties_tokens (members_view members.now.entries)) }
{
    begin_properties(schema)?;
    for (key, asked) in members.iter() {
        schema.token(Token::Key(key.as_str()))?;
        put_schema(asked, schema)?;
    }
    schema.token(Token::EndObject)
}

fn begin_properties(schema: &mut Pretty) -> Result<(), AllocError>
    ensures { OnOk result (schema.new ≡ schema.old ++ properties_start) }
{
    schema.token(Token::Key("properties"))?;
    schema.token(Token::BeginObject)
}
