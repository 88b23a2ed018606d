//! The filters of Shopify's tags and blocks that are no forms.
ghost use Rattle.std.specs.Prelude.{map, string_bytes};
ghost use Rattle.liquid_model.specs.Answer.{Answers, IsValueOrMemory};
ghost use Rattle.liquid_model.specs.View.{view};
ghost use Rattle.liquid_shopify_host_filters.specs.Sections.{no_text_answer, section_answer};
ghost use Rattle.liquid_shopify_host_filters.specs.Sections.{style_answer};
ghost use Rattle.liquid_shopify_host_filters.specs.Sections.{style_element};

use liquid_filters::{property, text_or};
use liquid_model::{Error, ErrorKind, Quoted, Result, Value, text_of};
use std::alloc::Global;

/// `style`: the input's text as rules of style.
pub(crate) fn style_answer(alloc: Global, input: &Value) -> Result<Value>
    ensures { Answers view result (style_answer (view input.now)) }
{
    let css = text_of(alloc, input)?;
    Ok(Value::Text(style_element(alloc, css.as_str())?))
}

fn style_element(alloc: Global, css: &str) -> Result<String>
    ensures { IsValueOrMemory (λ s. string_bytes s) result (style_element css.now) }
{
    Ok(format!(in alloc; "<style data-shopify>{css}</style>")?)
}

/// `no_text`: the empty text, whatever the input.
pub(crate) fn no_text(alloc: Global) -> Result<Value>
    ensures { Answers view result no_text_answer }
{
    Ok(Value::Text(String::new(alloc)))
}

/// `section`: the text that the input, a map of sections, has under the argument's name.
/// `InvalidArgument` where it has none.
pub(crate) fn section_answer(alloc: Global, input: &Value, args: &[Value]) -> Result<Value>
    ensures { Answers view result (section_answer (view input.now) (map view args.now)) }
{
    let name = text_or(alloc, args, 0, "")?;
    let name = name.as_str();
    match property(input, name) {
        Some(Value::Text(section)) => {
            Ok(Value::Text(String::from_str(alloc, section.as_str())?))
        },
        _ => Err(Error::formatted(
            alloc,
            ErrorKind::InvalidArgument,
            format_args!(
                "`{}` has no text; give it in the data, as `sections['{}']`",
                Quoted { text: name },
                Quoted { text: name }
            ),
        )),
    }
}
