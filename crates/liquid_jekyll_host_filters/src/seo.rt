//! The filter of the tag `seo`.
ghost use Rattle.std.specs.Prelude.{◌≡◌, map};
ghost use Rattle.liquid_model.specs.Answer.{Answers};
ghost use Rattle.liquid_model.specs.View.{view};
ghost use Rattle.liquid_jekyll_host_filters.specs.Seo.{given_text, seo_answer};

use liquid_model::{Result, Value, invalid_argument};
use std::alloc::Global;

/// `seo`: the last argument, which the tag is given as the variable `seo_tag` of the data: the text
/// that the plugin jekyll-seo-tag writes for the page, made by the builder of the site.
///
/// `InvalidArgument` where it is no text, or there is no argument; `Memory` where there is no room.
pub(crate) fn seo(alloc: Global, input: &Value, args: &[Value]) -> Result<Value>
    ensures { Answers view result (seo_answer (view input.now) (map view args.now)) }
{
    match args {
        [.., given] => given_text(alloc, given),
        [] => Err(invalid_argument(alloc, WANTED, input)),
    }
}

const WANTED: &str = "`seo_tag` of the data, the text that jekyll-seo-tag writes for the page";

fn given_text(alloc: Global, given: &Value) -> Result<Value>
    ensures { Answers view result (given_text (view given.now)) }
{
    match given {
        Value::Text(text) => Ok(Value::Text(String::from_str(alloc, text.as_str())?)),
        _ => Err(invalid_argument(alloc, WANTED, given)),
    }
}
