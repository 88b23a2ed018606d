//! Texts in maps of the data.
ghost use Rattle.std.specs.Prelude.{◌≡◌, option_map};
ghost use Rattle.liquid_model.specs.Find.{value_at};
ghost use Rattle.liquid_model.specs.View.{pairs_view, view};
ghost use Rattle.liquid_filter_sets.specs.Settings.{member_text, or_empty, setting_text};
ghost use Rattle.liquid_filter_sets.specs.Settings.{found_setting_text, text_in};

use liquid_model::{Object, Value, look_up};

/// The text at a name of the map at another. It takes no memory.
pub(crate) fn member_text<'d>(data: &'d Object, map: &str, name: &str) -> Option<&'d str>
    ensures { option_map (λ t. t.now) result
        ≡ member_text map.now name.now (pairs_view «data».now.entries) }
{
    match look_up(data, map) {
        Some(value) => text_in(value, name),
        None => None,
    }
}

/// The text at a name of a value, where that is a map.
pub(crate) fn text_in<'d>(value: &'d Value, name: &str) -> Option<&'d str>
    ensures { option_map (λ t. t.now) result ≡ text_in name.now (view value.now) }
{
    match value {
        Value::Object(members) => text_at(members, name),
        _ => None,
    }
}

fn text_at<'d>(members: &'d Object, name: &str) -> Option<&'d str>
    ensures { option_map (λ t. t.now) result
        ≡ found_setting_text (value_at name.now (pairs_view members.now.entries)) }
{
    match look_up(members, name) {
        Some(value) => own_text(value),
        None => None,
    }
}

/// The text that a value is, where it is one.
pub(crate) fn own_text(value: &Value) -> Option<&str>
    ensures { option_map (λ t. t.now) result ≡ setting_text (view value.now) }
{
    match value {
        Value::Text(text) => Some(text.as_str()),
        _ => None,
    }
}

/// A text, or the empty one. It takes no memory.
pub(crate) fn or_empty(text: Option<&str>) -> &str
    ensures { result.now ≡ or_empty (option_map (λ t. t.now) text.entry) }
{
    match text {
        Some(text) => text,
        None => "",
    }
}
