//! What an item has along a property as `a.b`.
ghost use Rattle.std.specs.Prelude.{◌≡◌, option_map};
ghost use Rattle.liquid_model.specs.View.{view};
ghost use Rattle.liquid_jekyll_host_filters.specs.Properties.{map_member, found_or_nil};
ghost use Rattle.liquid_jekyll_host_filters.specs.Properties.{dotted_property};

use liquid_model::{Value, look_up};

/// What the value has along the property, whose names are parted by `.`; none is nil. It takes no
/// memory.
pub(crate) fn property<'a>(item: &'a Value, name: &str) -> Option<&'a Value>
    ensures { found_or_nil (option_map (λ v. view v.now) result) ≡
        dotted_property name.now (view item.now) }
{
    let mut found = Some(item);
    let mut rest = name;
    while let Some((first, more)) = rest.split_once('.') {
        found = member(found, first);
        rest = more;
    }
    member(found, rest)
}

/// What a value has at the name, where it is a map.
pub(crate) fn member<'a>(found: Option<&'a Value>, name: &str) -> Option<&'a Value>
    ensures { found_or_nil (option_map (λ v. view v.now) result) ≡
        map_member name.now (found_or_nil (option_map (λ v. view v.now) found.entry)) }
{
    match found {
        Some(Value::Object(pairs)) => look_up(pairs, name),
        _ => None,
    }
}
