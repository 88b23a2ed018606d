//! How a host writes and registers a filter. docs/use/rattle.md shows this file.
use liquid_lib::{Filter, HostFilters, Renderable, Result, RuntimeBuilder, Value, language, parse};
use std::alloc::Global;

/// The input's text with a unit after it.
#[derive(Drop)]
struct WithUnit {
    unit: &'static str,
}

impl Filter for WithUnit {
    ghost use Rattle.std.specs.Prelude.{◌++◌, Ok, nat_eq};
    ghost use Rattle.liquid_model.specs.Data.{text, text_of};

    // How many arguments it takes: none.
    ghost counts = { λ _ count. nat_eq count 0 };

    // What it answers to an input and arguments. Each call is proved to answer this, or `Memory`
    // where there is no room.
    ghost answer = { λ filter input _. Ok (text (text_of input ++ filter.unit.now)) };

    fn accepts(&self, count: usize) -> bool {
        count == 0
    }

    fn evaluate(&self, alloc: Global, input: &Value, _args: &[Value]) -> Result<Value> {
        let mut whole = input.text(alloc)?;
        whole.push_str(self.unit)?;
        Ok(Value::Text(whole))
    }
}

/// The page of a template that calls the filter by the name `in_km`.
pub(crate) fn hosted_page(alloc: Global) -> Result<String> {
    // A template may call it without arguments: with at least 0, and at most 0.
    let mut language = language(alloc)?;
    let name = String::from_str(alloc, "in_km")?;
    language.filters.register_host(name, 0, 0)?;
    let template = parse(alloc, "Swim {{ 7 | in_km | append: '!' }}", &language)?;

    // A run finds it by the same name.
    let in_km: Box<dyn Filter> = Box::new(alloc, WithUnit { unit: " km" })?;
    let mut filters = Vec::new(alloc);
    filters.push((String::from_str(alloc, "in_km")?, in_km))?;
    let host = HostFilters::new(filters);
    let mut runtime = RuntimeBuilder::new(alloc)
        .set_host_filters(&host)
        .build(alloc);
    template.render(alloc, &mut runtime)
}
