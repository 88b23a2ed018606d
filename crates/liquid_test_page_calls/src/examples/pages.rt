//! Pages of a caller who names one crate. docs/use/rattle.md shows the first of them.
use liquid_lib::stdlib::Upcase;
use liquid_lib::{
    Counted, FilterKind, Language, Object, Page, Partials, Renderable, Result, Runtime,
    RuntimeBuilder, Template, Value, language, parse, render_page, render_source,
};
use std::alloc::Global;

/// A name and two numbers.
fn data(alloc: Global) -> Result<Object> {
    let numbers = vec![in alloc; Value::Integer(1), Value::Integer(2)]?;
    let mut data = Object::new(alloc);
    data.insert(String::from_str(alloc, "numbers")?, Value::Array(numbers))?;
    let ada = String::from_str(alloc, "Ada")?;
    data.insert(String::from_str(alloc, "name")?, Value::Text(ada))?;
    Ok(data)
}

/// A page as a text.
pub(crate) fn page(alloc: Global) -> Result<String> {
    let source = "{{ name }}:{% for n in numbers %} {{ n | times: 2 }}{% endfor %}";
    let template: Template = parse(alloc, source, &language(alloc)?)?;
    let mut runtime: Runtime<'_> = RuntimeBuilder::new(alloc)
        .set_globals(data(alloc)?)
        .build(alloc);
    template.render(alloc, &mut runtime)
}

/// A page of a source that is rendered once, to a writer: here bytes in memory.
pub(crate) fn page_in_bytes(alloc: Global) -> Result<Vec<u8>> {
    let data = data(alloc)?;
    let language = language(alloc)?;
    let mut runtime = RuntimeBuilder::new(alloc).set_globals(data).build(alloc);
    let bytes: Vec<u8> = Vec::new(alloc);
    let mut writer = Counted::new(bytes);
    render_source(alloc, "{{ name }}", &language, &mut writer, &mut runtime)?;
    Ok(writer.into_inner())
}

/// A page that ends by a fault inside a partial: its text up to there, and the fault's kind.
pub(crate) fn page_with_fault(alloc: Global) -> Result<String> {
    let page = page_of_a_row(alloc, &language(alloc)?)?;
    let kind = page.fault.map_or("no fault", |fault| fault.kind.name());
    Ok(format!(in alloc; "{}({kind})", page.text)?)
}

/// A page that includes a row.
fn page_of_a_row(alloc: Global, language: &Language) -> Result<Page> {
    let partials = row_alone(alloc, language)?;
    let template = parse(alloc, "{% include 'row' %}", language)?;
    render_page(alloc, &template, &partials, 1, &data(alloc)?)
}

/// The row as the one partial. It mentions a name that isn't there.
fn row_alone(alloc: Global, language: &Language) -> Result<Partials> {
    let name = String::from_str(alloc, "row")?;
    let row = parse(alloc, "{{ name }}, {{ age }}", language)?;
    let mut partials = Partials::new(alloc);
    partials.insert(name, row)?;
    Ok(partials)
}

/// A page in a language of one's own.
pub(crate) fn language_of_ones_own(alloc: Global) -> Result<String> {
    let template = parse(alloc, "{{ 'b' | upcase }}", &small_language(alloc)?)?;
    let mut runtime = RuntimeBuilder::new(alloc).build(alloc);
    template.render(alloc, &mut runtime)
}

/// A language of one filter, without tags and blocks.
fn small_language(alloc: Global) -> Result<Language> {
    let name = String::from_str(alloc, "upcase")?;
    let mut small = Language::new(alloc);
    small.filters.register(name, FilterKind::from(Upcase))?;
    Ok(small)
}
