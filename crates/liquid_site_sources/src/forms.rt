//! What the files of a site give as data, by the ends of their paths.
ghost use Rattle.std.specs.Prelude.{◌≡◌, ◌≤◌, ◌==◌, length, not};
ghost use Rattle.std.specs.List.{list_all};
ghost use Rattle.std.specs.Path.{slash};
ghost use Rattle.liquid_model.specs.Answer.{Answers};
ghost use Rattle.liquid_model.specs.ErrorKinds.{IsKindOrMemory};
ghost use Rattle.liquid_model.specs.View.{pairs_view, view};
ghost use Rattle.liquid_data.specs.TomlData.{toml_document_data};
ghost use Rattle.liquid_site_sources.specs.SourceForms as spec;

use liquid_data::data_from_toml;
use liquid_json::{data_from_json, value_from_json};
use liquid_model::{Error, ErrorKind, Object, Result, Value};
use liquid_yaml::{data_from_yaml, value_from_yaml};
use std::alloc::Global;

fn in_suffix(byte: u8) -> bool
    ensures { result ≡ spec.in_suffix byte }
{
    byte != b'.' && byte != b'/'
}

/// After how many bytes what follows the last dot or slash starts.
fn suffix_start(bytes: &[u8]) -> usize
    ensures value { result ≡ spec.suffix_start bytes.now }
    ensures within { result ≤ length bytes.now }
{
    let mut n = bytes.len();
    while n > 0 && in_suffix(bytes[n - 1]) {
        n -= 1;
    }
    n
}

/// A file's name without its suffix.
#[tactic(auto, using(crate::proofs::Texts::dot_cut))]
pub(crate) fn file_stem(name: &str) -> &str
    ensures { result.now ≡ spec.file_stem name.now }
{
    let n = suffix_start(name.as_bytes());
    if n > 0 && name.as_bytes()[n - 1] == b'.' {
        &name[..n - 1]
    } else {
        name
    }
}

fn has_file_end(path: &str, end: &str) -> bool
    ensures { result ≡ spec.has_file_end path.now end.now }
{
    let bytes = path.as_bytes();
    match bytes.len().checked_sub(end.len()) {
        Some(start) => &bytes[start..] == end.as_bytes(),
        None => false,
    }
}

fn is_yaml_path(path: &str) -> bool
    ensures { result ≡ spec.is_yaml_path path.now }
{
    has_file_end(path, ".yml") || has_file_end(path, ".yaml")
}

/// The value of a data file of this name: YAML, JSON or TOML, by the end of the name.
///
/// The text is refused as `value_from_yaml`, `value_from_json` and `data_from_toml` refuse it, and
/// by `InvalidInput` where the name has another end, or a slash. `Memory` where a growth was
/// refused.
pub(crate) fn site_data(alloc: Global, name: &str, text: &str) -> Result<Value>
    ensures { Answers view result (spec.site_data name.now text.now) }
{
    if has_no_slash(name) {
        data_by_end(alloc, name, text)
    } else {
        Err(no_form(alloc))
    }
}

fn has_no_slash(name: &str) -> bool
    ensures { result ≡ list_all (λ b. not (b == slash)) name.now }
{
    name.bytes().all(|byte| byte != b'/')
}

fn data_by_end(alloc: Global, name: &str, text: &str) -> Result<Value>
    ensures { Answers view result (spec.data_by_end name.now text.now) }
{
    if is_yaml_path(name) {
        value_from_yaml(alloc, text)
    } else if has_file_end(name, ".json") {
        value_from_json(alloc, text)
    } else if has_file_end(name, ".toml") {
        toml_value(alloc, text)
    } else {
        Err(no_form(alloc))
    }
}

fn toml_value(alloc: Global, text: &str) -> Result<Value>
    ensures { Answers view result (spec.object_found (toml_document_data text.now)) }
{
    match data_from_toml(alloc, text) {
        Ok(members) => Ok(Value::Object(members)),
        Err(error) => Err(error),
    }
}

fn no_form(alloc: Global) -> Error
    ensures { IsKindOrMemory ErrorKind.InvalidInput result.kind }
{
    Error::new(
        alloc,
        ErrorKind::InvalidInput,
        "a data file of a site stands in the folder of data itself, and its name ends in .yml, \
         .json or .toml",
    )
}

/// The members of a site's configuration: YAML or TOML by the end of its path, and else JSON.
///
/// The text is refused as `data_from_yaml`, `data_from_toml` and `data_from_json` refuse it.
/// `Memory` where a growth was refused.
pub fn site_config(alloc: Global, path: &str, text: &str) -> Result<Object>
    ensures { Answers (λ m. pairs_view m.entries) result (spec.site_config path.now text.now) }
{
    if is_yaml_path(path) {
        data_from_yaml(alloc, text)
    } else if has_file_end(path, ".toml") {
        data_from_toml(alloc, text)
    } else {
        data_from_json(alloc, text)
    }
}
