//! The filter that writes the address of a product's image.
ghost use Rattle.std.specs.Prelude.{◌≡◌, map, option_map, string_bytes};
ghost use Rattle.liquid_model.specs.Answer.{Answers, IsValueOrMemory};
ghost use Rattle.liquid_model.specs.View.{view};
ghost use Rattle.liquid_shopify_host_filters.specs.Images.{after_dot, file_parts, image_parts};
ghost use Rattle.liquid_shopify_host_filters.specs.Images.{is_part, is_size, leading};
ghost use Rattle.liquid_shopify_host_filters.specs.Images.{product_img_url_answer, resized, sized};
ghost use Rattle.liquid_shopify_host_filters.specs.Images.{with_extension};

use liquid_filters::text_or;
use liquid_model::{Error, ErrorKind, Result, Value, text_of};
use std::alloc::Global;

/// The parts of the path of a product's image.
#[derive(Drop)]
struct ImagePath {
    name: String,
    extension: String,
}

/// `product_img_url`: the address of a product's image in a size, `small` where none is given.
/// `InvalidInput` where the input isn't the path of a product's image, and `InvalidArgument` where
/// the argument is no size.
pub(crate) fn product_img_url_answer(
    alloc: Global,
    prefix: &String,
    input: &Value,
    args: &[Value],
) -> Result<Value>
    ensures { Answers view result (product_img_url_answer (string_bytes prefix.now)
        (view input.now) (map view args.now)) }
{
    let url = text_of(alloc, input)?;
    let size = text_or(alloc, args, 0, "small")?;
    match image_parts(alloc, url.as_str())? {
        Some(path) => sized(alloc, prefix.as_str(), url.as_str(), &path, size.as_str()),
        None => Err(Error::new(
            alloc,
            ErrorKind::InvalidInput,
            "the input must be the path of a product's image, as `products/tea.jpg`",
        )),
    }
}

/// The address of an image in a size.
fn sized(alloc: Global, prefix: &str, url: &str, path: &ImagePath, size: &str) -> Result<Value>
    ensures { Answers view result (sized prefix.now url.now
        (string_bytes path.now.name, string_bytes path.now.extension) size.now) }
{
    if size == "original" {
        return Ok(Value::Text(format!(in alloc; "{prefix}{url}")?));
    }
    if !is_size(size) {
        return Err(Error::new(
            alloc,
            ErrorKind::InvalidArgument,
            "the size must be original, grande, large, medium, compact, small, thumb or icon",
        ));
    }
    Ok(Value::Text(resized(alloc, prefix, path, size)?))
}

fn resized(alloc: Global, prefix: &str, path: &ImagePath, size: &str) -> Result<String>
    ensures { IsValueOrMemory (λ s. string_bytes s) result
        (resized prefix.now (string_bytes path.now.name, string_bytes path.now.extension)
        size.now) }
{
    let name = path.name.as_str();
    let extension = path.extension.as_str();
    Ok(format!(in alloc; "{prefix}products/{name}_{size}.{extension}")?)
}

fn is_size(size: &str) -> bool
    ensures { result ≡ is_size size.now }
{
    matches!(
        size,
        "grande" | "large" | "medium" | "compact" | "small" | "thumb" | "icon"
    )
}

/// The parts of the path of a product's image, if it is one: `products/`, a name of letters,
/// digits, `_` and `-`, a dot, and an extension of two to four letters, digits and `_`. What
/// follows these isn't looked at.
fn image_parts(alloc: Global, url: &str) -> Result<Option<ImagePath>>
    ensures { IsValueOrMemory (λ o. option_map
        (λ p. (string_bytes p.name, string_bytes p.extension)) o) result (image_parts url.now) }
{
    match url.strip_prefix("products/") {
        Some(path) => file_parts(alloc, path.as_bytes()),
        None => Ok(None),
    }
}

fn file_parts(alloc: Global, path: &[u8]) -> Result<Option<ImagePath>>
    ensures { IsValueOrMemory (λ o. option_map
        (λ p. (string_bytes p.name, string_bytes p.extension)) o) result (file_parts path.now) }
{
    let name = leading(alloc, path, true)?;
    if name.is_empty() {
        return Ok(None);
    }
    match after_dot(path, name.len()) {
        Some(rest) => with_extension(alloc, name, rest),
        None => Ok(None),
    }
}

/// What follows the dot at a place, if one stands there.
fn after_dot(path: &[u8], place: usize) -> Option<&[u8]>
    ensures { option_map (λ s. s.now) result ≡ after_dot path.now place }
{
    if place < path.len() && path[place] == b'.' {
        return Some(&path[place + 1..]);
    }
    None
}

fn with_extension(alloc: Global, name: String, rest: &[u8]) -> Result<Option<ImagePath>>
    ensures { IsValueOrMemory (λ o. option_map
        (λ p. (string_bytes p.name, string_bytes p.extension)) o) result
        (with_extension (string_bytes name) rest.now) }
{
    let extension = leading(alloc, &rest[..rest.len().min(4)], false)?;
    if extension.len() < 2 {
        return Ok(None);
    }
    Ok(Some(ImagePath { name, extension }))
}

/// The letters, digits, `_` and, where they count, hyphens that the bytes begin with.
fn leading(alloc: Global, bytes: &[u8], hyphens: bool) -> Result<String>
    ensures { IsValueOrMemory (λ s. string_bytes s) result (leading hyphens bytes.now) }
{
    let mut out = String::new(alloc);
    for byte in bytes {
        if !is_part(*byte, hyphens) {
            return Ok(out);
        }
        out.push(char::from(*byte))?;
    }
    Ok(out)
}

fn is_part(byte: u8, hyphens: bool) -> bool
    ensures { result ≡ is_part hyphens byte }
{
    byte.is_ascii_alphanumeric() || byte == b'_' || (hyphens && byte == b'-')
}
