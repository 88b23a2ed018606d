//! The filters of Jekyll's tags that lead to a page, a file or a post by its path in the folder of
//! the site.
ghost use Rattle.std.specs.List.{suffix_len};
ghost use Rattle.std.specs.Prelude.{◌≡◌, ◌≤◌, length, map, option_map};
ghost use Rattle.liquid_model.specs.Answer.{Answers};
ghost use Rattle.liquid_model.specs.Lists.{list_of};
ghost use Rattle.liquid_model.specs.View.{items_view, view};
ghost use Rattle.liquid_jekyll_host_filters.specs.Links.{past_front, begins_extension, first_in};
ghost use Rattle.liquid_jekyll_host_filters.specs.Links.{first_meant, meant_in, is_file};
ghost use Rattle.liquid_jekyll_host_filters.specs.Links.{in_file_name, is_page_at, is_post_at};
ghost use Rattle.liquid_jekyll_host_filters.specs.Links.{is_sought, item_path, item_url, led_to};
ghost use Rattle.liquid_jekyll_host_filters.specs.Links.{link_answer, named_post_url, page_url};
ghost use Rattle.liquid_jekyll_host_filters.specs.Links.{member_text_or_none, post_named};
ghost use Rattle.liquid_jekyll_host_filters.specs.Links.{post_url_answer};
ghost use Rattle.liquid_jekyll_host_filters.specs.Links.{without_first_slash};

use crate::highlight::ruby_stripped;
use crate::urls::site_url;
use liquid_model::{Result, Value, invalid_argument, look_up, text_of};
use std::alloc::Global;

/// What a markup of `link` has to be.
const PAGE: &str = "the path of a page, a file or a document of the site";

/// What a markup of `post_url` has to be.
const POST: &str = "the name of a post of the site, as `2020-01-31-tea`";

/// `link`: the URL, under the base path, of the first page, file or document of the lists that
/// stands at the path of the markup.
///
/// `InvalidArgument` where there is none, or no markup.
pub(crate) fn link(alloc: Global, base: &str, input: &Value, args: &[Value]) -> Result<Value>
    ensures { Answers view result (link_answer base.now (view input.now) (map view args.now)) }
{
    match args {
        [markup, lists @ ..] => page_url(alloc, base, markup, lists),
        [] => Err(invalid_argument(alloc, PAGE, input)),
    }
}

/// `post_url`: the URL, under the base path, of the first post of the lists that has the name of
/// the markup, as `2020-01-31-tea`, which may have folders before it.
///
/// `InvalidArgument` where there is none, or no markup.
pub(crate) fn post_url(alloc: Global, base: &str, input: &Value, args: &[Value]) -> Result<Value>
    ensures { Answers view result (post_url_answer base.now (view input.now) (map view args.now)) }
{
    match args {
        [markup, lists @ ..] => named_post_url(alloc, base, markup, lists),
        [] => Err(invalid_argument(alloc, POST, input)),
    }
}

fn page_url(alloc: Global, base: &str, markup: &Value, lists: &[Value]) -> Result<Value>
    ensures { Answers view result (page_url base.now (view markup.now) (map view lists.now)) }
{
    let text = text_of(alloc, markup)?;
    let path = ruby_stripped(text.as_str()).as_bytes();
    let found = first_in(lists, Sought::Page(path));
    url_of_found(alloc, base, found, markup, PAGE)
}

fn named_post_url(alloc: Global, base: &str, markup: &Value, lists: &[Value]) -> Result<Value>
    ensures { Answers view result (named_post_url base.now (view markup.now) (map view lists.now)) }
{
    let text = text_of(alloc, markup)?;
    let path = ruby_stripped(text.as_str()).as_bytes();
    let found = first_post(lists, without_first_slash(path));
    url_of_found(alloc, base, found, markup, POST)
}

/// The first item of lists that is a post of the name.
fn first_post<'v>(lists: &'v [Value], path: &[u8]) -> Option<&'v Value>
    ensures { option_map (λ v. view v.now) result ≡
        first_in (post_named path.now) (map view lists.now) }
{
    let (folder, name) = path.split_at(path.len() - name_len(path));
    first_in(lists, Sought::Post(folder, name))
}

/// The URL of what was found, or the fault of the markup.
fn url_of_found(
    alloc: Global,
    base: &str,
    found: Option<&Value>,
    markup: &Value,
    wanted: &str,
) -> Result<Value>
    ensures { Answers view result
        (led_to base.now (option_map (λ v. view v.now) found.entry)) }
{
    match found {
        Some(item) => led_to(alloc, base, item),
        None => Err(invalid_argument(alloc, wanted, markup)),
    }
}

/// What is looked for: a page by its path, or a post by its folder and its name.
#[derive(Clone, Copy)]
enum Sought<'t> {
    Page(&'t [u8]),
    Post(&'t [u8], &'t [u8]),
}

/// The URL of an item under the base path.
fn led_to(alloc: Global, base: &str, item: &Value) -> Result<Value>
    ensures { Answers view result (led_to base.now (Some (view item.now))) }
{
    let url = Value::Text(String::from_str(alloc, item_url(item))?);
    site_url(alloc, "", base, &url)
}

/// The first of the items of lists, list after list, that is meant.
fn first_in<'v>(lists: &'v [Value], sought: Sought<'_>) -> Option<&'v Value>
    ensures { option_map (λ v. view v.now) result ≡
        first_in (is_sought sought.entry) (map view lists.now) }
{
    for list in lists {
        if let Some(item) = meant_in(list, sought) {
            return Some(item);
        }
    }
    None
}

/// The first of a list's items that is meant.
fn meant_in<'v>(list: &'v Value, sought: Sought<'_>) -> Option<&'v Value>
    ensures { option_map (λ v. view v.now) result ≡
        meant_in (is_sought sought.entry) (view list.now) }
{
    match list {
        Value::Array(items) => first_meant(items, sought),
        _ => None,
    }
}

fn first_meant<'v>(items: &'v [Value], sought: Sought<'_>) -> Option<&'v Value>
    ensures { option_map (λ v. view v.now) result ≡
        first_meant (is_sought sought.entry) (list_of (items_view items.now)) }
{
    for item in items {
        if is_sought(item_path(item).as_bytes(), sought) {
            return Some(item);
        }
    }
    None
}

/// Where the item stands in the folder of the site.
fn item_path(item: &Value) -> &str
    ensures { result.now ≡ item_path (view item.now) }
{
    let path = member_text_or_none(item, "relative_path");
    if path.is_empty() {
        member_text_or_none(item, "path")
    } else {
        path
    }
}

/// The URL of the item, or where it stands.
fn item_url(item: &Value) -> &str
    ensures { result.now ≡ item_url (view item.now) }
{
    let url = member_text_or_none(item, "url");
    if url.is_empty() { item_path(item) } else { url }
}

/// The text that a map has at the name, or none.
fn member_text_or_none<'v>(item: &'v Value, name: &str) -> &'v str
    ensures { result.now ≡ member_text_or_none name.now (view item.now) }
{
    match item {
        Value::Object(pairs) => match look_up(pairs, name) {
            Some(Value::Text(text)) => text.as_str(),
            _ => "",
        },
        _ => "",
    }
}

fn is_sought(path: &[u8], sought: Sought<'_>) -> bool
    ensures { result ≡ is_sought sought.entry path.now }
{
    match sought {
        Sought::Page(page) => is_page_at(path, page),
        Sought::Post(folder, name) => is_post_at(path, folder, name),
    }
}

/// Whether the path is that of the page, which may begin with a slash that isn't written.
fn is_page_at(path: &[u8], page: &[u8]) -> bool
    ensures { result ≡ is_page_at page.now path.now }
{
    match path {
        [] => false,
        [first, rest @ ..] => path == page || (*first == b'/' && rest == page),
    }
}

/// Whether the path is that of a post of the name in the folder, below `_posts` or above it.
fn is_post_at(path: &[u8], folder: &[u8], name: &[u8]) -> bool
    ensures { result ≡ is_post_at folder.now name.now path.now }
{
    let posts = "_posts/".as_bytes();
    is_file(path, posts, folder, name) || is_file(path, folder, posts, name)
}

/// Whether the path has these two folders, one in the other, the name and an extension.
fn is_file(path: &[u8], outer: &[u8], inner: &[u8], name: &[u8]) -> bool
    ensures { result ≡ is_file outer.now inner.now name.now path.now }
{
    let Some(rest) = past_front(path, outer) else {
        return false;
    };
    let Some(rest) = past_front(rest, inner) else {
        return false;
    };
    match past_front(rest, name) {
        Some(rest) => begins_extension(rest),
        None => false,
    }
}

/// What stands after the front of a text.
fn past_front<'t>(text: &'t [u8], front: &[u8]) -> Option<&'t [u8]>
    ensures { option_map (λ rest. rest.now) result ≡ past_front front.now text.now }
{
    if text.starts_with(front) {
        Some(&text[front.len()..])
    } else {
        None
    }
}

/// Whether the text begins with a dot and another byte.
fn begins_extension(text: &[u8]) -> bool
    ensures { result ≡ begins_extension text.now }
{
    match text {
        [first, second, ..] => *first == b'.' && *second != b'.',
        _ => false,
    }
}

fn without_first_slash(path: &[u8]) -> &[u8]
    ensures { result.now ≡ without_first_slash path.now }
{
    match path {
        [first, rest @ ..] if *first == b'/' => rest,
        _ => path,
    }
}

/// How many bytes the name takes that a path ends with.
fn name_len(path: &[u8]) -> usize
    ensures value { result ≡ suffix_len in_file_name path.now }
    ensures within { result ≤ length path.now }
{
    path.iter()
        .rev()
        .take_while(|byte| in_file_name(**byte))
        .count()
}

fn in_file_name(byte: u8) -> bool
    ensures { result ≡ in_file_name byte }
{
    byte != b'/'
}
