//! Uses written as paths.
ghost use Rattle.std.specs.Prelude.{◌≡◌, ◌++◌, ◌||◌, IfOk, OnOk, string_bytes};
ghost use Rattle.std.specs.BTreeSet.{IsOrdered};
ghost use Rattle.std.specs.List.{list_all};
ghost use Rattle.std.specs.String.{string_cmp};
ghost use Rattle.liquid_evaluation.specs.Names.{mentioned};
ghost use Rattle.liquid_model.specs.Answer.{IsValueOrMemory};
ghost use Rattle.liquid_model.specs.Uses as seen;
ghost use Rattle.liquid_model.specs.UseViews.{members_view, turns_view, use_view};
ghost use Rattle.liquid_syntax.specs.NameSets.{added, mentioned_in_set};
ghost use Rattle.liquid_uses.specs.Paths as spec;
ghost use Rattle.liquid_uses.specs.Paths.{item_paths, member_paths, paths_in, use_paths};

use liquid_core::{ItemUse, Use, Uses};
use std::alloc::{AllocError, Global};
use std::collections::BTreeSet;
use std::result::Result;

/// The uses as paths, ascending and each once: `products[].title` asks for the whole title of each
/// product, `customer?` only whether there is a customer, and of which kind.
///
/// `[]` is each item that a loop goes over, and `?` after it stands for how many there are. Where a
/// member's key isn't made of letters, digits, `_` and `-`, the value that it is a member of is
/// asked for whole. Nothing but the paths is kept, each of them a text of its own.
///
/// `Memory` where there is no room for them.
pub fn paths_of(alloc: Global, uses: &Uses) -> liquid_core::Result<BTreeSet<String>>
    ensures exact { IsValueOrMemory mentioned_in_set result
        (mentioned (paths_in (members_view uses.now.entries))) }
    ensures ascending { IfOk result (λ paths. IsOrdered string_cmp paths) }
{
    let mut paths = BTreeSet::new(alloc);
    for (name, asked) in uses.iter() {
        add_paths(asked, alloc, name.as_str(), &mut paths)?;
    }
    // No effect at run time. The proof reads from this use that the paths ascend.
    let _ = paths.len();
    Ok(paths)
}

/// Adds the paths of what is asked of the value at a path.
#[cycle(add)]
fn add_paths(
    asked: &Use,
    alloc: Global,
    path: &str,
    paths: &mut BTreeSet<String>,
) -> Result<(), AllocError>
    ensures { OnOk result (mentioned_in_set paths.new
        ≡ added (use_paths path.now (use_view asked.now)) (mentioned_in_set paths.old)) }
{
    match asked {
        Use::Nothing => Ok(()),
        Use::Everything => add_path(alloc, path, "", paths),
        Use::Parts { members, items } => {
            if !are_words(members) {
                return add_path(alloc, path, "", paths);
            }
            if !asks_parts(members, items) {
                return add_path(alloc, path, "?", paths);
            }
            add_member_paths(members, alloc, path, paths)?;
            add_item_paths(items, alloc, path, paths)
        }
    }
}

/// Adds the paths of what is asked of each member of the value at a path.
#[cycle(add)]
fn add_member_paths(
    members: &Uses,
    alloc: Global,
    path: &str,
    paths: &mut BTreeSet<String>,
) -> Result<(), AllocError>
    ensures { OnOk result (mentioned_in_set paths.new
        ≡ added (member_paths path.now (members_view members.now.entries))
        (mentioned_in_set paths.old)) }
{
    for (key, asked) in members.iter() {
        let inner = joined_path(alloc, path, ".", key.as_str())?;
        add_paths(asked, alloc, inner.as_str(), paths)?;
    }
    Ok(())
}

/// Adds the paths of what is asked of each item of the value at a path.
#[cycle(add)]
fn add_item_paths(
    items: &Option<ItemUse>,
    alloc: Global,
    path: &str,
    paths: &mut BTreeSet<String>,
) -> Result<(), AllocError>
    ensures { OnOk result (mentioned_in_set paths.new
        ≡ added (item_paths path.now (turns_view items.now)) (mentioned_in_set paths.old)) }
{
    match items {
        None => Ok(()),
        Some(asked) => {
            let each = joined_path(alloc, path, "[", "]")?;
            if asks_whether(&asked.each) {
                add_paths(&asked.each, alloc, each.as_str(), paths)
            } else {
                add_path(alloc, each.as_str(), "?", paths)
            }
        }
    }
}

/// Adds a path with its mark.
fn add_path(
    alloc: Global,
    path: &str,
    mark: &str,
    paths: &mut BTreeSet<String>,
) -> Result<(), AllocError>
    ensures { OnOk result (mentioned_in_set paths.new
        ≡ added (spec.one_path (path.now ++ mark.now)) (mentioned_in_set paths.old)) }
{
    paths.insert(joined_path(alloc, path, mark, "")?)?;
    Ok(())
}

/// Three texts after one another.
fn joined_path(alloc: Global, path: &str, mark: &str, key: &str) -> Result<String, AllocError>
    ensures { IfOk result (λ text. string_bytes text ≡ path.now ++ (mark.now ++ key.now)) }
{
    let mut text = String::from_str(alloc, path)?;
    text.push_str(mark)?;
    text.push_str(key)?;
    Ok(text)
}

/// Whether something is asked of the items or of a member.
fn asks_parts(members: &Uses, items: &Option<ItemUse>) -> bool
    ensures { result ≡ (seen.has_every (turns_view items.now)
        || spec.asks_members (members_view members.now.entries)) }
{
    items.is_some() || asks_members(members)
}

fn asks_members(members: &Uses) -> bool
    ensures { result ≡ spec.asks_members (members_view members.now.entries) }
{
    for (_, asked) in members.iter() {
        if asks_whether(asked) {
            return true;
        }
    }
    false
}

fn asks_whether(asked: &Use) -> bool
    ensures { result ≡ seen.asks_whether (use_view asked.now) }
{
    !matches!(asked, Use::Nothing)
}

/// Whether each key can stand in a path.
fn are_words(members: &Uses) -> bool
    ensures { result ≡ spec.are_words (members_view members.now.entries) }
{
    for (key, _) in members.iter() {
        if !is_word(key.as_str()) {
            return false;
        }
    }
    true
}

fn is_word(key: &str) -> bool
    ensures { result ≡ spec.is_dotted_key key.now }
{
    !key.is_empty() && are_word_bytes(key)
}

fn are_word_bytes(key: &str) -> bool
    ensures { result ≡ list_all spec.is_word_byte key.now }
{
    key.bytes().all(|byte| byte.is_ascii_alphanumeric()
        || byte == b'_'
        || byte == b'-'
        || byte >= 128)
}
