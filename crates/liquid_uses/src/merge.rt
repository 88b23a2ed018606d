//! Uses put together. Nothing here has a contract: what comes of it is tested by `covers`, or by
//! `asks_all`.

use liquid_core::{ItemUse, Use, Uses};
use std::alloc::{AllocError, Global};
use std::collections::BTreeMap;

/// How many bytes of the path of a part count as one more.
const PATH_BYTES: usize = 32;

/// A copy of a use.
#[cycle(copy)]
pub(crate) fn copied(alloc: Global, asked: &Use) -> Result<Use, AllocError> {
    match asked {
        Use::Nothing => Ok(Use::Nothing),
        Use::Everything => Ok(Use::Everything),
        Use::Parts { members, items } => {
            let members = copied_members(alloc, members)?;
            let items = match items {
                Some(item) => Some(ItemUse {
                    limit: item.limit,
                    each: Box::new(alloc, copied(alloc, &item.each)?)?,
                }),
                None => None,
            };
            Ok(Use::Parts { members, items })
        }
    }
}

#[cycle(copy)]
pub(crate) fn copied_members(alloc: Global, members: &Uses) -> Result<Uses, AllocError> {
    let mut copies: Uses = BTreeMap::new(alloc);
    for (name, asked) in members.iter() {
        let key = String::from_str(alloc, name.as_str())?;
        drop(copies.insert(key, copied(alloc, asked)?)?);
    }
    Ok(copies)
}

/// What both uses ask for.
#[cycle(join)]
pub(crate) fn joined(alloc: Global, more: Use, held: Use) -> Result<Use, AllocError> {
    match more {
        Use::Nothing => Ok(held),
        Use::Everything => Ok(Use::Everything),
        Use::Parts {
            members: others,
            items: other_items,
        } => match held {
            Use::Nothing => Ok(Use::Parts {
                members: others,
                items: other_items,
            }),
            Use::Everything => Ok(Use::Everything),
            Use::Parts { members, items } => Ok(Use::Parts {
                members: joined_members(alloc, others, members)?,
                items: joined_items(alloc, other_items, items)?,
            }),
        },
    }
}

#[cycle(join)]
pub(crate) fn joined_members(alloc: Global, more: Uses, held: Uses) -> Result<Uses, AllocError> {
    let mut members = held;
    for (name, asked) in more {
        let both = match members.remove(name.as_str()) {
            Some(before) => joined(alloc, asked, before)?,
            None => asked,
        };
        drop(members.insert(name, both)?);
    }
    Ok(members)
}

#[cycle(join)]
fn joined_items(
    alloc: Global,
    more: Option<ItemUse>,
    held: Option<ItemUse>,
) -> Result<Option<ItemUse>, AllocError> {
    match more {
        None => Ok(held),
        Some(asked) => match held {
            None => Ok(Some(asked)),
            Some(before) => {
                let limit = further(asked.limit, before.limit);
                let each = joined(
                    alloc,
                    Box::into_inner(asked.each),
                    Box::into_inner(before.each),
                )?;
                Ok(Some(ItemUse {
                    limit,
                    each: Box::new(alloc, each)?,
                }))
            }
        },
    }
}

/// The larger of two limits.
fn further(one: Option<usize>, other: Option<usize>) -> Option<usize> {
    match (one, other) {
        (Some(one), Some(other)) => Some(one.max(other)),
        _ => None,
    }
}

/// How many parts a use has, in all depths. The path of a part counts too: `above` is how many
/// bytes it has above the use.
#[cycle(count)]
pub(crate) fn part_count(asked: &Use, above: usize) -> usize {
    let own = (above / PATH_BYTES).saturating_add(1);
    match asked {
        Use::Nothing | Use::Everything => own,
        Use::Parts { members, items } => {
            let inner = match items {
                Some(item) => part_count(&item.each, above),
                None => 0,
            };
            member_count(members, above)
                .saturating_add(inner)
                .saturating_add(own)
        }
    }
}

#[cycle(count)]
fn member_count(members: &Uses, above: usize) -> usize {
    let mut count: usize = 0;
    for (name, asked) in members.iter() {
        let inner = part_count(asked, above.saturating_add(name.len()));
        count = count.saturating_add(inner);
    }
    count
}
