//! Uses found round after round. Nothing here has a contract: what comes of it is tested by
//! `covers`.

use crate::asking::ask_nodes;
use crate::demands::Demands;
use crate::merge::part_count;
use liquid_core::{Use, Uses, member_of};
use liquid_syntax::{Partials, Template};
use std::alloc::{AllocError, Global};
use std::collections::BTreeMap;

/// The most rounds one way: a partial that renders itself with a part of its data would go on for
/// ever.
const MOST_ROUNDS: usize = 8;

/// The most parts of one name's value that are kept apart: a name of which more is asked is asked
/// whole, so that a round takes time in the size of the template.
const MOST_PARTS: usize = 200;

/// The most parts that one round passes on from name to name: many loops over one variable of many
/// parts would take the product of both.
const MOST_COPIED: usize = 100_000;

/// What the template and the partials ask for: from nothing on, as long as that comes to an end, or
/// else from these uses of all names.
pub(crate) fn fixpoint_uses(
    alloc: Global,
    first: &Uses,
    template: &Template,
    partials: &Partials,
) -> Result<Uses, AllocError> {
    match grown_uses(alloc, template, partials)? {
        Some(uses) => Ok(uses),
        None => narrowed_uses(alloc, first, template, partials),
    }
}

/// The uses that grow from nothing, round after round, until a round asks for nothing more. None
/// where they don't stop growing.
fn grown_uses(
    alloc: Global,
    template: &Template,
    partials: &Partials,
) -> Result<Option<Uses>, AllocError> {
    let mut uses: Uses = BTreeMap::new(alloc);
    for _ in 0..MOST_ROUNDS {
        let next = next_round(alloc, &uses, template, partials)?;
        if are_included(&next, &uses) {
            return Ok(Some(uses));
        }
        uses = next;
    }
    Ok(None)
}

/// The uses that become fewer than these, round after round, until nothing changes any more.
fn narrowed_uses(
    alloc: Global,
    first: &Uses,
    template: &Template,
    partials: &Partials,
) -> Result<Uses, AllocError> {
    let mut uses = next_round(alloc, first, template, partials)?;
    for _ in 1..MOST_ROUNDS {
        let next = next_round(alloc, &uses, template, partials)?;
        if are_included(&uses, &next) {
            return Ok(next);
        }
        uses = next;
    }
    Ok(uses)
}

fn next_round(
    alloc: Global,
    before: &Uses,
    template: &Template,
    partials: &Partials,
) -> Result<Uses, AllocError> {
    let mut demands = Demands {
        alloc,
        before,
        found: BTreeMap::new(alloc),
        room: MOST_COPIED,
    };
    ask_nodes(&mut demands, template.nodes())?;
    for slot in partials.slots().values() {
        if let Some(partial) = slot {
            ask_nodes(&mut demands, partial.nodes())?;
        }
    }
    let Demands {
        alloc: _,
        before: _,
        mut found,
        room: _,
    } = demands;
    for (name, asked) in found.iter_mut() {
        if name.as_str() == "forloop" || part_count(asked, name.len()) > MOST_PARTS {
            *asked = Use::Everything;
        }
    }
    Ok(found)
}

/// Whether each of these asks is among the others.
fn are_included(asked: &Uses, held: &Uses) -> bool {
    for (name, member) in asked.iter() {
        let holds = match member_of(held, name.as_str()) {
            Some(found) => found.includes(member),
            None => false,
        };
        if !holds {
            return false;
        }
    }
    true
}
