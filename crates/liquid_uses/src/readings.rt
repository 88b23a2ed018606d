//! What partials read of what is around the place that includes them, found in rounds over them.
//! Nothing here has a contract: what comes of it is tested by `are_known`.

use crate::free_names::{body_ends, free_names};
use liquid_syntax::{Node, Partials, Template};
use std::alloc::{AllocError, Global};
use std::collections::{BTreeMap, BTreeSet};

/// The most rounds: partials that include each other, against the order of their names and with
/// it, take a round for each turn.
const MOST_ROUNDS: usize = 32;

/// What a partial reads of what is around it.
#[derive(Drop)]
pub(crate) enum Reading {
    /// Any name: which partials it includes only its run knows.
    Any,
    /// These names.
    Only(BTreeSet<String>),
}

/// By the names of partials.
pub(crate) type Readings = BTreeMap<String, Reading>;

/// A partial, and its name.
#[derive(Clone, Copy, Drop)]
struct Named<'n> {
    name: &'n str,
    partial: &'n Template,
}

/// What each partial reads, from nothing on, as long as that comes to an end.
pub(crate) fn find_readings(alloc: Global, partials: &Partials) -> Result<Readings, AllocError> {
    let mut readings: Readings = BTreeMap::new(alloc);
    let mut including = Vec::new(alloc);
    for (name, slot) in partials.slots() {
        if let Some(partial) = slot {
            let reading = Reading::Only(BTreeSet::new(alloc));
            drop(readings.insert(String::from_str(alloc, name.as_str())?, reading)?);
            let named = Named {
                name: name.as_str(),
                partial,
            };
            if includes(partial) {
                including.push(named)?;
            } else {
                let _ = read_again(alloc, &mut readings, named)?;
            }
        }
    }
    for _ in 0..MOST_ROUNDS {
        if !round(alloc, &mut readings, &including)? {
            break;
        }
    }
    Ok(readings)
}

fn includes(partial: &Template) -> bool {
    for node in partial.nodes() {
        if matches!(node, Node::Include(_, _) | Node::JekyllInclude(_, _)) {
            return true;
        }
    }
    false
}

/// One round over partials that include others, there and back. The answer is whether more was
/// found.
fn round(
    alloc: Global,
    readings: &mut Readings,
    including: &[Named<'_>],
) -> Result<bool, AllocError> {
    let mut grew = false;
    for named in including {
        grew = read_again(alloc, readings, *named)? || grew;
    }
    for named in including.iter().rev() {
        grew = read_again(alloc, readings, *named)? || grew;
    }
    Ok(grew)
}

/// Whether more was found of a partial.
fn read_again(
    alloc: Global,
    readings: &mut Readings,
    named: Named<'_>,
) -> Result<bool, AllocError> {
    let nodes = named.partial.nodes();
    let ends = body_ends(alloc, nodes)?;
    let found = free_names(alloc, nodes, &ends, readings)?;
    match readings.get_mut(named.name) {
        Some(reading) => {
            let grew = is_more(&found, reading);
            *reading = found;
            Ok(grew)
        }
        None => Ok(false),
    }
}

/// Whether what was found is more than what was known, which is among it.
fn is_more(found: &Reading, known: &Reading) -> bool {
    match (found, known) {
        (Reading::Only(names), Reading::Only(fewer)) => names.len() > fewer.len(),
        (Reading::Any, Reading::Only(_)) => true,
        (_, Reading::Any) => false,
    }
}
