//! Where the faults of a run stand. That is looked for only where a run ends by a fault.
ghost use Rattle.liquid_model.specs.ErrorKinds.{IsKindOrMemory};
ghost use Rattle.liquid_engine.specs.inside.SameKindOrMemory.{SameKindOrMemory};

use crate::context::{Places, RunContext};
use crate::fault_item::{item_of_condition, item_of_node, with_missing_entry};
use liquid_core::{Error, ErrorKind, Location, NamedFilters, Origin, Result, State};
use liquid_syntax::{Condition, Node, PieceItem, item_position};
use std::alloc::{AllocError, Global};

/// The fault of the node at an index, with where the item that it is about stands in the template
/// or the partial, or where the node begins, where the source isn't kept. A fault that says already
/// where it stands keeps that. Refused memory and a failed write belong to no node and get no
/// place.
#[inline(never)]
pub(crate) fn located<H: NamedFilters>(
    alloc: Global,
    context: &RunContext<'_, H>,
    nodes: &[Node],
    at: usize,
    state: &State<'_>,
    fault: Error,
) -> Error
    ensures { IsKindOrMemory fault.kind result.kind }
{
    if is_complete(&fault) {
        return fault;
    }
    let Some(node) = nodes.get(at) else {
        return fault;
    };
    match item_of_node(alloc, node, state, context.host, fault.kind) {
        Ok(item) => {
            let fault_with_entry = with_missing_entry(alloc, node, item, state, fault);
            at_item(alloc, context.places, at, item, fault_with_entry)
        }
        Err(_) => Error::from(AllocError),
    }
}

/// The fault of the condition of the `elsif` at an index, as by [located].
#[inline(never)]
pub(crate) fn located_elsif(
    alloc: Global,
    places: Places<'_>,
    at: usize,
    condition: &Condition,
    state: &State<'_>,
    fault: Error,
) -> Error
    ensures { IsKindOrMemory fault.kind result.kind }
{
    if is_complete(&fault) {
        return fault;
    }
    match item_of_condition(alloc, condition, state) {
        Ok(item) => at_item(alloc, places, at, item, fault),
        Err(_) => Error::from(AllocError),
    }
}

/// Whether nothing is to be added to a fault.
fn is_complete(fault: &Error) -> bool {
    fault.location.is_some() || matches!(fault.kind, ErrorKind::Memory | ErrorKind::Write)
}

/// The fault with the place of an item of the node at an index.
fn at_item(alloc: Global, places: Places<'_>, at: usize, item: PieceItem, fault: Error) -> Error
    ensures { IsKindOrMemory fault.kind result.kind }
{
    if is_complete(&fault) {
        return fault;
    }
    match location_of(alloc, places, at, item) {
        Ok(Some(location)) => fault.located(alloc, location),
        Ok(None) => fault,
        Err(refused) => Error::from(refused),
    }
}

/// Where an item of the node at an index stands, or where the node begins, where the source isn't
/// kept.
fn location_of(
    alloc: Global,
    places: Places<'_>,
    at: usize,
    item: PieceItem,
) -> std::result::Result<Option<Location>, AllocError> {
    let Some(piece) = places.positions.get(at) else {
        return Ok(None);
    };
    let position = match places.source {
        Some(source) => item_position(alloc, source, *piece, item)?,
        None => *piece,
    };
    Ok(Some(Location {
        origin: Origin::Template,
        line: position.line as usize,
        column: position.column as usize,
    }))
}

/// How the run of the partial of this name ended: a fault that stands in the partial's own text
/// says its name.
#[inline(never)]
pub(crate) fn in_partial<T: Drop>(alloc: Global, name: &str, answer: Result<T>) -> Result<T>
    ensures { SameKindOrMemory answer result }
{
    match answer {
        Ok(value) => Ok(value),
        Err(fault) => Err(fault.in_partial(alloc, name)),
    }
}
