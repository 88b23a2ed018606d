//! What the filters of a chain ask of its value, from the last filter to the first. Nothing here
//! has a contract: what comes of it is tested by `covers`.

use crate::demands::Demands;
use crate::merge::joined;
use crate::place_pairs::{is_place, is_plain};
use crate::properties::property_name;
use liquid_core::{Expression, ItemUse, Use, Uses};
use liquid_evaluation::{ChainFilter, StoredFilter};
use liquid_filters::FilterKind;
use std::alloc::{AllocError, Global};
use std::collections::BTreeMap;

/// The most filters of a chain that are looked at: of the value of a longer one everything is
/// asked.
const MOST_FILTERS: usize = 32;

type Needed = Result<Use, AllocError>;

/// What is asked of the value that goes through these filters, where this is asked of what comes
/// out.
pub(crate) fn use_before(demands: &mut Demands<'_>, filters: &[ChainFilter], last: Use) -> Needed {
    if filters.len() > MOST_FILTERS {
        return Ok(Use::Everything);
    }
    let mut asked = last;
    let mut is_ordered = false;
    for filter in filters.iter().rev() {
        asked = input_need(demands, filter, asked, is_ordered)?;
        is_ordered = is_ordered || is_order(&filter.filter);
    }
    Ok(asked)
}

/// Whether the filter takes a map as the list of itself.
fn is_order(filter: &StoredFilter) -> bool {
    match filter {
        StoredFilter::Kind(kind) => matches!(
            kind,
            FilterKind::Where | FilterKind::Sort | FilterKind::SortNatural
        ),
        StoredFilter::Host(_) => false,
    }
}

/// What a filter asks of its input, where this is asked of its answer.
///
/// `is_ordered` says that a filter after this one takes a map as the list of itself: what one item
/// of the list is asked is then asked of two values, and not kept apart any more.
fn input_need(
    demands: &mut Demands<'_>,
    filter: &ChainFilter,
    asked: Use,
    is_ordered: bool,
) -> Needed {
    match &filter.filter {
        StoredFilter::Kind(kind) => {
            before_kind(demands, *kind, &filter.arguments, asked, is_ordered)
        }
        StoredFilter::Host(_) => Ok(Use::Everything),
    }
}

fn before_kind(
    demands: &mut Demands<'_>,
    kind: FilterKind,
    arguments: &[Expression],
    asked: Use,
    is_ordered: bool,
) -> Needed {
    let alloc = demands.alloc;
    match kind {
        FilterKind::Size => of_each(alloc, Use::Nothing),
        FilterKind::First if !is_ordered => of_member(alloc, "first", asked),
        FilterKind::Last if !is_ordered => of_member(alloc, "last", asked),
        FilterKind::Reverse | FilterKind::Concat => of_each(alloc, item_need(alloc, asked)?),
        FilterKind::Map => before_map(alloc, arguments, item_need(alloc, asked)?),
        FilterKind::Where | FilterKind::Sort | FilterKind::SortNatural => {
            let item = item_need(alloc, asked)?;
            before_order(demands, arguments, item)
        }
        FilterKind::Compact => before_compact(alloc, arguments, item_need(alloc, asked)?),
        FilterKind::Default => joined(alloc, of_each(alloc, Use::Nothing)?, asked),
        _ => Ok(Use::Everything),
    }
}

fn before_map(alloc: Global, arguments: &[Expression], item: Use) -> Needed {
    match property_name(arguments) {
        Some(name) => of_each(alloc, of_member(alloc, name, present(alloc, item))?),
        None => Ok(Use::Everything),
    }
}

fn before_compact(alloc: Global, arguments: &[Expression], item: Use) -> Needed {
    if arguments.is_empty() {
        return of_each(alloc, present(alloc, item));
    }
    match property_name(arguments) {
        Some(name) => {
            let property = of_member(alloc, name, present(alloc, Use::Nothing))?;
            of_each(alloc, joined(alloc, property, item)?)
        }
        None => Ok(Use::Everything),
    }
}

/// Each item of a list, and a map itself, with that property.
fn before_order(demands: &mut Demands<'_>, arguments: &[Expression], item: Use) -> Needed {
    let alloc = demands.alloc;
    let Some(name) = property_name(arguments) else {
        return Ok(Use::Everything);
    };
    let property = of_member(alloc, name, Use::Everything)?;
    let each = joined(alloc, property, item)?;
    if !is_plain(&each) {
        return Ok(Use::Everything);
    }
    match demands.handed_on(&each)? {
        Use::Parts { members, items: _ } => Ok(Use::Parts {
            members,
            items: Some(every(alloc, each)?),
        }),
        _ => Ok(Use::Everything),
    }
}

/// All that this asks of an item of a list.
fn item_need(alloc: Global, asked: Use) -> Needed {
    match asked {
        Use::Nothing => Ok(Use::Nothing),
        Use::Everything => Ok(Use::Everything),
        Use::Parts { members, items } => {
            let mut item = match items {
                Some(item) => Box::into_inner(item.each),
                None => Use::Nothing,
            };
            for (key, asked) in members {
                if is_place(key.as_str()) {
                    item = joined(alloc, asked, item)?;
                }
            }
            Ok(item)
        }
    }
}

/// The use, and whether there is a value.
fn present(alloc: Global, asked: Use) -> Use {
    match asked {
        Use::Nothing => Use::Parts {
            members: BTreeMap::new(alloc),
            items: None,
        },
        _ => asked,
    }
}

/// How many items there are, and this of each.
fn of_each(alloc: Global, asked: Use) -> Needed {
    Ok(Use::Parts {
        members: BTreeMap::new(alloc),
        items: Some(every(alloc, asked)?),
    })
}

fn every(alloc: Global, asked: Use) -> Result<ItemUse, AllocError> {
    Ok(ItemUse {
        limit: None,
        each: Box::new(alloc, asked)?,
    })
}

/// This of the member of that key.
fn of_member(alloc: Global, key: &str, asked: Use) -> Needed {
    let mut members: Uses = BTreeMap::new(alloc);
    drop(members.insert(String::from_str(alloc, key)?, asked)?);
    Ok(Use::Parts {
        members,
        items: None,
    })
}
