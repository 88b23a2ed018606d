//! The partials that a template leads to: those files are read, and no others.
use crate::tips::tip_for_source;
use liquid_commands::{Sources, Stop, Tip, print_fault, print_tip};
use liquid_core::{Error, ErrorKind, Quoted};
use liquid_lib::{Language, Partials, Reach, Template, parse_with_source};
use std::alloc::Global;
use std::collections::BTreeMap;

/// The places of the files of each name, the last of which counts.
type Places = BTreeMap<String, Vec<usize>>;

/// The partials that a template leads to. The fault of one that is refused is kept with its name,
/// and counts only where a page runs it.
pub fn partials_in_reach(
    rt: &HostRuntime,
    sources: &mut Sources,
    template: &Template,
    language: &Language,
) -> Result<Partials, Stop> {
    let places = places_of(rt, sources)?;
    let mut reach = Reach::of(rt.alloc(), template)?;
    let mut is_whole = false;
    for _ in 0..u64::MAX {
        if reach.wants_all() && !is_whole {
            want_all(rt, &mut reach, sources)?;
            is_whole = true;
        }
        let Some(name) = reach.next(rt.alloc())? else {
            break;
        };
        if let Some(place) = place_read(rt, sources, &places, name.as_str())? {
            give(rt, &mut reach, sources, place, language, name)?;
        }
    }
    Ok(reach.finish())
}

fn places_of(rt: &HostRuntime, sources: &Sources) -> Result<Places, Stop> {
    let mut places: Places = BTreeMap::new(rt.alloc());
    for (name, place) in sources.names() {
        match places.get_mut(name.as_str()) {
            Some(all) => all.push(*place)?,
            None => {
                let mut all = Vec::new(rt.alloc());
                all.push(*place)?;
                drop(places.insert(String::from_str(rt.alloc(), name.as_str())?, all)?);
            }
        }
    }
    Ok(places)
}

/// Reads all files and asks for all names, since a place looks up one that only its run knows.
fn want_all(rt: &HostRuntime, reach: &mut Reach<'_>, sources: &mut Sources) -> Result<(), Stop> {
    for place in 0..sources.partials().len() {
        sources.read_at(rt, place)?;
    }
    for (name, _) in sources.names() {
        reach.want(rt.alloc(), name.as_str())?;
    }
    Ok(())
}

/// The place of the last file of a name that is a text, which is read.
fn place_read(
    rt: &HostRuntime,
    sources: &mut Sources,
    places: &Places,
    name: &str,
) -> Result<Option<usize>, Stop> {
    let Some(all) = places.get(name) else {
        return Ok(None);
    };
    let mut is_last = true;
    for place in all.iter().rev() {
        if sources.read_at(rt, *place)? {
            if !is_last {
                sources.prefer(rt.alloc(), name, *place)?;
            }
            return Ok(Some(*place));
        }
        is_last = false;
    }
    Ok(None)
}

/// Gives the partial of a name, or the fault that it is refused for.
fn give(
    rt: &HostRuntime,
    reach: &mut Reach<'_>,
    sources: &Sources,
    place: usize,
    language: &Language,
    name: String,
) -> Result<(), Stop> {
    let Some(source) = sources.partial_at(place) else {
        return Ok(());
    };
    match parse_with_source(rt.alloc(), source.text.as_str(), language) {
        Ok(partial) => reach.put(rt.alloc(), name, partial)?,
        Err(fault) if fault.kind == ErrorKind::Memory => return Err(Stop::from(fault)),
        Err(fault) => reach.refuse(name, fault)?,
    }
    Ok(())
}

/// Prints the fault of each partial that is refused, and the first tip for one. Whether there is
/// one.
pub fn print_refusals(rt: &HostRuntime, sources: &Sources, partials: &Partials) -> bool {
    let mut tip = None;
    for (name, fault) in partials.refusals() {
        print_refusal(rt, sources, name.as_str(), fault);
        tip = tip.or(tip_for_refusal(rt.alloc(), sources, name.as_str(), fault));
    }
    print_tip(rt, tip);
    !partials.refusals().is_empty()
}

/// The refused partial that a page ended at, if it did: its name, and why it is refused. None also
/// where memory runs out.
pub fn refusal_of<'p>(
    alloc: Global,
    partials: &'p Partials,
    page: &Error,
) -> Option<(&'p str, &'p Error)> {
    let (ErrorKind::UnknownPartial, Some(message)) = (page.kind, &page.message) else {
        return None;
    };
    for (name, fault) in partials.refusals() {
        let name = name.as_str();
        let quoted = Quoted { text: name };
        let front = format!(in alloc; "the partial `{quoted}` is refused: ").ok()?;
        if message.as_str().starts_with(front.as_str()) {
            return Some((name, fault));
        }
    }
    None
}

/// Prints the fault of a refused partial, at its own path.
pub fn print_refusal(rt: &HostRuntime, sources: &Sources, name: &str, fault: &Error) {
    if let Some(source) = sources.partial_named(name) {
        print_fault(rt, source.path.as_str(), fault, Some(source.text.as_str()));
    }
}

/// The tip for the fault of a refused partial.
pub fn tip_for_refusal(alloc: Global, sources: &Sources, name: &str, fault: &Error) -> Option<Tip> {
    let source = sources.partial_named(name)?;
    tip_for_source(alloc, source.text.as_str(), fault)
}
