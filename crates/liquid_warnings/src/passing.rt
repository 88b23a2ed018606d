//! What tags give partials, and what partials that `render` runs aren't given.
ghost use Rattle.std.specs.Prelude.{◌≡◌, All, IfOk, IfSome, OnOk, string_bytes};
ghost use Rattle.liquid_warnings.specs.Messages.{not_given};
ghost use Rattle.liquid_warnings.specs.Remarks.{remark_view};
ghost use Rattle.liquid_warnings.specs.Sorts.{IsNotGiven, IsUnusedPair};
ghost use Rattle.liquid_warnings.specs.inside.Added.{AddsRemarks};

use crate::calls::Call;
use crate::messages::{lack_message, most_similar_key, name_of};
use crate::names::{NamesOf, Places, add_name};
use crate::remark::{Remark, push_found};
use crate::suggestions::KnownNames;
use crate::warnings::is_full;
use liquid_core::Quoted;
use liquid_syntax::Position;
use std::alloc::{AllocError, Global};
use std::collections::BTreeSet;

/// How tags run a file.
#[derive(Drop)]
pub(crate) struct Giving {
    /// The names of the pairs and items that they give it.
    pub names: BTreeSet<String>,
    pub is_rendered: bool,
    pub is_included: bool,
}

/// How each file is run by these tags of all files.
pub(crate) fn givings(alloc: Global, calls: &[Vec<Call<'_>>]) -> Result<Vec<Giving>, AllocError> {
    let mut givings = Vec::new(alloc);
    for _ in 0..calls.len() {
        givings.push(Giving {
            names: BTreeSet::new(alloc),
            is_rendered: false,
            is_included: false,
        })?;
    }
    for of_file in calls {
        for call in of_file {
            if let Some(giving) = giving_of(&mut givings, call) {
                add_call(alloc, call, giving)?;
            }
        }
    }
    Ok(givings)
}

fn giving_of<'g>(givings: &'g mut [Giving], call: &Call<'_>) -> Option<&'g mut Giving> {
    givings.get_mut(call.file?)
}

/// Adds what a tag gives.
fn add_call(alloc: Global, call: &Call<'_>, giving: &mut Giving) -> Result<(), AllocError> {
    if call.is_render {
        giving.is_rendered = true;
    } else {
        giving.is_included = true;
    }
    for pair in call.pairs {
        add_name(alloc, &mut giving.names, pair.name.as_str())?;
    }
    if let Some(item) = call.item {
        add_name(alloc, &mut giving.names, "forloop")?;
        add_name(alloc, &mut giving.names, item)?;
    }
    Ok(())
}

/// The names of each file, and the tags in each that run others.
#[derive(Clone, Copy)]
pub(crate) struct Readers<'w> {
    pub names: &'w [Option<NamesOf>],
    pub calls: &'w [Vec<Call<'w>>],
}

impl<'w> Readers<'w> {
    /// The names that the partial of a tag reads; none where it isn't known, or hands its own names
    /// on to one that it includes.
    fn read_by(&self, call: &Call<'_>) -> Option<&'w Places> {
        let place = call.file?;
        for inner in self.calls.get(place)? {
            if !inner.is_render {
                return None;
            }
        }
        match self.names.get(place)? {
            Some(names) => Some(&names.read),
            None => None,
        }
    }
}

/// Adds a warning for each pair of these tags that the partial doesn't read.
pub(crate) fn add_unused_pairs(
    alloc: Global,
    calls: &[Call<'_>],
    readers: Readers<'_>,
    remarks: &mut Vec<Remark>,
) -> Result<(), AllocError>
    ensures { OnOk result
        (AddsRemarks (All IsUnusedPair) remarks.old.items remarks.new.items) }
{
    for call in calls {
        add_of_call(alloc, call, readers, remarks)?;
    }
    Ok(())
}

fn add_of_call(
    alloc: Global,
    call: &Call<'_>,
    readers: Readers<'_>,
    remarks: &mut Vec<Remark>,
) -> Result<(), AllocError>
    ensures { OnOk result
        (AddsRemarks (All IsUnusedPair) remarks.old.items remarks.new.items) }
{
    let Some(read) = readers.read_by(call) else {
        return Ok(());
    };
    for pair in call.pairs {
        if is_full(remarks) {
            return Ok(());
        }
        push_found(
            remarks,
            unused_pair(alloc, call.position, pair.name.as_str(), read)?,
        )?;
    }
    Ok(())
}

/// `UnusedPair`: the partial doesn't read the name.
fn unused_pair(
    alloc: Global,
    position: Position,
    name: &str,
    read: &Places,
) -> Result<Option<Remark>, AllocError>
    ensures { IfOk result (λ r. IfSome r (λ w. IsUnusedPair (remark_view w))) }
{
    if read.get(name).is_some() {
        return Ok(None);
    }
    let similar = name_of(most_similar_key(alloc, read, name, None)?, name);
    let message = lack_message(alloc, "the partial reads no", name, similar)?;
    Ok(Some(Remark::warning(position, "UnusedPair", message)))
}

/// Adds a warning for each name that a file reads which `render` alone runs, where no tag gives it,
/// and the data or another file has it.
pub(crate) fn add_not_given(
    alloc: Global,
    names: &NamesOf,
    giving: &Giving,
    known: KnownNames<'_>,
    remarks: &mut Vec<Remark>,
) -> Result<(), AllocError>
    ensures { OnOk result
        (AddsRemarks (All IsNotGiven) remarks.old.items remarks.new.items) }
{
    for (name, position) in &names.read {
        if is_full(remarks) {
            return Ok(());
        }
        let name = name.as_str();
        let is_there = names.set.contains(name) || giving.names.contains(name);
        let is_lost = !is_there && known.has(name);
        push_found(remarks, not_given_if(alloc, is_lost, name, *position)?)?;
    }
    Ok(())
}

/// `NotGiven`, where the name is lost.
fn not_given_if(
    alloc: Global,
    is_lost: bool,
    name: &str,
    position: Position,
) -> Result<Option<Remark>, AllocError>
    ensures { IfOk result (λ r. IfSome r (λ w. IsNotGiven (remark_view w))) }
{
    if !is_lost {
        return Ok(None);
    }
    let message = not_given(alloc, name)?;
    Ok(Some(Remark::warning(position, "NotGiven", message)))
}

fn not_given(alloc: Global, name: &str) -> Result<String, AllocError>
    ensures { IfOk result (λ message. string_bytes message ≡ not_given name.now) }
{
    let name = Quoted { text: name };
    format!(in alloc;
        "no `render` of this partial gives `{name}`, so it is nil here; \
        write `{name}: {name}` there"
    )
}
