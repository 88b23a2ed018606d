//! Which source has a file.
ghost use Rattle.std.specs.Prelude.{◌≡◌, IfErr, IfOk, OnOk, map, nat_le, option_map, string_bytes};
ghost use Rattle.std.specs.List.{list_all};
ghost use Rattle.liquid_language.specs.Entries.{seen};
ghost use Rattle.liquid_model.specs.Answer.{IsValueOrMemory};
ghost use Rattle.liquid_model.specs.Maps.{insert, listed};
ghost use Rattle.liquid_model.specs.Texts.{Text};
ghost use Rattle.liquid_site_build.specs.OutcomeViews.{document_outcome_view, file_made_view};
ghost use Rattle.liquid_site_build.specs.OutcomeViews.{output_view};
ghost use Rattle.liquid_site_build.specs.SourceViews.{sources_view};
ghost use Rattle.liquid_site_build.specs.Written as spec;

use crate::outcome::{DocumentOutcome, Made, PageOutcome, SiteOutput};
use crate::sources::SiteSources;
use liquid_core::{ErrorKind, Result};
use liquid_records::is_file_name;
use std::alloc::Global;
use std::cmp::Ordering;
use std::collections::BTreeMap;

/// What is written of a site, and what isn't and why: the static files, and what its documents come
/// to. Of the sources that are written to one file the first has it, in the order of their paths. A
/// file has a name that leads nowhere else: each part of it has something besides dots, and none
/// has a control.
///
/// `Memory` where a growth was refused, and no other kind.
pub fn placed_outputs<'o>(
    alloc: Global,
    sources: &'o SiteSources,
    outcomes: &'o Vec<DocumentOutcome>,
) -> Result<Vec<SiteOutput<'o>>>
    ensures { IsValueOrMemory (λ v. map output_view v.items) result (spec.placed_outputs
        (spec.outputs_of (sources_view sources.now)
        (map document_outcome_view outcomes.now.items))) }
{
    let outputs = all_outputs(alloc, sources, outcomes)?;
    let owners = owners(alloc, &outputs)?;
    let mut placed = Vec::with_capacity(alloc, outputs.len())?;
    for output in outputs {
        placed.push(placed_output(alloc, &owners, output)?)?;
    }
    Ok(placed)
}

/// What each source gives.
fn all_outputs<'o>(
    alloc: Global,
    sources: &'o SiteSources,
    outcomes: &'o Vec<DocumentOutcome>,
) -> Result<Vec<SiteOutput<'o>>>
    ensures { IsValueOrMemory (λ v. map output_view v.items) result
        (spec.outputs_of (sources_view sources.now)
        (map document_outcome_view outcomes.now.items)) }
{
    let mut outputs = static_outputs(alloc, sources)?;
    for outcome in outcomes {
        outputs.push(document_output(outcome))?;
    }
    Ok(outputs)
}

fn static_outputs(alloc: Global, sources: &SiteSources) -> Result<Vec<SiteOutput<'_>>>
    ensures { IsValueOrMemory (λ v. map output_view v.items) result
        (map spec.static_output (sources_view sources.now).statics) }
{
    let mut outputs = Vec::new(alloc);
    for path in sources.statics.iter() {
        outputs.push(SiteOutput {
            source: path.as_str(),
            file: path.as_str(),
            made: Made::AsItIs,
        })?;
    }
    Ok(outputs)
}

fn document_output(outcome: &DocumentOutcome) -> SiteOutput<'_>
    ensures { output_view result ≡ spec.document_output (document_outcome_view outcome.now) }
{
    let made = match &outcome.outcome {
        PageOutcome::Page(text) => Made::Page(text.as_str()),
        PageOutcome::Fault(fault) => Made::Fault(fault),
    };
    SiteOutput {
        source: outcome.source.as_str(),
        file: outcome.file.as_str(),
        made,
    }
}

/// The first source of each file.
fn owners(alloc: Global, outputs: &Vec<SiteOutput<'_>>) -> Result<BTreeMap<String, String>>
    ensures owners { IfOk result (λ m. (file : Text) → listed (seen string_bytes m.entries) file
        ≡ spec.owner (map output_view outputs.now.items) file) }
    ensures memory { IfErr result (λ e. e.kind ≡ ErrorKind.Memory) }
{
    let mut owners = BTreeMap::new(alloc);
    for output in outputs {
        add_owner(alloc, &mut owners, output)?;
    }
    Ok(owners)
}

/// Takes a source for the file that it is written to, where none before it is.
fn add_owner(
    alloc: Global,
    owners: &mut BTreeMap<String, String>,
    output: &SiteOutput<'_>,
) -> Result<()>
    ensures owners { (file : Text) → OnOk result (listed (seen string_bytes owners.new.entries) file
        ≡ spec.with_owner (output_view output.now) file
        (listed (seen string_bytes owners.old.entries) file)) }
    ensures memory { IfErr result (λ e. e.kind ≡ ErrorKind.Memory) }
{
    if is_first(owners.get(output.file), output.source) {
        return put_owner(alloc, owners, output);
    }
    Ok(())
}

/// Whether a source is before the one that is held, where there is one.
fn is_first(held: Option<&String>, source: &str) -> bool
    ensures { result ≡ spec.is_first source.now
        (option_map (λ path. string_bytes path.now) held.entry) }
{
    match held {
        Some(path) => source.cmp(path.as_str()) == Ordering::Less,
        None => true,
    }
}

fn put_owner(
    alloc: Global,
    owners: &mut BTreeMap<String, String>,
    output: &SiteOutput<'_>,
) -> Result<()>
    ensures owners { OnOk result (listed (seen string_bytes owners.new.entries)
        ≡ insert (listed (seen string_bytes owners.old.entries)) output.now.file.now
        output.now.source.now) }
    ensures memory { IfErr result (λ e. e.kind ≡ ErrorKind.Memory) }
{
    let file = String::from_str(alloc, output.file)?;
    let source = String::from_str(alloc, output.source)?;
    drop(owners.insert(file, source)?);
    Ok(())
}

/// What a source gives, where its file has its name and no source before it is written there.
fn placed_output<'o>(
    alloc: Global,
    owners: &BTreeMap<String, String>,
    output: SiteOutput<'o>,
) -> Result<SiteOutput<'o>>
    ensures { IsValueOrMemory output_view result
        (spec.placed_by (listed (seen string_bytes owners.now.entries))
        (output_view output.entry)) }
{
    if is_written_name(output.file) {
        return unless_owned(alloc, owners, output);
    }
    Ok(SiteOutput {
        source: output.source,
        file: output.file,
        made: Made::LeadsOut,
    })
}

/// What a source gives, where no source before it is written to its file.
fn unless_owned<'o>(
    alloc: Global,
    owners: &BTreeMap<String, String>,
    output: SiteOutput<'o>,
) -> Result<SiteOutput<'o>>
    ensures { IsValueOrMemory output_view result
        (spec.unless_owned (listed (seen string_bytes owners.now.entries))
        (output_view output.entry)) }
{
    let SiteOutput { source, file, made } = output;
    let made = unless_taken(alloc, source, owners.get(file), made)?;
    Ok(SiteOutput { source, file, made })
}

fn unless_taken<'o>(
    alloc: Global,
    source: &str,
    owner: Option<&String>,
    made: Made<'o>,
) -> Result<Made<'o>>
    ensures { (file : Text) → IsValueOrMemory (file_made_view file) result
        (spec.unless_taken source.now (option_map (λ path. string_bytes path.now) owner.entry)
        (file_made_view file made.entry)) }
{
    match owner {
        Some(path) => {
            if path.as_str() == source {
                return Ok(made);
            }
            Ok(Made::FileTaken(String::from_str(alloc, path.as_str())?))
        }
        None => Ok(made),
    }
}

/// Whether a text names one file below a folder, without controls.
fn is_written_name(file: &str) -> bool
    ensures { result ≡ spec.is_written_name file.now }
{
    is_file_name(file) && has_no_controls(file.as_bytes())
}

fn has_no_controls(file: &[u8]) -> bool
    ensures { result ≡ list_all (λ b. nat_le 32 b) file.now }
{
    file.iter().all(|byte| *byte >= 32)
}
