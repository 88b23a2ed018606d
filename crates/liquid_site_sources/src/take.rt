//! What the sources of a site take of a file.
ghost use Rattle.std.specs.Prelude.{◌≡◌, IfErr, IfOk, None, option_map, false, string_bytes};
ghost use Rattle.liquid_model.specs.Answer.{IsValueOrMemory};
ghost use Rattle.liquid_model.specs.ErrorKinds.{is_memory};
ghost use Rattle.liquid_model.specs.Data.{put};
ghost use Rattle.liquid_model.specs.View.{pairs_view};
ghost use Rattle.liquid_yaml.specs.Reading.{front_matter_of};
ghost use Rattle.liquid_site_build.specs.Sources.{put_partial, put_static};
ghost use Rattle.liquid_site_build.specs.SiteFiles.{AddsBytes, AddsData, AddsFile, AddsFront};
ghost use Rattle.liquid_site_build.specs.SiteFiles.{AddsLayout, AddsPublished, AddsSitePart};
ghost use Rattle.liquid_site_build.specs.SiteFiles.{AddsTemplate, is_published, text_with};
ghost use Rattle.liquid_site_build.specs.SourceViews.{sources_view};
ghost use Rattle.liquid_site_sources.specs.SourceForms.{file_stem, site_config, site_data};
ghost use Rattle.liquid_site_build.specs.SourceViews.{site_text_view};
ghost use Rattle.liquid_site_sources.specs.SourceFolders.{file_part_view, site_form};
ghost use Rattle.liquid_site_sources.specs.SourceFolders.{source_fault_view};
ghost use Rattle.liquid_site_sources.specs.inside.TextPlaces.{IsReadTemplate, put_text};

use crate::folders::{FilePart, SiteFolders};
use crate::forms::{file_stem, site_config, site_data};
use liquid_model::{Error, ErrorKind, Object, Result, Value, look_up, store};
use liquid_parser::{Language, parse};
use liquid_site_build::{SiteSources, SiteText};
use liquid_syntax::Template;
use liquid_yaml::front_matter;
use std::alloc::Global;

/// A file of a site that is a text.
#[derive(Clone, Copy, Drop)]
pub struct SiteFile<'f> {
    /// Its path below the site's folder.
    pub path: &'f str,
    /// What it holds, where that is a text.
    pub text: Option<&'f str>,
}

/// Why a file is refused.
#[derive(Drop)]
pub enum SourceFault {
    /// Its front matter isn't read.
    Front(Error),
    /// It is no template.
    Template(Error),
    /// It is no data.
    Data(Error),
    /// It is no text.
    Bytes,
}

/// A file that is refused, and is none of the site's.
#[derive(Drop)]
pub struct RefusedSource {
    /// Its path.
    pub path: String,
    /// Why it is refused.
    pub why: SourceFault,
}

/// What a text is read with, and where.
#[derive(Clone, Copy, Drop)]
pub(crate) struct Reading<'r> {
    pub alloc: Global,
    pub folders: &'r SiteFolders,
    pub language: &'r Language,
}

/// Takes a file. The answer is why it is refused, where it is, and then the sources stay.
#[tactic(auto, using(crate::proofs::Takes::text_taken, crate::proofs::Takes::bytes_taken))]
pub(crate) fn take(
    sources: &mut SiteSources,
    reading: Reading<'_>,
    file: SiteFile<'_>,
) -> Result<Option<SourceFault>>
    ensures adds { IfOk result (λ why.
        AddsFile (site_form reading.entry.folders.now) reading.entry.language.now
        file.entry.path.now (option_map (λ t. t.now) file.entry.text)
        (sources_view sources.old) (sources_view sources.new)
        (option_map source_fault_view why)) }
    ensures memory { IfErr result (λ e. e.kind ≡ ErrorKind.Memory) }
{
    let part = reading.folders.part_at(file.path);
    match file.text {
        Some(text) => Ok(take_part(sources, reading, part, file.path, text)?),
        None => Ok(take_bytes(sources, reading.alloc, part, file.path)?),
    }
}

/// Takes a text that is this part of a site.
fn take_part(
    sources: &mut SiteSources,
    reading: Reading<'_>,
    part: FilePart<'_>,
    path: &str,
    text: &str,
) -> Result<Option<SourceFault>>
    ensures adds { IfOk result (λ why.
        AddsSitePart (site_form reading.entry.folders.now) reading.entry.language.now path.now
        text.now (file_part_view part.entry) (sources_view sources.old) (sources_view sources.new)
        (option_map source_fault_view why)) }
    ensures memory { IfErr result (λ e. e.kind ≡ ErrorKind.Memory) }
{
    match part {
        FilePart::Config => take_config(sources, reading, text),
        FilePart::Data(name) => take_data(sources, reading.alloc, name, text),
        FilePart::Layout(name) => take_layout(sources, reading, name, text),
        FilePart::Partial(name) => take_partial(sources, reading, name, text),
        FilePart::Document(name) => {
            take_placed(
                sources,
                reading,
                TextPlace::Document(name, path),
                path,
                text,
            )
        }
        FilePart::Page => take_placed(sources, reading, TextPlace::Page(path), path, text),
        FilePart::LeftOut => Ok(None),
    }
}

/// Takes a file that is no text.
fn take_bytes(
    sources: &mut SiteSources,
    alloc: Global,
    part: FilePart<'_>,
    path: &str,
) -> Result<Option<SourceFault>>
    ensures adds { IfOk result (λ why. AddsBytes path.now (file_part_view part.entry)
        (sources_view sources.old) (sources_view sources.new)
        (option_map source_fault_view why)) }
    ensures memory { IfErr result (λ e. e.kind ≡ ErrorKind.Memory) }
{
    match part {
        FilePart::Document(_) | FilePart::Page => take_static(sources, alloc, path),
        FilePart::LeftOut => Ok(None),
        _ => Ok(Some(SourceFault::Bytes)),
    }
}

/// The fault of a file, unless memory ran out.
fn unless_memory(error: Error) -> Result<Error>
    ensures same { IfOk result (λ e. e ≡ error) }
    ensures not_memory { IfOk result (λ _. is_memory error.kind ≡ false) }
    ensures memory { IfErr result (λ e. e.kind ≡ ErrorKind.Memory) }
{
    match error.kind {
        ErrorKind::Memory => Err(error),
        _ => Ok(error),
    }
}

#[tactic(auto, using(crate::proofs::Takes::data_added, crate::proofs::Takes::data_refused))]
fn take_config(
    sources: &mut SiteSources,
    reading: Reading<'_>,
    text: &str,
) -> Result<Option<SourceFault>>
    ensures adds { IfOk result (λ why.
        AddsData (site_config (string_bytes reading.entry.folders.now.config) text.now)
        (λ ps. record (sources_view sources.old) { config = ps }) (sources_view sources.old)
        (sources_view sources.new) (option_map source_fault_view why)) }
    ensures memory { IfErr result (λ e. e.kind ≡ ErrorKind.Memory) }
{
    match site_config(reading.alloc, reading.folders.config.as_str(), text) {
        Ok(config) => {
            sources.config = config;
            Ok(None)
        }
        Err(error) => Ok(Some(SourceFault::Data(unless_memory(error)?))),
    }
}

#[tactic(auto, using(crate::proofs::Takes::data_added, crate::proofs::Takes::data_refused))]
fn take_data(
    sources: &mut SiteSources,
    alloc: Global,
    name: &str,
    text: &str,
) -> Result<Option<SourceFault>>
    ensures adds { IfOk result (λ why. AddsData (site_data name.now text.now)
        (λ d. record (sources_view sources.old)
        { «data» = put (file_stem name.now) d (sources_view sources.old).«data» })
        (sources_view sources.old) (sources_view sources.new)
        (option_map source_fault_view why)) }
    ensures memory { IfErr result (λ e. e.kind ≡ ErrorKind.Memory) }
{
    match site_data(alloc, name, text) {
        Ok(value) => {
            store(
                &mut sources.data,
                String::from_str(alloc, file_stem(name))?,
                value,
            )?;
            Ok(None)
        }
        Err(error) => Ok(Some(SourceFault::Data(unless_memory(error)?))),
    }
}

/// The template of a text, or why it is none.
fn read_template(reading: Reading<'_>, source: &str) -> Result<std::result::Result<Template, Error>>
    ensures reads { IfOk result (IsReadTemplate reading.entry.language.now source.now) }
    ensures memory { IfErr result (λ e. e.kind ≡ ErrorKind.Memory) }
{
    match parse(reading.alloc, source, reading.language) {
        Ok(template) => Ok(Ok(template)),
        Err(error) => Ok(Err(unless_memory(error)?)),
    }
}

#[tactic(auto, using(crate::proofs::Takes::template_added, crate::proofs::Takes::template_refused))]
fn take_partial(
    sources: &mut SiteSources,
    reading: Reading<'_>,
    name: &str,
    source: &str,
) -> Result<Option<SourceFault>>
    ensures adds { IfOk result (λ why. AddsTemplate reading.entry.language.now source.now
        (λ t. put_partial name.now t (sources_view sources.old)) (sources_view sources.old)
        (sources_view sources.new) (option_map source_fault_view why)) }
    ensures memory { IfErr result (λ e. e.kind ≡ ErrorKind.Memory) }
{
    match read_template(reading, source)? {
        Ok(template) => {
            sources.put_partial(String::from_str(reading.alloc, name)?, template)?;
            Ok(None)
        }
        Err(error) => Ok(Some(SourceFault::Template(error))),
    }
}

/// Where a text of the site is put.
#[derive(Clone, Copy, Drop)]
pub(crate) enum TextPlace<'p> {
    /// The layout of this name.
    Layout(&'p str),
    /// The document of the collection of the first name, at the second, its path.
    Document(&'p str, &'p str),
    /// The page at this path.
    Page(&'p str),
}

/// Takes the members of front matter, and the text after them.
#[tactic(auto, using(crate::proofs::Takes::template_added, crate::proofs::Takes::template_refused))]
fn take_text(
    sources: &mut SiteSources,
    reading: Reading<'_>,
    place: TextPlace<'_>,
    front: Object,
    body: &str,
) -> Result<Option<SourceFault>>
    ensures adds { IfOk result (λ why. AddsTemplate reading.entry.language.now body.now
        (λ t. put_text place.entry (text_with (pairs_view front.entries) t)
        (sources_view sources.old))
        (sources_view sources.old) (sources_view sources.new)
        (option_map source_fault_view why)) }
    ensures memory { IfErr result (λ e. e.kind ≡ ErrorKind.Memory) }
{
    match read_template(reading, body)? {
        Ok(template) => {
            put_text(sources, reading.alloc, place, SiteText { front, template })?;
            Ok(None)
        }
        Err(error) => Ok(Some(SourceFault::Template(error))),
    }
}

fn put_text(
    sources: &mut SiteSources,
    alloc: Global,
    place: TextPlace<'_>,
    text: SiteText,
) -> Result<()>
    ensures { IsValueOrMemory (λ _. sources_view sources.new) result
        (put_text place.entry (site_text_view text) (sources_view sources.old)) }
{
    match place {
        TextPlace::Layout(name) => sources.put_layout(String::from_str(alloc, name)?, text),
        TextPlace::Document(name, path) => {
            let name = String::from_str(alloc, name)?;
            sources.put_document(alloc, name, String::from_str(alloc, path)?, text)
        }
        TextPlace::Page(path) => sources.put_page(String::from_str(alloc, path)?, text),
    }
}

/// Adds the path of a file that is written as it is.
fn take_static(sources: &mut SiteSources, alloc: Global, path: &str) -> Result<Option<SourceFault>>
    ensures adds { IfOk result (λ why. (sources_view sources.new
        ≡ put_static path.now (sources_view sources.old)) × (option_map source_fault_view why
        ≡ None)) }
    ensures memory { IfErr result (λ e. e.kind ≡ ErrorKind.Memory) }
{
    sources.put_static(String::from_str(alloc, path)?)?;
    Ok(None)
}

#[tactic(auto, using(crate::proofs::Takes::layout_read, crate::proofs::Takes::layout_none, crate::proofs::Takes::layout_refused))]
fn take_layout(
    sources: &mut SiteSources,
    reading: Reading<'_>,
    name: &str,
    source: &str,
) -> Result<Option<SourceFault>>
    ensures adds { IfOk result (λ why. AddsLayout reading.entry.language.now name.now source.now
        (front_matter_of source.now) (sources_view sources.old) (sources_view sources.new)
        (option_map source_fault_view why)) }
    ensures memory { IfErr result (λ e. e.kind ≡ ErrorKind.Memory) }
{
    let place = TextPlace::Layout(name);
    match front_matter(reading.alloc, source) {
        Ok(Some(found)) => Ok(take_text(sources, reading, place, found.members, found.body)?),
        Ok(None) => Ok(take_text(sources, reading, place, Object::new(reading.alloc), source)?),
        Err(error) => Ok(Some(SourceFault::Front(unless_memory(error)?))),
    }
}

/// Takes a text with front matter at its place, unless it isn't published, and one without as a
/// file that is written as it is.
#[tactic(auto, using(crate::proofs::Takes::front_read, crate::proofs::Takes::front_none, crate::proofs::Takes::front_refused))]
fn take_placed(
    sources: &mut SiteSources,
    reading: Reading<'_>,
    place: TextPlace<'_>,
    path: &str,
    text: &str,
) -> Result<Option<SourceFault>>
    ensures adds { IfOk result (λ why. AddsFront reading.entry.language.now
        (front_matter_of text.now)
        (λ front t. put_text place.entry (text_with front t) (sources_view sources.old))
        (put_static path.now (sources_view sources.old)) (sources_view sources.old)
        (sources_view sources.new) (option_map source_fault_view why)) }
    ensures memory { IfErr result (λ e. e.kind ≡ ErrorKind.Memory) }
{
    match front_matter(reading.alloc, text) {
        Ok(Some(found)) => {
            Ok(take_published(sources, reading, place, found.members, found.body)?)
        }
        Ok(None) => Ok(take_static(sources, reading.alloc, path)?),
        Err(error) => Ok(Some(SourceFault::Front(unless_memory(error)?))),
    }
}

#[tactic(auto, using(crate::proofs::Takes::published, crate::proofs::Takes::unpublished))]
fn take_published(
    sources: &mut SiteSources,
    reading: Reading<'_>,
    place: TextPlace<'_>,
    front: Object,
    body: &str,
) -> Result<Option<SourceFault>>
    ensures adds { IfOk result (λ why. AddsPublished (is_published (pairs_view front.entries))
        (AddsTemplate reading.entry.language.now body.now
        (λ t. put_text place.entry (text_with (pairs_view front.entries) t)
        (sources_view sources.old))
        (sources_view sources.old) (sources_view sources.new) (option_map source_fault_view why))
        (sources_view sources.old) (sources_view sources.new)
        (option_map source_fault_view why)) }
    ensures memory { IfErr result (λ e. e.kind ≡ ErrorKind.Memory) }
{
    if is_published(&front) {
        Ok(take_text(sources, reading, place, front, body)?)
    } else {
        Ok(None)
    }
}

fn is_published(front: &Object) -> bool
    ensures { result ≡ is_published (pairs_view front.now.entries) }
{
    match look_up(front, "published") {
        Some(Value::Bool(published)) => *published,
        _ => true,
    }
}
