//! Where the parts of a site stand.
ghost use Rattle.std.specs.Prelude.{◌≡◌, ◌==◌, bytes_eq, map, string_bytes, true};
ghost use Rattle.std.specs.List.{list_any, slice_split};
ghost use Rattle.liquid_yaml.specs.Bytes.{first_part, first_part_view};
ghost use Rattle.liquid_site_build.specs.SiteFiles.{below, document_part, ends_in_slash, is_at_end};
ghost use Rattle.liquid_site_build.specs.SiteFiles.{is_below, is_hidden_by};
ghost use Rattle.liquid_site_build.specs.SiteFiles.{is_hidden_part, is_within, part_at};
ghost use Rattle.liquid_site_build.specs.SiteFiles.{page_unless_hidden};
ghost use Rattle.liquid_site_sources.specs.SourceFolders.{collection_folder_view, file_part_view};
ghost use Rattle.liquid_site_sources.specs.SourceFolders.{site_form};

use crate::forms::file_stem;

/// A folder whose texts with front matter are the documents of a collection.
#[derive(Drop)]
pub struct CollectionFolder {
    /// The folder's path below the site's, with a slash at its end.
    pub folder: String,
    /// The collection's name.
    pub name: String,
}

/// Where the parts of a site stand. Each folder is a path below the site's, with a slash at its
/// end.
#[derive(Drop)]
pub struct SiteFolders {
    /// The configuration's path.
    pub config: String,
    /// The folder of data files.
    pub data: String,
    /// The folder of layouts.
    pub layouts: String,
    /// The folder of partials.
    pub partials: String,
    /// Those of the collections; of two that a file stands in the first counts.
    pub collections: Vec<CollectionFolder>,
    /// The paths of files and folders that are left out, with or without a slash at the end.
    pub excluded: Vec<String>,
    /// Names that count although they begin with `_` or `.`.
    pub included: Vec<String>,
}

/// Which part of a site a file is.
#[derive(Clone, Copy, Drop)]
pub(crate) enum FilePart<'f> {
    /// The configuration.
    Config,
    /// Data, of this name below its folder.
    Data(&'f str),
    /// The layout of this name.
    Layout(&'f str),
    /// The partial of this name.
    Partial(&'f str),
    /// A document of the collection of this name.
    Document(&'f str),
    /// A page, or a file that is written as it is.
    Page,
    /// No part.
    LeftOut,
}

impl SiteFolders {
    /// Which part of the site the file at this path is.
    pub(crate) fn part_at<'f>(&'f self, path: &'f str) -> FilePart<'f>
        ensures { file_part_view result ≡ part_at (site_form self.now) path.now }
    {
        if path == self.config.as_str() {
            return FilePart::Config;
        }
        if is_excluded(&self.excluded, path) {
            return FilePart::LeftOut;
        }
        if is_below(self.data.as_str(), path) {
            return FilePart::Data(below(self.data.as_str(), path));
        }
        if is_below(self.layouts.as_str(), path) {
            return FilePart::Layout(file_stem(below(self.layouts.as_str(), path)));
        }
        if is_below(self.partials.as_str(), path) {
            return FilePart::Partial(below(self.partials.as_str(), path));
        }
        document_part(&self.included, &self.collections, path)
    }
}

/// Whether a path begins with a folder's.
fn is_below(folder: &str, path: &str) -> bool
    ensures { result ≡ is_below folder.now path.now }
{
    folder.len() <= path.len() && &path.as_bytes()[..folder.len()] == folder.as_bytes()
}

/// What follows a folder's path, which stands at the front.
fn below<'p>(folder: &str, path: &'p str) -> &'p str
    requires { is_below folder.now path.now ≡ true }
    ensures { result.now ≡ below folder.now path.now }
{
    &path[folder.len()..]
}

fn is_excluded(excluded: &[String], path: &str) -> bool
    ensures { result ≡ list_any (is_within path.now) (map string_bytes excluded.now) }
{
    for entry in excluded {
        if is_within(path, entry.as_str()) {
            return true;
        }
    }
    false
}

fn document_part<'f>(
    included: &[String],
    collections: &'f [CollectionFolder],
    path: &str,
) -> FilePart<'f>
    ensures { file_part_view result ≡ document_part (map string_bytes included.now)
        (map collection_folder_view collections.now) path.now }
{
    for collection in collections {
        if is_below(collection.folder.as_str(), path) {
            return FilePart::Document(collection.name.as_str());
        }
    }
    page_unless_hidden(included, path)
}

fn page_unless_hidden<'f>(included: &[String], path: &str) -> FilePart<'f>
    ensures { file_part_view result ≡ page_unless_hidden (map string_bytes included.now) path.now }
{
    if is_hidden(included, path) {
        FilePart::LeftOut
    } else {
        FilePart::Page
    }
}

/// Whether a name on the path is hidden.
fn is_hidden(included: &[String], path: &str) -> bool
    ensures { result ≡ list_any (is_hidden_by (map string_bytes included.now))
        (slice_split (λ b. b == 47) path.now) }
{
    let mut left = Some(path);
    while let Some(text) = left {
        let (name, rest) = first_name(text);
        if is_hidden_by(included, name) {
            return true;
        }
        left = rest;
    }
    false
}

/// The name before the first slash, and what follows that, where it is there.
fn first_name(path: &str) -> (&str, Option<&str>)
    ensures { first_part_view result ≡ first_part 47 path.now }
{
    match path.split_once('/') {
        Some((name, rest)) => (name, Some(rest)),
        None => (path, None),
    }
}

/// Whether a path is that of a file or folder, or below it.
fn is_within(path: &str, entry: &str) -> bool
    ensures { result ≡ is_within path.now entry.now }
{
    is_below(entry, path) && (ends_in_slash(entry) || is_at_end(below(entry, path).as_bytes()))
}

fn ends_in_slash(text: &str) -> bool
    ensures { result ≡ ends_in_slash text.now }
{
    matches!(text.as_bytes().last(), Some(b'/'))
}

fn is_at_end(bytes: &[u8]) -> bool
    ensures { result ≡ is_at_end bytes.now }
{
    match bytes {
        [] => true,
        [first, ..] => *first == b'/',
    }
}

/// Whether a name is hidden and none of these.
fn is_hidden_by(included: &[String], name: &str) -> bool
    ensures { result ≡ is_hidden_by (map string_bytes included.now) name.now }
{
    is_hidden_part(name) && !is_one_of(included, name)
}

fn is_one_of(names: &[String], name: &str) -> bool
    ensures { result ≡ list_any (bytes_eq name.now) (map string_bytes names.now) }
{
    for known in names {
        if name == known.as_str() {
            return true;
        }
    }
    false
}

/// Whether a name begins with `_` or `.`, so that it is no page's.
fn is_hidden_part(name: &str) -> bool
    ensures { result ≡ is_hidden_part name.now }
{
    match name.as_bytes() {
        [] => false,
        [first, ..] => *first == b'_' || *first == b'.',
    }
}
