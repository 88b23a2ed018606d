//! The files of a site.
ghost use Rattle.liquid_model.specs.Answer.{IsValueOrMemory};
ghost use Rattle.std.specs.Prelude.{◌++◌, string_bytes};
ghost use Rattle.liquid_site.specs.Paths.{changed_file_path};

use liquid_core::Result;
use std::alloc::Global;

/// A file of a site that may have changed. It may also be new or gone. In their order the data
/// comes first, and then the partials, so that in a round of sorted files no page is rendered
/// before them.
#[derive(PartialEq, Eq, PartialOrd, Ord, Drop)]
pub enum Changed {
    /// The data.
    Data,
    /// The template of a partial, by the partial's name.
    Partial(String),
    /// The template of a page, by the page's name.
    Page(String),
}

/// Where the files of a site are.
#[derive(Drop)]
pub struct Folder {
    /// What stands before the name of a page in the path of its template.
    pub pages: String,
    /// What stands before the name of a partial in the path of its template.
    pub partials: String,
    /// The path of the data.
    pub data: String,
    /// What stands before the name of a page in the path of the file that the page is written to.
    pub out: String,
}

/// The path of a file of the site.
pub(crate) fn path_of(alloc: Global, folder: &Folder, changed: &Changed) -> Result<String>
    ensures { IsValueOrMemory string_bytes result (changed_file_path folder.now changed.now) }
{
    match changed {
        Changed::Page(name) => joined(alloc, folder.pages.as_str(), name.as_str()),
        Changed::Partial(name) => joined(alloc, folder.partials.as_str(), name.as_str()),
        Changed::Data => joined(alloc, folder.data.as_str(), ""),
    }
}

/// Both texts as one.
pub(crate) fn joined(alloc: Global, front: &str, name: &str) -> Result<String>
    ensures { IsValueOrMemory string_bytes result (front.now ++ name.now) }
{
    let mut path = String::from_str(alloc, front)?;
    path.push_str(name)?;
    Ok(path)
}
