//! Names of partials, each with the place of its file.
ghost use Rattle.std.specs.Prelude.{◌≡◌, ◌++◌, ◌∷◌, [], OnErr, OnOk};
ghost use Rattle.liquid_files.specs.PartialNames.{file_places, folder_names, names_of};
ghost use Rattle.liquid_files.specs.PartialNames.{is_liquid, place_named, place_of_liquid};
ghost use Rattle.liquid_files.specs.PartialNames.{stems_of};

use crate::file_name::without_suffix;
use std::alloc::{AllocError, Global};

/// Names of partials, each with the place of its file. The later one of a name counts.
#[derive(Drop)]
pub struct PartialNames {
    names: Vec<(String, usize)>,
}

impl PartialNames {
    /// No names. It takes no memory.
    pub fn new(alloc: Global) -> PartialNames
        ensures { names_of result ≡ [] }
    {
        PartialNames {
            names: Vec::new(alloc),
        }
    }

    /// Adds a name after the others. `AllocError` where there is no room for it; then nothing is
    /// added.
    pub fn add(&mut self, alloc: Global, name: &str, place: usize) -> Result<(), AllocError>
        ensures added { OnOk result
            (names_of self.new ≡ names_of self.old ++ (name.now, place) ∷ []) }
        ensures kept { OnErr result (names_of self.new ≡ names_of self.old) }
    {
        let name = String::from_str(alloc, name)?;
        self.names.push((name, place))?;
        Ok(())
    }

    /// Adds the names that the files of a folder have by their paths from there, each with its
    /// place: without their suffixes first, and then whole, so that a whole name counts before one
    /// that lost its suffix. `AllocError` where there is no room for them; then some are added.
    pub fn add_folder(&mut self, alloc: Global, files: &[(String, usize)]) -> Result<(), AllocError>
        ensures { OnOk result
            (names_of self.new ≡ names_of self.old ++ folder_names (file_places files.now)) }
    {
        self.add_stems(alloc, files)?;
        self.add_whole(alloc, files)
    }

    fn add_stems(&mut self, alloc: Global, files: &[(String, usize)]) -> Result<(), AllocError>
        ensures { OnOk result
            (names_of self.new ≡ names_of self.old ++ stems_of (file_places files.now)) }
    {
        for (file, place) in files {
            if let Some(stem) = without_suffix(file.as_str()) {
                self.add(alloc, stem, *place)?;
            }
        }
        Ok(())
    }

    fn add_whole(&mut self, alloc: Global, files: &[(String, usize)]) -> Result<(), AllocError>
        ensures { OnOk result (names_of self.new ≡ names_of self.old ++ file_places files.now) }
    {
        for (file, place) in files {
            self.add(alloc, file.as_str(), *place)?;
        }
        Ok(())
    }

    /// The place of the file of a name, the later where it has several. It takes no memory.
    pub fn place(&self, name: &str) -> Option<usize>
        ensures { result ≡ place_named name.now (names_of self.now) }
    {
        let mut found = None;
        for (known, place) in &self.names {
            if known.as_str() == name {
                found = Some(*place);
            }
        }
        found
    }

    /// The place of the file whose name has `.liquid` after this, the later where it has several.
    /// It takes no memory.
    pub fn place_of_liquid(&self, name: &str) -> Option<usize>
        ensures { result ≡ place_of_liquid name.now (names_of self.now) }
    {
        let mut found = None;
        for (known, place) in &self.names {
            if is_liquid(known.as_str(), name) {
                found = Some(*place);
            }
        }
        found
    }

    /// The names with their places, in the order in which they were added. It takes no memory.
    pub fn as_slice(&self) -> &[(String, usize)]
        ensures { file_places result.now ≡ names_of self.now }
    {
        self.names.as_slice()
    }
}

/// Whether a name is another with `.liquid` after it.
fn is_liquid(known: &str, name: &str) -> bool
    ensures { result ≡ is_liquid known.now name.now }
{
    let known = known.as_bytes();
    match known.len().checked_sub(7) {
        Some(end) => &known[..end] == name.as_bytes() && &known[end..] == b".liquid".as_slice(),
        None => false,
    }
}
