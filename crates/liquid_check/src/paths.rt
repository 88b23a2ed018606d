//! The files that a call of `check` names.
use crate::file_id::{FileId, file_id, is_inside};
use liquid_commands::{CheckCall, Selection, Stop, files_below, print_left_out};
use liquid_files::{LeftOut, PartialNames, ShownPath, is_folder, joined_path, named_file};
use std::alloc::AllocError;
use std::collections::BTreeMap;

/// A file to check.
#[derive(Drop)]
pub(crate) struct CheckedPath {
    pub(crate) path: String,
    /// Whether it was only found in a folder, so that it may be no text.
    pub(crate) is_found: bool,
    /// Whether it is a template of its own, also where no other runs it.
    pub(crate) is_page: bool,
}

/// The files to check, each once, and the names of those that are partials.
pub(crate) struct Paths {
    pub(crate) files: Vec<CheckedPath>,
    /// The names of the partials, each with the place of its file.
    pub(crate) partials: PartialNames,
    /// How many words name nothing that can be read.
    pub(crate) unreadable: usize,
    /// Whether a word names a folder of templates: then each partial is to be run by some.
    has_folder: bool,
    /// The place of each file, whatever names it has.
    places: BTreeMap<FileId, usize>,
    /// The paths of what is left out of folders, and why.
    left_out: Vec<(String, LeftOut)>,
}

impl Drop for Paths {
    fn drop(self) {
        let Paths {
            files: _,
            partials: _,
            unreadable: _,
            has_folder: _,
            places: _,
            left_out: _,
        } = self;
    }
}

/// The files that a call names, and the partials, which are checked too. A word that names nothing
/// that can be read is reported, and so is an empty folder. What a folder leaves out is reported
/// once.
pub(crate) fn checked_paths(rt: &HostRuntime, call: &CheckCall<'_>) -> Result<Paths, Stop> {
    let mut paths = Paths {
        files: Vec::new(rt.alloc()),
        partials: PartialNames::new(rt.alloc()),
        unreadable: 0,
        has_folder: false,
        places: BTreeMap::new(rt.alloc()),
        left_out: Vec::new(rt.alloc()),
    };
    paths.add_all(rt, call)?;
    paths.print_left_out(rt);
    Ok(paths)
}

impl Paths {
    fn add_all(&mut self, rt: &HostRuntime, call: &CheckCall<'_>) -> Result<(), Stop> {
        for word in &call.paths {
            self.add_word(rt, word, call)?;
        }
        for word in &call.partials {
            match named_file(word) {
                Some((name, path)) => self.add_partial(rt, name, path)?,
                None => self.add_partials(rt, word, !is_inside(rt, word, &call.paths)?)?,
            }
        }
        Ok(())
    }

    /// Adds a file, or the files below a folder.
    fn add_word(&mut self, rt: &HostRuntime, word: &str, call: &CheckCall<'_>) -> Result<(), Stop> {
        if is_folder(rt, word) {
            self.has_folder = true;
            return self.add_folder(rt, word, &call.selection);
        }
        let place = self.add_file(rt, word, false)?;
        self.set_page(place, true);
        Ok(())
    }

    /// Adds the files below a folder that are selected. A folder without one is reported.
    fn add_folder(
        &mut self,
        rt: &HostRuntime,
        folder: &str,
        selection: &Selection<'_>,
    ) -> Result<(), Stop> {
        let Some(files) = self.files_of(rt, folder)? else {
            return Ok(());
        };
        let mut is_empty = true;
        for file in &files {
            if selection.has(rt.alloc(), file.as_str())? {
                is_empty = false;
                let place = self.add_found(rt, folder, file.as_str())?;
                self.set_page(place, true);
            }
        }
        if is_empty {
            self.note_empty(rt, folder, files.is_empty());
        }
        Ok(())
    }

    /// Reports a folder in which there is no file, or none that is selected.
    fn note_empty(&mut self, rt: &HostRuntime, folder: &str, has_none: bool) {
        let path = ShownPath { path: folder };
        let _ = if has_none {
            eprintln!(rt; "error: {path}: there is no file in this folder")
        } else {
            eprintln!(rt; "error: {path}: --ext and --exclude leave no file in this folder")
        };
        self.unreadable = self.unreadable.saturating_add(1);
    }

    /// Adds the file of a partial.
    fn add_partial(&mut self, rt: &HostRuntime, name: &str, path: &str) -> Result<(), AllocError> {
        let place = self.add_file(rt, path, false)?;
        self.partials.add(rt.alloc(), name, place)
    }

    /// Adds the partials that are the files below a folder. They are no pages, unless they are
    /// among those that a call names and their folder stays one of pages, or the call names single
    /// templates, which run some of them.
    fn add_partials(
        &mut self,
        rt: &HostRuntime,
        folder: &str,
        keeps_pages: bool,
    ) -> Result<(), Stop> {
        let Some(files) = self.files_of(rt, folder)? else {
            return Ok(());
        };
        let mut places = Vec::new(rt.alloc());
        for file in files {
            let place = self.add_found(rt, folder, file.as_str())?;
            if !self.has_folder || !keeps_pages {
                self.set_page(place, !self.has_folder);
            }
            places.push((file, place))?;
        }
        Ok(self.partials.add_folder(rt.alloc(), places.as_slice())?)
    }

    /// The files below a folder; none if it can't be read, which is reported. What is left out is
    /// kept, to be reported later.
    fn files_of(&mut self, rt: &HostRuntime, folder: &str) -> Result<Option<Vec<String>>, Stop> {
        match files_below(rt, folder) {
            Ok(found) => {
                let mut left_out = found.left_out;
                self.left_out.append(&mut left_out)?;
                Ok(Some(found.files))
            }
            Err(stop) => {
                stop.print_and_skip(rt)?;
                self.unreadable = self.unreadable.saturating_add(1);
                Ok(None)
            }
        }
    }

    /// Tells what is left out of folders, once also where it was met several times.
    fn print_left_out(&mut self, rt: &HostRuntime) {
        self.left_out.sort_unstable();
        self.left_out.dedup();
        for (path, why) in &self.left_out {
            print_left_out(rt, path.as_str(), *why);
        }
    }

    /// Adds a file that was found in a folder, and gives its place.
    fn add_found(
        &mut self,
        rt: &HostRuntime,
        folder: &str,
        file: &str,
    ) -> Result<usize, AllocError> {
        let path = joined_path(rt.alloc(), folder, file)?;
        self.add_file(rt, path.as_str(), true)
    }

    /// Adds a file, unless it is there already, and gives its place. One that a word names is to be
    /// a text, also where it was found in a folder before.
    fn add_file(
        &mut self,
        rt: &HostRuntime,
        word: &str,
        is_found: bool,
    ) -> Result<usize, AllocError> {
        let id = file_id(rt, word)?;
        if let Some(place) = self.places.get(&id) {
            let place = *place;
            if let Some(file) = self.files.get_mut(place) {
                file.is_found &= is_found;
            }
            return Ok(place);
        }
        let place = self.files.len();
        self.files.push(CheckedPath {
            path: String::from_str(rt.alloc(), word)?,
            is_found,
            is_page: false,
        })?;
        drop(self.places.insert(id, place)?);
        Ok(place)
    }

    fn set_page(&mut self, place: usize, is_page: bool) {
        if let Some(file) = self.files.get_mut(place) {
            file.is_page = is_page;
        }
    }
}
