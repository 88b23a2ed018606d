//! The texts of a template and its partials, and what is printed of a fault in one of them.
ghost use Rattle.std.specs.Prelude.{◌≡◌, option_map, slice_get, string_bytes};
ghost use Rattle.liquid_files.specs.PartialNames.{file_places, names_of};
ghost use Rattle.liquid_commands.specs.Sources.{partial_place, source_text_at, text_of_origin};

use crate::TemplateWord;
use crate::faults::print_excerpt;
use crate::folder::{files_below, print_left_out};
use crate::input::{called, found_text_at, text_at};
use crate::stop::Stop;
use liquid_files::{LeftOut, PartialNames, ShownPath, joined_path, named_file};
use liquid_model::{Error, Location, Origin};
use std::alloc::Global;

/// A text, and the path that it is from.
#[derive(Drop)]
pub struct Source {
    pub path: String,
    pub text: String,
}

/// What is known of a file that is a partial.
#[derive(Clone, Copy, Debug, PartialEq, Eq)]
enum FileState {
    /// It wasn't read yet, and its text is empty till then.
    Unread,
    Text,
    /// It has a byte 0, as images do and texts don't.
    NoText,
}

/// The texts of a template and its partials.
pub struct Sources {
    template: Source,
    partials: Vec<Source>,
    /// What is known of each of them.
    states: Vec<FileState>,
    /// The names of the partials, each with the place of its text.
    names: PartialNames,
    /// The paths of what was left out, and why.
    left_out: Vec<(String, LeftOut)>,
}

impl Drop for Sources {
    fn drop(self) {
        let Sources {
            template: _,
            partials: _,
            states: _,
            names: _,
            left_out: _,
        } = self;
    }
}

impl Sources {
    /// The text of a template, without partials.
    pub fn read(rt: &HostRuntime, template: TemplateWord<'_>) -> Result<Sources, Stop> {
        Ok(Sources {
            template: source_of(rt, template)?,
            partials: Vec::new(rt.alloc()),
            states: Vec::new(rt.alloc()),
            names: PartialNames::new(rt.alloc()),
            left_out: Vec::new(rt.alloc()),
        })
    }

    /// Reads the partials that words name as NAME=FILE, and lists the files below the folders that
    /// other words name, which are read when they are asked for ([Sources::read_at]). The later of
    /// one name counts. What a folder leaves out is kept for [Sources::print_left_out].
    pub fn read_partials(&mut self, rt: &HostRuntime, words: &[&str]) -> Result<(), Stop> {
        for word in words {
            match named_file(word) {
                Some((name, path)) => self.read_named(rt, name, path)?,
                None => self.list_folder(rt, word)?,
            }
        }
        Ok(())
    }

    fn read_named(&mut self, rt: &HostRuntime, name: &str, path: &str) -> Result<(), Stop> {
        let text = text_at(rt, path)?;
        let place = self.add_source(rt.alloc(), called(path), text, FileState::Text)?;
        Ok(self.names.add(rt.alloc(), name, place)?)
    }

    fn list_folder(&mut self, rt: &HostRuntime, folder: &str) -> Result<(), Stop> {
        let found = files_below(rt, folder)?;
        for entry in found.left_out {
            self.left_out.push(entry)?;
        }
        let mut files = Vec::new(rt.alloc());
        for file in found.files {
            let path = joined_path(rt.alloc(), folder, file.as_str())?;
            let text = String::new(rt.alloc());
            let place = self.add_source(rt.alloc(), path.as_str(), text, FileState::Unread)?;
            files.push((file, place))?;
        }
        Ok(self.names.add_folder(rt.alloc(), files.as_slice())?)
    }

    /// Adds a text, and gives its place.
    fn add_source(
        &mut self,
        alloc: Global,
        path: &str,
        text: String,
        state: FileState,
    ) -> Result<usize, Stop> {
        let place = self.partials.len();
        let path = String::from_str(alloc, path)?;
        self.states.push(state)?;
        self.partials.push(Source { path, text })?;
        Ok(place)
    }

    /// Prints a line on standard error for each thing that was left out. What standard error
    /// refuses is lost.
    pub fn print_left_out(&self, rt: &HostRuntime) {
        for (path, why) in &self.left_out {
            print_left_out(rt, path.as_str(), *why);
        }
    }

    /// Reads the file of a partial at a place, unless it was read before. Whether it is a text: a
    /// file that has a byte 0 is left out.
    pub fn read_at(&mut self, rt: &HostRuntime, place: usize) -> Result<bool, Stop> {
        match self.states.get(place) {
            Some(FileState::Text) => Ok(true),
            Some(FileState::Unread) => self.read_found(rt, place),
            _ => Ok(false),
        }
    }

    fn read_found(&mut self, rt: &HostRuntime, place: usize) -> Result<bool, Stop> {
        let (Some(source), Some(state)) = (self.partials.get_mut(place), self.states.get_mut(place))
        else {
            return Ok(false);
        };
        match found_text_at(rt, source.path.as_str())? {
            Some(text) => {
                source.text = text;
                *state = FileState::Text;
                Ok(true)
            }
            None => {
                let path = String::from_str(rt.alloc(), source.path.as_str())?;
                self.left_out.push((path, LeftOut::NoText))?;
                *state = FileState::NoText;
                Ok(false)
            }
        }
    }

    /// Has a name mean the partial at a place from now on.
    pub fn prefer(&mut self, alloc: Global, name: &str, place: usize) -> Result<(), Stop> {
        Ok(self.names.add(alloc, name, place)?)
    }

    /// The template.
    pub fn template(&self) -> &Source
        ensures { result.now ≡ self.now.template }
    {
        &self.template
    }

    /// The path of the template, as a message shows it.
    pub fn template_path(&self) -> ShownPath<'_>
        ensures { result.path.now ≡ string_bytes self.now.template.path }
    {
        ShownPath {
            path: self.template.path.as_str(),
        }
    }

    /// The names of the partials, each with the place of its text.
    pub fn names(&self) -> &[(String, usize)]
        ensures { file_places result.now ≡ names_of self.now.names }
    {
        self.names.as_slice()
    }

    /// The texts of the partials.
    pub fn partials(&self) -> &[Source]
        ensures { result.now ≡ self.now.partials.items }
    {
        self.partials.as_slice()
    }

    /// The partial at a place.
    pub fn partial_at(&self, place: usize) -> Option<&Source>
        ensures { option_map (λ s. s.now) result ≡ slice_get self.now.partials.items place }
    {
        self.partials.get(place)
    }

    /// The partial of a name. It takes no memory.
    pub fn partial_named(&self, name: &str) -> Option<&Source> {
        self.partials.get(self.names.place(name)?)
    }

    /// The text that a location is in, where there is one. A partial that is rendered may be found
    /// by its name with `.liquid`. It takes no memory.
    pub fn text_of(&self, location: &Location) -> Option<&str>
        ensures { option_map (λ t. t.now) result ≡ text_of_origin self.now location.now.origin }
    {
        match &location.origin {
            Origin::Template => Some(self.template.text.as_str()),
            Origin::Data => None,
            Origin::Partial(name) => self.text_at(self.place_of(name.as_str())),
        }
    }

    /// The place of a partial, or else of the one whose name has `.liquid` after this.
    fn place_of(&self, name: &str) -> Option<usize>
        ensures { result ≡ partial_place name.now (names_of self.now.names) }
    {
        match self.names.place(name) {
            Some(place) => Some(place),
            None => self.names.place_of_liquid(name),
        }
    }

    fn text_at(&self, place: Option<usize>) -> Option<&str>
        ensures { option_map (λ t. t.now) result ≡ source_text_at place self.now.partials.items }
    {
        match self.partials.get(place?) {
            Some(source) => Some(source.text.as_str()),
            None => None,
        }
    }

    /// Prints the fault of a page in one line, and the line of the template or the partial that it
    /// is in. What standard error refuses is lost.
    pub fn print_page_fault(&self, rt: &HostRuntime, fault: &Error) {
        let path = self.template_path();
        let _ = eprintln!(rt; "error: {path}: {fault}");
        self.print_excerpt_of(rt, fault);
    }

    /// Prints the line of the template or the partial that a fault is in.
    pub fn print_excerpt_of(&self, rt: &HostRuntime, fault: &Error) {
        let text = match &fault.location {
            Some(location) => self.text_of(location),
            None => None,
        };
        print_excerpt(rt, fault, text);
    }
}

/// The text of a template. One of the command line is called `template` in messages.
fn source_of(rt: &HostRuntime, template: TemplateWord<'_>) -> Result<Source, Stop> {
    let (path, text) = match template {
        TemplateWord::Path(path) => (called(path), text_at(rt, path)?),
        TemplateWord::Text(text) => ("template", String::from_str(rt.alloc(), text)?),
    };
    Ok(Source {
        path: String::from_str(rt.alloc(), path)?,
        text,
    })
}
