//! What is known of all templates together.
ghost use Rattle.std.specs.Prelude.{◌≡◌, All, IfErr, IfOk, OnOk, is_some};
ghost use Rattle.liquid_warnings.specs.Differences.{AreOfData};
ghost use Rattle.liquid_warnings.specs.Remarks.{all_said, remark_view};
ghost use Rattle.liquid_warnings.specs.Sorts.{IsUnknownName, IsUnusedName, OnlyWhere};
ghost use Rattle.liquid_warnings.specs.Warnings.{AreOfNames, AreOfPartials, AreOfWhole};
ghost use Rattle.liquid_warnings.specs.inside.Added.{AddsRemarks};

mod of_partials;

use crate::calls::{Call, PartialFiles, calls_of, files_by_name, used_files};
use crate::differences::add_of_data;
use crate::escaped_twice::add_escaped_twice;
use crate::foreign::MentionedNames;
use crate::names::{NamesOf, Places, add_name, add_names, names_of, unknown_name, unused_name};
use crate::passing::{Giving, givings};
use crate::recursion::calls_back;
use crate::remark::{Remark, push_found};
use crate::suggestions::{KnownNames, Suggestions, suggestions_for};
use crate::text_warnings::add_text_warnings;
use crate::used_path::asked_paths;
use crate::warnings::{CheckedFile, Given, is_full};
use liquid_core::{ErrorKind, Object};
use liquid_syntax::Template;
use std::alloc::{AllocError, Global};
use std::collections::{BTreeMap, BTreeSet};

/// What is known of all templates together.
pub(crate) struct Whole<'t> {
    /// The files of the partials by their names.
    partials: PartialFiles,
    /// The tags of each file that run partials, and which of them lead back to a partial that is
    /// being run.
    calls: Vec<Vec<Call<'t>>>,
    back: Vec<Vec<usize>>,
    /// Whether a tag runs the file, of each; none where a tag may run any of them.
    used: Option<Vec<bool>>,
    /// How tags run each file.
    givings: Vec<Giving>,
    /// The names of each file that has a template.
    names: Vec<Option<NamesOf>>,
    /// The names that any of them reads, and those that any of them sets, but of partials that
    /// `render` alone runs.
    read: BTreeSet<String>,
    set: BTreeSet<String>,
    /// What is suggested for those that nobody has.
    suggestions: Suggestions,
}

impl Drop for Whole<'_> {
    fn drop(self) {
        let Whole {
            partials: _,
            calls: _,
            back: _,
            used: _,
            givings: _,
            names: _,
            read: _,
            set: _,
            suggestions: _,
        } = self;
    }
}

impl<'t> Whole<'t> {
    /// What is known of these files. The partials are names, each with the place of its file, of
    /// which the later of one name counts.
    pub(crate) fn of(
        alloc: Global,
        partials: &[(String, usize)],
        files: &[CheckedFile<'t>],
    ) -> Result<Whole<'t>, AllocError> {
        let mut whole = Whole {
            partials: files_by_name(alloc, partials)?,
            calls: Vec::new(alloc),
            back: Vec::new(alloc),
            used: None,
            givings: Vec::new(alloc),
            names: Vec::new(alloc),
            read: BTreeSet::new(alloc),
            set: BTreeSet::new(alloc),
            suggestions: BTreeMap::new(alloc),
        };
        for file in files {
            match file.template {
                Some(template) => whole.add(alloc, template)?,
                None => whole.add_none(alloc)?,
            }
        }
        whole.back = calls_back(alloc, &whole.calls)?;
        whole.used = used_files(alloc, &whole.calls)?;
        whole.givings = givings(alloc, &whole.calls)?;
        whole.gather_names(alloc, files)?;
        Ok(whole)
    }

    /// Gathers the names of all files.
    fn gather_names(&mut self, alloc: Global, files: &[CheckedFile<'_>]) -> Result<(), AllocError> {
        let mut read = BTreeSet::new(alloc);
        let mut set = BTreeSet::new(alloc);
        for (place, (file, names)) in files.iter().zip(&self.names).enumerate() {
            let Some(names) = names else {
                continue;
            };
            for name in names.read.keys() {
                add_name(alloc, &mut read, name.as_str())?;
            }
            if self.isolation(place, file).is_none() {
                add_names(alloc, &names.set, &mut set)?;
            }
        }
        self.read = read;
        self.set = set;
        Ok(())
    }

    /// What a file is given that `render` alone runs, where that is known.
    fn isolation(&self, place: usize, file: &CheckedFile<'_>) -> Option<&Giving> {
        let giving = self.givings.get(place)?;
        if self.used.is_some() && giving.is_rendered && !giving.is_included && !file.is_page {
            Some(giving)
        } else {
            None
        }
    }

    /// The same, with what is suggested for the names that neither this data nor a tag has.
    pub(crate) fn with_suggestions(
        mut self,
        alloc: Global,
        data: Option<&Object>,
    ) -> Result<Whole<'t>, AllocError> {
        if let Some(data) = data {
            self.suggestions = suggestions_for(alloc, &self.read, self.known(data, &self.set))?;
        }
        Ok(self)
    }

    /// The names that are there, with this data and those that a template sets.
    fn known<'n>(&'n self, data: &'n Object, own: &'n BTreeSet<String>) -> KnownNames<'n> {
        KnownNames {
            data,
            set: &self.set,
            own,
        }
    }

    /// Adds a file without a template.
    fn add_none(&mut self, alloc: Global) -> Result<(), AllocError> {
        self.calls.push(Vec::new(alloc))?;
        self.names.push(None)?;
        Ok(())
    }

    /// Adds the template of a file.
    fn add(&mut self, alloc: Global, template: &'t Template) -> Result<(), AllocError> {
        let calls = calls_of(alloc, &self.partials, template)?;
        self.calls.push(calls)?;
        self.names.push(Some(names_of(alloc, template)?))?;
        Ok(())
    }

    /// A tag of a file that runs a partial.
    fn call_at(&self, place: usize, number: usize) -> Option<&Call<'t>> {
        match self.calls.get(place) {
            Some(calls) => calls.get(number),
            None => None,
        }
    }

    /// Whether a file runs a partial that isn't known.
    fn runs_unknown(&self, place: usize) -> bool {
        match self.calls.get(place) {
            Some(calls) => calls.iter().any(|call| call.file.is_none()),
            None => false,
        }
    }

    /// The warnings that need all files: those about the names of a file, about what it asks of
    /// the data, and about partials.
    pub(crate) fn warnings(
        &self,
        alloc: Global,
        place: usize,
        file: &CheckedFile<'_>,
        given: Given<'_>,
    ) -> liquid_core::Result<Vec<Remark>>
        ensures whole { IfOk result (λ rs. AreOfWhole given.entry (all_said rs.items)) }
        ensures memory { IfErr result (λ e. e.kind ≡ ErrorKind.Memory) }
    {
        let mut remarks = Vec::new(alloc);
        self.add_name_warnings(alloc, place, given.data, &mut remarks)?;
        add_text_warnings(alloc, file, given, self.mentioned(given), &mut remarks)?;
        self.add_data_warnings(alloc, place, file, given, &mut remarks)?;
        self.add_partial_warnings(alloc, place, file, given, &mut remarks)?;
        Ok(remarks)
    }

    /// The names that a tag, an output or the data has.
    fn mentioned<'n>(&'n self, given: Given<'n>) -> MentionedNames<'n> {
        MentionedNames {
            data: given.data,
            read: &self.read,
            set: &self.set,
        }
    }

    /// Adds the warnings about the names of a file.
    fn add_name_warnings(
        &self,
        alloc: Global,
        place: usize,
        data: Option<&Object>,
        remarks: &mut Vec<Remark>,
    ) -> Result<(), AllocError>
        ensures { OnOk result (AddsRemarks
            (AreOfNames (is_some «data».entry)) remarks.old.items remarks.new.items) }
    {
        let Some(Some(names)) = self.names.get(place) else {
            return Ok(());
        };
        self.add_unknown(alloc, names, data, remarks)?;
        self.add_unused_names(alloc, place, &names.stored, remarks)?;
        add_escaped_twice(alloc, &names.escaped, remarks)?;
        Ok(())
    }

    /// Adds a warning for each name that neither the data nor a tag has.
    fn add_unknown(
        &self,
        alloc: Global,
        names: &NamesOf,
        data: Option<&Object>,
        remarks: &mut Vec<Remark>,
    ) -> Result<(), AllocError>
        ensures { OnOk result (AddsRemarks
            (OnlyWhere (is_some «data».entry) (All IsUnknownName))
            remarks.old.items remarks.new.items) }
    {
        match data {
            Some(data) => self.add_unknown_in(alloc, names, data, remarks),
            None => Ok(()),
        }
    }

    fn add_unknown_in(
        &self,
        alloc: Global,
        names: &NamesOf,
        data: &Object,
        remarks: &mut Vec<Remark>,
    ) -> Result<(), AllocError>
        ensures { OnOk result
            (AddsRemarks (All IsUnknownName) remarks.old.items remarks.new.items) }
    {
        let known = self.known(data, &names.set);
        for (name, position) in &names.read {
            if is_full(remarks) {
                return Ok(());
            }
            let unknown = unknown_name(alloc, known, &self.suggestions, name.as_str(), *position)?;
            push_found(remarks, unknown)?;
        }
        Ok(())
    }

    /// Adds a warning for each name that a file sets and that no template reads, unless it runs a
    /// partial that isn't known, which may read anything.
    fn add_unused_names(
        &self,
        alloc: Global,
        place: usize,
        stored: &Places,
        remarks: &mut Vec<Remark>,
    ) -> Result<(), AllocError>
        ensures { OnOk result
            (AddsRemarks (All IsUnusedName) remarks.old.items remarks.new.items) }
    {
        if self.runs_unknown(place) {
            return Ok(());
        }
        for (name, position) in stored {
            if is_full(remarks) {
                return Ok(());
            }
            let is_read = self.read.contains(name.as_str());
            push_found(
                remarks,
                unused_name(alloc, name.as_str(), *position, is_read)?,
            )?;
        }
        Ok(())
    }

    /// Adds the warnings about what a template asks of the data, where there are both and it sees
    /// the data.
    fn add_data_warnings(
        &self,
        alloc: Global,
        place: usize,
        file: &CheckedFile<'_>,
        given: Given<'_>,
        remarks: &mut Vec<Remark>,
    ) -> liquid_core::Result<()>
        ensures added { OnOk result (AddsRemarks
            (OnlyWhere (is_some given.entry.«data») (AreOfData given.entry.written_for))
            remarks.old.items remarks.new.items) }
        ensures memory { IfErr result (λ e. e.kind ≡ ErrorKind.Memory) }
    {
        let is_isolated = self.isolation(place, file).is_some();
        match (file.template, given.data) {
            (Some(template), Some(data)) if !is_isolated => {
                let paths = asked_paths(alloc, template, &self.set)?;
                add_of_data(alloc, &paths, data, given.written_for, remarks)
            }
            _ => Ok(()),
        }
    }
}
