//! The templates of a page, and what they show silently.
use liquid_check::silent_of;
use liquid_commands::Sources;
use liquid_core::{Missing, Object, Result};
use liquid_lib::{Language, Partials, Template};
use liquid_warnings::{CheckedFile, Given, Warnings, WrittenFor, warnings_of};
use std::alloc::{AllocError, Global};
use std::collections::BTreeMap;

/// The templates of a page, with their paths in the same order.
#[derive(Drop)]
pub struct PageTemplates<'p> {
    pub paths: Vec<&'p str>,
    files: Vec<CheckedFile<'p>>,
    /// The names of the partials, each with the place of its file.
    names: Vec<(String, usize)>,
    /// How many bytes their texts have, and how many nodes there are.
    pub bytes: usize,
    pub nodes: usize,
}

impl<'p> PageTemplates<'p> {
    /// The template and the partials that it leads to, each file once. `AllocError` where there is
    /// no room for them.
    pub fn of(
        alloc: Global,
        sources: &'p Sources,
        template: &'p Template,
        partials: &'p Partials,
    ) -> std::result::Result<PageTemplates<'p>, AllocError> {
        let source = sources.template();
        let mut page = PageTemplates {
            paths: Vec::new(alloc),
            files: Vec::new(alloc),
            names: Vec::new(alloc),
            bytes: 0,
            nodes: 0,
        };
        page.add(source.path.as_str(), source.text.as_str(), template, true)?;
        let mut seen: BTreeMap<&str, usize> = BTreeMap::new(alloc);
        for (name, slot) in partials.slots() {
            let Some(template) = slot else {
                continue;
            };
            let Some(source) = sources.partial_named(name.as_str()) else {
                continue;
            };
            let path = source.path.as_str();
            if !seen.contains_key(path) {
                drop(seen.insert(path, page.files.len())?);
                page.add(path, source.text.as_str(), template, false)?;
            }
            if let Some(place) = seen.get(path) {
                let name = String::from_str(alloc, name.as_str())?;
                page.names.push((name, *place))?;
            }
        }
        Ok(page)
    }

    fn add(
        &mut self,
        path: &'p str,
        text: &'p str,
        template: &'p Template,
        is_page: bool,
    ) -> std::result::Result<(), AllocError> {
        self.bytes = self.bytes.saturating_add(text.len());
        self.nodes = self.nodes.saturating_add(template.nodes().len());
        self.paths.push(path)?;
        self.files.push(CheckedFile {
            text: Some(text),
            template: Some(template),
            is_page,
        })?;
        Ok(())
    }

    /// What `check -d` warns of in these files of a language, which are written for an engine, over
    /// this data, and their page shows silently: a list for each file, without warnings about
    /// attributes. The fault is `Memory`.
    pub fn warnings_over<'d>(
        &self,
        alloc: Global,
        data: &'d Object,
        language: &'d Language,
        written_for: WrittenFor,
        missing: Missing,
    ) -> Result<Warnings> {
        let given = Given {
            data: Some(data),
            language,
            written_for,
            partials: Some(&self.names),
            attributes: false,
        };
        let all = warnings_of(alloc, &self.files, given)?;
        let mut warnings = Vec::new(alloc);
        for (remarks, file) in all.into_iter().zip(&self.files) {
            if let Some(template) = file.template {
                warnings.push(silent_of(alloc, remarks, template, missing)?)?;
            }
        }
        Ok(warnings)
    }
}
