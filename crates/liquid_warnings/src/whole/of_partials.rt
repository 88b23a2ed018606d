//! Warnings about partials: those that a file runs, and the file as one.
ghost use Rattle.std.specs.Prelude.{◌≡◌, All, IfOk, IfSome, OnOk, is_some};
ghost use Rattle.liquid_warnings.specs.Remarks.{remark_view};
ghost use Rattle.liquid_warnings.specs.Sorts.{IsMissingPartial, IsNotGiven, IsRecursive};
ghost use Rattle.liquid_warnings.specs.Sorts.{IsUnusedPair, IsUnusedPartial, OnlyWhere};
ghost use Rattle.liquid_warnings.specs.Warnings.{AreOfPartials};
ghost use Rattle.liquid_warnings.specs.inside.Added.{AddsRemarks};

use crate::partials::{missing_partial, recursive_call, unused_partial};
use crate::passing::{Readers, add_not_given, add_unused_pairs};
use crate::remark::{Remark, push_found};
use crate::warnings::{CheckedFile, Given, is_full};
use crate::whole::Whole;
use liquid_core::Object;
use std::alloc::{AllocError, Global};

impl<'t> Whole<'t> {
    /// Adds the warnings about the partials that a file runs, and about the file as a partial,
    /// where partials are asked for.
    pub(super) fn add_partial_warnings(
        &self,
        alloc: Global,
        place: usize,
        file: &CheckedFile<'_>,
        given: Given<'_>,
        remarks: &mut Vec<Remark>,
    ) -> Result<(), AllocError>
        ensures { OnOk result (AddsRemarks
            (OnlyWhere (is_some given.entry.partials) AreOfPartials)
            remarks.old.items remarks.new.items) }
    {
        if given.partials.is_some() {
            self.add_all_partial_warnings(alloc, place, file, given.data, remarks)
        } else {
            Ok(())
        }
    }

    fn add_all_partial_warnings(
        &self,
        alloc: Global,
        place: usize,
        file: &CheckedFile<'_>,
        data: Option<&Object>,
        remarks: &mut Vec<Remark>,
    ) -> Result<(), AllocError>
        ensures { OnOk result (AddsRemarks AreOfPartials remarks.old.items remarks.new.items) }
    {
        self.add_missing(alloc, place, remarks)?;
        push_found(remarks, self.unused_file(alloc, place, file)?)?;
        self.add_recursive(alloc, place, remarks)?;
        self.add_pairs(alloc, place, remarks)?;
        self.add_lost(alloc, place, file, data, remarks)?;
        Ok(())
    }

    /// Adds a warning for each pair of a file's tags that a partial doesn't read.
    fn add_pairs(
        &self,
        alloc: Global,
        place: usize,
        remarks: &mut Vec<Remark>,
    ) -> Result<(), AllocError>
        ensures { OnOk result
            (AddsRemarks (All IsUnusedPair) remarks.old.items remarks.new.items) }
    {
        let readers = Readers {
            names: &self.names,
            calls: &self.calls,
        };
        match self.calls.get(place) {
            Some(calls) => add_unused_pairs(alloc, calls, readers, remarks),
            None => Ok(()),
        }
    }

    /// Adds a warning for each name that a file reads and isn't given.
    fn add_lost(
        &self,
        alloc: Global,
        place: usize,
        file: &CheckedFile<'_>,
        data: Option<&Object>,
        remarks: &mut Vec<Remark>,
    ) -> Result<(), AllocError>
        ensures { OnOk result
            (AddsRemarks (All IsNotGiven) remarks.old.items remarks.new.items) }
    {
        let (Some(giving), Some(data)) = (self.isolation(place, file), data) else {
            return Ok(());
        };
        match self.names.get(place) {
            Some(Some(names)) => {
                add_not_given(alloc, names, giving, self.known(data, &names.set), remarks)
            }
            _ => Ok(()),
        }
    }

    /// Adds a warning for each tag of a file that runs a partial which isn't there.
    fn add_missing(
        &self,
        alloc: Global,
        place: usize,
        remarks: &mut Vec<Remark>,
    ) -> Result<(), AllocError>
        ensures { OnOk result
            (AddsRemarks (All IsMissingPartial) remarks.old.items remarks.new.items) }
    {
        let Some(calls) = self.calls.get(place) else {
            return Ok(());
        };
        for call in calls {
            if is_full(remarks) {
                return Ok(());
            }
            push_found(remarks, missing_partial(alloc, &self.partials, call)?)?;
        }
        Ok(())
    }

    /// The warning about a file that is a partial which no tag runs.
    fn unused_file(
        &self,
        alloc: Global,
        place: usize,
        file: &CheckedFile<'_>,
    ) -> Result<Option<Remark>, AllocError>
        ensures { IfOk result (λ r. IfSome r (λ w. IsUnusedPartial (remark_view w))) }
    {
        if self.is_unused(place, file) {
            Ok(Some(unused_partial(alloc)?))
        } else {
            Ok(None)
        }
    }

    /// Whether a file is a partial that no tag runs; none is where a tag may run any of them.
    fn is_unused(&self, place: usize, file: &CheckedFile<'_>) -> bool {
        match &self.used {
            Some(used) => file.text.is_some() && !file.is_page && used.get(place) == Some(&false),
            None => false,
        }
    }

    /// Adds a warning for each tag of a file that leads back to a partial which is being run.
    fn add_recursive(
        &self,
        alloc: Global,
        place: usize,
        remarks: &mut Vec<Remark>,
    ) -> Result<(), AllocError>
        ensures { OnOk result
            (AddsRemarks (All IsRecursive) remarks.old.items remarks.new.items) }
    {
        let Some(back) = self.back.get(place) else {
            return Ok(());
        };
        for number in back {
            if is_full(remarks) {
                return Ok(());
            }
            push_found(
                remarks,
                recursive_call(alloc, self.call_at(place, *number))?,
            )?;
        }
        Ok(())
    }
}
