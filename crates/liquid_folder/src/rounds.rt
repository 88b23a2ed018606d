//! The rounds over a folder.
ghost use Rattle.std.specs.Prelude.{◌≡◌, [], IfOk, Ok, OnOk, false, true};
ghost use Rattle.liquid_site.specs.SiteViews.{contents_of};

use crate::changes::{Line, Listing, all_files, line_of};
use crate::files::{SitePages, reason_of, site_pages};
use crate::readable::leave_out;
use crate::stop::FolderStop;
use crate::tell::tell_round;
use crate::words::FolderCall;
use liquid_files::system_words;
use liquid_model::Quoted;
use liquid_site::{Changed, Disk, DiskFault, Folder, Missing, Site, round, site_of};
use std::alloc::AllocError;
use std::fs;

/// A site and what changed in its folder since the last round.
#[derive(Drop)]
pub struct Rounds<'r> {
    rt: &'r HostRuntime,
    folder: &'r Folder,
    files: SitePages<'r>,
    site: Site,
    /// The files to look at in the next round: those that were named, and those that were refused.
    changes: Vec<Changed>,
    /// Whether a file was named since the last round.
    is_named: bool,
    /// Whether the name of each file could be read.
    is_whole: bool,
}

impl<'r> Rounds<'r> {
    /// A site over its data, to which all files of the folder are new, and whose pages' files go
    /// into a folder that is made if need be.
    pub fn new(
        rt: &'r HostRuntime,
        folder: &'r Folder,
        call: &FolderCall<'_>,
    ) -> Result<Rounds<'r>, FolderStop>
        ensures named { IfOk result (λ rounds. rounds.is_named ≡ false) }
        ensures missing { IfOk result
            (λ rounds. (contents_of rounds.site).setting.missing ≡ call.now.missing) }
    {
        let files = site_pages(rt);
        let site = first_site(rt, folder, &files, call.missing)?;
        let Listing {
            files: changes,
            is_whole,
        } = changes_at_first(rt, folder, call.out)?;
        Ok(Rounds {
            rt,
            folder,
            files,
            site,
            changes,
            is_named: false,
            is_whole,
        })
    }

    /// The round over all files. Whether the name of each could be read, and what `one_round`
    /// answers.
    pub fn first_round(&mut self) -> Result<bool, FolderStop>
        ensures whole { self.old.is_whole ≡ false → IfOk result (λ clean. clean ≡ false) }
    {
        let clean = self.one_round()?;
        Ok(clean && self.is_whole)
    }

    /// What a line of standard input asks for: a round where it is empty, or to look at the file of
    /// this path in the next one. Whether it names a file of the site, and what `one_round` answers
    /// of a round. A file that is left out is passed over without a word. What standard error
    /// refuses is lost.
    pub fn take_line(&mut self, line: &str) -> Result<bool, FolderStop>
        ensures round { line.now ≡ [] → OnOk result (self.new.is_named ≡ false) }
    {
        match line_of(self.rt.alloc(), self.folder, line)? {
            Line::Round => self.one_round(),
            Line::File(changed) => {
                self.changes.push(changed)?;
                self.is_named = true;
                Ok(true)
            }
            Line::LeftOut => Ok(true),
            Line::NoFile => {
                let text = line;
                let _ = eprintln!(self.rt; "error: no file of the site: {}", Quoted { text });
                Ok(false)
            }
        }
    }

    /// The round after the last line, if a file was named since the one before.
    pub fn last_round(&mut self) -> Result<bool, FolderStop>
        ensures unnamed { self.old.is_named ≡ false → result ≡ Ok true }
    {
        if !self.is_named {
            return Ok(true);
        }
        self.one_round()
    }

    /// Runs one round and reports it. Whether no file was refused, no page ended by a fault, and
    /// each page's file was written. A file that is refused is looked at again in the next round;
    /// what may not be read, as a pipe, is left out, and changes nothing.
    pub fn one_round(&mut self) -> Result<bool, FolderStop>
        ensures named { OnOk result (self.new.is_named ≡ false) }
        ensures whole { self.new.is_whole ≡ self.old.is_whole }
    {
        self.changes.sort_unstable();
        self.changes.dedup();
        leave_out(self.rt, self.folder, &mut self.changes)?;
        self.keep_data()?;
        let before = self.site.rendered();
        let done = round(
            self.rt.alloc(),
            &mut self.site,
            self.folder,
            &self.changes,
            &mut self.files,
        )?;
        self.is_named = false;
        self.changes.clear();
        for refusal in &done.refusals {
            let path = refusal.path.as_str();
            if let Line::File(changed) = line_of(self.rt.alloc(), self.folder, path)? {
                self.changes.push(changed)?;
            }
        }
        let rendered = self.site.rendered().saturating_sub(before);
        let is_kept = self.flush(done.written.as_ref().is_ok_and(|written| *written > 0));
        let is_clean = tell_round(self.rt, &self.site, self.folder, done, rendered)?;
        Ok(is_clean && is_kept)
    }

    /// Keeps the data's file as it is.
    fn keep_data(&mut self) -> Result<(), FolderStop>
        ensures whole { self.new.is_whole ≡ self.old.is_whole }
    {
        let path = self.folder.data.as_str();
        match self.files.keep_source(path) {
            Ok(()) => Ok(()),
            Err(DiskFault::Refused(kind)) => {
                Err(FolderStop::unreadable_by(self.rt.alloc(), path, kind))
            }
            Err(_) => Err(FolderStop::from(AllocError)),
        }
    }

    /// Flushes the names of pages that were written to the disk. Prints an error if that fails.
    /// Returns whether all of them are there.
    fn flush(&mut self, is_written: bool) -> bool
        ensures named { self.new.is_named ≡ self.old.is_named }
        ensures whole { self.new.is_whole ≡ self.old.is_whole }
    {
        if !is_written {
            return true;
        }
        match self.files.flush_folders() {
            Ok(()) => true,
            Err(refused) => {
                let words = system_words(refused.kind());
                let _ = eprintln!(self.rt; "error: Write: the folder of the pages: {words}");
                false
            }
        }
    }
}

/// All files of the folder, once there is one for the pages' files.
fn changes_at_first(rt: &HostRuntime, folder: &Folder, out: &str) -> Result<Listing, FolderStop> {
    if fs::create_dir_all(rt, out).is_err() {
        return Err(FolderStop::unreadable(rt.alloc(), out, None));
    }
    all_files(rt, folder)
}

/// The site over its data.
fn first_site(
    rt: &HostRuntime,
    folder: &Folder,
    files: &SitePages<'_>,
    missing: Missing,
) -> Result<Site, FolderStop>
    ensures missing { IfOk result (λ site. (contents_of site).setting.missing ≡ missing) }
{
    let path = folder.data.as_str();
    match files.read(path) {
        Ok(Some(text)) => match site_of(rt.alloc(), missing, text.as_str()) {
            Ok(site) => Ok(site),
            Err(fault) => Err(FolderStop::bad_data(rt.alloc(), path, text, fault)),
        },
        Ok(None) | Err(DiskFault::Refused(_) | DiskFault::Protected(_)) => {
            Err(FolderStop::unreadable(rt.alloc(), path, reason_of(rt, path)))
        }
        Err(DiskFault::Memory) => Err(FolderStop::from(AllocError)),
    }
}
