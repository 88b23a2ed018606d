//! How far a merge is.
ghost use Rattle.std.specs.Prelude.{◌≡◌, ◌+◌, ◌<◌, min, IfErr, IfOk};
ghost use Rattle.bikleinu.specs.Reports.{ends_the_row, in_a_row};
ghost use Rattle.liquid_commands.specs.declared.stop.Stop.TheVariants.{Faulted};

use crate::extent::Extent;
use liquid_commands::Stop;
use std::time::Instant;

/// The most records in a row whose files are refused for want of permission.
const MOST_FORBIDDEN: u64 = 10;

/// How many pages there are, and how many records failed.
#[derive(Drop)]
pub struct Progress {
    pages: u64,
    failed: u64,
    /// How many of the last records failed, one after another, for want of permission.
    forbidden: u64,
    /// When the merge began, where each second is to be printed; and the last second that was.
    began: Option<Instant>,
    last_printed: u64,
    extent: Extent,
}

impl Progress {
    /// No page yet, and no record that failed. With `is_shown` the pages so far are printed, once a
    /// second, and how far of this extent the merge is.
    pub fn new(rt: &HostRuntime, is_shown: bool, extent: Extent) -> Progress
        ensures pages { result.pages ≡ 0 }
        ensures failed { result.failed ≡ 0 }
        ensures forbidden { result.forbidden ≡ 0 }
    {
        let began = if is_shown {
            Instant::now(rt).ok()
        } else {
            None
        };
        Progress {
            pages: 0,
            failed: 0,
            forbidden: 0,
            began,
            last_printed: 0,
            extent,
        }
    }

    /// Counts a page.
    pub fn done(&mut self, rt: &HostRuntime)
        ensures pages { self.new.pages ≡ min (self.old.pages + 1) 18446744073709551615 }
        ensures failed { self.new.failed ≡ self.old.failed }
        ensures forbidden { self.new.forbidden ≡ 0 }
    {
        self.pages = self.pages.saturating_add(1);
        self.forbidden = 0;
        self.print(rt);
    }

    /// Counts a record that failed, maybe for want of permission.
    pub fn failed(&mut self, rt: &HostRuntime, is_forbidden: bool)
        ensures pages { self.new.pages ≡ self.old.pages }
        ensures failed { self.new.failed ≡ min (self.old.failed + 1) 18446744073709551615 }
        ensures forbidden { self.new.forbidden ≡ in_a_row self.old.forbidden is_forbidden }
    {
        self.failed = self.failed.saturating_add(1);
        self.forbidden = if is_forbidden {
            self.forbidden.saturating_add(1)
        } else {
            0
        };
        self.print(rt);
    }

    /// Whether so many records failed for want of permission, one after another, that no other is
    /// to be tried.
    pub fn is_forbidden(&self) -> bool
        ensures { result ≡ ends_the_row self.now.forbidden }
    {
        self.forbidden >= MOST_FORBIDDEN
    }

    /// Prints the pages so far, once a second. What standard error refuses is lost.
    fn print(&mut self, rt: &HostRuntime)
        ensures pages { self.new.pages ≡ self.old.pages }
        ensures failed { self.new.failed ≡ self.old.failed }
        ensures forbidden { self.new.forbidden ≡ self.old.forbidden }
    {
        let Some(began) = &self.began else {
            return;
        };
        let Ok(passed) = began.elapsed(rt) else {
            return;
        };
        let seconds = passed.as_secs();
        if seconds > self.last_printed {
            self.last_printed = seconds;
            let pages = self.pages;
            let rate = pages.checked_div(seconds).unwrap_or(pages);
            let records = pages.saturating_add(self.failed);
            let _ = match self.extent.reached(records, seconds) {
                Some(reached) => eprintln!(rt; "{pages} pages, {rate} a second, {reached}"),
                None => eprintln!(rt; "{pages} pages, {rate} a second"),
            };
        }
    }

    /// Prints the counts, unless they are left out. A merge in which a record failed isn't done.
    pub fn end(&self, rt: &HostRuntime, is_quiet: bool) -> Result<(), Stop>
        ensures done { IfOk result (λ _. self.now.failed ≡ 0) }
        ensures failed { IfErr result (λ stop. (stop ≡ Faulted) × (0 < self.now.failed)) }
    {
        let (pages, failed) = (self.pages, self.failed);
        if !is_quiet {
            let _ = eprintln!(rt; "pages {pages}, failed {failed}");
        }
        if failed == 0 {
            Ok(())
        } else {
            Err(Stop::Faulted)
        }
    }
}
