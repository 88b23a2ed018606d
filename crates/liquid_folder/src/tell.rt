//! The lines that a round prints.
ghost use Rattle.std.specs.Prelude.{◌≡◌, IfOk, length, true};

use crate::files::reason_of;
use crate::stop::FolderStop;
use liquid_files::ShownPath;
use liquid_model::ErrorKind;
use liquid_site::{Folder, RefusalReason, RefusedFile, RoundOutcome, Site};

/// Prints each refused file, each page's fault and a page's file that can't be written on standard
/// error, and how many pages were rendered and written on standard output. Whether there was none
/// of the former. What standard error refuses is lost; memory that ran out, and standard output
/// that can't be written, end the program.
pub fn tell_round(
    rt: &HostRuntime,
    site: &Site,
    folder: &Folder,
    done: RoundOutcome,
    rendered: u64,
) -> Result<bool, FolderStop>
    ensures refused { IfOk result (λ clean. clean ≡ true → length done.refusals.items ≡ 0) }
{
    let RoundOutcome { refusals, written } = done;
    for refusal in &refusals {
        tell_refusal(rt, refusal);
    }
    let faultless = tell_faults(rt, site, folder)?;
    match written {
        Ok(written) => {
            print_counts(rt, rendered, written)?;
            Ok(faultless && refusals.is_empty())
        }
        Err(fault) => match fault.kind {
            ErrorKind::Write => {
                let _ = eprintln!(rt; "error: {fault}");
                Ok(false)
            }
            _ => Err(FolderStop::Fault(fault)),
        },
    }
}

/// Prints how many pages were rendered and written.
fn print_counts(rt: &HostRuntime, rendered: u64, written: u64) -> Result<(), FolderStop> {
    match println!(rt; "rendered {rendered}, written {written}") {
        Ok(()) => Ok(()),
        Err(refused) => Err(FolderStop::Output(refused.kind())),
    }
}

fn tell_refusal(rt: &HostRuntime, refusal: &RefusedFile) {
    let path = ShownPath {
        path: refusal.path.as_str(),
    };
    match &refusal.why {
        RefusalReason::Unreadable => {
            let _ = eprintln!(rt; "error: Read: {path}");
            if let Some(reason) = reason_of(rt, path.path) {
                let _ = eprintln!(rt; "  {reason}");
            }
        }
        RefusalReason::Fault(fault) => {
            let _ = eprintln!(rt; "error: {path}: {fault}");
        }
    }
}

/// Tells each page that ends by a fault. Whether there is none.
fn tell_faults(rt: &HostRuntime, site: &Site, folder: &Folder) -> Result<bool, FolderStop> {
    let mut faultless = true;
    for (name, page) in site.pages().iter() {
        if let Some(fault) = &page.fault {
            let mut path = String::from_str(rt.alloc(), folder.pages.as_str())?;
            path.push_str(name.as_str())?;
            let path = ShownPath {
                path: path.as_str(),
            };
            let _ = eprintln!(rt; "error: {path}: {fault}");
            faultless = false;
        }
    }
    Ok(faultless)
}
