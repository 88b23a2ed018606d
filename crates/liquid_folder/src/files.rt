//! The files of a site, as the system has them.
use liquid_files::{Bounds, PageFiles, Reason, SystemFiles};
use std::{fs, process};

/// The files of the system, into which the pages of a site go.
pub type SitePages<'r> = PageFiles<SystemFiles<'r>>;

/// The files of a site, in folders that are there.
pub fn site_pages<'r>(rt: &'r HostRuntime) -> SitePages<'r> {
    let bounds = Bounds {
        front: String::new(rt.alloc()),
        hidden: usize::MAX,
        makes_folders: false,
    };
    PageFiles::new(
        rt.alloc(),
        SystemFiles::new(rt, true),
        process::id(rt.process()),
        bounds,
    )
}

/// Why a file has no text, by another look at it, or none where it has one now.
pub fn reason_of(rt: &HostRuntime, path: &str) -> Option<Reason> {
    match fs::read(rt, path) {
        Ok(bytes) => match String::from_utf8(bytes) {
            Ok(_) => None,
            Err(refused) => Some(Reason::of_bytes(&refused)),
        },
        Err(refused) => Some(Reason::from(refused.kind())),
    }
}
