//! What is printed of a fault in a text.
use crate::Tip;
use liquid_files::{Excerpt, ShownFault, ShownPath};
use liquid_model::Error;

/// Prints a fault in one line, and the line of the text that it is in. What standard error refuses
/// is lost.
pub fn print_fault(rt: &HostRuntime, path: &str, fault: &Error, text: Option<&str>) {
    let path = ShownPath { path };
    let shown = ShownFault { fault };
    let _ = eprintln!(rt; "error: {path}: {shown}");
    print_excerpt(rt, fault, text);
}

/// Prints the line of a text that a fault is in, where the fault has a location. What standard
/// error refuses is lost.
pub fn print_excerpt(rt: &HostRuntime, fault: &Error, text: Option<&str>) {
    if let (Some(location), Some(text)) = (&fault.location, text) {
        if let Some(excerpt) = Excerpt::new(text, location) {
            let _ = eprintln!(rt; "{excerpt}");
        }
    }
}

/// Prints a tip in one line, where there is one. What standard error refuses is lost.
pub fn print_tip(rt: &HostRuntime, tip: Option<Tip>) {
    if let Some(tip) = tip {
        let _ = eprintln!(rt; "  tip: {tip}");
    }
}
