//! Changes of a site.

use liquid_core::{Object, Value};

/// A change of what a site holds: names first, sources second. A set replaces, and a removal of
/// what isn't there changes nothing.
#[derive(Drop)]
pub enum Change {
    /// A page's template.
    SetPage(String, String),
    /// A page that goes.
    RemovePage(String),
    /// A partial's template.
    SetPartial(String, String),
    /// A partial that goes.
    RemovePartial(String),
    /// A value of the data.
    SetValue(String, Value),
    /// A value that goes.
    RemoveValue(String),
    /// All data, in place of what was there.
    SetData(Object),
}
