//! Data of a call that no page shows, as its words say.
use liquid_commands::{DataFile, Inputs};
use liquid_core::Quoted;
use liquid_data::is_writable;
use liquid_files::ShownPath;

/// Reports each file of data that a later one of its name replaces, and each name that no template
/// can write.
pub fn note_data(rt: &HostRuntime, inputs: &Inputs<'_>, is_quiet: bool) {
    if is_quiet {
        return;
    }
    for (place, file) in inputs.data.iter().enumerate() {
        if let Some(name) = file.name {
            note_name(rt, "-d", name);
            // the words of a call are few
            let later = inputs.data.iter().skip(place.saturating_add(1));
            if later.filter(|later| later.name == Some(name)).count() > 0 {
                note_replaced(rt, file, name);
            }
        }
    }
    for value in &inputs.values {
        note_name(rt, "-D", value.name);
    }
}

fn note_replaced(rt: &HostRuntime, file: &DataFile<'_>, name: &str) {
    let path = ShownPath { path: file.path };
    let name = Quoted { text: name };
    let _ = eprintln!(rt; "note: {path}: a later -d gives `{name}`, and replaces all of this");
}

fn note_name(rt: &HostRuntime, option: &str, name: &str) {
    if is_writable(name) {
        return;
    }
    let name = Quoted { text: name };
    let _ = eprintln!(rt; "note: no template can write the name `{name}`, which {option} gives");
}
