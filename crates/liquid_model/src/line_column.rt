//! The line and the column of a place in a source.
use crate::{Location, Origin};

/// The line and the column, in characters and each from 1, of the place `remaining` bytes before
/// the end of the source. A byte order mark at the start of the source is no column.
pub fn location(source: &str, remaining: usize) -> Location {
    let front = source
        .get(..source.len().saturating_sub(remaining))
        .unwrap_or(source);
    let lines = front.as_bytes().iter().filter(|b| **b == b'\n').count();
    let line = match front.rfind('\n') {
        Some(end) => front.get(end.saturating_add(1)..).unwrap_or(""),
        None => front.strip_prefix('\u{feff}').unwrap_or(front),
    };
    Location {
        origin: Origin::Template,
        line: lines.saturating_add(1),
        column: line.chars().count().saturating_add(1),
    }
}
