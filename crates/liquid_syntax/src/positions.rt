//! Where the nodes of a template begin in its source, which a fault of a run reports.

/// A place in a source: its line and its column, in characters and each from 1. A mark of the byte
/// order at the very start of a source is no column.
#[derive(Clone, Copy, Debug, PartialEq, Eq, Drop)]
pub struct Position {
    pub line: u32,
    pub column: u32,
}

impl Position {
    /// The place after a text that begins here. Each byte is a character but those that only
    /// continue one.
    pub fn after(self, text: &str) -> Position {
        let mut lines: usize = 0;
        let mut characters: usize = 0;
        for byte in text.bytes() {
            if byte == b'\n' {
                lines = lines.wrapping_add(1);
                characters = 0;
            } else if byte & 0xc0 != 0x80 {
                characters = characters.wrapping_add(1);
            }
        }
        let first = if lines == 0 { self.column } else { 1 };
        Position {
            line: saturating_sum(self.line, lines),
            column: saturating_sum(first, characters),
        }
    }
}

/// What a source has from a place on. A mark of the byte order at its very start is no column.
pub(crate) fn rest_from<'s>(source: &'s str, place: Position) -> &'s str {
    let mut rest = source.strip_prefix('\u{feff}').unwrap_or(source);
    for _ in 1..place.line as usize {
        rest = match rest.split_once('\n') {
            Some((_, below)) => below,
            None => "",
        };
    }
    let mut characters = rest.chars();
    for _ in 1..place.column as usize {
        characters.next();
    }
    characters.as_str()
}

/// The sum, capped at the greatest value.
fn saturating_sum(from: u32, count: usize) -> u32 {
    from.saturating_add(u32::try_from(count).unwrap_or(u32::MAX))
}
