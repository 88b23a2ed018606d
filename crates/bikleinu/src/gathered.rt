//! Pages on standard output, gathered into large writes.
use liquid_commands::{Stop, print_text};
use std::io::IsTerminal;

/// How many bytes are held back at most.
const ROOM: usize = 65536;

/// Texts for standard output, in their order.
#[derive(Drop)]
pub struct Gathered<'r> {
    rt: &'r HostRuntime,
    held: String,
    /// Whether nothing is held back after a page, since somebody waits for it.
    is_eager: bool,
}

impl<'r> Gathered<'r> {
    /// Nothing is held back yet. On a terminal nothing ever is, nor where the records come as
    /// somebody writes them.
    pub fn new(rt: &'r HostRuntime, is_awaited: bool) -> Gathered<'r> {
        Gathered {
            rt,
            held: String::new(rt.alloc()),
            is_eager: is_awaited || rt.stdout().is_terminal(),
        }
    }

    /// Writes a page with a text after it.
    pub fn print(&mut self, page: &str, separator: &str) -> Result<(), Stop> {
        self.hold(page)?;
        self.hold(separator)?;
        if self.is_eager {
            return self.flush();
        }
        Ok(())
    }

    /// Holds a text back, or writes it where there is no room for it.
    fn hold(&mut self, text: &str) -> Result<(), Stop> {
        if text.len() > ROOM.saturating_sub(self.held.len()) {
            self.flush()?;
        }
        if text.len() <= ROOM && self.held.push_str(text).is_ok() {
            return Ok(());
        }
        self.flush()?;
        print_text(self.rt, text)
    }

    /// Writes what is held back.
    pub fn flush(&mut self) -> Result<(), Stop> {
        let answer = print_text(self.rt, self.held.as_str());
        self.held.clear();
        answer
    }
}
