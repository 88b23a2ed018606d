//! Where the nodes begin in the source that is read.
use liquid_syntax::Position;
use std::alloc::{AllocError, Global};

/// The places of the nodes that are read so far. The source is gone through once, piece by piece.
#[derive(Drop)]
pub(crate) struct Positions<'s> {
    /// For each node of the list, where its piece begins.
    pub(crate) nodes: Vec<Position>,
    /// The place that is reached, and the source from there on.
    reached: Position,
    rest: &'s str,
}

impl<'s> Positions<'s> {
    pub(crate) fn new(alloc: Global, source: &'s str) -> Positions<'s> {
        Positions {
            nodes: Vec::new(alloc),
            reached: Position { line: 1, column: 1 },
            rest: source.strip_prefix('\u{feff}').unwrap_or(source),
        }
    }

    /// Marks a piece that begins `remaining` bytes before the end of the source, and with which
    /// the list has `count` nodes.
    pub(crate) fn mark(&mut self, remaining: usize, count: usize) -> Result<(), AllocError> {
        let passed = self.rest.len().saturating_sub(remaining);
        if let Some((before, rest)) = self.rest.split_at_checked(passed) {
            self.reached = self.reached.after(before);
            self.rest = rest;
        }
        self.nodes.resize(count, self.reached)
    }
}
