//! The lists and objects that are open at a place of the data.
use crate::tokens::MAX_DEPTH;

/// The lists and objects around a place, the innermost in the last bit of `lists`, which is 1 of a
/// list.
#[derive(Clone, Copy)]
pub struct Levels {
    lists: u128,
    count: usize,
}

impl Levels {
    pub fn new() -> Levels {
        Levels { lists: 0, count: 0 }
    }

    pub fn is_empty(&self) -> bool {
        self.count == 0
    }

    /// Whether as many are open as may be.
    pub fn is_full(&self) -> bool {
        self.count >= MAX_DEPTH
    }

    /// Whether the innermost is a list.
    pub fn in_list(&self) -> bool {
        self.count > 0 && self.lists & 1 == 1
    }

    pub fn open(&mut self, is_list: bool) {
        self.lists = (self.lists << 1) | (is_list as u128);
        self.count = self.count.saturating_add(1);
    }

    pub fn close(&mut self) {
        self.lists >>= 1;
        self.count = self.count.saturating_sub(1);
    }
}
