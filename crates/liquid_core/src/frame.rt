//! Loops as scopes: an item and where the loop stands, with nothing copied.
ghost use Rattle.std.specs.Prelude.{◌<◌, ◌≤◌};

use liquid_model::{Object, Value};

/// The source of a loop.
pub enum Items<'d> {
    /// A list that is borrowed for the whole run.
    Borrowed(&'d [Value]),
    /// A list of the loop's own: the pairs of a map, or a copy of a list that the run may change.
    Owned(Vec<Value>),
    /// The numbers from the first to the second.
    Numbers(i64, i64),
}

/// Drops what it holds. Written by hand, so that each early return drops the value by one call
/// to prove.
impl Drop for Items<'_> {
    fn drop(self) {
        match self {
            Items::Borrowed(_) => {}
            Items::Owned(_) => {}
            Items::Numbers(_, _) => {}
        }
    }
}

/// What a loop binds beside its variable.
pub enum LoopKind {
    /// `forloop`, with what that name held before the loop where no scope held it.
    For(Value),
    /// `forloop` without a parent.
    Render,
    /// `tablerow`, with the number of columns.
    TableRow(Columns),
}

/// Drops what it holds. Written by hand, so that each early return drops the value by one call
/// to prove.
impl Drop for LoopKind {
    fn drop(self) {
        match self {
            LoopKind::For(_) => {}
            LoopKind::Render => {}
            LoopKind::TableRow(_) => {}
        }
    }
}

/// A number of columns, at least 1.
#[derive(Clone, Copy, Drop)]
pub struct Columns {
    /// How many there are.
    pub count: usize,
    ghost some: { (0 < count) × (count ≤ 9223372036854775807) },
}

/// A loop at one of its items.
pub struct LoopFrame<'d> {
    /// The loop's variable.
    pub name: &'d str,
    /// The source.
    pub items: Items<'d>,
    /// How many items of the source are left out.
    pub from: usize,
    /// How many items there are.
    pub count: usize,
    /// Whether the last of them comes first.
    pub reversed: bool,
    /// Which of them the loop is at, from 0.
    pub at: usize,
    /// What the loop binds beside its variable.
    pub kind: LoopKind,
    ghost within: { (at < count) × ((count ≤ 9223372036854775807) × (from ≤ 9223372036854775807)) },
}

/// Drops the fields. Written by hand, so that each early return drops the value by one call to
/// prove.
impl Drop for LoopFrame<'_> {
    fn drop(self) {
        let LoopFrame {
            name: _,
            items: _,
            from: _,
            count: _,
            reversed: _,
            at: _,
            kind: _,
        } = self;
    }
}

/// A scope: names with values of their own, a name with a borrowed value, or a loop at one of
/// its items.
pub enum Scope<'d> {
    /// Names with values of their own.
    Names(Object),
    /// A name with a value that is borrowed for the whole run.
    Borrowed(&'d str, &'d Value),
    /// A loop at one of its items.
    LoopFrame(LoopFrame<'d>),
}

/// Drops what it holds. Written by hand, so that each early return drops the value by one call
/// to prove.
impl Drop for Scope<'_> {
    fn drop(self) {
        match self {
            Scope::Names(_) => {}
            Scope::Borrowed(_, _) => {}
            Scope::LoopFrame(_) => {}
        }
    }
}
