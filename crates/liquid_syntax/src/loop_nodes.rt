//! What a node of a loop says besides its bodies.

use liquid_core::Expression;
use liquid_evaluation::RangeExpression;

/// Which of a loop's items are asked for.
pub struct WindowExpression {
    /// How many at most.
    pub limit: Option<Expression>,
    /// How many of the first are left out.
    pub offset: Option<Expression>,
    /// Whether they come in reverse, the last one first.
    pub reversed: bool,
}

/// Drops the fields. Written by hand, so that each early return drops the value by one call to
/// prove.
impl Drop for WindowExpression {
    fn drop(self) {
        let WindowExpression {
            limit: _,
            offset: _,
            reversed: _,
        } = self;
    }
}

/// `for variable in source`, with the items that are asked for.
pub struct For {
    pub variable: String,
    pub source: RangeExpression,
    pub window: WindowExpression,
}

/// Drops the fields. Written by hand, so that each early return drops the value by one call to
/// prove.
impl Drop for For {
    fn drop(self) {
        let For {
            variable: _,
            source: _,
            window: _,
        } = self;
    }
}

/// `tablerow variable in source`, with the items that are asked for and the number of columns.
pub struct TableRow {
    pub variable: String,
    pub source: RangeExpression,
    /// It is never reversed.
    pub window: WindowExpression,
    pub cols: Option<Expression>,
}

/// Drops the fields. Written by hand, so that each early return drops the value by one call to
/// prove.
impl Drop for TableRow {
    fn drop(self) {
        let TableRow {
            variable: _,
            source: _,
            window: _,
            cols: _,
        } = self;
    }
}

/// `for source as variable` of a `render`.
pub struct Each {
    pub source: RangeExpression,
    pub variable: String,
}

/// Drops the fields. Written by hand, so that each early return drops the value by one call to
/// prove.
impl Drop for Each {
    fn drop(self) {
        let Each {
            source: _,
            variable: _,
        } = self;
    }
}
