//! What loops go over, as a template says it.
ghost use Rattle.std.specs.Prelude.{Some};
ghost use Rattle.liquid_model.specs.Answer.{Answers, IsValueOrMemory};
ghost use Rattle.liquid_core.specs.States.{environment_of};
ghost use Rattle.liquid_evaluation.specs.Ranges.{range_of};
ghost use Rattle.liquid_evaluation.specs.SourceView.{range_view, source_view};
ghost use Rattle.liquid_evaluation.specs.WrittenSources.{written_source};

use crate::range::Range;
use crate::window::evaluate_whole;
use liquid_core::{Expression, Result, State};
use std::alloc::Global;
use std::fmt;
use std::fmt::{Formatter, Write};

/// What a loop goes over: the items of a value, or the numbers of a range.
pub enum RangeExpression {
    /// The items of a list, the pairs of a map, or the none of nil.
    Array(Expression),
    /// The numbers from the first to the second, both among them, as in `(1..3)`.
    Counted(Expression, Expression),
}

/// Drops what it holds. Written by hand, so that each early return drops the value by one call
/// to prove.
impl Drop for RangeExpression {
    fn drop(self) {
        match self {
            RangeExpression::Array(_) => {}
            RangeExpression::Counted(_, _) => {}
        }
    }
}

impl RangeExpression {
    /// What the loop goes over in this state. A value is borrowed from what holds it. The ends of
    /// a range are evaluated in turn, and each is converted before the next is evaluated.
    ///
    /// `UnknownVariable` where an expression has no value, `UnexpectedValue` where the end of a
    /// range has no whole number. Where a missing value is nil in this state, a missing value has
    /// no items, and an end that is missing or nil is 0.
    #[tactic(auto, unfolding(crate::specs::Ranges::range_of))]
    pub fn evaluate<'r>(&'r self, alloc: Global, state: &'r State<'_>) -> Result<Range<'r>>
        ensures { Answers range_view result
            (range_of (source_view self.now) (environment_of state.now)) }
    {
        match self {
            RangeExpression::Array(value) => Ok(Range::Array(value.evaluate(alloc, state)?)),
            RangeExpression::Counted(first, last) => {
                let first = evaluate_whole(alloc, first, state)?;
                let last = evaluate_whole(alloc, last, state)?;
                Ok(Range::Counted(first, last))
            }
        }
    }

    /// An equal source that owns its parts.
    pub fn copy(&self, alloc: Global) -> Result<RangeExpression>
        ensures { IsValueOrMemory source_view result (source_view self.now) }
    {
        match self {
            RangeExpression::Array(value) => Ok(RangeExpression::Array(value.copy(alloc)?)),
            RangeExpression::Counted(first, last) => {
                let first = first.copy(alloc)?;
                Ok(RangeExpression::Counted(first, last.copy(alloc)?))
            }
        }
    }
}

/// The written form of the value, or of both ends as `(first..last)`.
impl fmt::Display for RangeExpression {
    ghost output = { λ range. Some (written_source (source_view range)) };

    fn fmt<W: Write>(&self, f: &mut Formatter<W>) -> fmt::Result {
        match self {
            RangeExpression::Array(value) => write!(f, "{value}"),
            RangeExpression::Counted(first, last) => write!(f, "({first}..{last})"),
        }
    }
}
