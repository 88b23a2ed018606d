//! The items of `for` and `tablerow`, read from those of a piece.
ghost use Rattle.std.specs.Prelude.{◌≡◌, ◌<◌, ◌≤◌, IfSome, length, option_map};
ghost use Rattle.liquid_lexer.specs.Readers.{Parses};
ghost use Rattle.liquid_lexer.specs.Tokens.{tokens_view};
ghost use Rattle.liquid_parser.specs.Faults.{FaultsAs, FaultsAt};
ghost use Rattle.liquid_core.specs.Expression.{Expression as Meant};
ghost use Rattle.liquid_core.specs.ExpressionView.{expression_view};
ghost use Rattle.liquid_parser.specs.Loops.{head_view, loop_of, own_part, part_first, part_value};
ghost use Rattle.liquid_parser.specs.Loops.{part_view, parts_in, parts_after, source_first};
ghost use Rattle.liquid_parser.specs.Loops.{with_part, Part};
ghost use Rattle.liquid_evaluation.specs.SourceView.{source_view};

use crate::chain_items::expected_before;
use liquid_core::Expression;
use liquid_evaluation::RangeExpression;
use liquid_lexer::{
    Expectation, FaultKind, Item, ParseError, Symbol, is_over, next_value, next_word, skip,
    skip_word,
};
use liquid_syntax::WindowExpression;
use std::collections::VecDeque;

/// Which tag the loop is, and so which parts may follow its source.
#[derive(Clone, Copy, Debug, PartialEq, Eq)]
pub enum LoopTag {
    /// Those of `for`: `limit`, `offset` and `reversed`.
    Each,
    /// Those of `tablerow`: `cols`, `limit` and `offset`.
    Rows,
}

/// A part after a loop's source.
#[derive(Drop)]
pub enum LoopPart {
    Limit(Expression),
    Offset(Expression),
    Cols(Expression),
    Reversed,
}

/// What a loop goes over, and by which name its body knows an item.
#[derive(Drop)]
pub struct Loop {
    pub variable: String,
    pub source: RangeExpression,
    pub window: WindowExpression,
    pub cols: Option<Expression>,
}

/// Takes the source at the front, if one stands there.
pub(crate) fn next_source(items: &mut VecDeque<Item<'_>>) -> Option<RangeExpression>
    ensures value { option_map (λ s. (source_view s, tokens_view items.new.items)) result ≡
        source_first (tokens_view items.old.items) }
    ensures shorter { length items.new.items ≤ length items.old.items }
{
    if matches!(items.front()?, Item::Symbol(_)) {
        return None;
    }
    match items.pop_front()? {
        Item::Value(value, _) => Some(RangeExpression::Array(value)),
        Item::Range(first, last) => Some(RangeExpression::Counted(first, last)),
        Item::Symbol(_) => None,
    }
}

/// Takes a `:` and the value after it off the front, if they stand there.
fn after_colon(items: &mut VecDeque<Item<'_>>) -> Option<Expression>
    ensures value { (make : Meant → Part) →
        option_map (λ x. (make (expression_view x), tokens_view items.new.items)) result ≡
        part_value make (tokens_view items.old.items) }
    ensures shorter { length items.new.items ≤ length items.old.items }
{
    if !skip(items, Symbol::Colon) {
        return None;
    }
    next_value(items)
}

/// What may follow a loop's source.
fn part_wanted(kind: LoopTag) -> Expectation {
    match kind {
        LoopTag::Each => Expectation::ForPartOrCloser,
        LoopTag::Rows => Expectation::TableRowPartOrCloser,
    }
}

/// Takes the part at the front, if one stands there that the loop may have.
fn next_part(items: &mut VecDeque<Item<'_>>, kind: LoopTag) -> Option<LoopPart>
    ensures value { option_map (λ p. (part_view p, tokens_view items.new.items)) result ≡
        part_first kind (tokens_view items.old.items) }
    ensures shorter { IfSome result (λ _. length items.new.items < length items.old.items) }
{
    if skip_word(items, "limit") {
        return Some(LoopPart::Limit(after_colon(items)?));
    }
    if skip_word(items, "offset") {
        return Some(LoopPart::Offset(after_colon(items)?));
    }
    own_part(items, kind)
}

/// Takes the part at the front, if one stands there that only a loop of this kind may have.
fn own_part(items: &mut VecDeque<Item<'_>>, kind: LoopTag) -> Option<LoopPart>
    ensures value { option_map (λ p. (part_view p, tokens_view items.new.items)) result ≡
        own_part kind (tokens_view items.old.items) }
    ensures shorter { IfSome result (λ _. length items.new.items < length items.old.items) }
{
    match kind {
        LoopTag::Each => {
            if !skip_word(items, "reversed") {
                return None;
            }
            Some(LoopPart::Reversed)
        }
        LoopTag::Rows => {
            if !skip_word(items, "cols") {
                return None;
            }
            Some(LoopPart::Cols(after_colon(items)?))
        }
    }
}

impl Loop {
    /// A part takes the place of an earlier one of its kind.
    fn set(&mut self, part: LoopPart)
        ensures parts { parts_in self.new ≡ with_part (parts_in self.old) (part_view part) }
        ensures rest { (self.new.variable ≡ self.old.variable) ×
            (self.new.source ≡ self.old.source) }
    {
        match part {
            LoopPart::Limit(value) => self.window.limit = Some(value),
            LoopPart::Offset(value) => self.window.offset = Some(value),
            LoopPart::Cols(value) => self.cols = Some(value),
            LoopPart::Reversed => self.window.reversed = true,
        }
    }

    /// The parts that all the items are, each in its place.
    fn take_parts(
        &mut self,
        items: VecDeque<Item<'_>>,
        kind: LoopTag,
        at: &str,
    ) -> Result<(), ParseError>
        ensures parts { Parses (λ _. parts_in self.new) result (parts_after kind (parts_in self.old)
            (tokens_view items.entry.items)) }
        ensures rest { (self.new.variable ≡ self.old.variable) ×
            (self.new.source ≡ self.old.source) }
        ensures kind { FaultsAs FaultKind.Expected result }
        ensures place { FaultsAt (length at.now) result }
    {
        let mut items = items;
        'parts: while !is_over(&items) {
            let Some(part) = next_part(&mut items, kind) else {
                return Err(expected_before(at, items, part_wanted(kind)));
            };
            self.set(part);
        }
        Ok(())
    }
}

/// The loop that all the items are: `variable in source`, and any parts that its kind may have, of
/// which the last of a kind counts.
pub fn read_loop(items: VecDeque<Item<'_>>, kind: LoopTag, at: &str) -> Result<Loop, ParseError>
    ensures head { Parses head_view result (loop_of kind (tokens_view items.entry.items)) }
    ensures kind { FaultsAs FaultKind.Expected result }
    ensures place { FaultsAt (length at.now) result }
{
    let mut items = items;
    let Some(variable) = next_word(&mut items) else {
        return Err(expected_before(at, items, Expectation::VariableName));
    };
    if !skip_word(&mut items, "in") {
        return Err(expected_before(at, items, Expectation::In));
    }
    let Some(source) = next_source(&mut items) else {
        return Err(expected_before(at, items, Expectation::ListOrRange));
    };
    let mut read = Loop {
        variable,
        source,
        window: WindowExpression {
            limit: None,
            offset: None,
            reversed: false,
        },
        cols: None,
    };
    match read.take_parts(items, kind, at) {
        Ok(()) => Ok(read),
        Err(error) => {
            drop(read);
            Err(error)
        }
    }
}
