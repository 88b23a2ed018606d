//! Where a value stands that isn't whole, and what is read of it.
ghost use Rattle.std.specs.Prelude.{◌≡◌, option_map, string_bytes};
ghost use Rattle.liquid_model.specs.Answer.{IsValueOrMemory};
ghost use Rattle.liquid_model.specs.View.{view};
ghost use Rattle.liquid_yaml.specs.Lines.{setting_view};
ghost use Rattle.liquid_yaml.specs.Places as spec;
ghost use Rattle.liquid_yaml.specs.Places.{around_view, so_far_view};

use crate::block::{Block, block_at};
use crate::flow::value_of;
use crate::line::Member;
use crate::value::is_all_plain;
use crate::words::PlainWords;
use liquid_model::{Object, Result, Value, store};
use std::alloc::Global;

/// A map after so many spaces, with the members before a key whose value isn't whole.
#[derive(Drop)]
pub(crate) struct OpenMap<'t> {
    pub column: usize,
    pub members: Object,
    pub key: &'t str,
}

/// A list after so many spaces, with the items before one that isn't whole.
#[derive(Drop)]
pub(crate) struct OpenList {
    pub column: usize,
    pub items: Vec<Value>,
}

/// Where a value stands that isn't whole.
#[derive(Drop)]
pub(crate) enum Place<'t> {
    /// Under a key.
    Member(OpenMap<'t>),
    /// In a list.
    Item(OpenList),
}

/// What is read of that value.
pub(crate) enum Here<'t> {
    /// Nothing yet.
    Nothing,
    /// All of it.
    Whole(Value),
    /// Words that may go on.
    Words(PlainWords),
    /// Lines of a text.
    Block(Block<'t>),
}

/// Drops what it holds. Written by hand, so that each early return drops the value by one call
/// to prove.
impl Drop for Here<'_> {
    fn drop(self) {
        match self {
            Here::Nothing | Here::Whole(_) | Here::Words(_) | Here::Block(_) => {}
        }
    }
}

/// Where a line starts.
#[derive(Clone, Copy, Drop)]
pub(crate) struct Start {
    pub column: usize,
    /// Whether it begins an item of a list.
    pub is_item: bool,
}

impl<'t> Place<'t> {
    pub(crate) fn is_left(&self, start: Option<Start>) -> bool
        ensures { result ≡ spec.is_left start (around_view self.now) }
    {
        match (start, self) {
            (None, _) => true,
            (Some(start), Place::Member(map)) => start.column < map.column,
            (Some(start), Place::Item(list)) => {
                start.column < list.column || (start.column == list.column && !start.is_item)
            }
        }
    }

    /// The map or list with this value in it.
    #[tactic(auto, using(crate::proofs::Items::items_push))]
    pub(crate) fn holding(self, alloc: Global, value: Value) -> Result<Value>
        ensures { IsValueOrMemory view result (spec.holding (around_view self.entry) (view value)) }
    {
        match self {
            Place::Member(map) => {
                let mut members = map.members;
                store(&mut members, String::from_str(alloc, map.key)?, value)?;
                Ok(Value::Object(members))
            }
            Place::Item(list) => {
                let mut items = list.items;
                items.push(value)?;
                Ok(Value::Array(items))
            }
        }
    }
}

impl<'t> Place<'t> {
    /// After how many spaces it stands.
    pub(crate) fn column(&self) -> usize
        ensures { result ≡ spec.column_of_place (around_view self.now) }
    {
        match self {
            Place::Member(map) => map.column,
            Place::Item(list) => list.column,
        }
    }
}

impl<'t> Here<'t> {
    pub(crate) fn is_unread(&self) -> bool
        ensures { result ≡ spec.is_unread (so_far_view self.now) }
    {
        match self {
            Here::Nothing => true,
            _ => false,
        }
    }

    pub(crate) fn is_words(&self) -> bool
        ensures { result ≡ spec.is_words (so_far_view self.now) }
    {
        match self {
            Here::Words(_) => true,
            _ => false,
        }
    }

    /// The value: nil where there is none.
    pub(crate) fn value(self, alloc: Global) -> Result<Value>
        ensures { IsValueOrMemory view result (spec.value_so_far (so_far_view self.entry)) }
    {
        match self {
            Here::Nothing => Ok(Value::Nil),
            Here::Whole(value) => Ok(value),
            Here::Words(words) => Ok(Value::Text(words.text(alloc)?)),
            Here::Block(block) => Ok(Value::Text(block.text(alloc)?)),
        }
    }
}

pub(crate) fn first_member<'t>(alloc: Global, member: Member<'t>) -> Place<'t>
    ensures { around_view result ≡ spec.first_member (setting_view member.entry) }
{
    Place::Member(OpenMap {
        column: member.column,
        members: Object::new(alloc),
        key: member.key,
    })
}

pub(crate) fn first_item<'t>(alloc: Global, column: usize) -> Place<'t>
    ensures { around_view result ≡ spec.first_element column }
{
    Place::Item(OpenList {
        column,
        items: Vec::new(alloc),
    })
}

/// What follows a key or a `-` that stands after so many spaces.
#[tactic(auto, using(liquid_model::proofs::Cuts::past_first))]
pub(crate) fn read_at<'t>(alloc: Global, column: usize, text: &'t str) -> Result<Option<Here<'t>>>
    ensures { IsValueOrMemory (λ o. option_map so_far_view o) result
        (spec.read_at column text.now) }
{
    match text.as_bytes() {
        [] | [b'#', ..] => Ok(Some(Here::Nothing)),
        [b'|', ..] => {
            let block = block_at(alloc, false, column, &text[1..]);
            Ok(block.map(|block| Here::Block(block)))
        }
        [b'>', ..] => {
            let block = block_at(alloc, true, column, &text[1..]);
            Ok(block.map(|block| Here::Block(block)))
        }
        _ => {
            let value = value_of(alloc, text)?;
            Ok(value.map(|value| scalar_read(column, text, value)))
        }
    }
}

/// A value that is read. A text without quotes and without a comment after it may go on.
fn scalar_read<'t>(column: usize, text: &'t str, value: Value) -> Here<'t>
    ensures { so_far_view result ≡ spec.scalar_read column text.now (view value) }
{
    match value {
        Value::Text(words) => words_read(column, text, words),
        value => Here::Whole(value),
    }
}

fn words_read<'t>(column: usize, text: &'t str, words: String) -> Here<'t>
    ensures { so_far_view result ≡ spec.words_read column text.now (string_bytes words) }
{
    if is_all_plain(text) {
        Here::Words(PlainWords {
            below: column,
            words,
        })
    } else {
        Here::Whole(Value::Text(words))
    }
}
