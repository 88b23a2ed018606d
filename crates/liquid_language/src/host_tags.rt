//! Tags and blocks of a host, which stand for its filters.
ghost use Rattle.std.specs.Prelude.{◌≡◌, ◌↔◌, [], ◌∷◌, ◌++◌, IsTrue, length, map, string_bytes};
ghost use Rattle.std.specs.Prelude.{codes, option_map, OnErr, OnOk, slice_get};
ghost use Rattle.liquid_model.specs.Answer.{IsValueOrMemory};
ghost use Rattle.liquid_model.specs.Maps.{insert, listed};
ghost use Rattle.liquid_language.specs.HostTags.{block_call, blocks_of, calls_of, end_in};
ghost use Rattle.liquid_language.specs.HostTags.{end_names, numbers_of, style_in, tag_call};
ghost use Rattle.liquid_language.specs.declared.host_tags.HostKind.TheVariants as kinds;

use crate::registry::Registry;
use liquid_core::Expression;
use liquid_lexer::Style;
use liquid_model::Result;
use std::alloc::Global;
use std::collections::btree_map::Keys;

/// What a tag of a host writes: what a filter makes of an input, of the tag's values and of those
/// that are given with it.
pub struct HostCall {
    /// The name that the filter is registered under.
    pub filter: String,
    /// The filter's input: a variable as `page`, or `Expression::Literal(Value::Nil)`.
    pub input: Expression,
    /// How what stands after the tag's name is read.
    pub style: Style,
    /// Expressions as `page.title`, whose values the filter is given after those of the tag; nil
    /// where one is missing.
    pub given: Vec<Expression>,
}

/// Drops the fields. Written by hand, so that each early return drops the value by one call to
/// prove.
impl Drop for HostCall {
    fn drop(self) {
        let HostCall {
            filter: _,
            input: _,
            style: _,
            given: _,
        } = self;
    }
}

/// What a block of a host writes: what a filter makes of the text of the block's body, of the
/// values in the tag that begins it and of those that are given with it.
pub struct HostBlock {
    /// The name that the filter is registered under.
    pub filter: String,
    /// How what stands after the block's name is read.
    pub style: Style,
    /// Expressions whose values the filter is given after those of the tag, as `HostCall::given`.
    pub given: Vec<Expression>,
}

/// Drops the fields, as `HostCall` does.
impl Drop for HostBlock {
    fn drop(self) {
        let HostBlock {
            filter: _,
            style: _,
            given: _,
        } = self;
    }
}

/// What a name of a host stands for, by its number among the tags or among the blocks.
#[derive(Clone, Copy, Debug, PartialEq, Eq, Drop)]
pub enum HostKind {
    Tag(usize),
    Block(usize),
}

/// A block, and the name of the tag that ends it.
#[derive(Drop)]
struct EndedBlock {
    block: HostBlock,
    end: String,
}

/// Tags and blocks of a host by the names that they are registered under.
#[derive(Drop)]
pub struct HostTags {
    numbers: Registry<HostKind>,
    calls: Vec<HostCall>,
    blocks: Vec<EndedBlock>,
}

impl HostTags {
    /// No tags and no blocks.
    pub(crate) fn new(alloc: Global) -> HostTags
        ensures numbers { numbers_of result ≡ [] }
        ensures calls { calls_of result ≡ [] }
        ensures blocks { blocks_of result ≡ [] }
        ensures ends { end_names result ≡ [] }
    {
        HostTags {
            numbers: Registry::new(alloc),
            calls: Vec::new(alloc),
            blocks: Vec::new(alloc),
        }
    }

    /// Registers a tag's call under a name, at the next number. Where there is no memory nothing
    /// changes.
    pub(crate) fn register_tag(&mut self, name: String, call: HostCall) -> Result<()>
        ensures number { IsValueOrMemory (λ _. listed (numbers_of self.new)) result
            (insert (listed (numbers_of self.old)) (string_bytes name)
            (kinds.Tag (length (calls_of self.old)))) }
        ensures call { OnOk result (calls_of self.new ≡ calls_of self.old ++ tag_call call ∷ []) }
        ensures same_numbers { OnErr result (numbers_of self.new ≡ numbers_of self.old) }
        ensures same_calls { OnErr result (calls_of self.new ≡ calls_of self.old) }
        ensures blocks { blocks_of self.new ≡ blocks_of self.old }
        ensures ends { end_names self.new ≡ end_names self.old }
    {
        self.calls.try_reserve(1)?;
        self.numbers
            .register(name, HostKind::Tag(self.calls.len()))?;
        self.calls.push(call)?;
        Ok(())
    }

    /// Registers a block under a name, at the next number. Where there is no memory nothing
    /// changes.
    pub(crate) fn register_block(
        &mut self,
        alloc: Global,
        name: String,
        block: HostBlock,
    ) -> Result<()>
        ensures number { IsValueOrMemory (λ _. listed (numbers_of self.new)) result
            (insert (listed (numbers_of self.old)) (string_bytes name)
            (kinds.Block (length (blocks_of self.old)))) }
        ensures block { OnOk result
            (blocks_of self.new ≡ blocks_of self.old ++ block_call block ∷ []) }
        ensures end { OnOk result
            (end_names self.new ≡ end_names self.old ++ (codes "end" ++ string_bytes name) ∷ []) }
        ensures same_numbers { OnErr result (numbers_of self.new ≡ numbers_of self.old) }
        ensures same_blocks { OnErr result (blocks_of self.new ≡ blocks_of self.old) }
        ensures same_ends { OnErr result (end_names self.new ≡ end_names self.old) }
        ensures calls { calls_of self.new ≡ calls_of self.old }
    {
        self.blocks.try_reserve(1)?;
        let end = end_of(alloc, name.as_str())?;
        self.numbers
            .register(name, HostKind::Block(self.blocks.len()))?;
        self.blocks.push(EndedBlock { block, end })?;
        Ok(())
    }

    /// Whether no tag and no block is registered.
    pub fn is_empty(&self) -> bool
        ensures { IsTrue result ↔ (numbers_of self.now ≡ []) }
    {
        self.numbers.is_empty()
    }

    /// The registered names, in order.
    pub fn names(&self) -> Keys<'_, String, HostKind>
        ensures { map string_bytes result ≡ map (λ e. e.0) (numbers_of self.now) }
    {
        self.numbers.names()
    }

    /// What is registered under the name.
    pub fn get(&self, name: &str) -> Option<HostKind>
        ensures { result ≡ listed (numbers_of self.now) name.now }
    {
        self.numbers.get(name)
    }

    /// The call of the tag with the number.
    pub fn call(&self, number: usize) -> Option<&HostCall>
        ensures { option_map (λ call. tag_call call.now) result ≡
            slice_get (calls_of self.now) number }
    {
        self.calls.get(number)
    }

    /// The block with the number.
    pub fn block(&self, number: usize) -> Option<&HostBlock>
        ensures { option_map (λ block. block_call block.now) result ≡
            slice_get (blocks_of self.now) number }
    {
        match self.blocks.get(number) {
            Some(ended) => Some(&ended.block),
            None => None,
        }
    }

    /// The name of the tag that ends the block with the number; nothing where there is none.
    pub fn end(&self, number: usize) -> &str
        ensures { result.now ≡ end_in self.now number }
    {
        match self.blocks.get(number) {
            Some(ended) => ended.end.as_str(),
            None => "",
        }
    }

    /// The style of the tag or block; items where there is none.
    pub fn style(&self, kind: HostKind) -> Style
        ensures { result ≡ style_in self.now kind }
    {
        match kind {
            HostKind::Tag(number) => match self.call(number) {
                Some(call) => call.style,
                None => Style::Items,
            },
            HostKind::Block(number) => match self.block(number) {
                Some(block) => block.style,
                None => Style::Items,
            },
        }
    }
}

/// The name of the tag that ends a block of the name.
fn end_of(alloc: Global, name: &str) -> Result<String>
    ensures { IsValueOrMemory string_bytes result (codes "end" ++ name.now) }
{
    let mut end = String::from_str(alloc, "end")?;
    end.push_str(name)?;
    Ok(end)
}
