//! The language of the standard library.
ghost use Rattle.std.specs.Prelude.{◌≡◌, IfOk, IfErr};
ghost use Rattle.liquid_model.specs.Answer.{IsValueOrMemory};
ghost use Rattle.liquid_model.specs.Maps.{insert, listed};
ghost use Rattle.liquid_core.specs.Environment.{bind_each};
ghost use Rattle.liquid_language.specs.Standard.{IsStandard, standard_blocks, standard_tags};
ghost use Rattle.liquid_language.specs.Standard.{with_filters};
ghost use Rattle.liquid_language.specs.Languages.{kinds_of};
ghost use Rattle.liquid_language.specs.Registered.{registered_in};
ghost use Rattle.liquid_language.specs.declared.registered_filter.RegisteredFilter.TheVariants.{Kind};

use crate::reflection::{BlockReflection, TagReflection};
use crate::stdlib::{
    AssignTag, BreakTag, CaptureBlock, CaseBlock, CommentBlock, ContinueTag, CycleTag,
    DecrementTag, ForBlock, IfBlock, IfChangedBlock, IncludeTag, IncrementTag, RawBlock, RenderTag,
    TableRowBlock, UnlessBlock,
};
use crate::{BlockKind, FilterRegistry, Language, Registry, TagKind};
use liquid_core::{ErrorKind, Result};
use liquid_filters::FilterKind;
use std::alloc::Global;

/// The filters of the standard library.
pub const STANDARD_FILTERS: [FilterKind; 56] = [
    FilterKind::Join,
    FilterKind::Sort,
    FilterKind::SortNatural,
    FilterKind::Where,
    FilterKind::Uniq,
    FilterKind::Reverse,
    FilterKind::Map,
    FilterKind::Compact,
    FilterKind::Concat,
    FilterKind::First,
    FilterKind::Last,
    FilterKind::Abs,
    FilterKind::AtLeast,
    FilterKind::AtMost,
    FilterKind::Plus,
    FilterKind::Minus,
    FilterKind::Times,
    FilterKind::DividedBy,
    FilterKind::Modulo,
    FilterKind::Round,
    FilterKind::Ceil,
    FilterKind::Floor,
    FilterKind::Size,
    FilterKind::Default,
    FilterKind::Slice,
    FilterKind::Split,
    FilterKind::Replace,
    FilterKind::ReplaceFirst,
    FilterKind::Remove,
    FilterKind::RemoveFirst,
    FilterKind::Append,
    FilterKind::Prepend,
    FilterKind::Strip,
    FilterKind::Lstrip,
    FilterKind::Rstrip,
    FilterKind::StripNewlines,
    FilterKind::Downcase,
    FilterKind::Upcase,
    FilterKind::Capitalize,
    FilterKind::Truncate,
    FilterKind::TruncateWords,
    FilterKind::Escape,
    FilterKind::EscapeOnce,
    FilterKind::StripHtml,
    FilterKind::NewlineToBr,
    FilterKind::UrlEncode,
    FilterKind::UrlDecode,
    FilterKind::Date,
    FilterKind::Push,
    FilterKind::Unshift,
    FilterKind::Pop,
    FilterKind::Shift,
    FilterKind::ArrayToSentenceString,
    FilterKind::Slugify,
    FilterKind::Pluralize,
    FilterKind::DateInTz,
];

/// The language of the standard library, as far as its tags, blocks and filters exist: each under
/// the name that Liquid gives it. `Memory` where a growth was refused.
pub fn language(alloc: Global) -> Result<Language>
    ensures standard { IfOk result IsStandard }
    ensures memory { IfErr result (λ e. e.kind ≡ ErrorKind.Memory) }
{
    let mut language = Language::new(alloc);
    register_tags(alloc, &mut language.tags)?;
    register_blocks(alloc, &mut language.blocks)?;
    register_filters(alloc, &mut language.filters, &STANDARD_FILTERS)?;
    Ok(language)
}

/// Registers the standard tags.
fn register_tags(alloc: Global, tags: &mut Registry<TagKind>) -> Result<()>
    ensures { IsValueOrMemory (λ _. listed (kinds_of tags.new)) result
        (bind_each standard_tags (listed (kinds_of tags.old))) }
{
    let assign = AssignTag::new();
    register(alloc, tags, assign.tag(), TagKind::from(assign))?;
    let break_tag = BreakTag::new();
    register(alloc, tags, break_tag.tag(), TagKind::from(break_tag))?;
    let continue_tag = ContinueTag::new();
    register(alloc, tags, continue_tag.tag(), TagKind::from(continue_tag))?;
    let increment = IncrementTag::new();
    register(alloc, tags, increment.tag(), TagKind::from(increment))?;
    let decrement = DecrementTag::new();
    register(alloc, tags, decrement.tag(), TagKind::from(decrement))?;
    let include = IncludeTag::new();
    register(alloc, tags, include.tag(), TagKind::from(include))?;
    let render = RenderTag::new();
    register(alloc, tags, render.tag(), TagKind::from(render))?;
    let cycle = CycleTag::new();
    register(alloc, tags, cycle.tag(), TagKind::from(cycle))
}

/// Registers the standard blocks.
fn register_blocks(alloc: Global, blocks: &mut Registry<BlockKind>) -> Result<()>
    ensures { IsValueOrMemory (λ _. listed (kinds_of blocks.new)) result
        (bind_each standard_blocks (listed (kinds_of blocks.old))) }
{
    let raw = RawBlock::new();
    register(alloc, blocks, raw.start_tag(), BlockKind::from(raw))?;
    let comment = CommentBlock::new();
    register(alloc, blocks, comment.start_tag(), BlockKind::from(comment))?;
    let if_block = IfBlock::new();
    register(
        alloc,
        blocks,
        if_block.start_tag(),
        BlockKind::from(if_block),
    )?;
    let unless = UnlessBlock::new();
    register(alloc, blocks, unless.start_tag(), BlockKind::from(unless))?;
    let case = CaseBlock::new();
    register(alloc, blocks, case.start_tag(), BlockKind::from(case))?;
    let capture = CaptureBlock::new();
    register(alloc, blocks, capture.start_tag(), BlockKind::from(capture))?;
    let changed = IfChangedBlock::new();
    register(alloc, blocks, changed.start_tag(), BlockKind::from(changed))?;
    let for_block = ForBlock::new();
    register(
        alloc,
        blocks,
        for_block.start_tag(),
        BlockKind::from(for_block),
    )?;
    let tablerow = TableRowBlock::new();
    register(
        alloc,
        blocks,
        tablerow.start_tag(),
        BlockKind::from(tablerow),
    )
}

/// Registers a kind under a name.
fn register<K: Copy + Drop>(
    alloc: Global,
    kinds: &mut Registry<K>,
    name: &str,
    kind: K,
) -> Result<()>
    ensures { IsValueOrMemory (λ _. listed (kinds_of kinds.new)) result
        (insert (listed (kinds_of kinds.old)) name.now kind) }
{
    kinds.register(String::from_str(alloc, name)?, kind)
}

/// Registers each filter under its own name.
fn register_filters(alloc: Global, filters: &mut FilterRegistry, kinds: &[FilterKind]) -> Result<()>
    ensures { IsValueOrMemory (λ _. listed (registered_in filters.new)) result
        (with_filters (listed (registered_in filters.old)) kinds.now) }
{
    for kind in kinds {
        register_filter(alloc, filters, kind.name(), *kind)?;
    }
    Ok(())
}

/// Registers a filter under a name.
fn register_filter(
    alloc: Global,
    filters: &mut FilterRegistry,
    name: &str,
    kind: FilterKind,
) -> Result<()>
    ensures { IsValueOrMemory (λ _. listed (registered_in filters.new)) result
        (insert (listed (registered_in filters.old)) name.now (Kind kind)) }
{
    filters.register(String::from_str(alloc, name)?, kind)
}
