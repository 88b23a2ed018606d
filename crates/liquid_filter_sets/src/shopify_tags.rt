//! The tags and blocks of Shopify's language, each of which calls a filter.
ghost use Rattle.std.specs.Prelude.{◌≡◌, [], ◌∷◌, ◌++◌, IfErr, None, OnOk, codes, length};
ghost use Rattle.liquid_model.specs.Answer.{IsValueOrMemory};
ghost use Rattle.liquid_model.specs.Maps.{insert, listed};
ghost use Rattle.liquid_core.specs.Environment.{bind_each};
ghost use Rattle.liquid_language.specs.HostNames.{name_refusal};
ghost use Rattle.liquid_language.specs.HostTags.{blocks_of, calls_of, end_names, numbers_of};
ghost use Rattle.liquid_language.specs.HostTags.{tag_call};
ghost use Rattle.liquid_language.specs.Languages.{kinds_of};
ghost use Rattle.liquid_language.specs.Standard.{standard_blocks, standard_tags};
ghost use Rattle.liquid_language.specs.declared.host_tags.HostKind.TheVariants as kinds;
ghost use Rattle.liquid_filter_sets.specs.ShopifyTags.{block_with, layout_call, section_call};
ghost use Rattle.liquid_filter_sets.specs.ShopifyTags.{shopify_blocks, shopify_calls};
ghost use Rattle.liquid_filter_sets.specs.ShopifyTags.{shopify_ends, with_shopify_blocks};
ghost use Rattle.liquid_filter_sets.specs.ShopifyTags.{with_shopify_tags};

use liquid_core::{Error, ErrorKind, Expression, Result, Value, Variable};
use liquid_language::{HostBlock, HostCall, Language, TagError};
use liquid_lexer::Style;
use std::alloc::{AllocError, Global};

/// Registers the tags `section`, `sections` and `layout` in a language with the standard tags and
/// blocks, and none of a host. `Memory` where a growth was refused; then some of them may be
/// registered.
pub(crate) fn register_shopify_tags(alloc: Global, language: &mut Language) -> Result<()>
    requires own_tags { listed (kinds_of language.old.tags) ≡ bind_each standard_tags (listed []) }
    requires own_blocks { listed (kinds_of language.old.blocks) ≡
        bind_each standard_blocks (listed []) }
    requires no_calls { calls_of language.old.host_tags ≡ [] }
    ensures names { OnOk result (listed (numbers_of language.new.host_tags) ≡
        with_shopify_tags (listed (numbers_of language.old.host_tags))) }
    ensures calls { OnOk result (calls_of language.new.host_tags ≡ shopify_calls) }
    ensures memory { IfErr result (λ e. e.kind ≡ ErrorKind.Memory) }
    ensures host_blocks { blocks_of language.new.host_tags ≡ blocks_of language.old.host_tags }
    ensures ends { end_names language.new.host_tags ≡ end_names language.old.host_tags }
    ensures tags { language.new.tags ≡ language.old.tags }
    ensures blocks { language.new.blocks ≡ language.old.blocks }
    ensures filters { language.new.filters ≡ language.old.filters }
    ensures include_paths { language.new.include_paths ≡ language.old.include_paths }
    ensures drops_blanks { language.new.drops_blanks ≡ language.old.drops_blanks }
    ensures escapes_html { language.new.escapes_html ≡ language.old.escapes_html }
{
    register_tag(alloc, language, "section", section_call(alloc)?)?;
    register_tag(alloc, language, "sections", section_call(alloc)?)?;
    register_tag(alloc, language, "layout", layout_call(alloc)?)
}

/// Registers the blocks `form`, `paginate`, `style`, `schema`, `javascript` and `stylesheet` in a
/// language with the standard tags and blocks, and no blocks of a host. `Memory` where a growth was
/// refused; then some of them may be registered.
pub(crate) fn register_shopify_blocks(alloc: Global, language: &mut Language) -> Result<()>
    requires own_tags { listed (kinds_of language.old.tags) ≡ bind_each standard_tags (listed []) }
    requires own_blocks { listed (kinds_of language.old.blocks) ≡
        bind_each standard_blocks (listed []) }
    requires no_blocks { blocks_of language.old.host_tags ≡ [] }
    requires no_ends { end_names language.old.host_tags ≡ [] }
    ensures names { OnOk result (listed (numbers_of language.new.host_tags) ≡
        with_shopify_blocks (listed (numbers_of language.old.host_tags))) }
    ensures host_blocks { OnOk result (blocks_of language.new.host_tags ≡ shopify_blocks) }
    ensures ends { OnOk result (end_names language.new.host_tags ≡ shopify_ends) }
    ensures memory { IfErr result (λ e. e.kind ≡ ErrorKind.Memory) }
    ensures calls { calls_of language.new.host_tags ≡ calls_of language.old.host_tags }
    ensures tags { language.new.tags ≡ language.old.tags }
    ensures blocks { language.new.blocks ≡ language.old.blocks }
    ensures filters { language.new.filters ≡ language.old.filters }
    ensures include_paths { language.new.include_paths ≡ language.old.include_paths }
    ensures drops_blanks { language.new.drops_blanks ≡ language.old.drops_blanks }
    ensures escapes_html { language.new.escapes_html ≡ language.old.escapes_html }
{
    register_block(alloc, language, "form", "form", Style::Items)?;
    register_block(alloc, language, "paginate", "paginate", Style::Text)?;
    register_block(alloc, language, "style", "style", Style::Items)?;
    register_block(alloc, language, "schema", "no_text", Style::Items)?;
    register_block(alloc, language, "javascript", "no_text", Style::Items)?;
    register_block(alloc, language, "stylesheet", "no_text", Style::Items)
}

/// Registers a tag under a name that a host may have. `Memory` where a growth was refused; then
/// nothing changes.
fn register_tag(alloc: Global, language: &mut Language, name: &str, call: HostCall) -> Result<()>
    requires allowed { name_refusal language.old name.now ≡ None }
    ensures number { OnOk result (listed (numbers_of language.new.host_tags) ≡
        insert (listed (numbers_of language.old.host_tags)) name.now
        (kinds.Tag (length (calls_of language.old.host_tags)))) }
    ensures call { OnOk result (calls_of language.new.host_tags ≡
        calls_of language.old.host_tags ++ tag_call call ∷ []) }
    ensures memory { IfErr result (λ e. e.kind ≡ ErrorKind.Memory) }
    ensures host_blocks { blocks_of language.new.host_tags ≡ blocks_of language.old.host_tags }
    ensures ends { end_names language.new.host_tags ≡ end_names language.old.host_tags }
    ensures tags { language.new.tags ≡ language.old.tags }
    ensures blocks { language.new.blocks ≡ language.old.blocks }
    ensures filters { language.new.filters ≡ language.old.filters }
    ensures include_paths { language.new.include_paths ≡ language.old.include_paths }
    ensures drops_blanks { language.new.drops_blanks ≡ language.old.drops_blanks }
    ensures escapes_html { language.new.escapes_html ≡ language.old.escapes_html }
{
    let name = String::from_str(alloc, name)?;
    match language.register_tag(name, call) {
        Ok(()) => Ok(()),
        Err(TagError::Memory) => Err(Error::from(AllocError)),
        Err(TagError::Refused(_)) => unreachable!(),
    }
}

/// Registers a block under a name that a host may have. `Memory` where a growth was refused; then
/// nothing changes.
fn register_block(
    alloc: Global,
    language: &mut Language,
    name: &str,
    filter: &str,
    style: Style,
) -> Result<()>
    requires allowed { name_refusal language.old name.now ≡ None }
    ensures number { OnOk result (listed (numbers_of language.new.host_tags) ≡
        insert (listed (numbers_of language.old.host_tags)) name.now
        (kinds.Block (length (blocks_of language.old.host_tags)))) }
    ensures block { OnOk result (blocks_of language.new.host_tags ≡
        blocks_of language.old.host_tags ++ block_with filter.now style ∷ []) }
    ensures end { OnOk result (end_names language.new.host_tags ≡
        end_names language.old.host_tags ++ (codes "end" ++ name.now) ∷ []) }
    ensures memory { IfErr result (λ e. e.kind ≡ ErrorKind.Memory) }
    ensures calls { calls_of language.new.host_tags ≡ calls_of language.old.host_tags }
    ensures tags { language.new.tags ≡ language.old.tags }
    ensures blocks { language.new.blocks ≡ language.old.blocks }
    ensures filters { language.new.filters ≡ language.old.filters }
    ensures include_paths { language.new.include_paths ≡ language.old.include_paths }
    ensures drops_blanks { language.new.drops_blanks ≡ language.old.drops_blanks }
    ensures escapes_html { language.new.escapes_html ≡ language.old.escapes_html }
{
    let name = String::from_str(alloc, name)?;
    let filter = String::from_str(alloc, filter)?;
    let block = HostBlock {
        filter,
        style,
        given: Vec::new(alloc),
    };
    match language.register_block(alloc, name, block) {
        Ok(()) => Ok(()),
        Err(TagError::Memory) => Err(Error::from(AllocError)),
        Err(TagError::Refused(_)) => unreachable!(),
    }
}

/// The call of `section` and `sections`.
fn section_call(alloc: Global) -> Result<HostCall>
    ensures { IsValueOrMemory tag_call result section_call }
{
    let sections = Variable {
        name: String::from_str(alloc, "sections")?,
        indexes: Vec::new(alloc),
    };
    Ok(HostCall {
        filter: String::from_str(alloc, "section")?,
        input: Expression::Variable(sections),
        style: Style::Items,
        given: Vec::new(alloc),
    })
}

/// The call of `layout`.
fn layout_call(alloc: Global) -> Result<HostCall>
    ensures { IsValueOrMemory tag_call result layout_call }
{
    Ok(HostCall {
        filter: String::from_str(alloc, "layout")?,
        input: Expression::Literal(Value::Nil),
        style: Style::Text,
        given: Vec::new(alloc),
    })
}
