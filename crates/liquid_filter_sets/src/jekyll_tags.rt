//! The tags and the block of Jekyll's language, each of which calls the filter of its name.
ghost use Rattle.std.specs.Prelude.{◌≡◌, [], ◌∷◌, ◌++◌, IfErr, None, OnOk, codes, length, map};
ghost use Rattle.liquid_model.specs.Answer.{IsValueOrMemory};
ghost use Rattle.liquid_model.specs.Maps.{insert, listed};
ghost use Rattle.liquid_core.specs.Environment.{bind_each};
ghost use Rattle.liquid_core.specs.ExpressionView.{expression_view};
ghost use Rattle.liquid_language.specs.HostNames.{name_refusal};
ghost use Rattle.liquid_language.specs.HostTags.{blocks_of, calls_of, end_names, numbers_of};
ghost use Rattle.liquid_language.specs.Languages.{kinds_of};
ghost use Rattle.liquid_language.specs.Standard.{standard_blocks};
ghost use Rattle.liquid_language.specs.declared.host_tags.HostKind.TheVariants as kinds;
ghost use Rattle.liquid_filter_sets.specs.Languages.{HasJekyllTags, feed_parts};
ghost use Rattle.liquid_filter_sets.specs.Languages.{highlight_call, jekyll_tags};
ghost use Rattle.liquid_filter_sets.specs.Languages.{of_site, seo_text, site_call, site_lists};

use liquid_core::{Error, ErrorKind, Expression, Result, Value, Variable};
use liquid_language::{HostBlock, HostCall, Language, TagError};
use liquid_lexer::Style;
use std::alloc::{AllocError, Global};

/// Registers the tags `link`, `post_url`, `feed_meta` and `seo` and the block `highlight` in a
/// language with Jekyll's own tags and none of a host. `Memory` where a growth was refused; then
/// some of them may be registered.
pub(crate) fn register_jekyll_tags(alloc: Global, language: &mut Language) -> Result<()>
    requires own_tags { listed (kinds_of language.old.tags) ≡ jekyll_tags }
    requires own_blocks { listed (kinds_of language.old.blocks) ≡
        bind_each standard_blocks (listed []) }
    requires no_names { numbers_of language.old.host_tags ≡ [] }
    requires no_calls { calls_of language.old.host_tags ≡ [] }
    requires no_blocks { blocks_of language.old.host_tags ≡ [] }
    requires no_ends { end_names language.old.host_tags ≡ [] }
    ensures host_tags { OnOk result (HasJekyllTags language.new) }
    ensures memory { IfErr result (λ e. e.kind ≡ ErrorKind.Memory) }
    ensures tags { language.new.tags ≡ language.old.tags }
    ensures blocks { language.new.blocks ≡ language.old.blocks }
    ensures filters { language.new.filters ≡ language.old.filters }
    ensures include_paths { language.new.include_paths ≡ language.old.include_paths }
    ensures drops_blanks { language.new.drops_blanks ≡ language.old.drops_blanks }
    ensures escapes_html { language.new.escapes_html ≡ language.old.escapes_html }
{
    let lists = site_lists(alloc)?;
    register_site_tag(alloc, language, "link", lists)?;
    let posts = one_part(alloc, "posts")?;
    register_site_tag(alloc, language, "post_url", posts)?;
    let feed = feed_parts(alloc)?;
    register_site_tag(alloc, language, "feed_meta", feed)?;
    let seo = seo_parts(alloc)?;
    register_site_tag(alloc, language, "seo", seo)?;
    register_highlight(alloc, language)
}

/// Registers a tag that calls the filter of its name with its markup, as one text, and with these
/// parts of the data. `Memory` where a growth was refused; then nothing changes.
fn register_site_tag(
    alloc: Global,
    language: &mut Language,
    name: &str,
    given: Vec<Expression>,
) -> Result<()>
    requires allowed { name_refusal language.old name.now ≡ None }
    ensures number { OnOk result (listed (numbers_of language.new.host_tags) ≡
        insert (listed (numbers_of language.old.host_tags)) name.now
        (kinds.Tag (length (calls_of language.old.host_tags)))) }
    ensures call { OnOk result (calls_of language.new.host_tags ≡
        calls_of language.old.host_tags ++
        site_call name.now (map expression_view given.items) ∷ []) }
    ensures memory { IfErr result (λ e. e.kind ≡ ErrorKind.Memory) }
    ensures host_blocks { blocks_of language.new.host_tags ≡ blocks_of language.old.host_tags }
    ensures ends { end_names language.new.host_tags ≡ end_names language.old.host_tags }
    ensures tags { language.new.tags ≡ language.old.tags }
    ensures blocks { language.new.blocks ≡ language.old.blocks }
    ensures filters { language.new.filters ≡ language.old.filters }
    ensures include_paths { language.new.include_paths ≡ language.old.include_paths }
    ensures drops_blanks { language.new.drops_blanks ≡ language.old.drops_blanks }
    ensures escapes_html { language.new.escapes_html ≡ language.old.escapes_html }
{
    let filter = String::from_str(alloc, name)?;
    let name = String::from_str(alloc, name)?;
    let call = HostCall {
        filter,
        input: Expression::Literal(Value::Nil),
        style: Style::Text,
        given,
    };
    match language.register_tag(name, call) {
        Ok(()) => Ok(()),
        Err(TagError::Memory) => Err(Error::from(AllocError)),
        Err(TagError::Refused(_)) => unreachable!(),
    }
}

/// Registers the block `highlight`, which calls the filter of its name with all that stands after
/// the name as one text. `Memory` where a growth was refused; then nothing changes.
fn register_highlight(alloc: Global, language: &mut Language) -> Result<()>
    requires allowed { name_refusal language.old (codes "highlight") ≡ None }
    ensures number { OnOk result (listed (numbers_of language.new.host_tags) ≡
        insert (listed (numbers_of language.old.host_tags)) (codes "highlight")
        (kinds.Block (length (blocks_of language.old.host_tags)))) }
    ensures block { OnOk result (blocks_of language.new.host_tags ≡
        blocks_of language.old.host_tags ++ highlight_call ∷ []) }
    ensures end { OnOk result (end_names language.new.host_tags ≡
        end_names language.old.host_tags ++ codes "endhighlight" ∷ []) }
    ensures memory { IfErr result (λ e. e.kind ≡ ErrorKind.Memory) }
    ensures calls { calls_of language.new.host_tags ≡ calls_of language.old.host_tags }
    ensures tags { language.new.tags ≡ language.old.tags }
    ensures blocks { language.new.blocks ≡ language.old.blocks }
    ensures filters { language.new.filters ≡ language.old.filters }
    ensures include_paths { language.new.include_paths ≡ language.old.include_paths }
    ensures drops_blanks { language.new.drops_blanks ≡ language.old.drops_blanks }
    ensures escapes_html { language.new.escapes_html ≡ language.old.escapes_html }
{
    let name = String::from_str(alloc, "highlight")?;
    let filter = String::from_str(alloc, "highlight")?;
    let block = HostBlock {
        filter,
        style: Style::Text,
        given: Vec::new(alloc),
    };
    match language.register_block(alloc, name, block) {
        Ok(()) => Ok(()),
        Err(TagError::Memory) => Err(Error::from(AllocError)),
        Err(TagError::Refused(_)) => unreachable!(),
    }
}

/// The lists in which `link` looks.
fn site_lists(alloc: Global) -> Result<Vec<Expression>>
    ensures { IsValueOrMemory (λ v. map expression_view v.items) result site_lists }
{
    let mut lists = Vec::with_capacity(alloc, 3)?;
    lists.push(of_site(alloc, "pages")?)?;
    lists.push(of_site(alloc, "static_files")?)?;
    lists.push(of_site(alloc, "documents")?)?;
    Ok(lists)
}

/// What `feed_meta` is given.
fn feed_parts(alloc: Global) -> Result<Vec<Expression>>
    ensures { IsValueOrMemory (λ v. map expression_view v.items) result feed_parts }
{
    let mut parts = Vec::with_capacity(alloc, 3)?;
    parts.push(of_site(alloc, "feed")?)?;
    parts.push(of_site(alloc, "title")?)?;
    parts.push(of_site(alloc, "name")?)?;
    Ok(parts)
}

/// What `seo` is given.
fn seo_parts(alloc: Global) -> Result<Vec<Expression>>
    ensures { IsValueOrMemory (λ v. map expression_view v.items) result (seo_text ∷ []) }
{
    let mut parts = Vec::with_capacity(alloc, 1)?;
    parts.push(seo_text(alloc)?)?;
    Ok(parts)
}

/// What `seo` writes.
fn seo_text(alloc: Global) -> Result<Expression>
    ensures { IsValueOrMemory expression_view result seo_text }
{
    let name = String::from_str(alloc, "seo_tag")?;
    let indexes = Vec::new(alloc);
    Ok(Expression::Variable(Variable { name, indexes }))
}

/// A list of one part of the site.
fn one_part(alloc: Global, name: &str) -> Result<Vec<Expression>>
    ensures { IsValueOrMemory (λ v. map expression_view v.items) result (of_site name.now ∷ []) }
{
    let mut parts = Vec::with_capacity(alloc, 1)?;
    parts.push(of_site(alloc, name)?)?;
    Ok(parts)
}

/// What the site has at the name.
fn of_site(alloc: Global, name: &str) -> Result<Expression>
    ensures { IsValueOrMemory expression_view result (of_site name.now) }
{
    let mut indexes = Vec::with_capacity(alloc, 1)?;
    let step = Value::Text(String::from_str(alloc, name)?);
    indexes.push(Expression::Literal(step))?;
    let name = String::from_str(alloc, "site")?;
    Ok(Expression::Variable(Variable { name, indexes }))
}
