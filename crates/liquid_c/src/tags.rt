//! Tags and blocks of the caller's, in a language.
ghost use Rattle.std.specs.Prelude.{◌≡◌, [], Some, map, option_map};
ghost use Rattle.liquid_core.specs.ExpressionView.{expression_view};
ghost use Rattle.liquid_c.specs.HostTags.{AddsGiven, AddsTag, AsksForTag, IsTagRegistration};
ghost use Rattle.liquid_c.specs.HostTags.{refusal_of_name, style_numbered};
ghost use Rattle.liquid_c.specs.Shared.{Regaining};
ghost use Rattle.liquid_c.specs.declared.content.Content.TheVariants as content;
ghost use Rattle.liquid_c.specs.declared.handle_content.HandleContent.TheVariants.{Own};
ghost use Rattle.liquid_c.specs.declared.tags.TagForm.TheVariants as form;

use crate::content::Content;
use crate::given::given_values;
use crate::handle::Handle;
use crate::handle_content::HandleContent;
use crate::refusal::Refusal;
use liquid_core::{ErrorKind, Expression, Value};
use liquid_language::{HostBlock, HostCall, Language, NameRefusal, Style, TagError};
use std::alloc::Global;

/// What a caller registers.
#[derive(Clone, Copy, Drop)]
pub(crate) enum TagForm {
    /// A tag without a body.
    Tag,
    /// A block, up to the tag of `end` and its name.
    Block,
}

/// A tag or a block, as the caller gives it.
#[derive(Clone, Copy, Drop)]
struct AskedTag<'c> {
    name: &'c [u8],
    filter: &'c [u8],
    given: &'c [u8],
    style: u32,
}

/// Registers a tag of the caller's in a language: it writes what the filter of this name answers to
/// nil and the values after the tag's name. These are read in the style of this number: 0 items, 1
/// a path first, 2 all of it as one text. What the caller had registered at the name is forgotten.
///
/// 0, or `Memory`, or why it can't be: 113 for no style, 101 for no text, and for the name 110
/// where it is no word, 111 where blocks have a use of it, and 112 where the language has a tag or
/// block of its own there. After anything but 0 nothing changed.
#[unsafe(no_mangle)]
pub extern "C" fn bikleinu_register_tag(
    alloc: Global,
    language: &mut Handle,
    name: &[u8],
    filter: &[u8],
    style: u32,
) -> u32
    ensures { Regaining (λ was. IsTagRegistration form.Tag was name.now filter.now [] style result
        language.new.held) language.old.held }
{
    let bare = AskedTag {
        name,
        filter,
        given: &[],
        style,
    };
    register(alloc, language, TagForm::Tag, bare)
}

/// The same of a block, whose filter is given the text of the body in place of nil.
#[unsafe(no_mangle)]
pub extern "C" fn bikleinu_register_block(
    alloc: Global,
    language: &mut Handle,
    name: &[u8],
    filter: &[u8],
    style: u32,
) -> u32
    ensures { Regaining (λ was. IsTagRegistration form.Block was name.now filter.now [] style result
        language.new.held) language.old.held }
{
    let bare = AskedTag {
        name,
        filter,
        given: &[],
        style,
    };
    register(alloc, language, TagForm::Block, bare)
}

/// Registers a tag as `bikleinu_register_tag` does, whose filter is also given these values, as
/// `page.title, site.url`, after those of the tag: nil where one is missing.
///
/// Beside its numbers 114, where the text is no values with commas between them.
#[unsafe(no_mangle)]
pub extern "C" fn bikleinu_register_tag_given(
    alloc: Global,
    language: &mut Handle,
    name: &[u8],
    filter: &[u8],
    style: u32,
    given: &[u8],
) -> u32
    ensures { Regaining (λ was. IsTagRegistration form.Tag was name.now filter.now given.now style
        result language.new.held) language.old.held }
{
    let asked = AskedTag {
        name,
        filter,
        given,
        style,
    };
    register(alloc, language, TagForm::Tag, asked)
}

/// The same of a block, as `bikleinu_register_block` registers it.
#[unsafe(no_mangle)]
pub extern "C" fn bikleinu_register_block_given(
    alloc: Global,
    language: &mut Handle,
    name: &[u8],
    filter: &[u8],
    style: u32,
    given: &[u8],
) -> u32
    ensures { Regaining (λ was. IsTagRegistration form.Block was name.now filter.now given.now style
        result language.new.held) language.old.held }
{
    let asked = AskedTag {
        name,
        filter,
        given,
        style,
    };
    register(alloc, language, TagForm::Block, asked)
}

fn register(alloc: Global, language: &mut Handle, form: TagForm, asked: AskedTag<'_>) -> u32
    ensures { Regaining (λ was. IsTagRegistration form was asked.entry.name.now
        asked.entry.filter.now asked.entry.given.now asked.entry.style result language.new.held)
        language.old.held }
{
    let mut held = language.take_to_change(alloc);
    let number = register_in_handle(alloc, &mut held, form, asked);
    language.put(alloc, held);
    number
}

fn register_in_handle(
    alloc: Global,
    held: &mut Option<Box<HandleContent>>,
    form: TagForm,
    asked: AskedTag<'_>,
) -> u32
    ensures { IsTagRegistration form (option_map (λ b. b.value) held.old)
        asked.entry.name.now asked.entry.filter.now asked.entry.given.now asked.entry.style result
        (option_map (λ b. b.value) held.new) }
{
    match held {
        Some(held) => match &mut **held {
            HandleContent::Own(Content::Language(language)) => {
                register_asked(alloc, language, form, asked)
            }
            HandleContent::Shared(_) => Refusal::SharedHandle.number(),
            _ => Refusal::OtherHandle.number(),
        },
        None => Refusal::OtherHandle.number(),
    }
}

fn register_asked(alloc: Global, language: &mut Language, form: TagForm, asked: AskedTag<'_>) -> u32
    ensures { AsksForTag form language.old asked.entry.name.now asked.entry.filter.now
        asked.entry.given.now asked.entry.style result
        (Some (Own (content.Language language.new))) }
{
    let Some(style) = style_numbered(asked.style) else {
        return Refusal::NoSuchStyle.number();
    };
    let Ok(name) = str::from_utf8(asked.name) else {
        return Refusal::NoText.number();
    };
    let Ok(filter) = str::from_utf8(asked.filter) else {
        return Refusal::NoText.number();
    };
    let Ok(given) = str::from_utf8(asked.given) else {
        return Refusal::NoText.number();
    };
    let tag = NamedTag {
        name,
        filter,
        style,
    };
    register_given(alloc, language, form, tag, given)
}

fn style_numbered(asked: u32) -> Option<Style>
    ensures { result ≡ style_numbered asked }
{
    if asked == 0 {
        return Some(Style::Items);
    }
    if asked == 1 {
        return Some(Style::PathFirst);
    }
    if asked == 2 { Some(Style::Text) } else { None }
}

/// A tag or a block, as it stands in the language.
#[derive(Clone, Copy, Drop)]
struct NamedTag<'c> {
    name: &'c str,
    filter: &'c str,
    style: Style,
}

fn register_given(
    alloc: Global,
    language: &mut Language,
    form: TagForm,
    tag: NamedTag<'_>,
    given: &str,
) -> u32
    ensures { AddsGiven form language.old tag.entry.name.now tag.entry.filter.now tag.entry.style
        given.now result (Some (Own (content.Language language.new))) }
{
    let given = match given_values(alloc, given) {
        Ok(Some(given)) => given,
        Ok(None) => return Refusal::NoValues.number(),
        Err(fault) => return u32::from(fault.kind.number()),
    };
    match form {
        TagForm::Tag => register_tag(alloc, language, tag, given),
        TagForm::Block => register_block(alloc, language, tag, given),
    }
}

fn register_tag(
    alloc: Global,
    language: &mut Language,
    tag: NamedTag<'_>,
    given: Vec<Expression>,
) -> u32
    ensures { AddsTag form.Tag language.old tag.entry.name.now tag.entry.filter.now tag.entry.style
        (map expression_view given.items) result (Some (Own (content.Language language.new))) }
{
    let Ok(name) = String::from_str(alloc, tag.name) else {
        return u32::from(ErrorKind::Memory.number());
    };
    let Ok(filter) = String::from_str(alloc, tag.filter) else {
        return u32::from(ErrorKind::Memory.number());
    };
    let call = HostCall {
        filter,
        input: Expression::Literal(Value::Nil),
        style: tag.style,
        given,
    };
    match language.register_tag(name, call) {
        Ok(()) => 0,
        Err(TagError::Memory) => u32::from(ErrorKind::Memory.number()),
        Err(TagError::Refused(reason)) => refusal_of_name(reason).number(),
    }
}

fn register_block(
    alloc: Global,
    language: &mut Language,
    tag: NamedTag<'_>,
    given: Vec<Expression>,
) -> u32
    ensures { AddsTag form.Block language.old tag.entry.name.now tag.entry.filter.now
        tag.entry.style (map expression_view given.items) result
        (Some (Own (content.Language language.new))) }
{
    let Ok(name) = String::from_str(alloc, tag.name) else {
        return u32::from(ErrorKind::Memory.number());
    };
    let Ok(filter) = String::from_str(alloc, tag.filter) else {
        return u32::from(ErrorKind::Memory.number());
    };
    let block = HostBlock {
        filter,
        style: tag.style,
        given,
    };
    match language.register_block(alloc, name, block) {
        Ok(()) => 0,
        Err(TagError::Memory) => u32::from(ErrorKind::Memory.number()),
        Err(TagError::Refused(reason)) => refusal_of_name(reason).number(),
    }
}

fn refusal_of_name(reason: NameRefusal) -> Refusal
    ensures { result ≡ refusal_of_name reason }
{
    match reason {
        NameRefusal::NotAWord => Refusal::NoWord,
        NameRefusal::Reserved => Refusal::ReservedName,
        NameRefusal::Taken => Refusal::TakenName,
    }
}
