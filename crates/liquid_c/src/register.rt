//! Languages of the caller's choice.
ghost use Rattle.std.specs.Prelude.{◌≡◌, [], IfErr, IfOk, None, OnOk, codes, option_map};
ghost use Rattle.liquid_language.specs.HostNames.{name_refusal};
ghost use Rattle.liquid_language.specs.HostTags.{numbers_of};
ghost use Rattle.liquid_c.specs.Languages.{HasOwnHighlight, IsJekylls, IsRegistration};
ghost use Rattle.liquid_c.specs.Languages.{MakesJekylls, RegistersFilter};
ghost use Rattle.liquid_c.specs.ResultStored.{ResultStored};
ghost use Rattle.liquid_c.specs.Shared.{Regaining};
ghost use Rattle.std.specs.Prelude.{Some};
ghost use Rattle.liquid_c.specs.declared.content.Content.TheVariants as content;
ghost use Rattle.liquid_c.specs.declared.handle_content.HandleContent.TheVariants.{Own};

use crate::content::Content;
use crate::handle::Handle;
use crate::handle_content::HandleContent;
use crate::refusal::{Refusal, store_result};
use liquid_answers::highlight_name;
use liquid_core::{Error, ErrorKind, Result as Answer};
use liquid_filters::FilterKind;
use liquid_language::{HostBlock, Language, Style, TagError, TagKind, language};
use std::alloc::{AllocError, Global};

/// Makes Jekyll's language: the standard one with Jekyll's `include`, which takes a path without
/// quotes, its block `highlight` and its `sort`, and without the white space of blocks that write
/// nothing. 0, or `Memory`.
#[unsafe(no_mangle)]
pub extern "C" fn bikleinu_jekyll_language(alloc: Global, made: &mut Handle) -> u32
    ensures { ResultStored MakesJekylls result made.new.held }
{
    store_result(alloc, jekylls(alloc), made)
}

fn jekylls(alloc: Global) -> Result<Content, Refusal>
    ensures { MakesJekylls result }
{
    match jekyll_language(alloc) {
        Ok(language) => Ok(Content::Language(language)),
        Err(fault) => Ok(Content::Fault(fault)),
    }
}

fn jekyll_language(alloc: Global) -> Answer<Language>
    ensures language { IfOk result IsJekylls }
    ensures memory { IfErr result (λ e. e.kind ≡ ErrorKind.Memory) }
{
    let mut language = language(alloc)?;
    let include = String::from_str(alloc, "include")?;
    language.tags.register(include, TagKind::JekyllInclude)?;
    language.include_paths = true;
    language.drops_blanks = true;
    let sort = String::from_str(alloc, "sort")?;
    language.filters.register(sort, FilterKind::JekyllSort)?;
    let highlight = String::from_str(alloc, highlight_name())?;
    language.filters.register_host(highlight, 1, 1)?;
    register_highlight(alloc, &mut language)?;
    Ok(language)
}

/// Registers the block `highlight`, whose filter needs no table of the caller's. `Memory` where a
/// growth was refused.
fn register_highlight(alloc: Global, language: &mut Language) -> Answer<()>
    requires allowed { name_refusal language.old (codes "highlight") ≡ None }
    requires alone { numbers_of language.old.host_tags ≡ [] }
    ensures highlight { OnOk result (HasOwnHighlight language.new) }
    ensures memory { IfErr result (λ e. e.kind ≡ ErrorKind.Memory) }
    ensures tags { language.new.tags ≡ language.old.tags }
    ensures blocks { language.new.blocks ≡ language.old.blocks }
    ensures filters { language.new.filters ≡ language.old.filters }
    ensures include_paths { language.new.include_paths ≡ language.old.include_paths }
    ensures drops_blanks { language.new.drops_blanks ≡ language.old.drops_blanks }
    ensures escapes_html { language.new.escapes_html ≡ language.old.escapes_html }
{
    let name = String::from_str(alloc, "highlight")?;
    let filter = String::from_str(alloc, highlight_name())?;
    let block = HostBlock {
        filter,
        style: Style::Text,
        given: Vec::new(alloc),
    };
    match language.register_block(alloc, name, block) {
        Ok(()) => Ok(()),
        Err(TagError::Memory) => Err(Error::from(AllocError)),
        Err(TagError::Refused(_)) => unreachable!(),
    }
}

/// Registers a filter of the caller's in a language, at a name and with the least and the greatest
/// number of arguments; what the name stood for before is forgotten. 0, or `Memory`; then nothing
/// changed.
#[unsafe(no_mangle)]
pub extern "C" fn bikleinu_register(
    alloc: Global,
    language: &mut Handle,
    name: &[u8],
    least: usize,
    most: usize,
) -> u32
    ensures { Regaining (λ was. IsRegistration was name.now least most result language.new.held)
        language.old.held }
{
    let mut held = language.take_to_change(alloc);
    let number = register_in_handle(alloc, &mut held, name, least, most);
    language.put(alloc, held);
    number
}

fn register_in_handle(
    alloc: Global,
    held: &mut Option<Box<HandleContent>>,
    name: &[u8],
    least: usize,
    most: usize,
) -> u32
    ensures { IsRegistration (option_map (λ b. b.value) held.old) name.now least most result
        (option_map (λ b. b.value) held.new) }
{
    match held {
        Some(held) => match &mut **held {
            HandleContent::Own(Content::Language(language)) => {
                register(alloc, language, name, least, most)
            }
            HandleContent::Shared(_) => Refusal::SharedHandle.number(),
            _ => Refusal::OtherHandle.number(),
        },
        None => Refusal::OtherHandle.number(),
    }
}

fn register(alloc: Global, language: &mut Language, name: &[u8], least: usize, most: usize) -> u32
    ensures { RegistersFilter language.old name.now least most result
        (Some (Own (content.Language language.new))) }
{
    let Ok(name) = str::from_utf8(name) else {
        return Refusal::NoText.number();
    };
    let Ok(name) = String::from_str(alloc, name) else {
        return u32::from(ErrorKind::Memory.number());
    };
    match language.filters.register_host(name, least, most) {
        Ok(()) => 0,
        Err(fault) => u32::from(fault.kind.number()),
    }
}
