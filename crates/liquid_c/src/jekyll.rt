//! Jekyll's filters, which the library answers itself.
ghost use Rattle.std.specs.Prelude.{◌≡◌, Some, option_map};
ghost use Rattle.liquid_c.specs.Jekylls.{IsJekyllRegistration, IsPlacing, PutsSite};
ghost use Rattle.liquid_c.specs.Jekylls.{RegistersJekylls};
ghost use Rattle.liquid_c.specs.Shared.{Regaining};
ghost use Rattle.liquid_c.specs.declared.content.Content.TheVariants as content;
ghost use Rattle.liquid_c.specs.declared.handle_content.HandleContent.TheVariants.{Own};

use crate::content::Content;
use crate::handle::Handle;
use crate::handle_content::HandleContent;
use crate::refusal::Refusal;
use liquid_answers::Answers;
use liquid_filter_sets::register_jekyll_filters;
use liquid_language::Language;
use std::alloc::Global;

/// Registers the names of Jekyll's filters and `where_exp` in a language, each with the least and
/// the greatest number of its arguments; what such a name stood for before is forgotten. 0, or
/// `Memory`; then some of them may be registered, and nothing else changed.
#[unsafe(no_mangle)]
pub extern "C" fn bikleinu_register_jekyll(alloc: Global, language: &mut Handle) -> u32
    ensures { Regaining (λ was. IsJekyllRegistration was result language.new.held)
        language.old.held }
{
    let mut held = language.take_to_change(alloc);
    let number = register_in_handle(alloc, &mut held);
    language.put(alloc, held);
    number
}

fn register_in_handle(alloc: Global, held: &mut Option<Box<HandleContent>>) -> u32
    ensures { IsJekyllRegistration (option_map (λ b. b.value) held.old) result
        (option_map (λ b. b.value) held.new) }
{
    match held {
        Some(held) => match &mut **held {
            HandleContent::Own(Content::Language(language)) => register_all(alloc, language),
            HandleContent::Shared(_) => Refusal::SharedHandle.number(),
            _ => Refusal::OtherHandle.number(),
        },
        None => Refusal::OtherHandle.number(),
    }
}

fn register_all(alloc: Global, language: &mut Language) -> u32
    ensures { RegistersJekylls language.old result
        (Some (Own (content.Language language.new))) }
{
    match register_jekyll_filters(alloc, &mut language.filters) {
        Ok(()) => 0,
        Err(fault) => u32::from(fault.kind.number()),
    }
}

/// Puts a site of this address and this base path into a table, in place of the one before: to a
/// call of one of Jekyll's filters whose name the table hasn't, the library answers over this site.
/// 0, or `Memory`; then nothing changed.
#[unsafe(no_mangle)]
pub extern "C" fn bikleinu_answers_jekyll(
    alloc: Global,
    answers: &mut Handle,
    address: &[u8],
    base: &[u8],
) -> u32
    ensures { Regaining (λ was. IsPlacing was address.now base.now result answers.new.held)
        answers.old.held }
{
    let mut held = answers.take_to_change(alloc);
    let number = put_in_handle(alloc, &mut held, address, base);
    answers.put(alloc, held);
    number
}

fn put_in_handle(
    alloc: Global,
    held: &mut Option<Box<HandleContent>>,
    address: &[u8],
    base: &[u8],
) -> u32
    ensures { IsPlacing (option_map (λ b. b.value) held.old) address.now base.now result
        (option_map (λ b. b.value) held.new) }
{
    match held {
        Some(held) => match &mut **held {
            HandleContent::Own(Content::Answers(table)) => put_site(alloc, table, address, base),
            HandleContent::Shared(_) => Refusal::SharedHandle.number(),
            _ => Refusal::OtherHandle.number(),
        },
        None => Refusal::OtherHandle.number(),
    }
}

fn put_site(alloc: Global, table: &mut Answers, address: &[u8], base: &[u8]) -> u32
    ensures { PutsSite address.now base.now table.old result
        (Some (Own (content.Answers table.new))) }
{
    let Ok(address) = str::from_utf8(address) else {
        return Refusal::NoText.number();
    };
    let Ok(base) = str::from_utf8(base) else {
        return Refusal::NoText.number();
    };
    match table.set_site(alloc, address, base) {
        Ok(()) => 0,
        Err(fault) => u32::from(fault.kind.number()),
    }
}
