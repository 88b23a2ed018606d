//! Tables of answers to calls of the caller's filters.
ghost use Rattle.std.specs.Prelude.{◌≡◌, Some, option_map};
ghost use Rattle.liquid_c.specs.ResultStored.{ResultStored};
ghost use Rattle.liquid_c.specs.Shared.{Regaining};
ghost use Rattle.liquid_c.specs.Tables.{ChangesTable, HasName, IsNaming, IsNewTable};
ghost use Rattle.liquid_c.specs.declared.content.Content.TheVariants as content;
ghost use Rattle.liquid_c.specs.declared.handle_content.HandleContent.TheVariants.{Own};

use crate::content::Content;
use crate::handle::Handle;
use crate::handle_content::HandleContent;
use crate::refusal::{Refusal, store_result};
use liquid_answers::Answers;
use liquid_core::ErrorKind;
use std::alloc::Global;

/// Makes a table without names of filters and without answers. 0, or `Memory`.
#[unsafe(no_mangle)]
pub extern "C" fn bikleinu_answers(alloc: Global, made: &mut Handle) -> u32
    ensures { ResultStored IsNewTable result made.new.held }
{
    store_result(alloc, new_table(alloc), made)
}

fn new_table(alloc: Global) -> Result<Content, Refusal>
    ensures { IsNewTable result }
{
    Ok(Content::Answers(Answers::new(alloc)))
}

/// Adds the name of a filter to a table, unless it is there. 0, or `Memory`; then nothing changed.
#[unsafe(no_mangle)]
pub extern "C" fn bikleinu_answers_filter(alloc: Global, answers: &mut Handle, name: &[u8]) -> u32
    ensures { Regaining (λ was. IsNaming was name.now result answers.new.held) answers.old.held }
{
    let mut held = answers.take_to_change(alloc);
    let number = add_to_handle(alloc, &mut held, name);
    answers.put(alloc, held);
    number
}

fn add_to_handle(alloc: Global, held: &mut Option<Box<HandleContent>>, name: &[u8]) -> u32
    ensures { IsNaming (option_map (λ b. b.value) held.old) name.now result
        (option_map (λ b. b.value) held.new) }
{
    match held {
        Some(held) => match &mut **held {
            HandleContent::Own(Content::Answers(table)) => match str::from_utf8(name) {
                Ok(name) => add_name(alloc, table, name),
                Err(_) => Refusal::NoText.number(),
            },
            HandleContent::Shared(_) => Refusal::SharedHandle.number(),
            _ => Refusal::OtherHandle.number(),
        },
        None => Refusal::OtherHandle.number(),
    }
}

fn add_name(alloc: Global, table: &mut Answers, name: &str) -> u32
    ensures { ChangesTable (HasName name.now) table.old result
        (Some (Own (content.Answers table.new))) }
{
    let Ok(name) = String::from_str(alloc, name) else {
        return u32::from(ErrorKind::Memory.number());
    };
    match table.add_name(name) {
        Ok(()) => 0,
        Err(fault) => u32::from(fault.kind.number()),
    }
}
