//! Templates that become partials.
ghost use Rattle.std.specs.Prelude.{◌≡◌, Some, IsSome, IsTrue, option_map};
ghost use Rattle.liquid_model.specs.Maps.{listed};
ghost use Rattle.liquid_syntax.specs.Templates.{partials_of, slots_of};
ghost use Rattle.liquid_c.specs.declared.content.Content.TheVariants as content;
ghost use Rattle.liquid_c.specs.declared.handle_content.HandleContent.TheVariants.{Own};
ghost use Rattle.liquid_c.specs.Calls.{IsInsertion};
ghost use Rattle.liquid_c.specs.Shared.{RegainingBoth};

use crate::content::Content;
use crate::handle::Handle;
use crate::handle_content::HandleContent;
use crate::levels::TemplateLevels;
use crate::refusal::Refusal;
use liquid_core::ErrorKind;
use liquid_syntax::Partials;
use std::alloc::Global;

/// Puts a template among partials at a name; the one of that name before is dropped. 0, and the
/// template's handle then holds nothing. After any other answer nothing changed; `Memory` is such a
/// one.
#[unsafe(no_mangle)]
pub extern "C" fn bikleinu_insert(
    alloc: Global,
    partials: &mut Handle,
    name: &[u8],
    template: &mut Handle,
) -> u32
    ensures { RegainingBoth (λ was moving. IsInsertion was name.now moving result
        partials.new.held template.new.held) partials.old.held template.old.held }
{
    let mut held = partials.take_to_change(alloc);
    let moving = template.take_to_change(alloc);
    let (number, left) = put(alloc, &mut held, name, moving);
    partials.put(alloc, held);
    template.put(alloc, left);
    number
}

/// Puts it there, and answers the number with what is left of the template.
fn put(
    alloc: Global,
    partials: &mut Option<Box<HandleContent>>,
    name: &[u8],
    template: Option<Box<HandleContent>>,
) -> (u32, Option<Box<HandleContent>>)
    ensures { IsInsertion (option_map (λ b. b.value) partials.old) name.now
        (option_map (λ b. b.value) template)
        result.0 (option_map (λ b. b.value) partials.new) (option_map (λ b. b.value) result.1) }
{
    let Some(template) = template else {
        return (Refusal::OtherHandle.number(), None);
    };
    match partials {
        Some(held) => match &mut **held {
            HandleContent::Own(content) => put_into(alloc, content, name, template),
            HandleContent::Shared(_) => (Refusal::SharedHandle.number(), Some(template)),
        },
        None => (Refusal::OtherHandle.number(), Some(template)),
    }
}

fn put_into(
    alloc: Global,
    content: &mut Content,
    name: &[u8],
    template: Box<HandleContent>,
) -> (u32, Option<Box<HandleContent>>)
    ensures { IsInsertion (Some (Own content.old)) name.now (Some template.value) result.0
        (Some (Own content.new)) (option_map (λ b. b.value) result.1) }
{
    match content {
        Content::Partials(partials, levels) => {
            put_template(alloc, partials, levels, name, template)
        }
        _ => (Refusal::OtherHandle.number(), Some(template)),
    }
}

/// Makes a slot of the name, where there is none. Without the memory for it nothing changes.
fn is_reserved(alloc: Global, partials: &mut Partials, name: &str) -> bool
    ensures slot { IsTrue result → IsSome (listed (slots_of partials.new) name.now) }
    ensures same { partials_of partials.new ≡ partials_of partials.old }
{
    match String::from_str(alloc, name) {
        Ok(name) => partials.reserve(name).is_ok(),
        Err(_) => false,
    }
}

fn put_template(
    alloc: Global,
    partials: &mut Partials,
    most: &mut TemplateLevels,
    name: &[u8],
    template: Box<HandleContent>,
) -> (u32, Option<Box<HandleContent>>)
    ensures { IsInsertion (Some (Own (content.Partials partials.old most.old))) name.now
        (Some template.value) result.0 (Some (Own (content.Partials partials.new most.new)))
        (option_map (λ b. b.value) result.1) }
{
    match &*template {
        HandleContent::Own(Content::Template(_, _)) => {}
        HandleContent::Shared(_) => return (Refusal::SharedHandle.number(), Some(template)),
        _ => return (Refusal::OtherHandle.number(), Some(template)),
    }
    let Ok(name) = str::from_utf8(name) else {
        return (Refusal::NoText.number(), Some(template));
    };
    if !is_reserved(alloc, partials, name) {
        return (u32::from(ErrorKind::Memory.number()), Some(template));
    }
    match Box::into_inner(template) {
        HandleContent::Own(Content::Template(template, levels)) => {
            drop(partials.exchange(name, Some(template)));
            *most = most.greater_of(levels);
            (0, None)
        }
        held => {
            drop(held);
            (0, None)
        }
    }
}
