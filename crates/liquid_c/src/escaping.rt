//! Languages that escape.
ghost use Rattle.std.specs.Prelude.{option_map};
ghost use Rattle.liquid_c.specs.Escaping.{IsEscaping};
ghost use Rattle.liquid_c.specs.Shared.{Regaining};

use crate::content::Content;
use crate::handle::Handle;
use crate::handle_content::HandleContent;
use crate::refusal::Refusal;
use std::alloc::Global;

/// Makes a language escape what outputs and `cycle` write for HTML, but where `| raw` ends an
/// output, in templates that are parsed from now on. 0; or that the handle is shared, or holds no
/// language, and then nothing changed.
#[unsafe(no_mangle)]
pub extern "C" fn bikleinu_escape_html(alloc: Global, language: &mut Handle) -> u32
    ensures { Regaining (λ was. IsEscaping was result language.new.held) language.old.held }
{
    let mut held = language.take_to_change(alloc);
    let number = escape_in_handle(&mut held);
    language.put(alloc, held);
    number
}

fn escape_in_handle(held: &mut Option<Box<HandleContent>>) -> u32
    ensures { IsEscaping (option_map (λ b. b.value) held.old) result
        (option_map (λ b. b.value) held.new) }
{
    match held {
        Some(held) => match &mut **held {
            HandleContent::Own(Content::Language(language)) => {
                language.escapes_html = true;
                0
            }
            HandleContent::Shared(_) => Refusal::SharedHandle.number(),
            _ => Refusal::OtherHandle.number(),
        },
        None => Refusal::OtherHandle.number(),
    }
}
