//! Handles that share what they hold.
ghost use Rattle.std.specs.Prelude.{◌≡◌, None, Some};
ghost use Rattle.std.specs.Arc.{arc_value};
ghost use Rattle.liquid_c.specs.Shared.{HandsOut, IsSharing, Shares, shared_content, content_of};

use crate::content::Content;
use crate::handle::Handle;
use crate::handle_content::{HandleContent, blank};
use crate::refusal::Refusal;
use liquid_core::ErrorKind;
use std::alloc::Global;
use std::mem;
use std::sync::Arc;

/// Makes another handle on what a handle holds, without a copy of it. A call with the one may run
/// beside a call with the other, and neither can be changed as long as both are there. 0, or
/// `Memory`; then `made` holds nothing, and the handle what it held.
#[unsafe(no_mangle)]
pub extern "C" fn bikleinu_share(alloc: Global, handle: &mut Handle, made: &mut Handle) -> u32
    ensures { IsSharing (shared_content handle.old.held) result handle.new.held made.new.held }
{
    made.put(alloc, None);
    let mut held = handle.take(alloc);
    let number = match &mut held {
        Some(held) => share(alloc, &mut **held, made),
        None => Refusal::OtherHandle.number(),
    };
    handle.put(alloc, held);
    number
}

/// Shares what an owner holds with a handle that holds nothing.
fn share(alloc: Global, held: &mut HandleContent, made: &mut Handle) -> u32
    requires { made.now.held ≡ None }
    ensures { Shares (content_of held.old) result (Some held.new) made.new.held }
{
    let was = mem::replace(held, blank(alloc));
    *held = shared(alloc, was);
    match held {
        HandleContent::Shared(content) => match Arc::try_clone(content) {
            Ok(content) => hand_out(alloc, content, made),
            Err(_) => u32::from(ErrorKind::Memory.number()),
        },
        HandleContent::Own(_) => u32::from(ErrorKind::Memory.number()),
    }
}

/// The same content, shared where there was room for that.
fn shared(alloc: Global, held: HandleContent) -> HandleContent
    ensures { content_of result ≡ content_of held }
{
    match held {
        HandleContent::Own(content) => match Arc::new(alloc, content) {
            Ok(content) => HandleContent::Shared(content),
            Err(refused) => HandleContent::Own(refused.value),
        },
        HandleContent::Shared(content) => HandleContent::Shared(content),
    }
}

/// Puts what is shared into a handle.
fn hand_out(alloc: Global, content: Arc<Content>, made: &mut Handle) -> u32
    ensures { HandsOut (arc_value content) result made.new.held }
{
    match Box::new(alloc, HandleContent::Shared(content)) {
        Ok(held) => {
            made.put(alloc, Some(held));
            0
        }
        Err(refused) => {
            drop(refused);
            made.put(alloc, None);
            u32::from(ErrorKind::Memory.number())
        }
    }
}
