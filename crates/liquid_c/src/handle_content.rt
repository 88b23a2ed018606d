//! What a handle holds.
ghost use Rattle.std.specs.Prelude.{◌≡◌, option_map};
ghost use Rattle.liquid_c.specs.Shared.{IsRegained, Regained, shared_content, content_of};

use crate::content::Content;
use std::alloc::Global;
use std::mem;
use std::sync::Arc;

/// What a handle holds.
#[derive(Drop)]
pub enum HandleContent {
    /// What no other handle has.
    Own(Content),
    /// What other handles may have too, which therefore doesn't change.
    Shared(Arc<Content>),
}

impl HandleContent {
    /// What a call made.
    pub(crate) fn content(&self) -> &Content
        ensures { result.now ≡ content_of self.now }
    {
        match self {
            HandleContent::Own(content) => content,
            HandleContent::Shared(content) => &**content,
        }
    }
}

/// Something for the moment in which what a handle holds is taken out. It takes no memory.
pub(crate) fn blank(alloc: Global) -> HandleContent {
    HandleContent::Own(Content::Names(String::new(alloc)))
}

/// What was shared is its own again, where no other handle has it any more.
pub(crate) fn regain(alloc: Global, held: &mut Option<Box<HandleContent>>)
    ensures { Regained (option_map (λ b. b.value) held.old) (option_map (λ b. b.value) held.new) }
{
    if let Some(held) = held {
        let was = mem::replace(&mut **held, blank(alloc));
        **held = regained(was);
    }
}

fn regained(held: HandleContent) -> HandleContent
    ensures { IsRegained held result }
{
    match held {
        HandleContent::Own(content) => HandleContent::Own(content),
        HandleContent::Shared(content) => match Arc::try_unwrap(content) {
            Ok(content) => HandleContent::Own(content),
            Err(content) => HandleContent::Shared(content),
        },
    }
}

/// What an optional box holds.
pub(crate) fn held_content(held: &Option<Box<HandleContent>>) -> Option<&Content>
    ensures { option_map (λ c. c.now) result ≡ shared_content (option_map (λ b. b.value) held.now) }
{
    match held {
        Some(held) => Some(held.content()),
        None => None,
    }
}
