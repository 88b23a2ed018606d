//! What a caller in C holds.
ghost use Rattle.std.specs.Prelude.{◌≡◌, Option, Some, None, option_map};
ghost use Rattle.std.specs.Coded.{coded_option};
ghost use Rattle.liquid_c.specs.Owned.{held_code, owned};
ghost use Rattle.liquid_c.specs.Shared.{Regained};
ghost use Rattle.liquid_c.specs.declared.handle_content.HandleContent.{HandleContent};

use crate::handle_content::{HandleContent, regain};
use crate::raw_box::RawBox;
use std::alloc::Global;
use std::marker::Model;
use std::mem;

/// A place in the caller's memory that holds nothing or owns what it points to. A caller in C
/// begins with one whose bytes are all 0, which holds nothing, and copies none.
#[repr(C)]
pub struct Handle {
    there: bool,
    at: *mut (),
    alloc: Global,
    ghost held: { Option HandleContent } by { coded_option held_code },
}

impl Model for Handle {
    ghost also_owns = { λ h. owned h.alloc h.there h.at h.held };
}

impl Handle {
    /// A handle that holds nothing.
    pub(crate) fn none(alloc: Global) -> Handle
        ensures { result.held ≡ None }
    {
        Handle {
            there: false,
            at: std::ptr::null_mut(),
            alloc,
        }
    }

    /// A handle on what the box holds.
    pub(crate) fn of(held: Box<HandleContent>) -> Handle
        ensures { result.held ≡ Some held.value }
    {
        Handle::seal(RawBox::of(held))
    }

    fn seal(held: RawBox<HandleContent, Global>) -> Handle
        ensures { result.held ≡ Some held.value }
    {
        let RawBox { ptr, alloc } = held;
        Handle {
            there: true,
            at: ptr as *mut (),
            alloc,
        }
    }

    fn unseal(self) -> Option<RawBox<HandleContent, Global>>
        ensures { option_map (λ k. k.value) result ≡ self.held }
    {
        let Handle { there, at, alloc } = self;
        if there {
            Some(RawBox {
                ptr: at as *mut HandleContent,
                alloc,
            })
        } else {
            None
        }
    }

    fn into_box(self) -> Option<Box<HandleContent>>
        ensures { option_map (λ b. b.value) result ≡ self.held }
    {
        match self.unseal() {
            Some(kept) => Some(kept.into_box()),
            None => None,
        }
    }

    /// Takes out what the handle holds, so that a call can use it. It takes no memory.
    pub(crate) fn take(&mut self, alloc: Global) -> Option<Box<HandleContent>>
        ensures taken { option_map (λ b. b.value) result ≡ self.old.held }
        ensures left { self.new.held ≡ None }
    {
        mem::replace(self, Handle::none(alloc)).into_box()
    }

    /// The same for a call that changes it: what was shared is the handle's own again, where no
    /// other handle has it any more.
    pub(crate) fn take_to_change(&mut self, alloc: Global) -> Option<Box<HandleContent>>
        ensures taken { Regained self.old.held (option_map (λ b. b.value) result) }
        ensures left { self.new.held ≡ None }
    {
        let mut held = self.take(alloc);
        regain(alloc, &mut held);
        held
    }

    /// Puts in what the handle is to hold. It takes no memory.
    pub(crate) fn put(&mut self, alloc: Global, held: Option<Box<HandleContent>>)
        ensures { self.new.held ≡ option_map (λ b. b.value) held }
    {
        let handle = match held {
            Some(held) => Handle::of(held),
            None => Handle::none(alloc),
        };
        drop(mem::replace(self, handle));
    }
}

impl Drop for Handle {
    fn drop(self) {
        drop(self.into_box());
    }
}
