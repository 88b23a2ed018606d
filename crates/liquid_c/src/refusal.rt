//! What a call answers.
ghost use Rattle.std.specs.Prelude.{◌≡◌};
ghost use Rattle.liquid_c.specs.Numbers.{number_of_refusal};
ghost use Rattle.liquid_c.specs.ResultStored.{StoresResult};

use crate::content::Content;
use crate::handle::Handle;
use crate::handle_content::HandleContent;
use liquid_core::ErrorKind;
use std::alloc::Global;

/// Why a call can't be.
#[derive(Clone, Copy, Drop)]
pub enum Refusal {
    /// The bytes are no UTF-8.
    NoText,
    /// A handle holds another kind of thing than the call needs, or nothing.
    OtherHandle,
    /// A run could reach more levels than the caller allows.
    TooManyLevels,
    /// No call of such a number.
    NoSuchCall,
    /// What other handles share isn't changed.
    SharedHandle,
    /// A number that says nothing of missing values.
    NoSuchMissing,
    /// A name of a tag that is no word.
    NoWord,
    /// A name of a tag that blocks have a use of.
    ReservedName,
    /// A name at which the language has a tag or block of its own.
    TakenName,
    /// A number that stands for no style.
    NoSuchStyle,
    /// A text of given values that is none with commas between them.
    NoValues,
    /// A number that stands for no set of filters.
    NoSuchSet,
    /// Data that were read for paths, and a run that asks for more.
    OtherPaths,
}

impl Refusal {
    /// The number that a call answers by.
    pub(crate) fn number(self) -> u32
        ensures { result ≡ number_of_refusal self }
    {
        match self {
            Refusal::NoText => 101,
            Refusal::OtherHandle => 102,
            Refusal::TooManyLevels => 103,
            Refusal::NoSuchCall => 107,
            Refusal::SharedHandle => 108,
            Refusal::NoSuchMissing => 109,
            Refusal::NoWord => 110,
            Refusal::ReservedName => 111,
            Refusal::TakenName => 112,
            Refusal::NoSuchStyle => 113,
            Refusal::NoValues => 114,
            Refusal::NoSuchSet => 115,
            Refusal::OtherPaths => 116,
        }
    }
}

/// Puts what a call made into the handle, in place of what it held, and answers its number. Where
/// there is no room for it, the handle holds nothing and the answer is `Memory`.
pub(crate) fn store_result(
    alloc: Global,
    answer: Result<Content, Refusal>,
    made: &mut Handle,
) -> u32
    ensures { StoresResult answer result made.new.held }
{
    let content = match answer {
        Ok(content) => content,
        Err(refusal) => {
            made.put(alloc, None);
            return refusal.number();
        }
    };
    let number = content.number();
    match Box::new(alloc, HandleContent::Own(content)) {
        Ok(held) => {
            made.put(alloc, Some(held));
            number
        }
        Err(refused) => {
            drop(refused);
            made.put(alloc, None);
            u32::from(ErrorKind::Memory.number())
        }
    }
}
