//! Data of many texts of JSON, of each as far as the same uses ask for it.
ghost use Rattle.std.specs.Prelude.{◌≡◌, IsTrue, IfErr, IfOk};
ghost use Rattle.liquid_json.specs.PlainUses.{are_plain_if_some};

use crate::copies::{any_by_place, plain_uses};
use crate::data::data_by;
use crate::planned::data_from_planned;
use crate::tokens::MAX_DEPTH;
use json::Scratch;
use liquid_model::{ErrorKind, Object, Result, Uses};
use std::alloc::Global;

/// Reads texts, one after another, of each as far as uses ask for it, which are prepared once. It
/// keeps the memory that reading needs, which takes longer to make than a short text to read.
#[derive(Drop)]
pub struct DataReader {
    /// What is read; without it, all.
    uses: Option<Uses>,
    scratch: Scratch,
    ghost plain: { IsTrue (are_plain_if_some uses) },
}

impl DataReader {
    ghost use Rattle.liquid_model.specs.Answer.{Answers};
    ghost use Rattle.liquid_model.specs.Texts.{Text};
    ghost use Rattle.liquid_model.specs.Uses.{everything};
    ghost use Rattle.liquid_model.specs.UseViews.{uses_view};
    ghost use Rattle.liquid_model.specs.View.{pairs_view};
    ghost use Rattle.liquid_json.specs.Asked.{AnswersAlike};
    ghost use Rattle.liquid_json.specs.Json.{data_of};
    ghost use Rattle.liquid_json.specs.Readers.{ReadsAllOf, read_uses};

    /// A reader of all that texts have. It takes no memory.
    pub fn whole(alloc: Global) -> DataReader
        ensures { (name : Text) → read_uses result name ≡ everything }
    {
        let uses = None;
        DataReader {
            uses,
            scratch: Scratch::new(alloc),
        }
    }

    /// A reader by these uses: data that are alike in what it reads are alike in what they ask for.
    /// `Memory` where there is no room for a copy of them.
    pub fn new(alloc: Global, uses: &Uses) -> Result<DataReader>
        ensures more { IfOk result (λ reader. ReadsAllOf (uses_view uses.now) reader) }
        ensures memory { IfErr result (λ e. e.kind ≡ ErrorKind.Memory) }
    {
        if any_by_place(uses) {
            return Ok(DataReader {
                uses: None,
                scratch: Scratch::new(alloc),
            });
        }
        let plain = plain_uses(alloc, uses, MAX_DEPTH)?;
        Ok(DataReader {
            uses: Some(plain),
            scratch: Scratch::new(alloc),
        })
    }

    /// The data of a text, as far as it is read: as of `data_for`, also what is refused.
    #[tactic(auto, using(crate::proofs::PlainCopies::whole_answers))]
    pub fn data(&mut self, alloc: Global, text: &str) -> Result<Object>
        ensures data { AnswersAlike (λ m. pairs_view m.entries) (read_uses self.old) result
            (data_of text.now) }
        ensures uses { read_uses self.new ≡ read_uses self.old }
    {
        if let Some(uses) = &self.uses {
            if let Some(data) = data_from_planned(alloc, text, uses, &mut self.scratch)? {
                return Ok(data);
            }
        }
        self.whole_data(alloc, text)
    }

    /// The whole data of a text: as of `data_from_json`, also what is refused.
    pub fn whole_data(&mut self, alloc: Global, text: &str) -> Result<Object>
        ensures data { Answers (λ m. pairs_view m.entries) result (data_of text.now) }
        ensures uses { read_uses self.new ≡ read_uses self.old }
    {
        data_by(alloc, text, &mut self.scratch)
    }

    /// How many names are asked for; none where all is read.
    pub fn names(&self) -> Option<usize> {
        match &self.uses {
            Some(uses) => Some(uses.len()),
            None => None,
        }
    }
}
