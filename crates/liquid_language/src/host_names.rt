//! Registering tags and blocks of a host, and which names they may have.
ghost use Rattle.std.specs.Prelude.{◌≡◌, [], ◌∷◌, ◌++◌, codes, length, string_bytes, OnErr, OnOk};
ghost use Rattle.liquid_model.specs.Maps.{insert, listed};
ghost use Rattle.liquid_language.specs.HostNames.{begins_as_end, is_reserved, is_tag_name};
ghost use Rattle.liquid_language.specs.HostNames.{name_refusal, RefusesName};
ghost use Rattle.liquid_language.specs.HostTags.{block_call, blocks_of, calls_of, end_names};
ghost use Rattle.liquid_language.specs.HostTags.{numbers_of, tag_call};
ghost use Rattle.liquid_language.specs.declared.host_tags.HostKind.TheVariants as kinds;

use crate::host_tags::{HostBlock, HostCall};
use crate::registry::Language;
use liquid_model::word;
use std::alloc::Global;

/// Why a host can't register a tag or a block under a name.
#[derive(Clone, Copy, Debug, PartialEq, Eq)]
pub enum NameRefusal {
    /// It is no word: a letter or `_`, then letters, digits, `_` and `-`.
    NotAWord,
    /// It begins with `end`, or is `else`, `elsif` or `when`.
    Reserved,
    /// The language has a tag or a block of its own of this name.
    Taken,
}

/// Why a tag or a block of a host wasn't registered.
#[derive(Clone, Copy, Debug, PartialEq, Eq)]
pub enum TagError {
    /// A growth was refused.
    Memory,
    /// The name can't be a host's.
    Refused(NameRefusal),
}

impl Language {
    /// Registers a tag of the host under a name; what the host had registered there is forgotten.
    /// `Refused` where the name can't be a host's, and `Memory` where a growth was refused;
    /// then nothing changes.
    pub fn register_tag(
        &mut self,
        name: String,
        call: HostCall,
    ) -> std::result::Result<(), TagError>
        ensures number { OnOk result (listed (numbers_of self.new.host_tags) ≡
            insert (listed (numbers_of self.old.host_tags)) (string_bytes name)
            (kinds.Tag (length (calls_of self.old.host_tags)))) }
        ensures call { OnOk result (calls_of self.new.host_tags ≡
            calls_of self.old.host_tags ++ tag_call call ∷ []) }
        ensures refused { RefusesName (name_refusal self.old (string_bytes name)) result }
        ensures same_numbers { OnErr result
            (numbers_of self.new.host_tags ≡ numbers_of self.old.host_tags) }
        ensures same_calls { OnErr result
            (calls_of self.new.host_tags ≡ calls_of self.old.host_tags) }
        ensures host_blocks { blocks_of self.new.host_tags ≡ blocks_of self.old.host_tags }
        ensures ends { end_names self.new.host_tags ≡ end_names self.old.host_tags }
        ensures tags { self.new.tags ≡ self.old.tags }
        ensures blocks { self.new.blocks ≡ self.old.blocks }
        ensures filters { self.new.filters ≡ self.old.filters }
        ensures include_paths { self.new.include_paths ≡ self.old.include_paths }
        ensures drops_blanks { self.new.drops_blanks ≡ self.old.drops_blanks }
        ensures escapes_html { self.new.escapes_html ≡ self.old.escapes_html }
    {
        if let Some(refusal) = self.name_refusal(name.as_str()) {
            return Err(TagError::Refused(refusal));
        }
        match self.host_tags.register_tag(name, call) {
            Ok(()) => Ok(()),
            Err(_) => Err(TagError::Memory),
        }
    }

    /// Registers a block of the host under a name; what the host had registered there is
    /// forgotten. Its end is `end` and the name. `Refused` where the name can't be a host's, and
    /// `Memory` where a growth was refused; then nothing changes.
    pub fn register_block(
        &mut self,
        alloc: Global,
        name: String,
        block: HostBlock,
    ) -> std::result::Result<(), TagError>
        ensures number { OnOk result (listed (numbers_of self.new.host_tags) ≡
            insert (listed (numbers_of self.old.host_tags)) (string_bytes name)
            (kinds.Block (length (blocks_of self.old.host_tags)))) }
        ensures block { OnOk result (blocks_of self.new.host_tags ≡
            blocks_of self.old.host_tags ++ block_call block ∷ []) }
        ensures end { OnOk result (end_names self.new.host_tags ≡
            end_names self.old.host_tags ++ (codes "end" ++ string_bytes name) ∷ []) }
        ensures refused { RefusesName (name_refusal self.old (string_bytes name)) result }
        ensures same_numbers { OnErr result
            (numbers_of self.new.host_tags ≡ numbers_of self.old.host_tags) }
        ensures same_blocks { OnErr result
            (blocks_of self.new.host_tags ≡ blocks_of self.old.host_tags) }
        ensures same_ends { OnErr result
            (end_names self.new.host_tags ≡ end_names self.old.host_tags) }
        ensures calls { calls_of self.new.host_tags ≡ calls_of self.old.host_tags }
        ensures tags { self.new.tags ≡ self.old.tags }
        ensures blocks { self.new.blocks ≡ self.old.blocks }
        ensures filters { self.new.filters ≡ self.old.filters }
        ensures include_paths { self.new.include_paths ≡ self.old.include_paths }
        ensures drops_blanks { self.new.drops_blanks ≡ self.old.drops_blanks }
        ensures escapes_html { self.new.escapes_html ≡ self.old.escapes_html }
    {
        if let Some(reason) = self.name_refusal(name.as_str()) {
            return Err(TagError::Refused(reason));
        }
        match self.host_tags.register_block(alloc, name, block) {
            Ok(()) => Ok(()),
            Err(_) => Err(TagError::Memory),
        }
    }

    /// Why the host can't register a tag or a block under the name, if it can't.
    pub fn name_refusal(&self, name: &str) -> Option<NameRefusal>
        ensures { result ≡ name_refusal self.now name.now }
    {
        if !is_tag_name(name) {
            return Some(NameRefusal::NotAWord);
        }
        if is_reserved(name) {
            return Some(NameRefusal::Reserved);
        }
        match (self.tags.get(name), self.blocks.get(name)) {
            (None, None) => None,
            _ => Some(NameRefusal::Taken),
        }
    }
}

/// Whether the text is a word.
fn is_tag_name(text: &str) -> bool
    ensures { result ≡ is_tag_name text.now }
{
    match word(text) {
        Some((_, rest)) => rest.is_empty(),
        None => false,
    }
}

/// Whether a block has a use of the word.
fn is_reserved(word: &str) -> bool
    ensures { result ≡ is_reserved word.now }
{
    begins_as_end(word.as_bytes()) || matches!(word, "else" | "elsif" | "when")
}

/// Whether the bytes begin as the end of a block does.
fn begins_as_end(bytes: &[u8]) -> bool
    ensures { result ≡ begins_as_end bytes.now }
{
    matches!(bytes, [b'e', b'n', b'd', ..])
}
