//! Ends and beginnings of blocks that are left over once a tag with a fault is text.
use liquid_core::{ErrorKind, more_similar};
use liquid_language::{BlockKind, HostKind, Language, begins_with_end};
use std::alloc::{AllocError, Global};

/// A tag with a fault: the kind of the fault, the tag's name, and where it stands.
#[derive(Clone, Copy)]
pub(crate) struct Wrong<'s> {
    pub(crate) kind: ErrorKind,
    pub(crate) name: &'s str,
    pub(crate) start: usize,
}

/// Which block a tag begins.
#[derive(Clone, Copy)]
enum Begins {
    /// A block of the language.
    Kind(BlockKind),
    /// A block of the host.
    Host,
}

/// A tag with a fault that may begin a block.
#[derive(Clone, Copy)]
struct Begun<'s> {
    /// `None` where the tag's name isn't known.
    block: Option<Begins>,
    name: &'s str,
    start: usize,
}

/// The tags with faults of which the other half isn't met yet.
#[derive(Drop)]
pub(crate) struct LeftOver<'s> {
    begun: Vec<Begun<'s>>,
    /// Where the tags stand that are ends of no block.
    ended: Vec<usize>,
}

impl<'s> LeftOver<'s> {
    pub(crate) fn new(alloc: Global) -> LeftOver<'s> {
        LeftOver {
            begun: Vec::new(alloc),
            ended: Vec::new(alloc),
        }
    }

    /// Whether the fault is there only because an earlier one made a tag text: an end, an `else` or
    /// the like after a tag that may have begun the block, or a block without its end before a tag
    /// that may be the end. Each tag accounts for one end, or for one block without its end.
    pub(crate) fn accounts_for(
        &mut self,
        alloc: Global,
        language: &Language,
        wrong: Wrong<'s>,
    ) -> Result<bool, AllocError> {
        match wrong.kind {
            ErrorKind::MissingEnd => match end_in(language, wrong.name) {
                Some(end) => self.take_end(alloc, end, wrong.start),
                None => Ok(false),
            },
            ErrorKind::UnknownTag if begins_with_end(wrong.name) => {
                if self.take_begun(alloc, wrong)? {
                    return Ok(true);
                }
                self.ended.push(wrong.start)?;
                Ok(false)
            }
            ErrorKind::UnknownTag if is_control(wrong.name) => self.has_begun(alloc, wrong),
            ErrorKind::UnknownTag => {
                self.begin(None, wrong)?;
                Ok(false)
            }
            _ => {
                if let Some(block) = begun_by(language, wrong.name) {
                    self.begin(Some(block), wrong)?;
                }
                Ok(false)
            }
        }
    }

    fn begin(&mut self, block: Option<Begins>, wrong: Wrong<'s>) -> Result<(), AllocError> {
        self.begun.push(Begun {
            block,
            name: wrong.name,
            start: wrong.start,
        })?;
        Ok(())
    }

    /// Takes the last tag that may begin the block which ends here.
    fn take_begun(&mut self, alloc: Global, end: Wrong<'_>) -> Result<bool, AllocError> {
        let mut found = None;
        for (place, begun) in self.begun.iter().enumerate() {
            if begun.start < end.start && begun.ends_by(alloc, end.name)? {
                found = Some(place);
            }
        }
        Ok(self.take_at(found))
    }

    /// Whether a tag may begin the block that this control word is of.
    fn has_begun(&self, alloc: Global, word: Wrong<'_>) -> Result<bool, AllocError> {
        for begun in &self.begun {
            if begun.start < word.start && begun.may_have(alloc, word.name)? {
                return Ok(true);
            }
        }
        Ok(false)
    }

    /// Takes a tag after this place that may be the end, by a name that is one of another block or
    /// is misspelt.
    fn take_end(&mut self, alloc: Global, end: &str, start: usize) -> Result<bool, AllocError> {
        if let Some(place) = self.ended.iter().position(|ended| *ended > start) {
            self.ended.remove(place);
            return Ok(true);
        }
        let mut found = None;
        for (place, begun) in self.begun.iter().enumerate() {
            let is_unknown = begun.block.is_none() && begun.start > start;
            if found.is_none() && is_unknown && is_similar(alloc, end, begun.name)? {
                found = Some(place);
            }
        }
        Ok(self.take_at(found))
    }

    fn take_at(&mut self, place: Option<usize>) -> bool {
        match place {
            Some(place) if place < self.begun.len() => {
                self.begun.remove(place);
                true
            }
            _ => false,
        }
    }
}

impl Begun<'_> {
    /// Whether a tag of this name may end the block: its own end, or of a name that isn't known the
    /// end of a block of this name or one similar to it.
    fn ends_by(&self, alloc: Global, end: &str) -> Result<bool, AllocError> {
        match (self.block, end.get(3..)) {
            (Some(Begins::Kind(kind)), _) => Ok(end == end_of(kind)),
            (Some(Begins::Host), Some(name)) => Ok(name == self.name),
            (None, Some(name)) => Ok(name == self.name || is_similar(alloc, name, self.name)?),
            (_, None) => Ok(false),
        }
    }

    /// Whether the block may have this control word.
    fn may_have(&self, alloc: Global, word: &str) -> Result<bool, AllocError> {
        let blocks = blocks_with(word);
        for (kind, name) in blocks {
            let is_it = match self.block {
                Some(Begins::Kind(known)) => known == *kind,
                Some(Begins::Host) => false,
                None => is_similar(alloc, name, self.name)?,
            };
            if is_it {
                return Ok(true);
            }
        }
        Ok(false)
    }
}

/// Whether a name may be another one, misspelt.
fn is_similar(alloc: Global, name: &str, meant: &str) -> Result<bool, AllocError> {
    Ok(more_similar(alloc, name, meant, None)?.is_some())
}

fn is_control(name: &str) -> bool {
    !blocks_with(name).is_empty()
}

/// The blocks that may have a control word, with their names.
fn blocks_with(word: &str) -> &'static [(BlockKind, &'static str)] {
    match word {
        "else" => &[
            (BlockKind::If, "if"),
            (BlockKind::Unless, "unless"),
            (BlockKind::Case, "case"),
            (BlockKind::For, "for"),
        ],
        "elsif" => &[(BlockKind::If, "if")],
        "when" => &[(BlockKind::Case, "case")],
        _ => &[],
    }
}

/// The block that a tag of this name begins.
fn begun_by(language: &Language, name: &str) -> Option<Begins> {
    if let Some(kind) = language.blocks.get(name) {
        return Some(Begins::Kind(kind));
    }
    match language.host_tags.get(name)? {
        HostKind::Block(_) => Some(Begins::Host),
        HostKind::Tag(_) => None,
    }
}

/// The name of the end of the block that a tag of this name begins.
fn end_in<'l>(language: &'l Language, name: &str) -> Option<&'l str> {
    if let Some(kind) = language.blocks.get(name) {
        return Some(end_of(kind));
    }
    match language.host_tags.get(name)? {
        HostKind::Block(number) => Some(language.host_tags.end(number)),
        HostKind::Tag(_) => None,
    }
}

fn end_of(kind: BlockKind) -> &'static str {
    match kind {
        BlockKind::Raw => "endraw",
        BlockKind::Comment => "endcomment",
        BlockKind::If => "endif",
        BlockKind::Unless => "endunless",
        BlockKind::Capture => "endcapture",
        BlockKind::Case => "endcase",
        BlockKind::IfChanged => "endifchanged",
        BlockKind::For => "endfor",
        BlockKind::TableRow => "endtablerow",
    }
}
