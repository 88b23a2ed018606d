//! What tags, blocks and filters are called.
ghost use Rattle.std.specs.Prelude.{◌≡◌, ◌↔◌, [], false, IsTrue, map, OnErr, string_bytes};
ghost use Rattle.liquid_model.specs.Answer.{IsValueOrMemory};
ghost use Rattle.liquid_model.specs.Maps.{listed, insert};
ghost use Rattle.liquid_language.specs.HostTags.{blocks_of, calls_of, end_names, numbers_of};
ghost use Rattle.liquid_language.specs.Languages.{kinds_of};
ghost use Rattle.liquid_language.specs.Registered.{registered_in};

use crate::host_tags::HostTags;
use crate::registered_filter::FilterRegistry;
use liquid_model::Result;
use std::alloc::Global;
use std::collections::BTreeMap;
use std::collections::btree_map::Keys;

/// A tag without a body.
#[derive(Clone, Copy, Debug, PartialEq, Eq, Drop)]
pub enum TagKind {
    /// `{% assign name = chain %}`
    Assign,
    /// `{% break %}`
    Break,
    /// `{% continue %}`
    Continue,
    /// `{% increment name %}`
    Increment,
    /// `{% decrement name %}`
    Decrement,
    /// `{% cycle name: values %}`, also without a name
    Cycle,
    /// `{% include name w: v, w: v %}`, of the standard library
    Include,
    /// `{% include name w=v w=v %}`, of Jekyll; see [Language::include_paths]
    JekyllInclude,
    /// `{% render name with v as w, w: v %}`, or `for R as w` in the place of `with v as w`
    Render,
}

/// A tag with a body and an end.
#[derive(Clone, Copy, Debug, PartialEq, Eq, Drop)]
pub enum BlockKind {
    /// `{% raw %}`: its body is text, up to the first `{% endraw %}`
    Raw,
    /// `{% comment %}`: its body is skipped
    Comment,
    /// `{% if condition %}`, with `elsif` and `else`
    If,
    /// `{% unless condition %}`, with `else`
    Unless,
    /// `{% capture name %}`
    Capture,
    /// `{% case target %}`, with `when` and `else`
    Case,
    /// `{% ifchanged %}`
    IfChanged,
    /// `{% for variable in source limit: v offset: v reversed %}`, with `else`
    For,
    /// `{% tablerow variable in source cols: v limit: v offset: v %}`
    TableRow,
}

/// Kinds by the names that they are registered under.
#[derive(Drop)]
pub struct Registry<K: Drop> {
    kinds: BTreeMap<String, K>,
}

impl<K: Copy + Drop> Registry<K> {
    /// No kinds.
    pub(crate) fn new(alloc: Global) -> Registry<K>
        ensures { kinds_of result ≡ [] }
    {
        Registry {
            kinds: BTreeMap::new(alloc),
        }
    }

    /// Registers a kind under a name; what the name stood for before is forgotten. Where there is
    /// no memory nothing changes.
    pub fn register(&mut self, name: String, kind: K) -> Result<()>
        ensures registered { IsValueOrMemory (λ _. listed (kinds_of self.new)) result
            (insert (listed (kinds_of self.old)) (string_bytes name) kind) }
        ensures unchanged { OnErr result (kinds_of self.new ≡ kinds_of self.old) }
    {
        drop(self.kinds.insert(name, kind)?);
        Ok(())
    }

    /// Whether no kind is registered.
    pub(crate) fn is_empty(&self) -> bool
        ensures { IsTrue result ↔ (kinds_of self.now ≡ []) }
    {
        self.kinds.is_empty()
    }

    /// The registered names, in order.
    pub fn names(&self) -> Keys<'_, String, K>
        ensures { map string_bytes result ≡ map (λ e. e.0) (kinds_of self.now) }
    {
        self.kinds.keys()
    }

    /// The kind that is registered under the name.
    pub fn get(&self, name: &str) -> Option<K>
        ensures { result ≡ listed (kinds_of self.now) name.now }
    {
        self.kinds.get(name).copied()
    }
}

/// The tags, blocks and filters that a source may name.
pub struct Language {
    pub tags: Registry<TagKind>,
    pub blocks: Registry<BlockKind>,
    pub filters: FilterRegistry,
    /// The tags and blocks of the host; see [Language::register_tag] and
    /// [Language::register_block].
    pub host_tags: HostTags,
    /// Whether Jekyll's `include` takes a path without quotes, as in `{% include nav/top.html %}`.
    pub include_paths: bool,
    /// Whether the white space of blocks that write nothing is dropped, as Liquid for Ruby does.
    pub drops_blanks: bool,
    /// Whether what outputs and `cycle` write is escaped for HTML, but of an output that ends with
    /// `| raw`.
    pub escapes_html: bool,
}

/// Drops the fields. Written by hand, so that each early return drops the value by one call to
/// prove.
impl Drop for Language {
    fn drop(self) {
        let Language {
            tags: _,
            blocks: _,
            filters: _,
            host_tags: _,
            include_paths: _,
            drops_blanks: _,
            escapes_html: _,
        } = self;
    }
}

impl Language {
    /// A language without tags, blocks and filters, in which no tag takes a path without quotes,
    /// all white space is written and nothing is escaped.
    pub fn new(alloc: Global) -> Language
        ensures tags { kinds_of result.tags ≡ [] }
        ensures blocks { kinds_of result.blocks ≡ [] }
        ensures filters { registered_in result.filters ≡ [] }
        ensures host_tags { numbers_of result.host_tags ≡ [] }
        ensures host_calls { calls_of result.host_tags ≡ [] }
        ensures host_blocks { blocks_of result.host_tags ≡ [] }
        ensures host_ends { end_names result.host_tags ≡ [] }
        ensures include_paths { result.include_paths ≡ false }
        ensures drops_blanks { result.drops_blanks ≡ false }
        ensures escapes_html { result.escapes_html ≡ false }
    {
        Language {
            tags: Registry::new(alloc),
            blocks: Registry::new(alloc),
            filters: FilterRegistry::new(alloc),
            host_tags: HostTags::new(alloc),
            include_paths: false,
            drops_blanks: false,
            escapes_html: false,
        }
    }
}
