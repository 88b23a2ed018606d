//! What the names of filters are registered as.
ghost use Rattle.std.specs.Prelude.{◌≡◌, [], map, OnErr, string_bytes};
ghost use Rattle.liquid_model.specs.Answer.{IsValueOrMemory};
ghost use Rattle.liquid_model.specs.Maps.{listed, insert};
ghost use Rattle.liquid_language.specs.Registered.{registered_counts, registered_in};
ghost use Rattle.liquid_language.specs.declared.registered_filter.RegisteredFilter.TheVariants.{Kind};
ghost use Rattle.liquid_language.specs.declared.registered_filter.RegisteredFilter.TheVariants.{Host};

use crate::registry::Registry;
use liquid_filters::FilterKind;
use liquid_model::{Filter, Result};
use std::alloc::Global;
use std::collections::btree_map::Keys;

/// What a filter's name stands for.
#[derive(Clone, Copy, Drop)]
pub enum RegisteredFilter {
    /// One of the filters that exist.
    Kind(FilterKind),
    /// A filter that the host provides, with the least and the greatest number of arguments that a
    /// template may give it.
    Host { least: usize, most: usize },
}

impl RegisteredFilter {
    /// Whether a template may give the filter this many arguments.
    pub fn accepts(self, count: usize) -> bool
        ensures { result ≡ registered_counts self count }
    {
        match self {
            RegisteredFilter::Kind(kind) => kind.accepts(count),
            RegisteredFilter::Host { least, most } => least <= count && count <= most,
        }
    }
}

/// Filters by the names that they are registered under.
#[derive(Drop)]
pub struct FilterRegistry {
    entries: Registry<RegisteredFilter>,
}

impl FilterRegistry {
    /// No filters.
    pub(crate) fn new(alloc: Global) -> FilterRegistry
        ensures { registered_in result ≡ [] }
    {
        FilterRegistry {
            entries: Registry::new(alloc),
        }
    }

    /// Registers a filter under a name; what the name stood for before is forgotten. Where there is
    /// no memory nothing changes.
    pub fn register(&mut self, name: String, kind: FilterKind) -> Result<()>
        ensures registered { IsValueOrMemory (λ _. listed (registered_in self.new)) result
            (insert (listed (registered_in self.old)) (string_bytes name) (Kind kind)) }
        ensures unchanged { OnErr result (registered_in self.new ≡ registered_in self.old) }
    {
        self.entries.register(name, RegisteredFilter::Kind(kind))
    }

    /// Registers a filter that the host provides, by its name, with the least and the greatest
    /// number of arguments; what the name stood for before is forgotten. Where there is no memory
    /// nothing changes.
    pub fn register_host(&mut self, name: String, least: usize, most: usize) -> Result<()>
        ensures registered { IsValueOrMemory (λ _. listed (registered_in self.new)) result
            (insert (listed (registered_in self.old)) (string_bytes name) (Host least most)) }
        ensures unchanged { OnErr result (registered_in self.new ≡ registered_in self.old) }
    {
        self.entries
            .register(name, RegisteredFilter::Host { least, most })
    }

    /// The registered names, in order.
    pub fn names(&self) -> Keys<'_, String, RegisteredFilter>
        ensures { map string_bytes result ≡ map (λ e. e.0) (registered_in self.now) }
    {
        self.entries.names()
    }

    /// What is registered under the name.
    pub fn get(&self, name: &str) -> Option<RegisteredFilter>
        ensures { result ≡ listed (registered_in self.now) name.now }
    {
        self.entries.get(name)
    }
}
