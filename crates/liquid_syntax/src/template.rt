//! Templates.
ghost use Rattle.liquid_syntax.specs.Flats.{ends_of_nodes};
ghost use Rattle.liquid_syntax.specs.Nested.{AreNested, AreNested-prop};

use crate::blanks::empty_blanks;
use crate::names::{Gather, Search, SearchAny};
use crate::node::Node;
use crate::partials::Partials;
use crate::positions::Position;
use crate::visit_nodes::visit_nodes;
use liquid_core::{Error, Result};
use std::alloc::{AllocError, Global};
use std::collections::BTreeSet;

/// A parsed template: one flat list of its nodes, in source order.
pub struct Template {
    nodes: Vec<Node>,
    /// Where each node begins in the source, for the faults of runs. The meaning of a template
    /// doesn't depend on it.
    positions: Vec<Position>,
    /// The source, where the template keeps it, for the faults of runs. The meaning of a template
    /// doesn't depend on it.
    source: Option<String>,
    ghost nested: { AreNested (ends_of_nodes nodes.items) } by { AreNested-prop
        (ends_of_nodes nodes.items) },
}

/// Drops the fields. Written by hand, so that each early return drops the value by one call to
/// prove.
impl Drop for Template {
    fn drop(self) {
        let Template {
            nodes: _,
            positions: _,
            source: _,
        } = self;
    }
}

impl Template {
    ghost use Rattle.std.specs.Prelude.{◌≡◌, IfOk, None, Some, option_map, string_bytes};
    ghost use Rattle.std.specs.BTreeSet.{IsOrdered};
    ghost use Rattle.std.specs.List.{list_any};
    ghost use Rattle.std.specs.String.{string_cmp};
    ghost use Rattle.liquid_model.specs.Answer.{IsValueOrMemory};
    ghost use Rattle.liquid_syntax.specs.Blanks.{without_blanks};
    ghost use Rattle.liquid_syntax.specs.NameSets.{mentioned_in_set};
    ghost use Rattle.liquid_syntax.specs.Templates.{template_nodes, partials_of, positions_of};
    ghost use Rattle.liquid_syntax.specs.Templates.{kept_source, tree_of};
    ghost use Rattle.liquid_evaluation.specs.Counts.{count_of_nodes};
    ghost use Rattle.liquid_evaluation.specs.Names.{mentioned, nodes_names, run_names};

    /// A template of these nodes, whose bodies nest, and of where each begins in the source. It
    /// keeps no source.
    pub fn of_nodes(nodes: Vec<Node>, positions: Vec<Position>) -> Template
        requires { AreNested (ends_of_nodes nodes.items) }
        ensures list { template_nodes result ≡ nodes.items }
        ensures positions { positions_of result ≡ positions.items }
        ensures source { kept_source result ≡ None }
    {
        Template {
            nodes,
            positions,
            source: None,
        }
    }

    /// The nodes, in source order.
    pub fn nodes(&self) -> &[Node]
        ensures { result.now ≡ template_nodes self.now }
    {
        &self.nodes
    }

    /// For each node, in the same order, where it begins in the source.
    pub fn positions(&self) -> &[Position]
        ensures { result.now ≡ positions_of self.now }
    {
        &self.positions
    }

    /// The source, where the template keeps it (`parse_with_source`).
    pub fn source(&self) -> Option<&str>
        ensures { option_map (λ s. s.now) result ≡ kept_source self.now }
    {
        match &self.source {
            Some(source) => Some(source.as_str()),
            None => None,
        }
    }

    /// The same template, which keeps its source.
    pub fn with_source(self, source: String) -> Template
        ensures list { template_nodes result ≡ template_nodes self }
        ensures positions { positions_of result ≡ positions_of self }
        ensures source { kept_source result ≡ Some (string_bytes source) }
    {
        let mut template = self;
        template.source = Some(source);
        template
    }

    /// The same template without the white space of blocks that write nothing: each text of an
    /// `if`, `unless`, `case` or `for` in whose bodies only white space, comments, `assign`,
    /// `capture` and such blocks stand is empty. An `if` with its `elsif` parts is one block, and
    /// an `if` alone in the body of an `else` is an `elsif`.
    pub fn without_blanks(self) -> Template
        ensures tree { tree_of result ≡ without_blanks (tree_of self) }
        ensures positions { positions_of result ≡ positions_of self }
        ensures source { kept_source result ≡ kept_source self }
    {
        let Template {
            nodes,
            positions,
            source,
        } = self;
        let mut nodes = nodes;
        let end = nodes.len();
        empty_blanks(&mut nodes, 0, end, false, false);
        Self {
            nodes,
            positions,
            source,
        }
    }

    /// The number of nodes of the tree, in all depths, without memory.
    #[tactic(auto, using(crate::proofs::TreeCounts::template_count))]
    pub fn node_count(&self) -> usize
        ensures { result ≡ count_of_nodes (tree_of self.now) }
    {
        self.nodes.len()
    }

    /// The names that the template or one of the partials mentions, ascending and each once: the
    /// first name of each variable, also in the steps of another, each name that a tag sets or
    /// binds, and `include` where a jekyll `include` binds pairs. A run depends on no other names,
    /// and changes no others.
    ///
    /// `Memory` where there is no room for them.
    pub fn names(&self, alloc: Global, partials: &Partials) -> Result<BTreeSet<String>>
        ensures exact { IsValueOrMemory mentioned_in_set result
            (mentioned (run_names (partials_of partials.now) (tree_of self.now))) }
        ensures ascending { IfOk result (λ names. IsOrdered string_cmp names) }
    {
        let mut gather = Gather {
            alloc,
            names: BTreeSet::new(alloc),
        };
        if visit_nodes(&self.nodes, &mut gather) || partials.visit_names(&mut gather) {
            return Err(Error::from(AllocError));
        }
        let Gather { alloc: _, names } = gather;
        // No effect at run time. The proof reads from this use that the names ascend.
        let _ = names.len();
        Ok(names)
    }

    /// Whether the template itself mentions the name, and not a partial that it names. It takes no
    /// memory.
    pub fn mentions(&self, name: &str) -> bool
        ensures { result ≡ mentioned (nodes_names (tree_of self.now)) name.now }
    {
        let mut search = Search { wanted: name };
        visit_nodes(&self.nodes, &mut search)
    }

    /// Whether the template itself mentions one of the names, and not a partial that it names. It
    /// takes no memory.
    pub fn mentions_any(&self, names: &BTreeSet<String>) -> bool
        ensures { result ≡ list_any (mentioned_in_set names.now) (nodes_names (tree_of self.now)) }
    {
        let mut search_any = SearchAny { wanted: names };
        visit_nodes(&self.nodes, &mut search_any)
    }
}
