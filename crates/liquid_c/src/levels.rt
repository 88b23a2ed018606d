//! How many levels a run can reach: a page is one, and each block and each partial that runs in it
//! is one more.
//!
//! Each level takes some of the machine's stack, so a caller bounds them, and a run that could
//! pass the bound isn't begun.
ghost use Rattle.std.specs.Prelude.{◌≡◌, ◌^◌, ◌-◌, min, nat_lt};
ghost use Rattle.liquid_model.specs.Answer.{IsValueOrMemory};
ghost use Rattle.liquid_c.specs.Levels.{block, greater_of, has_else, is_call, left_by_elsif};
ghost use Rattle.liquid_c.specs.Levels.{levels_in, most_levels, no_levels, opened, still_open};
ghost use Rattle.liquid_c.specs.Levels.{levels_through, levels_with_node};

use liquid_core::Result;
use liquid_syntax::Node;
use std::alloc::Global;
use std::collections::LinkedList;

/// What a template reaches by itself, or what some templates reach.
#[derive(Clone, Copy, Drop)]
pub struct TemplateLevels {
    /// How many levels: the template's own, and one for each block that stands in another.
    pub(crate) lists: usize,
    /// At which of them the deepest tag stands that runs a partial; 0 where there is none.
    pub(crate) calls: usize,
}

/// A block that is open where a node stands.
#[derive(Clone, Copy, Drop)]
pub(crate) struct Open {
    /// Where the else list of an `if` begins, as an index of the list; 0 for another block.
    otherwise: usize,
    /// Where the block ends.
    end: usize,
}

impl Open {
    /// Whether its else list stands between these indices.
    fn has_else(&self, at: usize, end: usize) -> bool
        ensures { result ≡ has_else self.now at end }
    {
        self.otherwise == at && self.end == end
    }
}

impl TemplateLevels {
    /// Those of no template.
    pub(crate) fn none() -> TemplateLevels
        ensures { result ≡ no_levels }
    {
        TemplateLevels { lists: 0, calls: 0 }
    }

    /// Of two templates the more.
    pub(crate) fn greater_of(self, other: TemplateLevels) -> TemplateLevels
        ensures { result ≡ greater_of self other }
    {
        TemplateLevels {
            lists: self.lists.max(other.lists),
            calls: self.calls.max(other.calls),
        }
    }

    /// Whether a template of these levels could reach more than `bound` levels, where `depth`
    /// partials of the levels `partials` may be nested.
    #[tactic(auto, unfolding(crate::specs::Levels::most_levels), using(crate::proofs::Blocks::same_side))]
    pub(crate) fn pass(self, partials: TemplateLevels, depth: u32, bound: u32) -> bool
        ensures { result ≡ nat_lt bound (most_levels depth self partials) }
    {
        let reached = self.lists.max(reached_through(self.calls, partials, depth));
        (bound as usize) < reached
    }

    /// With a node at a level.
    fn with_node(self, node: &Node, level: usize) -> TemplateLevels
        ensures { result ≡ levels_with_node node.now level self }
    {
        let lists = self.lists.max(level);
        if !is_call(node) {
            return TemplateLevels {
                lists,
                calls: self.calls,
            };
        }
        let calls = self.calls.max(level);
        TemplateLevels { lists, calls }
    }
}

/// What is reached through a tag at a level that runs a partial, or the most that a number holds.
fn reached_through(level: usize, partials: TemplateLevels, depth: u32) -> usize
    ensures { result ≡ min (levels_through depth level partials) (2 ^ 64 - 1) }
{
    if depth == 0 || level == 0 {
        return 0;
    }
    let between = partials.calls.saturating_mul((depth - 1) as usize);
    level.saturating_add(between.saturating_add(partials.lists))
}

/// What a list of nodes reaches by itself. `Memory` where there is no room to keep which blocks
/// are open.
pub(crate) fn levels_in(alloc: Global, nodes: &[Node]) -> Result<TemplateLevels>
    ensures { IsValueOrMemory (λ l. l) result (levels_in nodes.now) }
{
    let mut open = LinkedList::new(alloc);
    let mut levels = TemplateLevels { lists: 1, calls: 0 };
    for at in 0..nodes.len() {
        let node = &nodes[at];
        close_ended(&mut open, at);
        open_block(&mut open, at, node)?;
        levels = levels.with_node(node, open.len() + 1);
    }
    Ok(levels)
}

/// Whether a node is a tag that runs a partial.
fn is_call(node: &Node) -> bool
    ensures { result ≡ is_call node.now }
{
    match node {
        Node::Include(_, _) | Node::JekyllInclude(_, _) => true,
        Node::Render(_, _) | Node::RenderEach(_, _, _) => true,
        Node::Text(_) | Node::Output(_) | Node::Assign(_, _) | Node::Raw(_) => false,
        Node::Comment | Node::Break | Node::Continue => false,
        Node::Increment(_) | Node::Decrement(_) | Node::Cycle(_, _) => false,
        Node::If(_, _) | Node::Unless(_, _) | Node::Case(_, _, _) => false,
        Node::For(_, _) | Node::TableRow(_, _) => false,
        Node::Capture(_, _) | Node::IfChanged(_) | Node::Filtered(_, _) => false,
    }
}

/// Leaves the blocks that have ended at an index.
#[tactic(auto, using(crate::proofs::Blocks::stays_open, crate::proofs::Blocks::has_ended, crate::proofs::Blocks::none_open))]
fn close_ended(open: &mut LinkedList<Open>, at: usize)
    ensures { «open».new ≡ still_open at «open».old }
{
    'ended: while let Some(innermost) = open.front() {
        if at < innermost.end {
            return;
        }
        let _ = open.pop_front();
    }
}

/// Enters the block that a node is, if it is one.
fn open_block(open: &mut LinkedList<Open>, at: usize, node: &Node) -> Result<()>
    ensures { IsValueOrMemory (λ _. «open».new) result (opened at node.now «open».old) }
{
    match node {
        Node::If(_, bodies) => {
            leave_by_elsif(open, at, bodies.last_end);
            enter(open, bodies.first_end, bodies.last_end)
        }
        Node::Unless(_, bodies) => enter(open, 0, bodies.last_end),
        Node::Capture(_, end) => enter(open, 0, *end),
        Node::Case(_, _, end) => enter(open, 0, *end),
        Node::For(_, bodies) => enter(open, 0, bodies.last_end),
        Node::TableRow(_, end) => enter(open, 0, *end),
        Node::IfChanged(end) => enter(open, 0, *end),
        Node::Filtered(_, end) => enter(open, 0, *end),
        Node::Text(_) | Node::Output(_) | Node::Assign(_, _) | Node::Raw(_) => Ok(()),
        Node::Comment | Node::Break | Node::Continue => Ok(()),
        Node::Increment(_) | Node::Decrement(_) | Node::Cycle(_, _) => Ok(()),
        Node::Include(_, _) | Node::JekyllInclude(_, _) => Ok(()),
        Node::Render(_, _) | Node::RenderEach(_, _, _) => Ok(()),
    }
}

/// Enters a block that ends at an index, and whose else list begins at another one, where it is an
/// `if`.
fn enter(open: &mut LinkedList<Open>, otherwise: usize, end: usize) -> Result<()>
    ensures { IsValueOrMemory (λ _. «open».new) result (block otherwise end «open».old) }
{
    open.push_front(Open { otherwise, end })?;
    Ok(())
}

/// Leaves the `if` whose else list is the `if` at an index: that is an `elsif`.
#[tactic(auto, using(crate::proofs::Blocks::left, crate::proofs::Blocks::not_left, crate::proofs::Blocks::none_left))]
fn leave_by_elsif(open: &mut LinkedList<Open>, at: usize, end: usize)
    ensures { «open».new ≡ left_by_elsif at end «open».old }
{
    if let Some(outer) = open.front() {
        if outer.has_else(at, end) {
            let _ = open.pop_front();
        }
    }
}
