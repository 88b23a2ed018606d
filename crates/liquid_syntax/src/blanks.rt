//! Templates without the white space of blocks that write nothing, as Liquid for Ruby drops it.
ghost use Rattle.std.specs.Prelude.{◌≡◌, ◌+◌, ◌&&◌, length, slice_get, Some};
ghost use Rattle.liquid_syntax.specs.Blanks.{is_blank_byte, is_blank_text};
ghost use Rattle.liquid_syntax.specs.Flats.{flat_of, flats};
ghost use Rattle.liquid_syntax.specs.Forest.{Bodies, Forest};
ghost use Rattle.liquid_syntax.specs.Laid.{IsLaidOut, StandBodies, last_end};
ghost use Rattle.liquid_syntax.specs.inside.BlankNodes.{AreSameOutside, IsCleared, IsOwnRange};
ghost use Rattle.liquid_syntax.specs.inside.BlankNodes.{BodiesAt, drops, ends_in_if, is_if};
ghost use Rattle.liquid_syntax.specs.inside.BlankNodes.{is_lone_if, own_flats, quiet, quiet_bodies};
ghost use Rattle.liquid_syntax.specs.inside.BlankNodes.{sound_of, text_sound, tidied_all};
ghost use Rattle.liquid_syntax.specs.declared.node.Node.{Node};

use crate::node::Node;

/// White space in Ruby, and not in ASCII's own definition of it.
const VERTICAL_TAB: u8 = 11;

/// Whether a node writes.
#[derive(Clone, Copy, Debug, PartialEq, Eq, Drop)]
pub(crate) enum Sound {
    /// It may write.
    Loud,
    /// It writes nothing, or white space, and no body of it is asked.
    Silent,
    /// As its bodies do.
    OfBodies,
}

fn sound_from(node: &Node) -> Sound
    ensures { result ≡ sound_of node.now }
{
    match node {
        Node::Text(text) => sound_of_text(is_blank(text.as_str())),
        Node::Raw(text) => sound_of_text(text.is_empty()),
        Node::Comment | Node::Assign(..) | Node::Capture(..) => Sound::Silent,
        Node::If(..) | Node::Unless(..) | Node::Case(..) | Node::For(..) => Sound::OfBodies,
        Node::TableRow(..) | Node::IfChanged(_) => Sound::OfBodies,
        Node::Output(_) | Node::Filtered(..) => Sound::Loud,
        Node::Break | Node::Continue | Node::Cycle(..) => Sound::Loud,
        Node::Increment(_) | Node::Decrement(_) => Sound::Loud,
        Node::Include(..) | Node::JekyllInclude(..) => Sound::Loud,
        Node::Render(..) | Node::RenderEach(..) => Sound::Loud,
    }
}

fn sound_of_text(is_blank: bool) -> Sound
    ensures { result ≡ text_sound is_blank }
{
    if is_blank { Sound::Silent } else { Sound::Loud }
}

/// Whether a text is white space alone.
fn is_blank(text: &str) -> bool
    ensures { result ≡ is_blank_text text.now }
{
    text.bytes().all(|byte| is_blank_byte(byte))
}

/// Whether a byte is white space, as `\s` has it in Ruby.
fn is_blank_byte(byte: u8) -> bool
    ensures { result ≡ is_blank_byte byte }
{
    byte.is_ascii_whitespace() || byte == VERTICAL_TAB
}

/// Whether a block's own texts go where it writes nothing.
fn drops(node: &Node) -> bool
    ensures { result ≡ drops node.now }
{
    matches!(
        node,
        Node::If(..) | Node::Unless(..) | Node::Case(..) | Node::For(..)
    )
}

/// The index after the nodes of its bodies, of a node before the index `next`.
fn past(node: &Node, next: usize) -> usize
    ensures { result ≡ last_end next (flat_of node.now).ends }
{
    match node {
        Node::If(_, bodies) | Node::Unless(_, bodies) | Node::For(_, bodies) => bodies.last_end,
        Node::Case(_, _, end) => *end,
        Node::Capture(_, end) | Node::TableRow(_, end) => *end,
        Node::IfChanged(end) | Node::Filtered(_, end) => *end,
        Node::Text(_) | Node::Output(_) | Node::Assign(..) | Node::Raw(_) | Node::Comment => next,
        Node::Break | Node::Continue | Node::Increment(_) | Node::Decrement(_) => next,
        Node::Cycle(..) | Node::Include(..) | Node::JekyllInclude(..) => next,
        Node::Render(..) | Node::RenderEach(..) => next,
    }
}

/// Whether the nodes from one index to another write nothing.
fn is_quiet(nodes: &[Node], from: usize, to: usize) -> bool
    requires { IsOwnRange nodes.now from to }
    ensures { (f : Forest Node) → IsLaidOut (own_flats nodes.now) from f to → result ≡ quiet f }
{
    let mut at = from;
    while at < to {
        let node = &nodes[at];
        let next = at + 1;
        let end = past(node, next);
        let goes_on = match sound_from(node) {
            Sound::Loud => false,
            Sound::Silent => true,
            Sound::OfBodies => is_quiet(nodes, next, end),
        };
        if !goes_on {
            return false;
        }
        at = end;
    }
    true
}

/// Whether the own texts of the node at an index go, as it is a block that writes nothing.
fn is_silent_block(nodes: &[Node], at: usize) -> bool
    requires { BodiesAt nodes.now at }
    ensures { (n : Node) (bs : Bodies Node) → slice_get nodes.now at ≡ Some n →
        StandBodies (own_flats nodes.now) (at + 1) (flat_of n).ends bs →
        result ≡ (drops n && quiet_bodies bs) }
{
    let node = &nodes[at];
    let next = at + 1;
    drops(node) && is_quiet(nodes, next, past(node, next))
}

/// Whether the last body of the node at an index is an `if` alone, as an `elsif` is.
fn ends_in_elsif(nodes: &[Node], at: usize) -> bool
    requires { BodiesAt nodes.now at }
    ensures { (n : Node) (bs : Bodies Node) → slice_get nodes.now at ≡ Some n →
        StandBodies (own_flats nodes.now) (at + 1) (flat_of n).ends bs →
        result ≡ (is_if n && ends_in_if bs) }
{
    match &nodes[at] {
        Node::If(_, bodies) => is_lone_if(nodes, bodies.first_end, bodies.last_end),
        _ => false,
    }
}

/// Whether one `if` is all that stands from one index to another.
fn is_lone_if(nodes: &[Node], from: usize, to: usize) -> bool
    requires { IsOwnRange nodes.now from to }
    ensures { (f : Forest Node) → IsLaidOut (own_flats nodes.now) from f to →
        result ≡ is_lone_if f }
{
    if from == to {
        return false;
    }
    match &nodes[from] {
        Node::If(_, bodies) => bodies.last_end == to,
        _ => false,
    }
}

/// Empties a text.
fn clear(node: &mut Node)
    ensures { IsCleared node.old node.new }
{
    if let Node::Text(text) = node {
        text.clear();
    }
}

/// Empties the texts of the blocks that write nothing, among the nodes from one index to another,
/// and, where `in_silence`, also those that stand in no block there. Where `with_elsif`, the last
/// block is an `elsif`, which loses its texts as the block around it does.
pub(crate) fn empty_blanks(
    nodes: &mut [Node],
    from: usize,
    to: usize,
    in_silence: bool,
    with_elsif: bool,
)
    requires { IsOwnRange nodes.old from to }
    ensures laid { (f : Forest Node) → IsLaidOut (own_flats nodes.old) from f to →
        IsLaidOut (flats nodes.new) from (tidied_all in_silence with_elsif f) to }
    ensures same { AreSameOutside from to nodes.old nodes.new }
    ensures length { length nodes.new ≡ length nodes.old }
{
    let mut at = from;
    while at < to {
        let next = at + 1;
        let end = past(&nodes[at], next);
        let is_elsif = with_elsif && end == to;
        let is_silent = if is_elsif {
            in_silence
        } else {
            is_silent_block(nodes, at)
        };
        let goes_on = ends_in_elsif(nodes, at);
        if in_silence {
            clear(&mut nodes[at]);
        }
        empty_blanks(nodes, next, end, is_silent, goes_on);
        at = end;
    }
}
