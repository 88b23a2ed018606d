//! What each node of a template asks for, put to `Demands`. Nothing here has a contract: what
//! comes of it is tested by `covers`.

use crate::comparisons::sees_kind_alone;
use crate::demands::{Demands, Wanted};
use crate::needs::use_before;
use crate::windows::seen_limit;
use liquid_core::{Expression, Use};
use liquid_evaluation::ChainFilter;
use liquid_syntax::{
    Arm, Atom, Binding, ComparisonOperator, Condition, Each, FilterChain, For, Node,
    RangeExpression, TableRow, WindowExpression,
};
use std::alloc::AllocError;
use std::collections::BTreeMap;

type Asked = Result<(), AllocError>;

/// The nodes of a list, in all depths.
pub(crate) fn ask_nodes(demands: &mut Demands<'_>, nodes: &[Node]) -> Asked {
    for node in nodes {
        ask_node(demands, node)?;
    }
    Ok(())
}

fn ask_node(demands: &mut Demands<'_>, node: &Node) -> Asked {
    match node {
        Node::Text(_) | Node::Raw(_) | Node::Comment => Ok(()),
        Node::Break | Node::Continue | Node::IfChanged(_) | Node::Capture(_, _) => Ok(()),
        Node::Filtered(filters, _) => ask_arguments(demands, filters),
        Node::Output(chain) => ask_chain(demands, chain, Wanted::Whole),
        Node::Assign(name, chain) => ask_chain(demands, chain, Wanted::AsNamed(name.as_str())),
        Node::If(condition, _) | Node::Unless(condition, _) => ask_condition(demands, condition),
        Node::Case(target, arms, _) => ask_case(demands, target, arms),
        Node::For(head, _) => ask_for(demands, head),
        Node::TableRow(head, _) => ask_row(demands, head),
        Node::Increment(name) | Node::Decrement(name) => ask_counter(demands, name.as_str()),
        Node::Cycle(_, values) => ask_all(demands, values),
        Node::Include(name, pairs) | Node::Render(name, pairs) => {
            demands.ask(name, Wanted::Whole)?;
            ask_pairs(demands, pairs)
        }
        Node::JekyllInclude(_, pairs) => ask_whole_pairs(demands, pairs),
        Node::RenderEach(name, each, pairs) => ask_each(demands, name, each, pairs),
    }
}

fn ask_all(demands: &mut Demands<'_>, values: &[Expression]) -> Asked {
    for value in values {
        demands.ask(value, Wanted::Whole)?;
    }
    Ok(())
}

fn ask_optional(demands: &mut Demands<'_>, value: &Option<Expression>) -> Asked {
    match value {
        Some(value) => demands.ask(value, Wanted::Whole),
        None => Ok(()),
    }
}

/// The arguments of filters are seen whole.
fn ask_arguments(demands: &mut Demands<'_>, filters: &[ChainFilter]) -> Asked {
    for filter in filters {
        ask_all(demands, &filter.arguments)?;
    }
    Ok(())
}

fn ask_chain(demands: &mut Demands<'_>, chain: &FilterChain, wanted: Wanted<'_>) -> Asked {
    ask_arguments(demands, &chain.filters)?;
    if matches!(chain.entry, Expression::Literal(_)) {
        return Ok(());
    }
    let last = demands.use_of(wanted)?;
    let first = use_before(demands, &chain.filters, last)?;
    demands.ask_value(&chain.entry, first)
}

fn ask_condition(demands: &mut Demands<'_>, condition: &Condition) -> Asked {
    for conjunction in &condition.conjunctions {
        ask_atoms(demands, conjunction)?;
    }
    Ok(())
}

fn ask_atoms(demands: &mut Demands<'_>, atoms: &[Atom]) -> Asked {
    for atom in atoms {
        match atom {
            Atom::Bare(value) => demands.ask(value, Wanted::Present)?,
            Atom::Compared(left, comparison, right) => {
                demands.ask(left, wanted_beside(*comparison, right))?;
                demands.ask(right, wanted_beside(*comparison, left))?;
            }
        }
    }
    Ok(())
}

/// What a comparison with the other value sees.
fn wanted_beside<'n>(comparison: ComparisonOperator, other: &Expression) -> Wanted<'n> {
    if sees_kind_alone(comparison, other) {
        Wanted::Present
    } else {
        Wanted::Whole
    }
}

/// The target is asked for once, however many values it is compared with.
fn ask_case(demands: &mut Demands<'_>, target: &Expression, arms: &[Arm]) -> Asked {
    let mut wanted = Wanted::Present;
    for arm in arms {
        if !ask_values(demands, target, &arm.values)? {
            wanted = Wanted::Whole;
        }
    }
    demands.ask(target, wanted)
}

/// The values of a `when`; whether beside each of them the target's kind is enough.
fn ask_values(
    demands: &mut Demands<'_>,
    target: &Expression,
    values: &[Expression],
) -> Result<bool, AllocError> {
    let mut is_enough = true;
    for value in values {
        demands.ask(value, wanted_beside(ComparisonOperator::Equals, target))?;
        is_enough = is_enough && sees_kind_alone(ComparisonOperator::Equals, value);
    }
    Ok(is_enough)
}

fn ask_source(
    demands: &mut Demands<'_>,
    name: &str,
    limit: Option<usize>,
    source: &RangeExpression,
) -> Asked {
    match source {
        RangeExpression::Array(value) => demands.ask(value, Wanted::EachAsNamed(limit, name)),
        RangeExpression::Counted(first, last) => {
            demands.ask(first, Wanted::Whole)?;
            demands.ask(last, Wanted::Whole)
        }
    }
}

fn ask_window(demands: &mut Demands<'_>, window: &WindowExpression) -> Asked {
    ask_optional(demands, &window.limit)?;
    ask_optional(demands, &window.offset)
}

fn ask_for(demands: &mut Demands<'_>, head: &For) -> Asked {
    let limit = seen_limit(&head.window);
    ask_source(demands, head.variable.as_str(), limit, &head.source)?;
    ask_window(demands, &head.window)
}

fn ask_row(demands: &mut Demands<'_>, head: &TableRow) -> Asked {
    let limit = seen_limit(&head.window);
    ask_source(demands, head.variable.as_str(), limit, &head.source)?;
    ask_optional(demands, &head.cols)?;
    ask_window(demands, &head.window)
}

fn ask_each(demands: &mut Demands<'_>, name: &Expression, each: &Each, pairs: &[Binding]) -> Asked {
    demands.ask(name, Wanted::Whole)?;
    ask_source(demands, each.variable.as_str(), None, &each.source)?;
    ask_pairs(demands, pairs)
}

fn ask_pairs(demands: &mut Demands<'_>, pairs: &[Binding]) -> Asked {
    for pair in pairs {
        demands.ask(&pair.value, Wanted::AsNamed(pair.name.as_str()))?;
    }
    Ok(())
}

fn ask_whole_pairs(demands: &mut Demands<'_>, pairs: &[Binding]) -> Asked {
    for pair in pairs {
        demands.ask(&pair.value, Wanted::Whole)?;
    }
    Ok(())
}

/// A counter that is asked for is seen by its kind.
fn ask_counter(demands: &mut Demands<'_>, name: &str) -> Asked {
    let members = BTreeMap::new(demands.alloc);
    demands.ask_name(
        name,
        Use::Parts {
            members,
            items: None,
        },
    )
}
