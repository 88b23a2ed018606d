//! Which nodes an `if`, an `unless` or a `case` runs.
ghost use Rattle.std.specs.Prelude.{◌+◌, ◌<◌, ◌≤◌, IfOk, List, map};
ghost use Rattle.liquid_model.specs.Answer.{Answers};
ghost use Rattle.liquid_model.specs.Texts.{Text};
ghost use Rattle.liquid_model.specs.View.{view};
ghost use Rattle.liquid_core.specs.ExpressionView.{expression_view};
ghost use Rattle.liquid_core.specs.States.{environment_of};
ghost use Rattle.liquid_evaluation.specs.ConditionView.{condition_view};
ghost use Rattle.liquid_evaluation.specs.Evaluation.{truth_of};
ghost use Rattle.liquid_syntax.specs.Flats.{Maker, IsForestAt, IsNodeRange, nodes_of};
ghost use Rattle.liquid_syntax.specs.Forest.{Forest};
ghost use Rattle.liquid_evaluation.specs.Tree as tree;
ghost use Rattle.liquid_engine.specs.inside.Choices.{Meant, ComesTo, NodeComesTo, ListComesTo};
ghost use Rattle.liquid_engine.specs.inside.Choices.{CaseStands, HasCaseAt, CaseLeft, equal_among};

use crate::context::Places;
use crate::fault_location::located_elsif;
use liquid_core::{Expression, Result, State, Value};
use liquid_syntax::{Arm, BodyEnds, Condition, Node};
use std::alloc::Global;

/// The range that the `if` at `at` runs: its body, where the condition holds, else what its
/// `else` runs.
#[inline(never)]
pub(crate) fn chosen_range(
    alloc: Global,
    nodes: &[Node],
    at: usize,
    condition: &Condition,
    bodies: BodyEnds,
    places: &Places<'_>,
    state: &State<'_>,
) -> Result<(usize, usize)>
    requires body { IsNodeRange nodes.now (at + 1) bodies.first_end }
    requires otherwise { IsNodeRange nodes.now bodies.first_end bodies.last_end }
    ensures inside { IfOk result (λ range. (at < range.0) × (range.1 ≤ bodies.last_end)) }
    ensures chosen { (b d : Forest Maker) → IsForestAt nodes.now (at + 1) b bodies.first_end →
        IsForestAt nodes.now bodies.first_end d bodies.last_end →
        NodeComesTo nodes.now (environment_of state.now)
        (tree.if_true (condition_view condition.now) (nodes_of b) (nodes_of d)) result }
{
    if condition.holds(alloc, state)? {
        Ok((at + 1, bodies.first_end))
    } else {
        else_range(
            alloc,
            nodes,
            bodies.first_end,
            bodies.last_end,
            places,
            state,
        )
    }
}

/// The range that the `unless` at `at` runs: its body, where the condition doesn't hold, else
/// the nodes of `else`.
#[inline(never)]
pub(crate) fn unless_range(
    alloc: Global,
    nodes: &[Node],
    at: usize,
    condition: &Condition,
    bodies: BodyEnds,
    state: &State<'_>,
) -> Result<(usize, usize)>
    requires body { IsNodeRange nodes.now (at + 1) bodies.first_end }
    requires otherwise { IsNodeRange nodes.now bodies.first_end bodies.last_end }
    ensures inside { IfOk result (λ range. (at < range.0) × (range.1 ≤ bodies.last_end)) }
    ensures chosen { (b d : Forest Maker) → IsForestAt nodes.now (at + 1) b bodies.first_end →
        IsForestAt nodes.now bodies.first_end d bodies.last_end →
        NodeComesTo nodes.now (environment_of state.now) (tree.unless (condition_view condition.now)
        (nodes_of b) (nodes_of d)) result }
{
    let body = (at + 1, bodies.first_end);
    let otherwise = (bodies.first_end, bodies.last_end);
    if condition.holds(alloc, state)? {
        Ok(otherwise)
    } else {
        Ok(body)
    }
}

/// The range that the `case` at `at` runs: the body of the first `when` that has a value equal
/// to the target, else the nodes of `else`. Values are evaluated in order, up to the one that is
/// equal.
#[inline(never)]
pub(crate) fn case_range(
    alloc: Global,
    nodes: &[Node],
    at: usize,
    target: &Expression,
    arms: &[Arm],
    last: usize,
    state: &State<'_>,
) -> Result<(usize, usize)>
    requires { HasCaseAt nodes.now (at + 1) arms.now last }
    ensures inside { IfOk result (λ range. (at < range.0) × (range.1 ≤ last)) }
    ensures chosen { (ws : tree.Whens) (o : tree.Nodes) →
        CaseStands nodes.now (at + 1) arms.now last ws o →
        NodeComesTo nodes.now (environment_of state.now)
        (tree.case_of (expression_view target.now) ws o) result }
{
    let wanted = target.evaluate(alloc, state)?;
    arm_range(alloc, nodes, at + 1, wanted.as_value(), arms, last, state)
}

/// The body of the first `when` that has a value equal to this one, else the nodes of `else`. The
/// first body begins at `first`.
fn arm_range(
    alloc: Global,
    nodes: &[Node],
    first: usize,
    wanted: &Value,
    arms: &[Arm],
    last: usize,
    state: &State<'_>,
) -> Result<(usize, usize)>
    requires { HasCaseAt nodes.now first arms.now last }
    ensures inside { IfOk result (λ range. (first ≤ range.0) × (range.1 ≤ last)) }
    ensures chosen { (names : List Text) (meant : Meant) →
        CaseLeft nodes.now (environment_of state.now) names meant (view wanted.now) arms.now
        first last →
        ComesTo nodes.now (environment_of state.now) names meant result }
{
    let mut from = first;
    for arm in arms {
        if is_among(alloc, wanted, &arm.values, state)? {
            return Ok((from, arm.end));
        }
        from = arm.end;
    }
    Ok((from, last))
}

/// Whether one of the values equals the target. They are evaluated in order, up to the first that
/// does.
fn is_among(alloc: Global, target: &Value, values: &[Expression], state: &State<'_>) -> Result<bool>
    ensures { Answers (λ b. b) result
        (equal_among (view target.now) (map expression_view values.now)
        (environment_of state.now)) }
{
    for value in values {
        if *target == *value.evaluate(alloc, state)?.as_value() {
            return Ok(true);
        }
    }
    Ok(false)
}

/// The range that an `else` runs. An `elsif` is an `if` that is all of its nodes: then it is its
/// body, where its condition holds, or else what its own `else` runs.
fn else_range(
    alloc: Global,
    nodes: &[Node],
    from: usize,
    to: usize,
    places: &Places<'_>,
    state: &State<'_>,
) -> Result<(usize, usize)>
    requires { IsNodeRange nodes.now from to }
    ensures inside { IfOk result (λ range. (from ≤ range.0) × (range.1 ≤ to)) }
    ensures chosen { (f : Forest Maker) → IsForestAt nodes.now from f to →
        ListComesTo nodes.now (environment_of state.now) (nodes_of f) result }
{
    let mut at = from;
    while at < to {
        match &nodes[at] {
            Node::If(condition, bodies) if bodies.last_end == to => {
                if elsif_holds(alloc, condition, places, at, state)? {
                    return Ok((at + 1, bodies.first_end));
                }
                at = bodies.first_end;
            }
            _ => return Ok((at, to)),
        }
    }
    Ok((at, to))
}

/// Whether the condition of the `elsif` at an index holds. Its fault stands there, and not at its
/// `if`.
fn elsif_holds(
    alloc: Global,
    condition: &Condition,
    places: &Places<'_>,
    at: usize,
    state: &State<'_>,
) -> Result<bool>
    ensures { Answers (λ b. b) result (truth_of (condition_view condition.now)
        (environment_of state.now)) }
{
    match condition.holds(alloc, state) {
        Ok(holds) => Ok(holds),
        Err(fault) => Err(located_elsif(alloc, *places, at, condition, state, fault)),
    }
}
