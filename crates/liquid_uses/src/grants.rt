//! Whether the uses of names grant what the parts of a template ask for. Each function is a test:
//! where it holds, they do.
ghost use Rattle.std.specs.Prelude.{◌≡◌, true, map, option_map, [], ◌∷◌};
ghost use Rattle.liquid_core.specs.ExpressionView.{expression_view};
ghost use Rattle.liquid_evaluation.specs.ChainView.{chain_view, chain_filter_view};
ghost use Rattle.liquid_evaluation.specs.ConditionView.{atom_view, atoms_view, condition_view};
ghost use Rattle.liquid_evaluation.specs.SourceView.{source_view};
ghost use Rattle.liquid_syntax.specs.Flats.{arm_values, bindings_view, window_view};
ghost use Rattle.liquid_model.specs.Uses as seen;
ghost use Rattle.liquid_model.specs.Uses.{everything, no_fields, there, parts, present, up_to};
ghost use Rattle.liquid_model.specs.UseViews.{uses_view};
ghost use Rattle.liquid_meaning.specs.FilterNeeds.{known_needs};
ghost use Rattle.liquid_meaning.specs.Reading.{all_of, bound_use, grants, grants_all, grants_atom};
ghost use Rattle.liquid_meaning.specs.Reading.{grants_atoms, grants_bindings, grants_chain};
ghost use Rattle.liquid_meaning.specs.Reading.{grants_condition, grants_filters, grants_optional};
ghost use Rattle.liquid_meaning.specs.Reading.{grants_source, grants_window, use_before};
ghost use Rattle.liquid_uses.specs.inside.Chains.{sees};

use crate::chain_places::ChainPlace;
use crate::comparisons::compared_granted;
use crate::places::reached;
use liquid_core::{Expression, Use, Uses, member_of};
use liquid_evaluation::ChainFilter;
use liquid_syntax::{Atom, Binding, Condition, FilterChain, RangeExpression, WindowExpression};

/// Everything is asked of the expression.
pub(crate) fn grants_whole_value(uses: &Uses, expression: &Expression) -> bool
    ensures { result ≡ true → grants (uses_view uses.now) (expression_view expression.now)
        everything ≡ true }
{
    reached(expression, uses).is_whole()
}

/// Whether there is a value, and its kind.
pub(crate) fn present(uses: &Uses, expression: &Expression) -> bool
    ensures { result ≡ true → grants (uses_view uses.now) (expression_view expression.now) there
        ≡ true }
{
    reached(expression, uses).is_present()
}

/// What is asked of the value of that name, and whether there is one.
pub(crate) fn as_named(uses: &Uses, expression: &Expression, name: &str) -> bool
    ensures { result ≡ true → grants (uses_view uses.now) (expression_view expression.now)
        (present (uses_view uses.now name.now)) ≡ true }
{
    let place = reached(expression, uses);
    match member_of(uses, name) {
        None => place.is_present(),
        Some(asked) => place.is_present() && place.includes(asked),
    }
}

/// Of each item up to a limit what is asked of the value of that name, and without a limit how many
/// items there are.
fn each_as_named(uses: &Uses, expression: &Expression, limit: Option<usize>, name: &str) -> bool
    ensures { result ≡ true → grants (uses_view uses.now) (expression_view expression.now) (parts
        no_fields (up_to limit (uses_view uses.now name.now))) ≡ true }
{
    reached(expression, uses).includes_each(limit, member_of(uses, name))
}

/// Everything is asked of each of them.
pub(crate) fn all_whole(uses: &Uses, expressions: &[Expression]) -> bool
    ensures { result ≡ true → grants_all (uses_view uses.now) (map expression_view
        expressions.now) ≡ true }
{
    for expression in expressions {
        if !grants_whole_value(uses, expression) {
            return false;
        }
    }
    true
}

/// Everything is asked of the expression, where there is one.
#[tactic(auto, unfolding(liquid_meaning::specs::Reading::grants_optional))]
pub(crate) fn optional_whole(uses: &Uses, expression: &Option<Expression>) -> bool
    ensures { result ≡ true → grants_optional (uses_view uses.now) (option_map expression_view
        expression.now) ≡ true }
{
    match expression {
        Some(expression) => grants_whole_value(uses, expression),
        None => true,
    }
}

/// Everything is asked of the arguments of filters.
pub(crate) fn filters_granted(uses: &Uses, filters: &[ChainFilter]) -> bool
    ensures { result ≡ true → grants_filters (uses_view uses.now) (map chain_filter_view
        filters.now) ≡ true }
{
    for filter in filters {
        if !all_whole(uses, &filter.arguments) {
            return false;
        }
    }
    true
}

/// What may be asked of a chain's value.
fn chain_place<'u>(uses: &'u Uses, chain: &FilterChain) -> ChainPlace<'u>
    ensures { (v : seen.Use) → sees result v ≡ true → grants (uses_view uses.now) (chain_view
        chain.now).entry (use_before known_needs (chain_view chain.now).filters v) ≡ true }
{
    let mut place = ChainPlace::of(reached(&chain.entry, uses));
    for filter in &chain.filters {
        place = place.after(filter);
    }
    place
}

/// A chain whose value is written.
pub(crate) fn grants_output(uses: &Uses, chain: &FilterChain) -> bool
    ensures { result ≡ true → grants_chain known_needs (uses_view uses.now) everything
        (chain_view chain.now) ≡ true }
{
    chain_place(uses, chain).is_whole() && filters_granted(uses, &chain.filters)
}

/// A chain whose value is assigned to that name.
pub(crate) fn assigned(uses: &Uses, name: &str, chain: &FilterChain) -> bool
    ensures { result ≡ true → grants_chain known_needs (uses_view uses.now) (present (uses_view
        uses.now name.now)) (chain_view chain.now) ≡ true }
{
    let place = chain_place(uses, chain).present();
    place.sees(member_of(uses, name)) && filters_granted(uses, &chain.filters)
}

#[tactic(auto, unfolding(liquid_meaning::specs::Reading::grants_atom))]
fn atom_granted(uses: &Uses, atom: &Atom) -> bool
    ensures { result ≡ true → grants_atom (uses_view uses.now) (atom_view atom.now) ≡ true }
{
    match atom {
        Atom::Bare(value) => present(uses, value),
        Atom::Compared(left, comparison, right) => {
            compared_granted(uses, left, *comparison, right)
        }
    }
}

fn atoms_granted(uses: &Uses, atoms: &Vec<Atom>) -> bool
    ensures { result ≡ true → grants_atoms (uses_view uses.now) (atoms_view atoms.now) ≡ true }
{
    for atom in atoms {
        if !atom_granted(uses, atom) {
            return false;
        }
    }
    true
}

pub(crate) fn condition_granted(uses: &Uses, condition: &Condition) -> bool
    ensures { result ≡ true → grants_condition (uses_view uses.now) (condition_view
        condition.now) ≡ true }
{
    for conjunction in &condition.conjunctions {
        if !atoms_granted(uses, conjunction) {
            return false;
        }
    }
    true
}

/// What a loop with that variable goes over, up to a limit.
#[tactic(auto, unfolding(liquid_meaning::specs::Reading::grants_source))]
pub(crate) fn source_granted(
    uses: &Uses,
    name: &str,
    limit: Option<usize>,
    source: &RangeExpression,
) -> bool
    ensures { result ≡ true → grants_source (uses_view uses.now) name.now limit (source_view
        source.now) ≡ true }
{
    match source {
        RangeExpression::Array(value) => each_as_named(uses, value, limit, name),
        RangeExpression::Counted(first, last) => grants_whole_value(uses, first)
            && grants_whole_value(uses, last),
    }
}

#[tactic(auto, unfolding(liquid_meaning::specs::Reading::grants_window))]
pub(crate) fn window_granted(uses: &Uses, window: &WindowExpression) -> bool
    ensures { result ≡ true → grants_window (uses_view uses.now) (window_view window.now) ≡ true }
{
    optional_whole(uses, &window.limit) && optional_whole(uses, &window.offset)
}

/// The values of pairs, each as the name is that it is bound to.
pub(crate) fn bindings_granted(uses: &Uses, pairs: &[Binding]) -> bool
    ensures { result ≡ true → grants_bindings (uses_view uses.now) (bound_use (uses_view
        uses.now)) (bindings_view pairs.now) ≡ true }
{
    for pair in pairs {
        if !as_named(uses, &pair.value, pair.name.as_str()) {
            return false;
        }
    }
    true
}

/// The values of pairs, each whole.
pub(crate) fn bindings_whole(uses: &Uses, pairs: &[Binding]) -> bool
    ensures { result ≡ true → grants_bindings (uses_view uses.now) all_of (bindings_view
        pairs.now) ≡ true }
{
    for pair in pairs {
        if !grants_whole_value(uses, &pair.value) {
            return false;
        }
    }
    true
}
