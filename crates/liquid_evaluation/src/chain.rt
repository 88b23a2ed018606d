//! Chains of filters, as a template holds them.
ghost use Rattle.std.specs.Prelude.{◌≡◌, [], ◌∷◌, IsTrue, length, pos};
ghost use Rattle.liquid_model.specs.ErrorKinds.{IsKindOrMemory};
ghost use Rattle.liquid_evaluation.specs.StoredFilters.{stored_counts};

use crate::any_filter::AnyFilter;
use crate::filter_call::{FilterCall, apply_one};
use crate::stored_filter::StoredFilter;
use liquid_core::{
    DirectValue, Error, ErrorKind, Expression, HostFilters, Missing, NamedFilters, Quoted, Result,
    State, Value, ValueCow,
};
use liquid_filters::FilterKind;
use std::alloc::Global;

/// One filter of a chain with its arguments, of which it accepts the number.
pub struct ChainFilter {
    pub filter: StoredFilter,
    pub arguments: Vec<Expression>,
    /// How many of the first arguments are required: a missing one of the others is nil.
    pub required: usize,
    pub ghost accepted: { IsTrue (stored_counts filter (length arguments.items)) },
}

/// Drops the fields. Written by hand, so that each early return drops the value by one call to
/// prove.
impl Drop for ChainFilter {
    fn drop(self) {
        let ChainFilter {
            filter: _,
            arguments: _,
            required: _,
        } = self;
    }
}

impl ChainFilter {
    ghost use Rattle.liquid_evaluation.specs.AnyFilters.{any_answer, any_counts};
    ghost use Rattle.liquid_model.specs.Answer.{Answers};
    ghost use Rattle.liquid_model.specs.Data.{array, no_items, number};
    ghost use Rattle.liquid_model.specs.View.{view};
    ghost use Rattle.liquid_core.specs.States.{environment_of};
    ghost use Rattle.liquid_evaluation.specs.Calls.{applied, call_of};
    ghost use Rattle.liquid_evaluation.specs.ChainView.{chain_filter_view};
    ghost use Rattle.liquid_evaluation.specs.DirectValues.{ChainDirectlyIs};
    ghost use Rattle.liquid_evaluation.specs.Escaped.{escape_call};
    ghost use Rattle.liquid_evaluation.specs.Evaluation.{accepted, answers_in, answers_with};
    ghost use Rattle.liquid_evaluation.specs.Evaluation.{call_by};
    ghost use Rattle.liquid_evaluation.specs.inside.Forgiveness.{forgives_nil};

    /// The filter `escape`, without arguments.
    pub fn escape(alloc: Global) -> ChainFilter
        ensures { chain_filter_view result ≡ escape_call }
    {
        ChainFilter {
            filter: StoredFilter::Kind(FilterKind::Escape),
            arguments: Vec::new(alloc),
            required: 0,
        }
    }

    /// The call by which the filter is run on its arguments, whose number it accepts.
    pub fn call<'h, H: NamedFilters>(&'h self, host: &'h H) -> FilterCall<'h, AnyFilter<'h, H>>
        ensures call { call_of (any_answer H.named result.filter) result.args.now result.required ≡
            call_by (answers_with (H.named host.now)) (chain_filter_view self.now) }
        ensures accepted { IsTrue (any_counts result.filter (length result.args.now)) }
    {
        let filter = match &self.filter {
            StoredFilter::Kind(kind) => AnyFilter::Kind(*kind),
            StoredFilter::Host(name) => AnyFilter::Host(name.as_str(), host),
        };
        FilterCall {
            filter,
            args: self.arguments.as_slice(),
            required: self.required,
        }
    }

    /// What the filter makes of the input, by its arguments, which are taken from left to right.
    ///
    /// The faults are those of an argument, and the filter's. Where a missing value is nil in this
    /// state, a filter that isn't the host's and refuses nil as its input is given an empty list in
    /// its place, and where it refuses that too, 0.
    #[inline]
    pub fn apply<H: NamedFilters>(
        &self,
        alloc: Global,
        input: &Value,
        state: &State<'_>,
        host: &H,
    ) -> Result<Value>
        ensures { Answers view result
            (applied (call_by (answers_in (environment_of state.now).missing
            (answers_with (H.named host.now))) (chain_filter_view self.now) ∷ [])
            (view input.now) (environment_of state.now)) }
    {
        match apply_one(alloc, input, &self.call(host), state) {
            Ok(answer) => Ok(answer),
            Err(fault) => match fault.kind {
                ErrorKind::InvalidInput => {
                    if self.forgives_nil(input, state.missing()) {
                        self.apply_instead(alloc, state, host)
                    } else {
                        Err(fault)
                    }
                }
                _ => Err(fault),
            },
        }
    }

    /// `apply`, where the message of a fault begins with the filter's name, as a chain has it.
    pub fn apply_named<H: NamedFilters>(
        &self,
        alloc: Global,
        input: &Value,
        state: &State<'_>,
        host: &H,
    ) -> Result<Value>
        ensures value { Answers view result
            (applied (call_by (answers_in (environment_of state.now).missing
            (answers_with (H.named host.now))) (chain_filter_view self.now) ∷ [])
            (view input.now) (environment_of state.now)) }
    {
        match self.apply(alloc, input, state, host) {
            Ok(answer) => Ok(answer),
            Err(fault) => Err(of_filter(alloc, self.filter.name(), fault)),
        }
    }

    /// Whether something is given in the place of a refused nil.
    fn forgives_nil(&self, input: &Value, missing: Missing) -> bool
        ensures { result ≡ forgives_nil missing (chain_filter_view self.now).filter
            (view input.now) }
    {
        match missing {
            Missing::IsFault => false,
            Missing::IsNil => match &self.filter {
                StoredFilter::Host(_) => false,
                StoredFilter::Kind(_) => match input {
                    Value::Nil => true,
                    _ => false,
                },
            },
        }
    }

    /// What the filter makes of an empty list, or of 0 where it refuses that.
    #[inline(never)]
    fn apply_instead<H: NamedFilters>(
        &self,
        alloc: Global,
        state: &State<'_>,
        host: &H,
    ) -> Result<Value>
        ensures { Answers view result (accepted
            (applied (call_by (answers_with (H.named host.now)) (chain_filter_view self.now) ∷ [])
            (array no_items) (environment_of state.now))
            (applied (call_by (answers_with (H.named host.now)) (chain_filter_view self.now) ∷ [])
            (number (pos 0)) (environment_of state.now))) }
    {
        let list = Value::Array(Vec::new(alloc));
        let answer = apply_one(alloc, &list, &self.call(host), state);
        drop(list);
        match answer {
            Ok(answer) => Ok(answer),
            Err(fault) => match fault.kind {
                ErrorKind::InvalidInput => self.apply_to_zero(alloc, state, host),
                _ => Err(fault),
            },
        }
    }

    /// What the filter makes of 0.
    fn apply_to_zero<H: NamedFilters>(
        &self,
        alloc: Global,
        state: &State<'_>,
        host: &H,
    ) -> Result<Value>
        ensures { Answers view result
            (applied (call_by (answers_with (H.named host.now)) (chain_filter_view self.now) ∷ [])
            (number (pos 0)) (environment_of state.now)) }
    {
        let zero = Value::Integer(0);
        let answer = apply_one(alloc, &zero, &self.call(host), state);
        drop(zero);
        answer
    }
}

/// An entry, and the filters that its value goes through in order.
pub struct FilterChain {
    pub entry: Expression,
    pub filters: Vec<ChainFilter>,
}

/// Drops the fields. Written by hand, so that each early return drops the value by one call to
/// prove.
impl Drop for FilterChain {
    fn drop(self) {
        let FilterChain {
            entry: _,
            filters: _,
        } = self;
    }
}

impl FilterChain {
    ghost use Rattle.liquid_model.specs.Answer.{Answers, TakesNoMemory};
    ghost use Rattle.liquid_model.specs.Cow.{cow_view};
    ghost use Rattle.liquid_core.specs.Expressions.{required, value_of};
    ghost use Rattle.liquid_core.specs.Hosts.{named_by};
    ghost use Rattle.liquid_core.specs.States.{environment_of, FindsLoop};
    ghost use Rattle.liquid_model.specs.View.{view};
    ghost use Rattle.liquid_evaluation.specs.ChainView.{chain_view};
    ghost use Rattle.liquid_evaluation.specs.DirectValues.{ChainDirectlyIs};
    ghost use Rattle.liquid_evaluation.specs.Evaluation.{answers_with, chain_value, entry_value};

    /// The value of the chain: that of its entry, through its filters in order.
    ///
    /// A missing entry is nil before a filter, and `UnknownVariable` without one; so is a missing
    /// argument of a filter that is required. Both are nil where a missing value is nil in this
    /// state, and there a filter may be given something in the place of a nil that it refuses
    /// (`ChainFilter::apply`). A filter's fault ends the chain, and its message begins with the
    /// filter's name, as does that of an argument. A filter of the host is `Unsupported` where
    /// `host` has none of its name that takes the number of arguments in the chain. `Memory` where
    /// a growth was refused.
    pub fn evaluate(
        &self,
        alloc: Global,
        state: &State<'_>,
        host: Option<&HostFilters>,
    ) -> Result<Value>
        ensures { Answers view result
            (chain_value (answers_with (named_by counts answer host.entry))
            (chain_view self.now) (environment_of state.now)) }
    {
        self.evaluate_by(alloc, state, &host)
    }

    /// `evaluate` for filters of any host.
    pub fn evaluate_by<H: NamedFilters>(
        &self,
        alloc: Global,
        state: &State<'_>,
        host: &H,
    ) -> Result<Value>
        ensures { Answers view result (chain_value (answers_with (H.named host.now))
            (chain_view self.now)
            (environment_of state.now)) }
    {
        self.evaluate_cow(alloc, state, host)?.into_owned(alloc)
    }

    /// `evaluate_by` without a copy: where the chain has no filters, the value is borrowed from its
    /// literal or the state, which takes no memory, unless it is the whole object of a loop.
    pub fn evaluate_cow<'a, H: NamedFilters>(
        &'a self,
        alloc: Global,
        state: &'a State<'_>,
        host: &H,
    ) -> Result<ValueCow<'a>>
        ensures value { Answers cow_view result (chain_value (answers_with (H.named host.now))
            (chain_view self.now) (environment_of state.now)) }
        ensures no_memory { (chain_view self.now).filters ≡ [] →
            (FindsLoop state.now (value_of (chain_view self.now).entry
            (environment_of state.now)) → ⊥)
            → TakesNoMemory result (required (chain_view self.now).entry
            (environment_of state.now)) }
    {
        let mut value = self.evaluate_entry(alloc, state)?;
        for stored in &self.filters {
            value = ValueCow::Owned(stored.apply_named(alloc, value.as_value(), state, host)?);
        }
        Ok(value)
    }

    /// The value of a chain without filters, where it is held or a number, as
    /// `Expression::direct_value`.
    pub fn direct_value<'a>(&'a self, state: &'a State<'_>) -> DirectValue<'a>
        ensures { ChainDirectlyIs result (chain_view self.now) (environment_of state.now) }
    {
        if self.filters.is_empty() {
            self.entry.direct_value(state)
        } else {
            DirectValue::Unknown
        }
    }

    /// The value of the entry, which the first filter is given: nil where it is missing before a
    /// filter. It takes memory only where it is the whole object of a loop, or for a fault.
    pub fn evaluate_entry<'a>(&'a self, alloc: Global, state: &'a State<'_>) -> Result<ValueCow<'a>>
        ensures value { Answers cow_view result
            (entry_value (environment_of state.now).missing
            (value_of (chain_view self.now).entry (environment_of state.now))
            (chain_view self.now).filters) }
        ensures no_memory { (FindsLoop state.now (value_of (chain_view self.now).entry
            (environment_of state.now)) → ⊥)
            → TakesNoMemory result
            (entry_value (environment_of state.now).missing
            (value_of (chain_view self.now).entry (environment_of state.now))
            (chain_view self.now).filters) }
    {
        if self.filters.is_empty() {
            return self.entry.evaluate(alloc, state);
        }
        if let DirectValue::Held(value) = self.entry.direct_value(state) {
            return Ok(ValueCow::Borrowed(value));
        }
        match self.entry.try_evaluate(alloc, state)? {
            Some(value) => Ok(value),
            None => Ok(ValueCow::Owned(Value::Nil)),
        }
    }
}

/// The fault of the filter of this name, or of its arguments: its message begins with the name.
/// `Memory` where there is no room for that.
#[inline(never)]
fn of_filter(alloc: Global, name: &str, fault: Error) -> Error
    ensures { IsKindOrMemory fault.kind result.kind }
{
    let Some(message) = &fault.message else {
        return fault;
    };
    let quoted = Quoted { text: name };
    match format!(in alloc; "`{quoted}`: {message}") {
        Ok(message) => fault.reworded(message),
        Err(refused) => Error::from(refused),
    }
}
