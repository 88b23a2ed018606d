//! Filters that a host provides.
ghost use Rattle.std.specs.Option.{option_map_or};
ghost use Rattle.std.specs.Prelude.{◌≡◌, IsTrue, Err, MatchOption, Some, length, map, option_map};
ghost use Rattle.std.specs.Prelude.{true, Result as Answered};
ghost use Rattle.liquid_model.specs.Answer.{Answers};
ghost use Rattle.liquid_model.specs.Data.{Datum};
ghost use Rattle.liquid_model.specs.Texts.{Text};
ghost use Rattle.liquid_model.specs.ErrorKinds.{IsKindOrMemory};
ghost use Rattle.liquid_model.specs.View.{view};
ghost use Rattle.liquid_model.specs.declared.error.ErrorKind.{ErrorKind};
ghost use Rattle.liquid_model.specs.declared.error.ErrorKind.TheVariants.{Unsupported};
ghost use Rattle.liquid_model.specs.FilterAnswers.{AnswersIf, FilterAnswer, AnswersOrMemory};
ghost use Rattle.liquid_core.specs.Hosts.{host_answer, last_named, of_host};

use liquid_model::{Error, ErrorKind, Filter, Result, Value};
use std::alloc::Global;

/// Filters of the host, by name. Of two with one name the later counts.
#[derive(Drop)]
pub struct HostFilters {
    filters: Vec<(String, Box<dyn Filter>)>,
}

impl HostFilters {
    /// These filters. It takes no memory.
    pub fn new(filters: Vec<(String, Box<dyn Filter>)>) -> HostFilters
        ensures { result.filters ≡ filters }
    {
        HostFilters { filters }
    }

    /// Whether the filter of the name takes this many arguments, or none where no filter has the
    /// name. It takes no memory.
    pub fn accepts(&self, name: &str, count: usize) -> Option<bool>
        ensures { result ≡ option_map (λ b. counts b count)
            (last_named name.now self.now.filters.items) }
    {
        match self.find(name) {
            Some(filter) => Some(filter.accepts(count)),
            None => None,
        }
    }

    /// What the filter of the name answers, where it takes this many arguments. A fault of a kind
    /// that no run has becomes `InvalidInput`. `Memory` where a growth was refused.
    pub fn evaluate(
        &self,
        alloc: Global,
        name: &str,
        input: &Value,
        args: &[Value],
    ) -> Result<Value>
        requires { option_map (λ b. counts b (length args.now))
            (last_named name.now self.now.filters.items) ≡ Some true }
        ensures { MatchOption (last_named name.now self.now.filters.items) ⊥
            (λ b. Answers view result (of_host (answer b (view input.now) (map view args.now)))) }
    {
        match self.find(name) {
            Some(filter) => evaluate_filter(alloc, filter, input, args),
            None => unreachable!(),
        }
    }

    /// What a call of the name answers: that of `evaluate` where a filter of the name takes this
    /// many arguments, and else `Unsupported`. `Memory` where a growth was refused.
    pub fn call(&self, alloc: Global, name: &str, input: &Value, args: &[Value]) -> Result<Value>
        ensures { Answers view result (host_answer (λ b. counts b) (λ b. answer b)
            (last_named name.now self.now.filters.items) (view input.now) (map view args.now)) }
    {
        match self.accepts(name, args.len()) {
            Some(true) => self.evaluate(alloc, name, input, args),
            _ => Err(unsupported(alloc)),
        }
    }

    /// The last filter of the name.
    fn find(&self, name: &str) -> Option<&Box<dyn Filter>>
        ensures { option_map (λ b. b.now) result ≡ last_named name.now self.now.filters.items }
    {
        let mut found = None;
        for (known, filter) in &self.filters {
            if known.as_str() == name {
                found = Some(filter);
            }
        }
        found
    }
}

/// Filters that are called by their names. There may be none.
pub trait NamedFilters {
    // What a call of a name answers.
    ghost named: { Self → Text → FilterAnswer };

    /// What a call of the name answers, or `Memory` where a growth was refused.
    fn call_named(&self, alloc: Global, name: &str, input: &Value, args: &[Value]) -> Result<Value>
        ensures { Answers view result (named self.now name.now (view input.now)
            (map view args.now)) };
}

/// As `call` answers.
impl NamedFilters for HostFilters {
    ghost named = { λ host name. host_answer (λ b. (Filter-box b).counts b.value)
        (λ b. (Filter-box b).answer b.value) (last_named name host.filters.items) };

    fn call_named(
        &self,
        alloc: Global,
        name: &str,
        input: &Value,
        args: &[Value],
    ) -> Result<Value> {
        self.call(alloc, name, input, args)
    }
}

/// `Unsupported` where there are none.
impl<H: NamedFilters> NamedFilters for Option<&H> {
    ghost named = { λ filters name.
        option_map_or (λ h. H.named h.now name) filters (λ _ _. Err Unsupported) };

    fn call_named(
        &self,
        alloc: Global,
        name: &str,
        input: &Value,
        args: &[Value],
    ) -> Result<Value> {
        match self {
            Some(filters) => filters.call_named(alloc, name, input, args),
            None => Err(unsupported(alloc)),
        }
    }
}

/// The fault of a call where no filter of the name takes this many arguments. A chain puts the name
/// before it.
fn unsupported(alloc: Global) -> Error
    ensures { IsKindOrMemory Unsupported result.kind }
{
    Error::new(
        alloc,
        ErrorKind::Unsupported,
        "the host provides no filter of this name that takes so many arguments",
    )
}

/// What a filter of the host answers, as a run has it.
fn evaluate_filter(
    alloc: Global,
    filter: &Box<dyn Filter>,
    input: &Value,
    args: &[Value],
) -> Result<Value>
    requires { IsTrue (counts filter.now (length args.now)) }
    ensures { Answers view result
        (of_host (answer filter.now (view input.now) (map view args.now))) }
{
    with_run_kind(alloc, filter_answer(alloc, filter, input, args))
}

/// The filter's own answer. It is a function of its own so that its clause is about the box, and
/// not about what the box holds.
fn filter_answer(
    alloc: Global,
    filter: &Box<dyn Filter>,
    input: &Value,
    args: &[Value],
) -> Result<Value>
    requires { IsTrue (counts filter.now (length args.now)) }
    ensures { AnswersIf (within filter.now) view result (answer filter.now (view input.now)
        (map view args.now)) }
{
    filter.evaluate(alloc, input, args)
}

/// The answer of a filter of the host, with `InvalidInput` for a kind that no run has.
fn with_run_kind(alloc: Global, answer: Result<Value>) -> Result<Value>
    ensures { (wanted : Answered Datum ErrorKind) → AnswersOrMemory view answer wanted →
        Answers view result (of_host wanted) }
{
    match answer {
        Ok(value) => Ok(value),
        Err(fault) => {
            if fault.kind.number() <= 17 {
                Err(fault)
            } else {
                Err(Error::new(
                    alloc,
                    ErrorKind::InvalidInput,
                    "a filter of the host answered a fault that no run has",
                ))
            }
        }
    }
}
