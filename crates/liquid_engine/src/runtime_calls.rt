//! What a template is run in: how it is made, read and changed.
ghost use Rattle.std.specs.Prelude.{◌≡◌, [], Some, map, option_map, string_bytes, IfErr, IsOk};
ghost use Rattle.std.specs.Prelude.{IsTrue, OnErr};
ghost use Rattle.std.specs.Option.{ok_or};
ghost use Rattle.liquid_model.specs.Answer.{Answers, IsValueOrMemory, TakesNoMemory};
ghost use Rattle.liquid_model.specs.Cow.{cow_view};
ghost use Rattle.liquid_model.specs.Errors.{HasMessageUnlessMemory, nowhere_message};
ghost use Rattle.liquid_core.specs.Expressions.{value_along, begins_with_text};
ghost use Rattle.liquid_model.specs.Maps.{empty};
ghost use Rattle.liquid_core.specs.Held.{held};
ghost use Rattle.liquid_core.specs.States.{layers_of, new_layers, with_assigned, with_counter};
ghost use Rattle.liquid_core.specs.States.{with_missing, with_scope_pushed, with_scope_popped};
ghost use Rattle.liquid_model.specs.View.{view};
ghost use Rattle.liquid_model.specs.declared.error.ErrorKind.TheVariants.{UnknownVariable};
ghost use Rattle.liquid_syntax.specs.Templates.{partials_of};
ghost use Rattle.liquid_core.specs.Hosts.{named_by, no_host};
ghost use Rattle.liquid_evaluation.specs.Evaluation.{answers_with};
ghost use Rattle.liquid_engine.specs.RuntimeView.{SettingKept, layers_in, environment_in};
ghost use Rattle.liquid_engine.specs.RuntimeView.{setting_in};
ghost use Rattle.liquid_engine.specs.RuntimeView.{partials_in, depth_in, globals_for, partials_for};
ghost use Rattle.liquid_engine.specs.RuntimeView.{depth_for, named_for};

use crate::runtime::{DEFAULT_DEPTH, Runtime, RuntimeBuilder};
use liquid_core::{HostFilters, Missing, Object, Result, State, Value, ValueCow};
use liquid_syntax::Partials;
use std::alloc::Global;
use std::collections::BTreeMap;

impl<'p> RuntimeBuilder<'p> {
    /// A builder without data, partials and filters of a host, with a depth of 32 nested partials.
    /// It takes no memory.
    pub fn new(alloc: Global) -> RuntimeBuilder<'p>
        ensures globals { globals_for result ≡ empty }
        ensures partials { partials_for result ≡ [] }
        ensures host { named_for counts answer result ≡ no_host }
        ensures depth { depth_for result ≡ 32 }
    {
        RuntimeBuilder {
            globals: BTreeMap::new(alloc),
            partials: None,
            host: None,
            depth: DEFAULT_DEPTH,
        }
    }

    /// Sets the data.
    pub fn set_globals(self, globals: Object) -> RuntimeBuilder<'p>
        ensures globals { globals_for result ≡ held globals }
        ensures partials { partials_for result ≡ partials_for self.entry }
        ensures host { named_for counts answer result ≡ named_for counts answer self.entry }
        ensures depth { depth_for result ≡ depth_for self.entry }
    {
        RuntimeBuilder {
            globals,
            partials: self.partials,
            host: self.host,
            depth: self.depth,
        }
    }

    /// Lends the partials.
    pub fn set_partials(self, partials: &'p Partials) -> RuntimeBuilder<'p>
        ensures globals { globals_for result ≡ globals_for self.entry }
        ensures partials { partials_for result ≡ partials_of partials.now }
        ensures host { named_for counts answer result ≡ named_for counts answer self.entry }
        ensures depth { depth_for result ≡ depth_for self.entry }
    {
        RuntimeBuilder {
            globals: self.globals,
            partials: Some(partials),
            host: self.host,
            depth: self.depth,
        }
    }

    /// Lends the filters of the host, which the partials use too.
    pub fn set_host_filters(self, host: &'p HostFilters) -> RuntimeBuilder<'p>
        ensures globals { globals_for result ≡ globals_for self.entry }
        ensures partials { partials_for result ≡ partials_for self.entry }
        ensures host { named_for counts answer result ≡ named_by counts answer (Some host.entry) }
        ensures depth { depth_for result ≡ depth_for self.entry }
    {
        RuntimeBuilder {
            globals: self.globals,
            partials: self.partials,
            host: Some(host),
            depth: self.depth,
        }
    }

    /// Sets how many partials may be nested.
    pub fn set_depth(self, depth: u32) -> RuntimeBuilder<'p>
        ensures globals { globals_for result ≡ globals_for self.entry }
        ensures partials { partials_for result ≡ partials_for self.entry }
        ensures host { named_for counts answer result ≡ named_for counts answer self.entry }
        ensures depth { depth_for result ≡ depth }
    {
        RuntimeBuilder {
            globals: self.globals,
            partials: self.partials,
            host: self.host,
            depth,
        }
    }

    /// The runtime, in which a missing value is a fault. It takes no memory.
    pub fn build(self, alloc: Global) -> Runtime<'p>
        ensures layers { layers_in result ≡ new_layers (globals_for self.entry) }
        ensures partials { partials_in result ≡ partials_for self.entry }
        ensures host { (setting_in counts answer result).answers ≡
            answers_with (named_for counts answer self.entry) }
        ensures depth { depth_in result ≡ depth_for self.entry }
    {
        Runtime {
            state: State::new(alloc, self.globals),
            partials: self.partials,
            host: self.host,
            depth: self.depth,
        }
    }
}

impl<'p> Runtime<'p> {
    /// The state alone, in which expressions are evaluated.
    pub fn state(&self) -> &State<'p>
        ensures { layers_of result.now ≡ layers_in self.now }
    {
        &self.state
    }

    /// What becomes of a missing value.
    pub fn missing(&self) -> Missing
        ensures { result ≡ (layers_in self.now).missing }
    {
        self.state.missing()
    }

    /// Sets what becomes of a missing value in the runs from here on. It takes no memory.
    pub fn set_missing(&mut self, missing: Missing)
        ensures set { layers_in self.new ≡ with_missing missing (layers_in self.old) }
        ensures same { SettingKept self.old self.new }
    {
        self.state.set_missing(missing)
    }

    /// What a path leads to, as `State::try_get`. Its only fault is `Memory`, and it takes memory
    /// only for the text of a first step that is no text itself.
    pub fn try_get<'a>(&'a self, alloc: Global, path: &[Value]) -> Result<Option<ValueCow<'a>>>
        ensures value { IsValueOrMemory (λ r. option_map cow_view r) result
            (value_along (environment_in self.now) (map view path.now)) }
        ensures no_memory { IsTrue (begins_with_text (map view path.now)) → IsOk result }
    {
        self.state.try_get(alloc, path)
    }

    /// The same, or `UnknownVariable` where the path leads to nothing, also where a missing value
    /// is nil: that fault's message takes memory too.
    pub fn get<'a>(&'a self, alloc: Global, path: &[Value]) -> Result<ValueCow<'a>>
        ensures value { Answers cow_view result
            (ok_or (value_along (environment_in self.now) (map view path.now)) UnknownVariable) }
        ensures no_memory { IsTrue (begins_with_text (map view path.now)) →
            TakesNoMemory result (ok_or (value_along (environment_in self.now) (map view path.now))
            UnknownVariable) }
        ensures message { IfErr result
            (λ e. HasMessageUnlessMemory (nowhere_message (map view path.now)) e) }
    {
        self.state.get(alloc, path)
    }

    /// Sets an assigned variable. Where memory runs out nothing changes.
    pub fn set_global(&mut self, name: String, value: Value) -> Result<()>
        ensures set { IsValueOrMemory (λ _. layers_in self.new) result
            (with_assigned (string_bytes name) (view value) (layers_in self.old)) }
        ensures unchanged { OnErr result (layers_in self.new ≡ layers_in self.old) }
        ensures same { SettingKept self.old self.new }
    {
        self.state.set_global(name, value)
    }

    /// The counter of the name.
    pub fn get_index<'a>(&'a self, name: &str) -> Option<&'a Value>
        ensures { option_map (λ v. view v.now) result ≡ (layers_in self.now).counters name.now }
    {
        self.state.get_index(name)
    }

    /// Sets a counter. Where memory runs out nothing changes.
    pub fn set_index(&mut self, name: String, value: Value) -> Result<()>
        ensures set { IsValueOrMemory (λ _. layers_in self.new) result
            (with_counter (string_bytes name) (view value) (layers_in self.old)) }
        ensures unchanged { OnErr result (layers_in self.new ≡ layers_in self.old) }
        ensures same { SettingKept self.old self.new }
    {
        self.state.set_index(name, value)
    }

    /// Adds an innermost scope. Where memory runs out nothing changes.
    pub fn push_scope(&mut self, scope: Object) -> Result<()>
        ensures pushed { IsValueOrMemory (λ _. layers_in self.new) result
            (with_scope_pushed (held scope) (layers_in self.old)) }
        ensures unchanged { OnErr result (layers_in self.new ≡ layers_in self.old) }
        ensures same { SettingKept self.old self.new }
    {
        self.state.push_scope(scope)
    }

    /// Takes off the innermost scope.
    pub fn pop_scope(&mut self)
        ensures popped { layers_in self.new ≡ with_scope_popped (layers_in self.old) }
        ensures same { SettingKept self.old self.new }
    {
        self.state.pop_scope()
    }
}
