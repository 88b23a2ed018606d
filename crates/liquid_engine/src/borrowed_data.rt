//! Runs over the data of a runtime, which is borrowed for the run.
ghost use Rattle.std.specs.Prelude.{◌≡◌, ◌≤◌, length};
ghost use Rattle.liquid_core.specs.States.{layers_of, loops_of};
ghost use Rattle.liquid_syntax.specs.Templates.{tree_of};
ghost use Rattle.liquid_evaluation.specs.Names.{nodes_names};
ghost use Rattle.liquid_engine.specs.inside.Engine.{setting_of, nodes_in};
ghost use Rattle.liquid_engine.specs.inside.Reserves.{limited_in, reserve_in};
ghost use Rattle.liquid_engine.specs.StateKept.{Keeps, LayersKept, AreRenderNodes};
ghost use Rattle.liquid_engine.specs.Performs.{Performs, configuration_of};
ghost use Rattle.liquid_engine.specs.Rendered.{run_in, names_in};
ghost use Rattle.liquid_engine.specs.RuntimeView.{SettingKept, layers_in};
ghost use Rattle.liquid_engine.specs.Silent.{AreSilent, IsDoneOrStopped};
ghost use Rattle.liquid_engine.specs.Sinks.{sink_of};

use crate::context::{Places, RunContext};
use crate::counted::CountedWrite;
use crate::engine::run_range;
use crate::output::Output;
use crate::runtime::Runtime;
use liquid_core::{Data, NamedFilters, Result, State};
use liquid_syntax::{Partials, Template};
use std::alloc::Global;
use std::collections::BTreeMap;
use std::mem;

/// Runs the nodes of a template with what the runtime holds.
pub(crate) fn run_template<W: CountedWrite>(
    alloc: Global,
    template: &Template,
    out: &mut Output<'_, W>,
    runtime: &mut Runtime<'_>,
) -> Result<()>
    ensures performs { Performs result (run_in counts answer runtime.old (tree_of template.now))
        (configuration_of W.contents W.failure_count out.old runtime.old.state)
        (configuration_of W.contents W.failure_count out.new runtime.new.state) }
    ensures same_writer { out.new.writer.ghost_name ≡ out.old.writer.ghost_name }
    ensures bounded { reserve_in W.left out.new ≤ reserve_in W.left out.old }
    ensures limited { limited_in W.left out.new ≡ limited_in W.left out.old }
    ensures kept { LayersKept (names_in runtime.old (tree_of template.now)) (layers_in runtime.old)
        (layers_in runtime.new) }
    ensures alone { AreRenderNodes (tree_of template.now) → layers_in runtime.new ≡
        layers_in runtime.old }
    ensures silent { AreSilent (tree_of template.now) →
        IsDoneOrStopped result
        (sink_of W.contents W.failure_count out.old).failures
        (sink_of W.contents W.failure_count out.new).failures }
    ensures same { SettingKept runtime.old runtime.new }
{
    let none = Partials::new(alloc);
    let context = RunContext {
        partials: runtime.partials.unwrap_or(&none),
        host: &runtime.host,
        depth: runtime.depth,
        places: Places::of(template),
    };
    run_with_borrowed_data(alloc, template, &context, out, &mut runtime.state)
}

/// Runs the nodes of a template, whose positions the context has. The data is taken out of the
/// state, so that loops can go over its lists while the run changes the rest, and is put back after
/// any answer.
pub(crate) fn run_with_borrowed_data<W: CountedWrite, H: NamedFilters>(
    alloc: Global,
    template: &Template,
    context: &RunContext<'_, H>,
    out: &mut Output<'_, W>,
    state: &mut State<'_>,
) -> Result<()>
    requires plain { length (loops_of state.old) ≡ 0 }
    ensures performs { Performs result (nodes_in H.named context.now (tree_of template.now))
        (configuration_of W.contents W.failure_count out.old state.old)
        (configuration_of W.contents W.failure_count out.new state.new) }
    ensures same_writer { out.new.writer.ghost_name ≡ out.old.writer.ghost_name }
    ensures bounded { reserve_in W.left out.new ≤ reserve_in W.left out.old }
    ensures limited { limited_in W.left out.new ≡ limited_in W.left out.old }
    ensures kept { Keeps (nodes_names (tree_of template.now)) (setting_of H.named context.now)
        state.old
        state.new }
    ensures alone { AreRenderNodes (tree_of template.now) → layers_of state.new ≡
        layers_of state.old }
    ensures silent { AreSilent (tree_of template.now) →
        IsDoneOrStopped result
        (sink_of W.contents W.failure_count out.old).failures
        (sink_of W.contents W.failure_count out.new).failures }
    ensures plain { length (loops_of state.new) ≡ 0 }
{
    let empty = State::new(alloc, BTreeMap::new(alloc));
    let (parts, data) = mem::replace(state, empty).into_parts();
    let mut run_state = State::from_parts(alloc, parts, Data::Borrowed(data.object()));
    let nodes = template.nodes();
    let answer = run_range(alloc, context, nodes, 0, nodes.len(), out, &mut run_state);
    let (parts, ended) = run_state.into_parts();
    drop(ended);
    *state = State::from_parts(alloc, parts, data);
    answer
}
