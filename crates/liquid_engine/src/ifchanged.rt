//! What an `ifchanged` does with the text of its body.
ghost use Rattle.std.specs.Prelude.{◌≡◌, ◌≤◌, string_bytes};
ghost use Rattle.liquid_core.specs.Environment.{Names};
ghost use Rattle.liquid_core.specs.States.{environment_of, layers_of, loops_of};
ghost use Rattle.liquid_engine.specs.inside.Changed.{shown_if_changed, written_unless_last};
ghost use Rattle.liquid_engine.specs.inside.Reserves.{limited_in, reserve_in};
ghost use Rattle.liquid_engine.specs.StateKept.{LayersKept};
ghost use Rattle.liquid_engine.specs.Performs.{Performs, configuration_of};
ghost use Rattle.liquid_meaning.specs.Effects.{is_last_text};

use crate::counted::CountedWrite;
use crate::output::Output;
use liquid_core::{Result, State};
use std::alloc::Global;

/// Writes the text where it differs from the last one, and makes it the last one after that.
#[inline(never)]
pub(crate) fn show_if_changed<W: CountedWrite>(
    alloc: Global,
    text: String,
    out: &mut Output<'_, W>,
    state: &mut State<'_>,
) -> Result<()>
    ensures performs { Performs result (shown_if_changed (string_bytes text))
        (configuration_of W.contents W.failure_count out.old state.old)
        (configuration_of W.contents W.failure_count out.new state.new) }
    ensures same_writer { out.new.writer.ghost_name ≡ out.old.writer.ghost_name }
    ensures bounded { reserve_in W.left out.new ≤ reserve_in W.left out.old }
    ensures limited { limited_in W.left out.new ≡ limited_in W.left out.old }
    ensures kept { (N : Names) → LayersKept N (layers_of state.old) (layers_of state.new) }
    ensures loops { loops_of state.new ≡ loops_of state.old }
{
    write_unless_last(alloc, text.as_str(), out, state)?;
    state.changed = Some(text);
    Ok(())
}

/// Writes the text where it differs from the last one.
fn write_unless_last<W: CountedWrite>(
    alloc: Global,
    text: &str,
    out: &mut Output<'_, W>,
    state: &State<'_>,
) -> Result<()>
    ensures performs { Performs result
        (written_unless_last (environment_of state.now).registers.changed text.now)
        (configuration_of W.contents W.failure_count out.old state.now)
        (configuration_of W.contents W.failure_count out.new state.now) }
    ensures same_writer { out.new.writer.ghost_name ≡ out.old.writer.ghost_name }
    ensures bounded { reserve_in W.left out.new ≤ reserve_in W.left out.old }
    ensures limited { limited_in W.left out.new ≡ limited_in W.left out.old }
{
    if is_last(text, state) {
        return Ok(());
    }
    out.push_text(alloc, text)
}

/// Whether it is the last text of `ifchanged`.
fn is_last(text: &str, state: &State<'_>) -> bool
    ensures { result ≡ is_last_text (environment_of state.now).registers.changed text.now }
{
    match &state.changed {
        Some(last) => last.as_str() == text,
        None => false,
    }
}
