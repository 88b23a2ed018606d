//! Renderings of sources.
ghost use Rattle.std.specs.Prelude.{◌≡◌, ◌<◌, ◌⊎◌, IfErr, IsErrAnd};
ghost use Rattle.liquid_engine.specs.Failures.{OneFailed, AtMostOneFailed};
ghost use Rattle.liquid_lib.specs.Headline.{RendersSource};
ghost use Rattle.liquid_engine.specs.StateKept.{LayersKept};
ghost use Rattle.liquid_engine.specs.Rendered.{PerformsForCut, run_in, names_in, at_writer};
ghost use Rattle.liquid_engine.specs.RuntimeView.{SettingKept, layers_in, environment_in};

use liquid_core::{ErrorKind, Result};
use liquid_engine::{CountedWrite, Renderable, Runtime};
use liquid_language::Language;
use liquid_parser::parse;
use std::alloc::Global;

/// Renders a source: parses it in the language, and writes its text up to the first fault.
///
/// A source that is no template is reported by the kind of its first fault (see [parse]), before
/// anything is written. Else the answer, the text and the changes are those of its one tree, for
/// what the runtime holds under the names that the template or a partial mentions; the names that
/// neither mentions are left as they are, after any answer. `Memory` where a growth was refused,
/// and `Write` where the writer failed or took nothing of what was left: then a beginning of the
/// text is written, and no failed write is tried again.
pub fn render_source<W: CountedWrite>(
    alloc: Global,
    source: &str,
    language: &Language,
    writer: &mut W,
    runtime: &mut Runtime<'_>,
) -> Result<()>
    ensures headline { RendersSource language.now source.now result
        (λ nodes. PerformsForCut (names_in runtime.old nodes) result
        (run_in counts answer runtime.old nodes)
        (at_writer W.contents W.failure_count writer.old (environment_in runtime.old))
        (at_writer W.contents W.failure_count writer.new (environment_in runtime.new))
        × LayersKept (names_in runtime.old nodes) (layers_in runtime.old) (layers_in runtime.new))
        ((at_writer W.contents W.failure_count writer.new (environment_in runtime.new) ≡
        at_writer W.contents W.failure_count writer.old (environment_in runtime.old))
        × (layers_in runtime.new ≡ layers_in runtime.old)) }
    ensures same { SettingKept runtime.old runtime.new }
    ensures write { IfErr result (λ e. e.kind ≡ ErrorKind.Write →
        OneFailed (W.failure_count writer.old) (W.failure_count writer.new)) }
    ensures failed { W.failure_count writer.old < W.failure_count writer.new →
        IsErrAnd result (λ e. (e.kind ≡ ErrorKind.Memory) ⊎ (e.kind ≡ ErrorKind.Write)) }
    ensures once { AtMostOneFailed (W.failure_count writer.old) (W.failure_count writer.new) }
{
    let template = parse(alloc, source, language)?;
    template.render_to(alloc, writer, runtime)
}
