//! Whole renderings.
ghost use Rattle.std.specs.Prelude.{◌≡◌, ◌<◌, ◌≤◌, ◌⊎◌, T, [], false, IfErr, IsErrAnd, IsOk};
ghost use Rattle.std.specs.Prelude.{Some, string_bytes};
ghost use Rattle.std.specs.Io.KnownBytes.{Appends};
ghost use Rattle.liquid_model.specs.Answer.{Answers};
ghost use Rattle.liquid_core.specs.Environment.{cut};
ghost use Rattle.liquid_syntax.specs.Templates.{tree_of};
ghost use Rattle.liquid_evaluation.specs.Tree.{Nodes};
ghost use Rattle.liquid_engine.specs.Added.{AppendsPart};
ghost use Rattle.liquid_engine.specs.inside.Engine.{in_buffer, with_writer};
ghost use Rattle.liquid_engine.specs.inside.Reserves.{are_limited, reserve_of};
ghost use Rattle.liquid_engine.specs.Failures.{OneFailed, AtMostOneFailed};
ghost use Rattle.liquid_meaning.specs.Isolation.{changes};
ghost use Rattle.liquid_engine.specs.StateKept.{LayersKept, AreRenderNodes};
ghost use Rattle.liquid_engine.specs.Performs.{Performs, answer_of, is_refused, unit};
ghost use Rattle.liquid_engine.specs.Rendered.{PerformsForCut, run_in, outcome_in, names_in};
ghost use Rattle.liquid_engine.specs.Rendered.{at_writer, is_rendering_kind};
ghost use Rattle.liquid_meaning.specs.Runs.{ended_with};
ghost use Rattle.liquid_engine.specs.RuntimeView.{SettingKept, layers_in, environment_in};
ghost use Rattle.liquid_engine.specs.Silent.{AreSilent, IsDoneOrStopped};

use crate::borrowed_data::run_template;
use crate::counted::{CountedWrite, NoWriter};
use crate::output::Output;
use crate::runtime::Runtime;
use liquid_core::{ErrorKind, Result};
use liquid_syntax::Template;
use std::alloc::Global;

/// What can be rendered.
pub trait Renderable {
    // The nodes that are rendered.
    ghost nodes: { Self → Nodes };

    /// Writes the text, up to the first fault.
    ///
    /// `Memory` where a growth was refused, and `Write` where the writer failed or took nothing of
    /// what was left; then a beginning of the text is written, and no failed write is tried again.
    /// Any other kind is the first fault's. After any answer the scopes, the data, the partials,
    /// the depth and what becomes of a missing value are as before, and so is each name that
    /// neither the template nor a partial mentions.
    fn render_to<W: CountedWrite>(
        &self,
        alloc: Global,
        writer: &mut W,
        runtime: &mut Runtime<'_>,
    ) -> Result<()>
        // text, end and environment are those of the meaning
        ensures meaning { Performs result (run_in counts answer runtime.old (nodes self.now))
            (at_writer W.contents W.failure_count writer.old (environment_in runtime.old))
            (at_writer W.contents W.failure_count writer.new (environment_in runtime.new)) }
        // text, end and changes are those for what the runtime holds under the mentioned names,
        // layer by layer
        ensures isolated { PerformsForCut (names_in runtime.old (nodes self.now)) result
            (run_in counts answer runtime.old (nodes self.now))
            (at_writer W.contents W.failure_count writer.old (environment_in runtime.old))
            (at_writer W.contents W.failure_count writer.new (environment_in runtime.new)) }

        // where the answer is neither `Memory` nor `Write`
        ensures whole { is_refused result ≡ false →
            Appends (W.contents writer.old) (W.contents writer.new)
            (outcome_in counts answer runtime.old (nodes self.now)).text }
        ensures end { is_refused result ≡ false → answer_of unit result ≡
            (outcome_in counts answer runtime.old (nodes self.now)).end }
        ensures environment { is_refused result ≡ false →
            environment_in runtime.new ≡
            (outcome_in counts answer runtime.old (nodes self.now)).environment }

        // after every answer
        ensures begun { AppendsPart (W.contents writer.old) (W.contents writer.new)
            (outcome_in counts answer runtime.old (nodes self.now)).text }
        ensures kept { LayersKept (names_in runtime.old (nodes self.now)) (layers_in runtime.old)
            (layers_in runtime.new) }
        // nodes that are each a `render` leave the scopes, the variables, the counters, the data
        // and the registers
        ensures alone { AreRenderNodes (nodes self.now) → layers_in runtime.new ≡
            layers_in runtime.old }
        // a `break`, a `continue` and a comment take no memory: where each node is one, only the
        // writer can stop the run
        ensures no_memory { AreSilent (nodes self.now) →
            IsDoneOrStopped result (W.failure_count writer.old) (W.failure_count writer.new) }
        ensures same { SettingKept runtime.old runtime.new }
        ensures kinds { IfErr result (λ e. T (is_rendering_kind e.kind)) }
        ensures write { IfErr result (λ e. e.kind ≡ ErrorKind.Write →
            OneFailed (W.failure_count writer.old) (W.failure_count writer.new)) }
        ensures failed { W.failure_count writer.old < W.failure_count writer.new →
            IsErrAnd result (λ e. (e.kind ≡ ErrorKind.Memory) ⊎ (e.kind ≡ ErrorKind.Write)) }
        ensures once { AtMostOneFailed (W.failure_count writer.old) (W.failure_count writer.new) };

    /// The text, or the first fault; `Memory` where a growth was refused. Else as `render_to`.
    fn render(&self, alloc: Global, runtime: &mut Runtime<'_>) -> Result<String>
        ensures text { Answers (λ t. string_bytes t) result
            (ended_with (outcome_in counts answer runtime.old (nodes self.now)).text
            (outcome_in counts answer runtime.old (nodes self.now)).end) }
        ensures environment { is_refused result ≡ false →
            environment_in runtime.new ≡
            (outcome_in counts answer runtime.old (nodes self.now)).environment }

        // what the runtime holds under the mentioned names decides, layer by layer
        ensures isolated { let N = names_in runtime.old (nodes self.now) in
            let o = run_in counts answer runtime.old (nodes self.now)
            (cut N (environment_in runtime.old)) in
            Answers (λ t. string_bytes t) result (ended_with o.text o.end) }
        ensures changed { let N = names_in runtime.old (nodes self.now) in
            let e = environment_in runtime.old in
            is_refused result ≡ false → changes e (environment_in runtime.new) ≡
            changes (cut N e)
            (run_in counts answer runtime.old (nodes self.now) (cut N e)).environment }

        // after every answer
        ensures kept { LayersKept (names_in runtime.old (nodes self.now)) (layers_in runtime.old)
            (layers_in runtime.new) }
        // nodes that are each a `render` leave the scopes, the variables, the counters, the data
        // and the registers
        ensures alone { AreRenderNodes (nodes self.now) → layers_in runtime.new ≡
            layers_in runtime.old }
        // a `break`, a `continue` and a comment take no memory
        ensures no_memory { AreSilent (nodes self.now) → IsOk result }
        ensures same { SettingKept runtime.old runtime.new }
        ensures kinds { IfErr result (λ e. T (is_rendering_kind e.kind)) };
}

impl Renderable for Template {
    ghost nodes = { tree_of };

    fn render_to<W: CountedWrite>(
        &self,
        alloc: Global,
        writer: &mut W,
        runtime: &mut Runtime<'_>,
    ) -> Result<()> {
        let mut out = Output {
            writer,
            buffer: None,
        };
        let answer = run_template(alloc, self, &mut out, runtime);
        let Output {
            writer: written,
            buffer,
        } = out;
        drop(buffer);
        // No effect at run time. The proof reads what the writer holds from this use.
        let _ = &*written;
        answer
    }

    fn render(&self, alloc: Global, runtime: &mut Runtime<'_>) -> Result<String> {
        let (text, answer) = text_of_run(alloc, self, runtime);
        answer?;
        Ok(text)
    }
}

/// Runs the nodes of a template into a buffer. The text, up to the first fault, and how the run
/// ended.
pub(crate) fn text_of_run(
    alloc: Global,
    template: &Template,
    runtime: &mut Runtime<'_>,
) -> (String, Result<()>)
    ensures performs { Performs result.1 (run_in counts answer runtime.old (tree_of template.now))
        (in_buffer [] (environment_in runtime.old))
        (in_buffer (string_bytes result.0) (environment_in runtime.new)) }
    ensures kept { LayersKept (names_in runtime.old (tree_of template.now)) (layers_in runtime.old)
        (layers_in runtime.new) }
    ensures alone { AreRenderNodes (tree_of template.now) → layers_in runtime.new ≡
        layers_in runtime.old }
    ensures silent { AreSilent (tree_of template.now) → IsOk result.1 }
    ensures same { SettingKept runtime.old runtime.new }
{
    text_beside(alloc, template, &mut NoWriter, runtime)
}

/// Runs the nodes of a template into a buffer, while the writer grants it. The text, up to the
/// first fault or refusal, and how the run ended.
pub(crate) fn text_beside<W: CountedWrite>(
    alloc: Global,
    template: &Template,
    writer: &mut W,
    runtime: &mut Runtime<'_>,
) -> (String, Result<()>)
    ensures performs { Performs result.1 (run_in counts answer runtime.old (tree_of template.now))
        (with_writer W.contents W.failure_count writer.old [] (environment_in runtime.old))
        (with_writer W.contents W.failure_count writer.new (string_bytes result.0)
        (environment_in runtime.new)) }
    ensures kept { LayersKept (names_in runtime.old (tree_of template.now))
        (layers_in runtime.old) (layers_in runtime.new) }
    ensures alone { AreRenderNodes (tree_of template.now) →
        layers_in runtime.new ≡ layers_in runtime.old }
    ensures silent { AreSilent (tree_of template.now) →
        IsDoneOrStopped result.1 (W.failure_count writer.old) (W.failure_count writer.new) }
    // the text took its bytes
    ensures bounded { reserve_of (Some (string_bytes result.0)) (W.left writer.new).bytes ≤
        reserve_of (Some []) (W.left writer.old).bytes }
    ensures limited { are_limited (W.left writer.new) ≡ are_limited (W.left writer.old) }
    ensures same { SettingKept runtime.old runtime.new }
{
    let mut out = Output {
        writer,
        buffer: Some(String::new(alloc)),
    };
    let answer = run_template(alloc, template, &mut out, runtime);
    let text = out.close(None);
    let Output {
        writer: left,
        buffer,
    } = out;
    drop(buffer);
    // No effect at run time. The proof reads what the writer is from this use.
    let _ = &*left;
    (text, answer)
}
