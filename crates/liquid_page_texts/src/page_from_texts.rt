//! A page of its texts: a template, data and partials.
ghost use Rattle.std.specs.Prelude.{◌≡◌, ◌<◌, ◌⊎◌, [], false, IfErr, IsErrAnd};
ghost use Rattle.std.specs.Io.KnownBytes.{Appends};
ghost use Rattle.liquid_parser.specs.Parsing.{MayRefuse, ParsesTo};
ghost use Rattle.liquid_syntax.specs.Templates.{tree_of};
ghost use Rattle.liquid_engine.specs.Added.{AppendsPart};
ghost use Rattle.liquid_engine.specs.Failures.{OneFailed, AtMostOneFailed};
ghost use Rattle.liquid_engine.specs.Performs.{answer_of, is_refused, unit};
ghost use Rattle.liquid_page_texts.specs.Page.{page_outcome, sources_of};
ghost use Rattle.liquid_page_texts.specs.Shown.{RanOut, ReadsPageTexts, ReadsPartials, ReadsSeen};
ghost use Rattle.liquid_page_texts.specs.Shown.{ShowsStandard, page_inputs_view};

use liquid_core::{Error, ErrorKind, Object, Result};
use liquid_engine::{CountedWrite, DEFAULT_DEPTH, Renderable, RuntimeBuilder};
use liquid_json::{data_for, data_from_json};
use liquid_language::{Language, language};
use liquid_parser::parse_with_source;
use liquid_syntax::{Partials, Template};
use liquid_uses::data_uses;
use std::alloc::Global;
use std::mem;

/// To find out what a node sees takes about as long as to read some 200 bytes of data.
const BYTES_FOR_A_NODE: usize = 4096;

/// What becomes of what was read, after the page: to take large data apart is a tenth of the work
/// of a page and more.
#[derive(Clone, Copy, Drop)]
enum Cleanup {
    Free,
    Skip,
}

/// The texts of a page, read.
#[derive(Drop)]
struct ReadTexts {
    template: Template,
    data: Object,
    partials: Partials,
}

/// Writes the page of a template, of data in JSON, and of partials by name, of which the later of
/// one name wins.
///
/// The template is parsed, then the data is read, then the partials are parsed in their order; the
/// first that isn't read is the answer, and nothing is written: a kind of a source, or
/// `InvalidInput` or `Float` of the data. A partial's fault says which partial it stands in. Then
/// the page is rendered in a new runtime, with at most 32 nested partials: the answer is its first
/// fault, and what was written is the text up to there. `Memory` where a growth was refused, and
/// `Write` where a write failed or took nothing: then a beginning of the text is written, and no
/// failed write is tried again.
pub fn run<W: CountedWrite>(
    alloc: Global,
    template: &str,
    data: &str,
    partials: &[(String, String)],
    writer: &mut W,
) -> Result<()>
    ensures page { RanOut result (W.contents writer.old) (W.contents writer.new)
        ⊎ ShowsStandard (record {
          template = template.now;
          «data» = «data».now;
          partials = sources_of partials.now;
        }) result (W.contents writer.old)
        (W.contents writer.new) }
    ensures write { IfErr result (λ e. e.kind ≡ ErrorKind.Write →
        OneFailed (W.failure_count writer.old) (W.failure_count writer.new)) }
    ensures failed { W.failure_count writer.old < W.failure_count writer.new →
        IsErrAnd result (λ e. (e.kind ≡ ErrorKind.Memory) ⊎ (e.kind ≡ ErrorKind.Write)) }
    ensures once { AtMostOneFailed (W.failure_count writer.old) (W.failure_count writer.new) }
{
    let language = language(alloc)?;
    let read = read_texts(alloc, &language, template, data, partials)?;
    render_texts(alloc, read, writer, Cleanup::Free)
}

/// As `run`, for a program that ends after it: what was read isn't taken apart, so its memory
/// stays until the process ends.
pub fn run_without_cleanup<W: CountedWrite>(
    alloc: Global,
    template: &str,
    data: &str,
    partials: &[(String, String)],
    writer: &mut W,
) -> Result<()>
    ensures page { RanOut result (W.contents writer.old) (W.contents writer.new)
        ⊎ ShowsStandard (record {
          template = template.now;
          «data» = «data».now;
          partials = sources_of partials.now;
        }) result (W.contents writer.old)
        (W.contents writer.new) }
    ensures write { IfErr result (λ e. e.kind ≡ ErrorKind.Write →
        OneFailed (W.failure_count writer.old) (W.failure_count writer.new)) }
    ensures failed { W.failure_count writer.old < W.failure_count writer.new →
        IsErrAnd result (λ e. (e.kind ≡ ErrorKind.Memory) ⊎ (e.kind ≡ ErrorKind.Write)) }
    ensures once { AtMostOneFailed (W.failure_count writer.old) (W.failure_count writer.new) }
{
    let language = language(alloc)?;
    let read = read_texts(alloc, &language, template, data, partials)?;
    render_texts(alloc, read, writer, Cleanup::Skip)
}

/// The template's fault comes first, then the data's, then that of a partial. The partials are
/// parsed before the data is read, so that of the data no more is built than the page can see.
fn read_texts(
    alloc: Global,
    language: &Language,
    template: &str,
    data: &str,
    partials: &[(String, String)],
) -> Result<ReadTexts>
    ensures { ReadsPageTexts language.now (record {
      template = template.now;
      «data» = «data».now;
      partials = sources_of partials.now;
    }) result }
{
    let template = parse_with_source(alloc, template, language)?;
    match read_partials(alloc, language, partials) {
        Ok(partials) => {
            let data = read_seen(alloc, data, &template, &partials)?;
            Ok(ReadTexts {
                template,
                data,
                partials,
            })
        }
        Err(fault) => {
            if fault.kind != ErrorKind::Memory {
                let checked = data_from_json(alloc, data)?;
                drop(checked);
            }
            Err(fault)
        }
    }
}

/// The data, where it is long as far as a run of the template over these partials can see it.
fn read_seen(alloc: Global, data: &str, template: &Template, partials: &Partials) -> Result<Object>
    ensures { ReadsSeen «data».now partials.now (tree_of template.now) result }
{
    if !is_long(data, template, partials) {
        return data_from_json(alloc, data);
    }
    let uses = data_uses(alloc, template, partials)?;
    data_for(alloc, data, &uses)
}

/// Whether there are at least `BYTES_FOR_A_NODE` bytes of data for each node of the templates.
/// Then finding out what these see takes little time beside reading the data.
fn is_long(data: &str, template: &Template, partials: &Partials) -> bool {
    let mut nodes = template.nodes().len();
    for slot in partials.slots().values() {
        if let Some(partial) = slot {
            nodes = nodes.saturating_add(partial.nodes().len());
        }
    }
    data.len() / BYTES_FOR_A_NODE >= nodes
}

fn read_partials(
    alloc: Global,
    language: &Language,
    sources: &[(String, String)],
) -> Result<Partials>
    ensures { ReadsPartials language.now (sources_of sources.now) [] result }
{
    let mut partials = Partials::new(alloc);
    for (name, source) in sources {
        let called = name.as_str();
        let text = source.as_str();
        let template = read_partial(alloc, language, called, text)?;
        partials.insert(String::from_str(alloc, called)?, template)?;
    }
    Ok(partials)
}

/// The template of a partial. Its fault says which partial it stands in.
fn read_partial(alloc: Global, language: &Language, name: &str, source: &str) -> Result<Template>
    ensures parses { ParsesTo language.now source.now result }
    ensures kinds { IfErr result (λ e. MayRefuse e.kind) }
{
    match parse_with_source(alloc, source, language) {
        Ok(template) => Ok(template),
        Err(error) => Err(error.in_partial(alloc, name)),
    }
}

/// Renders what was read, in a new runtime.
fn render_texts<W: CountedWrite>(
    alloc: Global,
    read: ReadTexts,
    writer: &mut W,
    cleanup: Cleanup,
) -> Result<()>
    ensures whole { is_refused result ≡ false →
        Appends (W.contents writer.old) (W.contents writer.new)
        (page_outcome (page_inputs_view read)).text }
    ensures end { is_refused result ≡ false → answer_of unit result ≡
        (page_outcome (page_inputs_view read)).end }
    ensures begun { AppendsPart (W.contents writer.old) (W.contents writer.new)
        (page_outcome (page_inputs_view read)).text }
    ensures write { IfErr result (λ e. e.kind ≡ ErrorKind.Write →
        OneFailed (W.failure_count writer.old) (W.failure_count writer.new)) }
    ensures failed { W.failure_count writer.old < W.failure_count writer.new →
        IsErrAnd result (λ e. (e.kind ≡ ErrorKind.Memory) ⊎ (e.kind ≡ ErrorKind.Write)) }
    ensures once { AtMostOneFailed (W.failure_count writer.old) (W.failure_count writer.new) }
{
    let ReadTexts {
        template,
        data,
        partials,
    } = read;
    let mut runtime = RuntimeBuilder::new(alloc)
        .set_globals(data)
        .set_partials(&partials)
        .set_depth(DEFAULT_DEPTH)
        .build(alloc);
    let answer = template.render_to(alloc, writer, &mut runtime);
    clean_up(runtime, cleanup);
    clean_up(template, cleanup);
    clean_up(partials, cleanup);
    answer
}

/// Frees what isn't needed any more, or keeps it to the end of the program.
fn clean_up<T: Drop>(read: T, cleanup: Cleanup) {
    match cleanup {
        Cleanup::Free => drop(read),
        Cleanup::Skip => mem::forget(read),
    }
}
