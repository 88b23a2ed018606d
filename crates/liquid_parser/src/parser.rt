//! From a source to its template.
ghost use Rattle.std.specs.Prelude.{◌≡◌, [], IfErr, List, Some, false, length};
ghost use Rattle.liquid_language.specs.Styles.{style_of};
ghost use Rattle.liquid_lexer.specs.PieceView.{markup_view};
ghost use Rattle.liquid_lexer.specs.Readers.{TellsOf};
ghost use Rattle.liquid_lexer.specs.SourceReading.{source_at};
ghost use Rattle.liquid_parser.specs.OpenBlocks.{Level};
ghost use Rattle.liquid_parser.specs.Parsing.{MayRefuse, ParsesTo, ReadsTo, kept_nodes};
ghost use Rattle.liquid_parser.specs.inside.Building.{IsBuilding, IsBuilt, AdvancesTo, text_added};
ghost use Rattle.liquid_parser.specs.inside.TemplateReading.{AddsPiece, begun_with, body_of};
ghost use Rattle.liquid_parser.specs.inside.TemplateReading.{piece_step};
ghost use Rattle.liquid_evaluation.specs.Tree.{Nodes, no_nodes};
ghost use Rattle.liquid_syntax.specs.Templates.{tree_of};

use crate::build::Builder;
use crate::classify::{classify, opens};
use crate::faults::too_nested;
use crate::positions::Positions;
use liquid_core::{Error, Result};
use liquid_explanations::explanation_of;
use liquid_language::{Language, body_after, markup_after};
use liquid_lexer::{Markup, ParseError, read_body, stripped, text_before};
use liquid_model::{location, past_byte};
use liquid_syntax::Template;
use std::alloc::{AllocError, Global};

/// The most bytes of a source that a template keeps.
const MOST_KEPT: usize = 1_048_576;

/// The template that a source is, in a language, without the white space of blocks that write
/// nothing where the language drops it.
///
/// The pieces are read and classified from left to right, and the first fault is the answer, with
/// its location (line and column in characters, each from 1) and a message that says what is found
/// there and what is wanted, or what to write instead. A block without its end is reported where it
/// opens, and so is an output or a tag without its closer. The kinds are:
/// `Unclosed`, `BadItem`, `NumberLiteral`, `FloatLiteral` and `StateWord` of items; `Expected`,
/// `UnknownTag`, `UnknownFilter` and `FilterArguments` of outputs and tags; `MissingEnd` and
/// `TooNested` of blocks. `Memory` where there is no room for the nodes or for a fault's message.
pub fn parse(alloc: Global, source: &str, language: &Language) -> Result<Template>
    ensures parses { ParsesTo language.now source.now result }
    ensures kinds { IfErr result (λ e. MayRefuse e.kind) }
{
    match read_template(alloc, source, language) {
        Ok(template) => Ok(kept(template, language)),
        Err(error) => Err(error_of(alloc, source, language, error)),
    }
}

/// The template without the white space that the language drops.
fn kept(template: Template, language: &Language) -> Template
    ensures { tree_of result ≡ kept_nodes language.now (tree_of template) }
{
    if language.drops_blanks {
        template.without_blanks()
    } else {
        template
    }
}

/// As [parse], for a template that keeps its source, in which a fault of a run finds the item that
/// it is about. Of a source with more than 1 MiB nothing is kept, and the faults of its runs stand
/// at their outputs and tags. `Memory` also where there is no room for the source.
pub fn parse_with_source(alloc: Global, source: &str, language: &Language) -> Result<Template>
    ensures parses { ParsesTo language.now source.now result }
    ensures kinds { IfErr result (λ e. MayRefuse e.kind) }
{
    let template = parse(alloc, source, language)?;
    if source.len() > MOST_KEPT {
        return Ok(template);
    }
    match String::from_str(alloc, source) {
        Ok(kept) => Ok(template.with_source(kept)),
        Err(refused) => {
            drop(template);
            Err(Error::from(refused))
        }
    }
}

/// The error that says why the source could not be read: which fault it has, where, and what to
/// write instead.
fn error_of(alloc: Global, source: &str, language: &Language, error: ParseError) -> Error
    ensures { TellsOf error result.kind }
{
    match error {
        ParseError::Memory => Error::from(AllocError),
        ParseError::Fault(fault) => match explanation_of(alloc, source, language, fault) {
            Ok(explanation) => Error::with_message(fault.kind.kind(), explanation.message).located(
                alloc,
                location(source, explanation.remaining),
            ),
            Err(refused) => Error::from(refused),
        },
    }
}

fn read_template(
    alloc: Global,
    source: &str,
    language: &Language,
) -> std::result::Result<Template, ParseError>
    ensures { ReadsTo language.now source.now result }
{
    let mut reader = Reader {
        builder: Builder::new(alloc),
        positions: Positions::new(alloc, source),
    };
    reader.read(alloc, source, language)?;
    let Reader { builder, positions } = reader;
    builder.finish(positions.nodes)
}

/// What is read of a source: its nodes, and where they begin.
#[derive(Drop)]
struct Reader<'s> {
    builder: Builder,
    positions: Positions<'s>,
}

impl Reader<'_> {
    /// All pieces of a source, from left to right.
    fn read(
        &mut self,
        alloc: Global,
        source: &str,
        language: &Language,
    ) -> std::result::Result<(), ParseError>
        requires { IsBuilding self.old.builder [] no_nodes }
        ensures { AdvancesTo (source_at (style_of language.now) (body_of language.now)
            (piece_step language.now) (length source.now) false begun_with source.now)
            self.new.builder result }
    {
        let mut strip_next = false;
        let mut rest = source;
        'pieces: loop {
            let (text, following) = text_before(rest);
            let Some(inside) = past_byte(following, b'{') else {
                return self.text(alloc, stripped(strip_next, text, false), rest.len());
            };
            let found = markup_after(alloc, language, inside)?;
            self.text(
                alloc,
                stripped(strip_next, text, found.0.before),
                rest.len(),
            )?;
            let (strips, after) = self.piece(alloc, language, found, following)?;
            strip_next = strips;
            rest = after;
        }
    }

    /// Adds the text of a piece that begins `remaining` bytes before the end of the source.
    fn text(
        &mut self,
        alloc: Global,
        text: &str,
        remaining: usize,
    ) -> std::result::Result<(), ParseError>
        ensures { (ls : List Level) (cur : Nodes) → IsBuilding self.old.builder ls cur →
            AdvancesTo (Some (ls, text_added text.now cur)) self.new.builder result }
    {
        self.builder.text(alloc, text)?;
        self.positions.mark(remaining, self.builder.nodes.len())?;
        Ok(())
    }

    /// Adds an output or a tag, with the body after it where that is read as a whole. The answer
    /// is whether the closer strips what follows it, and the source from there on. `at` is the
    /// source from the piece on.
    fn piece<'t>(
        &mut self,
        alloc: Global,
        language: &Language,
        found: (Markup<'t>, &'t str),
        at: &str,
    ) -> std::result::Result<(bool, &'t str), ParseError>
        requires { IsBuilt self.old.builder }
        ensures { (ls : List Level) (cur : Nodes) → IsBuilding self.old.builder ls cur →
            AddsPiece language.now (markup_view found.entry.0, found.entry.1.now)
            (ls, cur) self.new.builder result }
    {
        let context = self.builder.context();
        let (markup, after) = found;
        let body = body_after(language, context, &markup.piece);
        let (markup, after) = read_body(body, markup, after)?;
        if self.builder.is_full() && opens(language, context, &markup.piece) {
            return Err(too_nested(at.len()));
        }
        let statement = classify(alloc, language, context, markup.piece, at)?;
        self.builder.add(statement, at.len())?;
        self.positions.mark(at.len(), self.builder.nodes.len())?;
        Ok((markup.after, after))
    }
}
