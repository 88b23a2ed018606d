//! The faults of a source, one after another.
ghost use Rattle.std.specs.Prelude.{◌≡◌, [], ◌++◌, false, IfErr, IfOk};
ghost use Rattle.liquid_model.specs.ErrorKinds.{is_memory};
ghost use Rattle.liquid_check.specs.Rounds.{AreFindings, IsSilentAboutTemplates};
ghost use Rattle.liquid_check.specs.Views.{findings_view, template_view};

use crate::faulty_piece::{Part, part_at};
use crate::left_over::{LeftOver, Wrong};
use liquid_core::{Error, ErrorKind, Result};
use liquid_language::Language;
use liquid_lexer::{Style, placed_piece};
use liquid_parser::parse;
use liquid_syntax::Template;
use std::alloc::Global;

/// The most faults of a source that are found. Each is found by reading the source once more, so
/// the time stays within this many times what `parse` takes.
pub const MOST_FINDINGS: usize = 100;

/// A fault of a source.
#[derive(Drop)]
pub struct Finding {
    /// The fault of the source in which the parts found before have blanks. Its location is also
    /// that in the source itself.
    pub fault: Error,
    /// Where the part of the source begins that has blanks from now on, and how many bytes it has.
    pub start: usize,
    pub length: usize,
    /// Whether it is there only because an earlier fault made a tag text: an end, an `else` or the
    /// like is left over whose block that tag may begin, or a block is whose end it may be.
    pub follows: bool,
}

/// The faults of a source.
#[derive(Drop)]
pub struct Findings {
    pub findings: Vec<Finding>,
    /// The template that the source is once all of them are text. There is none where
    /// `MOST_FINDINGS` are found, since the source isn't read again then.
    pub template: Option<Template>,
}

/// The faults of a source in a language, of which there are none exactly where `parse` reads it.
///
/// The first is that of `parse`. Then the piece with the fault is made text, by a blank in place of
/// each `{` of it, and the source is parsed again, and so on, until it is a template or
/// `MOST_FINDINGS` are found. A piece goes up to its closer, or up to the end of a body after it
/// that isn't read; of one that can't be read the opener alone is made text.
///
/// The answer is `Memory` where a growth was refused, and no other kind.
pub fn findings_of(alloc: Global, source: &str, language: &Language) -> Result<Findings>
    ensures rounds { IfOk result (λ r. AreFindings language.now source.now
        (findings_view r.findings.items) (template_view r.template)) }
    ensures silent { IfOk result (λ r. IsSilentAboutTemplates language.now source.now
        (findings_view r.findings.items)) }
    ensures memory { IfErr result (λ e. e.kind ≡ ErrorKind.Memory) }
{
    let mut findings = Vec::new(alloc);
    let mut left_over = LeftOver::new(alloc);
    let mut rest = String::from_str(alloc, source)?;
    'rounds: while findings.len() < MOST_FINDINGS {
        let fault = match parse(alloc, rest.as_str(), language) {
            Ok(template) => {
                return Ok(Findings {
                    findings,
                    template: Some(template),
                });
            }
            Err(fault) => fault,
        };
        if is_memory(&fault) {
            return Err(fault);
        }
        let part = part_of(alloc, rest.as_str(), language, &fault)?;
        let wrong = wrong_at(alloc, source, part.front.len(), fault.kind)?;
        let accounted = left_over.accounts_for(alloc, language, wrong)?;
        let blanked = part.with_blanks(alloc)?;
        let finding = Finding {
            fault,
            start: part.front.len(),
            length: part.piece.len(),
            follows: follows(&findings, accounted),
        };
        findings.push(finding)?;
        rest = blanked;
    }
    Ok(Findings {
        findings,
        template: None,
    })
}

fn is_memory(fault: &Error) -> bool
    ensures { result ≡ is_memory fault.now.kind }
{
    matches!(fault.kind, ErrorKind::Memory)
}

/// Whether a fault that an earlier tag may account for follows from one of these: the first follows
/// from none.
fn follows(earlier: &[Finding], accounted: bool) -> bool
    ensures { earlier.now ≡ [] → result ≡ false }
{
    !earlier.is_empty() && accounted
}

/// The part of a source that is made text once this fault of it is found.
fn part_of<'s>(
    alloc: Global,
    source: &'s str,
    language: &Language,
    fault: &Error,
) -> Result<Part<'s>>
    ensures part { IfOk result (λ p. source.now ≡ p.front.now ++ (p.piece.now ++ p.after.now)) }
    ensures memory { IfErr result (λ e. e.kind ≡ ErrorKind.Memory) }
{
    match &fault.location {
        Some(location) => Ok(part_at(alloc, source, language, location)?),
        None => Ok(Part {
            front: "",
            piece: source,
            after: "",
        }),
    }
}

/// The tag with a fault of this kind that begins after the first `start` bytes of a source. Where
/// an output begins there, it has no name.
fn wrong_at<'s>(alloc: Global, source: &'s str, start: usize, kind: ErrorKind) -> Result<Wrong<'s>>
    ensures { IfErr result (λ e. e.kind ≡ ErrorKind.Memory) }
{
    let from = source.get(start..).unwrap_or("");
    // the name alone is asked for, which each style reads alike
    let placed = placed_piece(alloc, from, Style::Items)?;
    Ok(Wrong {
        kind,
        name: placed.name,
        start,
    })
}
