//! From the words of a call to its page.
ghost use Rattle.std.specs.Prelude.{◌≡◌, [], None, Ok, Option, false, IfSome, map, string_bytes};
ghost use Rattle.liquid_engine.specs.Performs.{is_refused};
ghost use Rattle.liquid_page.specs.Files.{ReadableFiles, EndsCall, Finds, LeavesAtWriter};
ghost use Rattle.liquid_page.specs.Files.{sources_from, file_text};
ghost use Rattle.liquid_page.specs.Files.{texts_at, called_texts};
ghost use Rattle.liquid_page.specs.Read.{IsTextOf, page_texts_view};
ghost use Rattle.liquid_page.specs.Words.{call_view, borrowed_pair};
ghost use Rattle.liquid_page.specs.Written.{IsBegun, IsPageWritten};
ghost use Rattle.liquid_page_texts.specs.Page.{sources_of};

use crate::outcome::Outcome;
use crate::words::{CommandLine, call_of};
use liquid_engine::Counted;
use liquid_files::Buffered;
use liquid_model::{Error, ErrorKind, Origin, Result};
use liquid_page_texts::run_without_cleanup;
use std::alloc::{AllocError, Global};
use std::io::Write;

/// Why a file has no text.
#[derive(Clone, Copy, Debug, Drop)]
pub enum ReadError {
    /// No memory was to be had.
    Memory,
    /// It can't be read, or isn't UTF-8.
    File,
}

/// Where the texts of files come from.
pub trait Texts {
    // The texts of the files, where they are known.
    ghost known: { Self → Option ReadableFiles } = { λ _. None };

    /// The text of the file at a path.
    fn text_at(&mut self, path: &str) -> std::result::Result<String, ReadError>
        ensures text { IfSome (known self.old) (λ files. IsTextOf (files path.now) result) }
        ensures same { known self.new ≡ known self.old };
}

/// The texts that a call names.
#[derive(Drop)]
pub struct ReadFiles {
    pub template: String,
    pub data: String,
    pub partials: Vec<(String, String)>,
}

impl ReadFiles {
    /// The text that a location is in. A partial that is rendered may be found by its name with
    /// `.liquid`.
    pub fn text_of(&self, origin: &Origin) -> Option<&str> {
        match origin {
            Origin::Template => Some(self.template.as_str()),
            Origin::Data => Some(self.data.as_str()),
            Origin::Partial(name) => match self.partial(name.as_str(), "") {
                Some(text) => Some(text),
                None => self.partial(name.as_str(), ".liquid"),
            },
        }
    }

    /// The last of the partials that have this name with this ending.
    fn partial(&self, name: &str, ending: &str) -> Option<&str> {
        let mut found = None;
        for (known, text) in &self.partials {
            if known.as_str().strip_suffix(ending) == Some(name) {
                found = Some(text.as_str());
            }
        }
        found
    }
}

/// Judges the words, then reads the files in order, and then writes the page. It gives the writer
/// back, which holds what it held and the page after it. Where the writer refuses it holds a
/// beginning of that, and where memory runs out too; no more than it held, where no page is begun.
/// With it come how the call ended, and the texts, where all were read.
pub fn page<T: Texts, W: Write + Drop>(
    alloc: Global,
    words: &[String],
    texts: &mut T,
    writer: W,
) -> (W, Outcome, Option<ReadFiles>)
    ensures page { IfSome (T.known texts.old)
        (λ files. EndsCall (called_texts files (map string_bytes words.now)) result.1
        (W.contents writer) (W.contents result.0)) }
    ensures begun { IfSome (T.known texts.old)
        (λ files. LeavesAtWriter (called_texts files (map string_bytes words.now))
        (W.contents writer) (W.contents result.0)) }
    ensures read { IfSome (T.known texts.old)
        (λ files. IfSome result.2 (λ read. called_texts files (map string_bytes words.now) ≡
        Ok (page_texts_view read))) }
{
    match read_call(alloc, words, texts) {
        Ok(read) => {
            let (writer, answer) = write_page(
                alloc,
                &read.template,
                &read.data,
                &read.partials,
                writer,
            );
            (writer, Outcome::from(answer), Some(read))
        }
        Err(outcome) => (writer, outcome, None),
    }
}

fn read_call<T: Texts>(
    alloc: Global,
    words: &[String],
    texts: &mut T,
) -> std::result::Result<ReadFiles, Outcome>
    ensures { IfSome (T.known texts.old)
        (λ files. Finds page_texts_view (called_texts files (map string_bytes words.now)) result) }
{
    match call_of(alloc, words)? {
        Some(call) => read_files(alloc, &call, texts),
        None => Err(Outcome::Usage),
    }
}

fn read_files<T: Texts>(
    alloc: Global,
    call: &CommandLine<'_>,
    texts: &mut T,
) -> std::result::Result<ReadFiles, Outcome>
    ensures { IfSome (T.known texts.old)
        (λ files. Finds page_texts_view (texts_at files (call_view call.now))
        result) }
{
    let template = text_of(alloc, call.template, texts)?;
    let data = text_of(alloc, call.data, texts)?;
    let partials = read_partials(alloc, &call.partials, texts)?;
    Ok(ReadFiles {
        template,
        data,
        partials,
    })
}

fn read_partials<T: Texts>(
    alloc: Global,
    partials: &[(&str, &str)],
    texts: &mut T,
) -> std::result::Result<Vec<(String, String)>, Outcome>
    ensures { IfSome (T.known texts.old) (λ files. Finds (λ v. sources_of v.items)
        (sources_from files (map borrowed_pair partials.now) []) result) }
{
    let mut sources = Vec::new(alloc);
    for (name, path) in partials {
        // No `?`, since the prover doesn't find its way out through the conversion of the error.
        let source = match text_of(alloc, path, texts) {
            Ok(source) => source,
            Err(outcome) => return Err(outcome),
        };
        sources.push((String::from_str(alloc, name)?, source))?;
    }
    Ok(sources)
}

fn text_of<T: Texts>(
    alloc: Global,
    path: &str,
    texts: &mut T,
) -> std::result::Result<String, Outcome>
    ensures text { IfSome (T.known texts.old)
        (λ files. Finds string_bytes (file_text files path.now) result) }
    ensures same { T.known texts.new ≡ T.known texts.old }
{
    match texts.text_at(path) {
        Ok(text) => Ok(text),
        Err(ReadError::Memory) => Err(Outcome::from(AllocError)),
        Err(ReadError::File) => Err(Outcome::Unreadable(String::from_str(alloc, path)?)),
    }
}

/// Writes the page through a buffer, and gives the writer back. The program ends after it, so what
/// was read stays as it is. Where the run is done the writer is flushed, once; after a fault what
/// the page had written is handed on too. A writer that refuses is `Write`. On every answer what
/// the writer holds is a beginning of what it held and of the page's text after that.
pub fn write_page<W: Write + Drop>(
    alloc: Global,
    template: &str,
    data: &str,
    partials: &[(String, String)],
    writer: W,
) -> (W, Result<()>)
    ensures page { is_refused result.1 ≡ false →
        IsPageWritten (record {
          template = template.now;
          «data» = «data».now;
          partials = sources_of partials.now;
        }) result.1 (W.contents writer)
        (W.contents result.0) }
    ensures begun { IsBegun (record {
      template = template.now;
      «data» = «data».now;
      partials = sources_of partials.now;
    }) (W.contents writer) (W.contents result.0) }
{
    let buffered = match Buffered::new(alloc, writer) {
        Ok(buffered) => buffered,
        Err(writer) => return (writer, Err(Error::from(AllocError))),
    };
    let mut counted = Counted::new(buffered);
    let answer = run_without_cleanup(alloc, template, data, partials, &mut counted);
    let mut buffered = counted.into_inner();
    let flushed = match &answer {
        Ok(()) => buffered.flush(),
        Err(_) => buffered.flush_buffer(),
    };
    let answer = match flushed {
        Ok(()) => answer,
        Err(_) => Err(Error::new(alloc, ErrorKind::Write, "the writer refused the page")),
    };
    (buffered.into_inner(), answer)
}
