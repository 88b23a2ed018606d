//! What says how records are written: the words of a call, the path, and the front of the text.
ghost use Rattle.std.specs.Prelude.{◌≡◌, option_map};
ghost use Rattle.liquid_commands.specs.RecordWords.{are_snake, are_texts, delimiter_of};
ghost use Rattle.liquid_commands.specs.RecordWords.{delimiter_of_path, format_of_path};
ghost use Rattle.liquid_commands.specs.RecordWords.{delimiter_in, guessed_format};
ghost use Rattle.liquid_commands.specs.RecordWords.{is_records_name, may_part_cells};
ghost use Rattle.liquid_commands.specs.RecordWords.{records_format};

use crate::words::ends_in;

/// How records are written.
#[derive(Clone, Copy, Debug, Drop)]
pub enum RecordsFormat {
    /// A JSON object on each line.
    Lines,
    /// The objects of a JSON list.
    List,
    /// The rows of a table.
    Table,
}

/// How records are written: as the word says, and where there is none, as the end of their path
/// does. None where neither says it. It takes no memory.
pub fn records_format(word: Option<&str>, path: &str) -> Option<RecordsFormat>
    ensures { result ≡ records_format (option_map (λ w. w.now) word.entry) path.now }
{
    match word {
        Some("csv") => Some(RecordsFormat::Table),
        Some("json") => Some(RecordsFormat::List),
        Some(_) => Some(RecordsFormat::Lines),
        None => format_of_path(path),
    }
}

fn format_of_path(path: &str) -> Option<RecordsFormat>
    ensures { result ≡ format_of_path path.now }
{
    if ends_in(path, ".csv") || ends_in(path, ".CSV") || delimiter_of_path(path).is_some() {
        Some(RecordsFormat::Table)
    } else if ends_in(path, ".jsonl") || ends_in(path, ".ndjson") {
        Some(RecordsFormat::Lines)
    } else {
        None
    }
}

/// Whether a file is named as a table or as lines of JSON, by the end of its path. It takes no
/// memory.
pub fn is_records_name(path: &str) -> bool
    ensures { result ≡ is_records_name path.now }
{
    format_of_path(path).is_some()
}

/// The byte between the cells of a table, where the end of its path says it: a tab in `.tsv`. It
/// takes no memory.
pub fn delimiter_of_path(path: &str) -> Option<u8>
    ensures { result ≡ delimiter_of_path path.now }
{
    if ends_in(path, ".tsv") || ends_in(path, ".TSV") {
        Some(b'\t')
    } else {
        None
    }
}

/// How records are written whose text begins so: a list after `[`, lines after `{` and where there
/// is nothing but white space, and else a table. It takes no memory.
pub fn guessed_format(front: &[u8]) -> RecordsFormat
    ensures { result ≡ guessed_format front.now }
{
    for byte in front {
        if !byte.is_ascii_whitespace() {
            return match *byte {
                b'{' => RecordsFormat::Lines,
                b'[' => RecordsFormat::List,
                _ => RecordsFormat::Table,
            };
        }
    }
    RecordsFormat::Lines
}

/// The byte between cells that a word names: `tab`, `comma`, `semicolon`, or the byte itself, which
/// is one of ASCII, no quote and no line end. None where the word is none of these. It takes no
/// memory.
pub fn delimiter_of(word: &str) -> Option<u8>
    ensures { result ≡ delimiter_of word.now }
{
    match word {
        "tab" => Some(b'\t'),
        "comma" => Some(b','),
        "semicolon" => Some(b';'),
        _ => delimiter_in(word.as_bytes()),
    }
}

/// The one byte of a word, where it may stand between cells.
fn delimiter_in(word: &[u8]) -> Option<u8>
    ensures { result ≡ delimiter_in word.now }
{
    match word {
        [byte] if is_delimiter(*byte) => Some(*byte),
        _ => None,
    }
}

fn is_delimiter(byte: u8) -> bool
    ensures { result ≡ may_part_cells byte }
{
    byte < 128 && byte != b'"' && byte != b'\n' && byte != b'\r'
}

/// Whether each cell of a table is a text: where the word says so. It takes no memory.
pub fn are_texts(word: Option<&str>) -> bool
    ensures { result ≡ are_texts (option_map (λ w. w.now) word.entry) }
{
    word == Some("text")
}

/// Whether the columns of a table are named in snake case: where the word says so. It takes no
/// memory.
pub fn are_snake(word: Option<&str>) -> bool
    ensures { result ≡ are_snake (option_map (λ w. w.now) word.entry) }
{
    word == Some("snake")
}
