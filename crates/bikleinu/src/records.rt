//! The records of a merge, read as the call says, and else as their path or their front does.
use liquid_commands::{
    MergeCall, RecordsFormat, Stop, TemplateWord, Tip, called, guessed_format, is_records_name,
    is_toml, is_yaml, print_tip,
};
use liquid_core::Quoted;
use liquid_data::{
    CellForm, HeadStop, NameForm, Records, RowFault, TableForm, column_name, guessed_delimiter,
    is_writable,
};
use liquid_files::{Reason, ShownPath, foreign_of};
use std::alloc::AllocError;
use std::io::{Chain, Cursor, Read};
use std::{fs, io};

/// The mark of UTF-8 that some programs write before a text.
const MARK: &[u8] = b"\xef\xbb\xbf";

/// How many times a part of the front is read, at most, and how long a part is.
const PARTS: usize = 64;

const PART: usize = 1024;

/// The bytes that show how records are written: up to the end of the first line that isn't blank,
/// or 64 KiB. The first record waits for no more than that.
pub fn front_of<R: Read>(
    rt: &HostRuntime,
    call: &MergeCall<'_>,
    reader: &mut R,
) -> Result<Vec<u8>, Stop> {
    read_front(rt, reader).map_err(|refused| unreadable(rt, call, refused.kind()))
}

fn read_front<R: Read>(rt: &HostRuntime, reader: &mut R) -> io::Result<Vec<u8>> {
    let mut front = Vec::new(rt.alloc());
    let mut part = [0; PART];
    for _ in 0..PARTS {
        match reader.read(&mut part) {
            Ok(0) => break,
            Ok(count) => front.extend_from_slice(&part[..count])?,
            Err(refused) if refused.kind() == io::ErrorKind::Interrupted => {}
            Err(refused) => return Err(refused),
        }
        if has_line(front.as_slice()) {
            break;
        }
    }
    Ok(front)
}

/// Whether there is a whole line that isn't blank.
fn has_line(front: &[u8]) -> bool {
    front.trim_ascii_start().contains(&b'\n')
}

/// The records that a front and a reader after it give. A fault of a table's head is printed, and
/// so is a front that is none of records.
pub fn records_of<R: Read + Drop>(
    rt: &HostRuntime,
    call: &MergeCall<'_>,
    front: Vec<u8>,
    reader: R,
) -> Result<Records<Chain<Cursor<Vec<u8>>, R>>, Stop> {
    let text = without_mark(front.as_slice());
    match format_of(rt, call, text)? {
        RecordsFormat::Lines => Ok(Records::lines(rt.alloc(), after_mark(front).chain(reader))?),
        RecordsFormat::List => Ok(Records::list(rt.alloc(), after_mark(front).chain(reader))?),
        RecordsFormat::Table => {
            let form = table_form(rt, call, text)?;
            match Records::table(rt.alloc(), after_mark(front).chain(reader), form) {
                Ok(records) => {
                    note_column(rt, call, records.columns())?;
                    Ok(records)
                }
                Err(stop) => Err(head_stop(rt, call, stop)),
            }
        }
    }
}

/// Reports a column that no template can write where the template has a fault: it may be that
/// column's name. Standard input isn't read for it.
pub fn note_columns(rt: &HostRuntime, call: &MergeCall<'_>, stop: &Stop) {
    if call.records == "-" || !matches!(stop, Stop::Faulted) {
        return;
    }
    let Ok(file) = fs::open(rt, call.records) else {
        return;
    };
    let mut reader = file;
    if let Ok(front) = front_of(rt, call, &mut reader) {
        drop(records_of(rt, call, front, reader));
    }
}

/// Reports the first column whose name no template can write, with the option that gives it one.
fn note_column(rt: &HostRuntime, call: &MergeCall<'_>, names: &[String]) -> Result<(), Stop> {
    let Some(name) = names.iter().find(|name| !is_writable(name.as_str())) else {
        return Ok(());
    };
    if call.is_quiet {
        return Ok(());
    }
    let path = shown(call);
    let snake = column_name(rt.alloc(), name.as_str(), NameForm::Snake)?;
    let name = Quoted {
        text: name.as_str(),
    };
    let snake = Quoted {
        text: snake.as_str(),
    };
    let _ = eprintln!(rt;
        "note: {path}: no template can write the column `{name}`: --names snake makes it `{snake}`"
    );
    Ok(())
}

/// The bytes after a mark of UTF-8.
fn without_mark(front: &[u8]) -> &[u8] {
    front.strip_prefix(MARK).unwrap_or(front)
}

/// A reader of the bytes after a mark of UTF-8.
fn after_mark(front: Vec<u8>) -> Cursor<Vec<u8>> {
    let start = if front.as_slice().starts_with(MARK) {
        MARK.len() as u64
    } else {
        0
    };
    let mut bytes = Cursor::new(front);
    bytes.set_position(start);
    bytes
}

/// How the records are written. A front that is none of records is a fault, which is printed.
fn format_of(rt: &HostRuntime, call: &MergeCall<'_>, front: &[u8]) -> Result<RecordsFormat, Stop> {
    if let Some(foreign) = foreign_of(front) {
        let reason = Reason::Foreign(foreign);
        return Err(Stop::unreadable(rt.alloc(), called(call.records), reason));
    }
    let format = guessed_format(front);
    if let Some(given) = call.format {
        if !front.trim_ascii_start().is_empty() {
            note_json(rt, call, given, format);
        }
        return Ok(given);
    }
    if matches!(format, RecordsFormat::Table) {
        check_table(rt, call, front)?;
    }
    Ok(format)
}

/// Reports a text that is to be a table and begins as JSON does.
fn note_json(rt: &HostRuntime, call: &MergeCall<'_>, given: RecordsFormat, guessed: RecordsFormat) {
    let name = match (given, guessed) {
        (RecordsFormat::Table, RecordsFormat::Lines) if !call.is_quiet => "jsonl",
        (RecordsFormat::Table, RecordsFormat::List) if !call.is_quiet => "json",
        _ => return,
    };
    let path = shown(call);
    let _ = eprintln!(rt;
        "note: {path}: it begins as JSON does, which --records-format {name} reads"
    );
}

/// Reports a table that only its front shows. What is no table by its name or its front is a fault,
/// which is printed.
fn check_table(rt: &HostRuntime, call: &MergeCall<'_>, front: &[u8]) -> Result<(), Stop> {
    let path = shown(call);
    if let Some(other) = no_records(call.records, front) {
        let _ = eprintln!(rt;
            "error: {path}: it is {other}; records are a table, JSON lines or a JSON list"
        );
        return Err(Stop::Faulted);
    }
    if call.is_quiet {
        return Ok(());
    }
    let _ = eprintln!(rt;
        "note: {path}: it begins with no `{{` or `[`, so it is read by --records-format csv"
    );
    if has_records_name(call.inputs.template) {
        print_tip(rt, Some(Tip::TemplateFirst));
    }
    Ok(())
}

/// What a file is by its name or its front that is no table.
fn no_records(path: &str, front: &[u8]) -> Option<&'static str> {
    if is_yaml(path) {
        Some("YAML")
    } else if is_toml(path) {
        Some("TOML")
    } else if front.trim_ascii_start().starts_with(b"<") {
        Some("XML or HTML")
    } else {
        None
    }
}

/// Whether a template is in a file that is named as records are.
fn has_records_name(template: TemplateWord<'_>) -> bool {
    match template {
        TemplateWord::Path(path) => is_records_name(path),
        TemplateWord::Text(_) => false,
    }
}

/// How a table is read. A table without a row is a fault, which is printed; bytes between cells
/// that only the first row shows are reported, unless they are commas.
fn table_form(rt: &HostRuntime, call: &MergeCall<'_>, front: &[u8]) -> Result<TableForm, Stop> {
    let path = shown(call);
    if front.trim_ascii_start().is_empty() {
        let _ = eprintln!(rt; "error: {path}: the table is empty: its first row names the columns");
        return Err(Stop::Faulted);
    }
    check_first_line(rt, call, front)?;
    let cells = if call.table.are_texts {
        CellForm::Texts
    } else {
        CellForm::Typed
    };
    let names = if call.table.are_snake {
        NameForm::Snake
    } else {
        NameForm::AsWritten
    };
    if let Some(delimiter) = call.table.delimiter {
        return Ok(TableForm {
            delimiter,
            cells,
            names,
        });
    }
    let delimiter = match guessed_delimiter(rt.alloc(), front) {
        Ok(delimiter) => delimiter,
        Err(refused) => return Err(unreadable(rt, call, refused.kind())),
    };
    if delimiter != b',' && !call.is_quiet {
        let name = delimiter_name(delimiter);
        let _ = eprintln!(rt;
            "note: {path}: it is read by --delimiter {name}, by which its first row has most cells"
        );
    }
    Ok(TableForm {
        delimiter,
        cells,
        names,
    })
}

/// How a byte between cells that is no comma is written after `--delimiter`.
fn delimiter_name(delimiter: u8) -> &'static str {
    match delimiter {
        b';' => "semicolon",
        b'\t' => "tab",
        _ => "'|'",
    }
}

/// Refuses a first line that is for Excel, and no row. It is printed.
fn check_first_line(rt: &HostRuntime, call: &MergeCall<'_>, front: &[u8]) -> Result<(), Stop> {
    if !matches!(
        front,
        [
            b's' | b'S',
            b'e' | b'E',
            b'p' | b'P',
            b'=',
            _,
            b'\r' | b'\n',
            ..
        ]
    ) {
        return Ok(());
    }
    let path = shown(call);
    let _ = eprintln!(rt;
        "error: {path}: its first line, `sep=`, is for Excel and no row: take it out"
    );
    Err(Stop::Faulted)
}

/// Why a table has no records. A fault of its head is printed.
fn head_stop(rt: &HostRuntime, call: &MergeCall<'_>, stop: HeadStop) -> Stop {
    match stop {
        HeadStop::Memory => Stop::from(AllocError),
        HeadStop::Unreadable(kind) => unreadable(rt, call, kind),
        HeadStop::Unclosed(line) => {
            let path = shown(call);
            let fault = RowFault::Unclosed(line);
            let _ = eprintln!(rt; "error: {path}: {fault}");
            Stop::Faulted
        }
        HeadStop::Faulted(fault) => {
            let path = shown(call);
            let by = if call.table.are_snake {
                ", as --names snake writes it"
            } else {
                ""
            };
            let _ = eprintln!(rt; "error: {path}: {fault}{by}");
            Stop::Faulted
        }
    }
}

/// Why the records aren't read any further.
pub fn unreadable(rt: &HostRuntime, call: &MergeCall<'_>, kind: io::ErrorKind) -> Stop {
    Stop::unreadable(rt.alloc(), called(call.records), Reason::from(kind))
}

/// The path of the records, as it is printed.
pub fn shown<'w>(call: &MergeCall<'w>) -> ShownPath<'w> {
    ShownPath {
        path: called(call.records),
    }
}
