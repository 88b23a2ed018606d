//! What a file is that is no text of UTF-8, as its first bytes show.
ghost use Rattle.std.specs.Prelude.{◌≡◌};
ghost use Rattle.liquid_files.specs.Foreign as spec;
ghost use Rattle.liquid_files.specs.Foreign.{foreign_of, foreign_words};

/// What a file is that is no text of UTF-8.
#[derive(Clone, Copy, Debug, PartialEq, Eq, Drop)]
pub enum Foreign {
    /// A ZIP file, as workbooks and documents of office programs are.
    Zip,
    /// A workbook or a document as office programs wrote them before.
    OldOffice,
    Pdf,
    Gzip,
    /// A text, but of UTF-16.
    Utf16,
}

/// What a file is that begins so, where it is no text of UTF-8. It takes no memory.
pub fn foreign_of(front: &[u8]) -> Option<Foreign>
    ensures { result ≡ foreign_of front.now }
{
    if front.starts_with(b"PK\x03\x04") {
        Some(Foreign::Zip)
    } else if front.starts_with(b"\xd0\xcf\x11\xe0") {
        Some(Foreign::OldOffice)
    } else if front.starts_with(b"%PDF-") {
        Some(Foreign::Pdf)
    } else if front.starts_with(b"\x1f\x8b") {
        Some(Foreign::Gzip)
    } else if is_utf16(front) {
        Some(Foreign::Utf16)
    } else {
        None
    }
}

/// Whether a text that begins so is UTF-16: by its mark, or by a byte 0 beside its first letter.
fn is_utf16(front: &[u8]) -> bool
    ensures { result ≡ spec.is_utf16 front.now }
{
    matches!(
        front,
        [0xff, 0xfe, ..] | [0xfe, 0xff, ..] | [0, 1..=255, ..] | [1..=255, 0, ..]
    )
}

/// What is said of such a file, and what to do. It takes no memory.
pub fn foreign_words(foreign: Foreign) -> &'static str
    ensures { result.now ≡ foreign_words foreign }
{
    match foreign {
        Foreign::Zip => {
            "it is no text but a ZIP file, as workbooks are: save its table as CSV, in UTF-8"
        }
        Foreign::OldOffice => "it is no text but a file of Office: save its table as CSV, in UTF-8",
        Foreign::Pdf => "it is no text but a PDF file",
        Foreign::Gzip => "it is no text but a gzip file: unpack it by `gunzip`",
        Foreign::Utf16 => "its text is UTF-16: save it as UTF-8",
    }
}
