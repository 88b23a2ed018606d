//! What a document comes to.
use liquid_core::Error;

/// Why a document has no file.
#[derive(Drop)]
pub enum PageFault {
    /// Its own text ends by this fault.
    InDocument(Error),
    /// A layout around it ends by this fault.
    InLayout(Error),
    /// No layout has this name.
    NoLayout(String),
    /// The layout of this name is around itself.
    LayoutInsideItself(String),
    /// No conversion of this text is known.
    Unconverted(String),
}

/// What a text comes to: its page, or why it has none.
#[derive(Drop)]
pub enum PageOutcome {
    /// The page.
    Page(String),
    /// Why it has none.
    Fault(PageFault),
}

/// What the source at a path comes to, and the path of its file.
#[derive(Drop)]
pub struct DocumentOutcome {
    /// The path of the source.
    pub source: String,
    /// The path of its file below the folder that is written to.
    pub file: String,
    /// What it comes to.
    pub outcome: PageOutcome,
}

/// What a source gives.
#[derive(Drop)]
pub enum Made<'o> {
    /// A file as it is in the site's folder.
    AsItIs,
    /// A page.
    Page(&'o str),
    /// Nothing: it comes to no page.
    Fault(&'o PageFault),
    /// Nothing: its file would be outside the folder that is written to, or has no name of one.
    LeadsOut,
    /// Nothing: the source at this path is written to the same file.
    FileTaken(String),
}

/// What the source at a path gives, and the path of its file.
#[derive(Drop)]
pub struct SiteOutput<'o> {
    /// The path of the source.
    pub source: &'o str,
    /// The path of its file below the folder that is written to.
    pub file: &'o str,
    /// What it gives.
    pub made: Made<'o>,
}
