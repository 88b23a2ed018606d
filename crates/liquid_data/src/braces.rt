//! Where a byte stands in the text of a JSON object.
ghost use Rattle.std.specs.Prelude.{◌≡◌};
ghost use Rattle.liquid_data.specs.Braces as spec;

/// Where the next byte stands in an object, and how many braces are open within it.
#[derive(Clone, Copy, Debug, Drop)]
pub(crate) enum Braces {
    /// After the object's own closing brace.
    Closed,
    /// Outside of texts.
    Between(u64),
    /// In a text.
    InText(u64),
    /// After a backslash in a text.
    Escaped(u64),
}

impl Braces {
    /// After some more bytes.
    pub fn after_all(self, bytes: &[u8]) -> Braces
        ensures { result ≡ spec.after_all self bytes.now }
    {
        let mut braces = self;
        for byte in bytes {
            braces = braces.after(*byte);
        }
        braces
    }

    /// After one more byte.
    fn after(self, byte: u8) -> Braces
        ensures { result ≡ spec.braces_after self byte }
    {
        match self {
            Braces::Closed => Braces::Closed,
            Braces::Between(inner) => after_sign(inner, byte),
            Braces::InText(inner) => in_text(inner, byte),
            Braces::Escaped(inner) => Braces::InText(inner),
        }
    }

    /// Whether the object is whole.
    pub fn is_closed(self) -> bool
        ensures { result ≡ spec.is_closed self }
    {
        matches!(self, Braces::Closed)
    }
}

fn after_sign(inner: u64, byte: u8) -> Braces
    ensures { result ≡ spec.after_sign inner byte }
{
    match byte {
        b'"' => Braces::InText(inner),
        b'{' => Braces::Between(inner.saturating_add(1)),
        b'}' => one_closed(inner),
        _ => Braces::Between(inner),
    }
}

fn one_closed(inner: u64) -> Braces
    ensures { result ≡ spec.one_closed inner }
{
    match inner.checked_sub(1) {
        Some(left) => Braces::Between(left),
        None => Braces::Closed,
    }
}

fn in_text(inner: u64, byte: u8) -> Braces
    ensures { result ≡ spec.in_text inner byte }
{
    match byte {
        b'"' => Braces::Between(inner),
        b'\\' => Braces::Escaped(inner),
        _ => Braces::InText(inner),
    }
}
