//! Where in a page of HTML a text ends.
ghost use Rattle.std.specs.Prelude.{◌≡◌};
ghost use Rattle.std.specs.Str.{chars};
ghost use Rattle.liquid_warnings.specs.HtmlPlaces.{after_open, after_output, after_tag};
ghost use Rattle.liquid_warnings.specs.HtmlPlaces.{is_blank, is_in_attribute, next_place};
ghost use Rattle.liquid_warnings.specs.HtmlPlaces.{place_after};

/// A place in a page of HTML. What stands in a script or a comment is taken like the rest.
#[derive(Clone, Copy, Debug, PartialEq, Eq)]
pub enum HtmlPlace {
    /// Outside of tags.
    Text,
    /// After a `<`.
    Opened,
    /// In a tag, and in no value of an attribute.
    Tag,
    /// After a `=` in a tag, where the value of an attribute begins.
    Value,
    /// In a value without quotes.
    Bare,
    /// In a value between double quotes.
    Double,
    /// In a value between single quotes.
    Single,
}

impl HtmlPlace {
    /// Where a text after this place ends. It takes no memory.
    pub fn after(self, text: &str) -> HtmlPlace
        ensures { result ≡ place_after self (chars text.now) }
    {
        let mut place = self;
        let mut rest = text.chars();
        while let Some(letter) = rest.next() {
            place = next_place(place, letter);
        }
        place
    }

    /// The place after an output that is written here: a tag's name, or a value, has begun.
    pub fn after_output(self) -> HtmlPlace
        ensures { result ≡ after_output self }
    {
        match self {
            HtmlPlace::Opened => HtmlPlace::Tag,
            HtmlPlace::Value => HtmlPlace::Bare,
            other => other,
        }
    }

    /// Whether what is written here is part of an attribute's value.
    pub fn is_in_attribute(self) -> bool
        ensures { result ≡ is_in_attribute self }
    {
        matches!(
            self,
            HtmlPlace::Value | HtmlPlace::Bare | HtmlPlace::Double | HtmlPlace::Single
        )
    }
}

/// Where a character leads to.
fn next_place(place: HtmlPlace, letter: char) -> HtmlPlace
    ensures { result ≡ next_place place letter }
{
    match place {
        HtmlPlace::Text if letter == '<' => HtmlPlace::Opened,
        HtmlPlace::Opened => after_open(letter),
        HtmlPlace::Tag if letter == '=' => HtmlPlace::Value,
        HtmlPlace::Value if is_blank(letter) => HtmlPlace::Value,
        HtmlPlace::Value => after_tag(HtmlPlace::Bare, letter),
        HtmlPlace::Tag => after_tag(HtmlPlace::Tag, letter),
        HtmlPlace::Bare if letter == '>' => HtmlPlace::Text,
        HtmlPlace::Bare if is_blank(letter) => HtmlPlace::Tag,
        HtmlPlace::Double if letter == '"' => HtmlPlace::Tag,
        HtmlPlace::Single if letter == '\'' => HtmlPlace::Tag,
        other => other,
    }
}

/// A `<` opens a tag before a letter and before a `/`.
fn after_open(letter: char) -> HtmlPlace
    ensures { result ≡ after_open letter }
{
    if letter.is_ascii_alphabetic() || letter == '/' {
        HtmlPlace::Tag
    } else {
        HtmlPlace::Text
    }
}

/// The place that a `>` or a quote in a tag leads to, or `other` after any other character.
fn after_tag(other: HtmlPlace, letter: char) -> HtmlPlace
    ensures { result ≡ after_tag other letter }
{
    match letter {
        '>' => HtmlPlace::Text,
        '"' => HtmlPlace::Double,
        '\'' => HtmlPlace::Single,
        _ => other,
    }
}

fn is_blank(letter: char) -> bool
    ensures { result ≡ is_blank letter }
{
    matches!(letter, ' ' | '\t' | '\n' | '\r')
}
