//! What people write who know another language, and what to write here.
mod conditions;
mod outputs;
mod pieces;
mod tags;

use crate::characters::{follows_dot, is_digit, is_in_word, is_letter, is_quote};
use conditions::CONDITION;
use liquid_lexer::{Delimiter, Expectation, PlacedPiece};
use outputs::{BEGUN, OUTPUT, VALUE};
use pieces::ANYWHERE;
use tags::{ASSIGN, ELSE, LOOP, NAME, OTHER, PARTIAL, SETTING, TAG};

/// What kind of piece a fault is in.
#[derive(Clone, Copy)]
pub enum PieceContext {
    Output,
    /// A tag, where its name is wanted.
    Name,
    Else,
    /// `if`, `elsif` and `unless`.
    Condition,
    Assign,
    /// `for` and `tablerow`.
    Loop,
    /// `include` and `render`.
    Partial,
    /// Any other tag.
    Tag,
}

/// Where a fault is, and what stands around it.
#[derive(Clone, Copy)]
pub struct ErrorSite<'s> {
    pub kind: Delimiter,
    pub context: PieceContext,
    /// What was expected here.
    pub expected: Expectation,
    /// The item before it, or `^` where there is none.
    pub before: &'s str,
    /// The first item of the piece, or empty where there is none.
    pub first: &'s str,
    /// The item at it, as far as one can be read.
    pub found: &'s str,
    /// The source from it on.
    pub rest: &'s str,
    /// How many items stand before it.
    pub count: usize,
    /// Whether it is where an item begins, and not inside one.
    pub at_item: bool,
}

/// What the message says of a habit, where one is met.
pub(crate) fn advice(site: &ErrorSite<'_>) -> Option<&'static str> {
    if let Some(words) = of_slice(site) {
        return Some(words);
    }
    match site.context {
        PieceContext::Name => first_of(NAME, site),
        PieceContext::Output => of_output(site).or(of_any_piece(site)),
        _ => first_of(TAG, site).or(of_tag(site)).or(of_any_piece(site)),
    }
}

fn of_output(site: &ErrorSite<'_>) -> Option<&'static str> {
    let begun = ErrorSite {
        before: site.first,
        ..*site
    };
    of_map(site)
        .or(of_setting(site))
        .or(first_of(OUTPUT, site))
        .or(first_of(BEGUN, &begun))
        .or(of_value(site))
}

/// A name with a `$` that is set.
fn of_setting(site: &ErrorSite<'_>) -> Option<&'static str> {
    let (inside, _) = site.rest.strip_prefix("$")?.split_once("}}")?;
    if inside.contains(":=") {
        return Some("`{{ $a := 1 }}` is written `{% assign a = 1 %}`");
    }
    None
}

/// A `:` inside the brackets of a step.
fn of_slice(site: &ErrorSite<'_>) -> Option<&'static str> {
    if site.at_item || !site.rest.starts_with(":") {
        return None;
    }
    Some("a part of a text or of a list is `| slice: 0, 3`, and one of a map `a['b']`")
}

fn of_assign(site: &ErrorSite<'_>) -> Option<&'static str> {
    let phrasing = first_of(ASSIGN, site);
    if site.count < 2 {
        phrasing.or(first_of(SETTING, site))
    } else {
        phrasing.or(of_value(site))
    }
}

fn of_tag(site: &ErrorSite<'_>) -> Option<&'static str> {
    match site.context {
        PieceContext::Else => first_of(ELSE, site),
        PieceContext::Condition => first_of(CONDITION, site),
        PieceContext::Assign => of_assign(site),
        PieceContext::Loop => first_of(LOOP, site),
        PieceContext::Partial => first_of(PARTIAL, site),
        PieceContext::Tag => first_of(OTHER, site),
        PieceContext::Name | PieceContext::Output => None,
    }
}

fn of_any_piece(site: &ErrorSite<'_>) -> Option<&'static str> {
    of_sum(site).or(first_of(ANYWHERE, site)).or(of_step(site))
}

fn of_value(site: &ErrorSite<'_>) -> Option<&'static str> {
    if site.rest.starts_with(">") && site.before.ends_with("-") {
        return Some("`a->b` is written `a.b`");
    }
    if site.rest.starts_with("(") && !site.found.is_empty() {
        return Some("a range is no value; a loop goes over one, as `{% for i in (1..5) %}`");
    }
    first_of(VALUE, site)
}

/// A brace at the beginning of an output that begins a map, and no third brace.
fn of_map(site: &ErrorSite<'_>) -> Option<&'static str> {
    let inside = site.rest.strip_prefix("{")?;
    if site.count > 0 {
        return None;
    }
    let end = inside.find('}').unwrap_or(inside.len());
    let inside = inside.get(..end).unwrap_or("");
    let is_map = inside.contains(':') && !inside.contains('|');
    if is_map || inside.trim().is_empty() {
        return Some("a map can't be written in a template; it comes with the data");
    }
    None
}

/// A `+` beside a text, or a `%` after one.
fn of_sum(site: &ErrorSite<'_>) -> Option<&'static str> {
    let after = site.rest.strip_prefix(['+', '%'])?;
    let is_text = site.before.starts_with(is_quote)
        || site.rest.starts_with("+") && after.trim_start().starts_with(is_quote);
    if is_text && !matches!(site.context, PieceContext::Condition) {
        return Some("texts are joined by a filter, as `a | append: 'text'`");
    }
    None
}

/// What the message says of the first of these habits that fits, each on a line.
fn first_of(habits: &'static str, site: &ErrorSite<'_>) -> Option<&'static str> {
    for habit in habits.lines() {
        if let Some(phrasing) = phrasing_of(habit, site) {
            return Some(phrasing);
        }
    }
    None
}

/// What the message says of a habit, where it fits: what stands before the fault (`^` for no item,
/// empty for any), what stands at it (empty for anything), and what the message says, with a `¦`
/// between them.
fn phrasing_of(habit: &'static str, site: &ErrorSite<'_>) -> Option<&'static str> {
    let (before, after) = habit.split_once('¦')?;
    let (found, phrasing) = after.split_once('¦')?;
    if (before.is_empty() || before == site.before) && is_found(found, site) {
        return Some(phrasing);
    }
    None
}

/// Whether what a habit has at a fault stands there: all of the item that is found, and no
/// beginning of a longer word.
fn is_found(found: &str, site: &ErrorSite<'_>) -> bool {
    if found.is_empty() {
        return true;
    }
    let Some(after) = site.rest.strip_prefix(found) else {
        return false;
    };
    let is_cut = found.ends_with(is_letter) && after.starts_with(is_in_word);
    found.len() >= site.found.len() && !is_cut
}

/// A `[` or a `.` that stands where no step of a name does.
fn of_step(site: &ErrorSite<'_>) -> Option<&'static str> {
    if site.rest.starts_with("[") {
        return match site.before {
            "^" | "=" | "in" | ":" | "," | "|" => Some(
                "a list can't be written in a template; `'a,b' | split: ','` makes one",
            ),
            _ => Some("`[` follows a name directly, without white space"),
        };
    }
    let after = site.rest.strip_prefix(".")?;
    if after.starts_with("[") {
        return Some("`[` follows a name directly, without `.`");
    }
    if after.starts_with(is_digit) {
        return Some("a place in a list stands in brackets, as `a[0]`");
    }
    if after.starts_with(is_quote) {
        return Some("a part is written `a.b` or `a['b']`");
    }
    if !after.starts_with(follows_dot) && !after.starts_with("}}") {
        return None;
    }
    if site.count == 0 && site.at_item {
        return Some("a path begins with a name: `.a` is written `a`");
    }
    Some("`.` stands between two names, without white space")
}

/// The context of a piece.
pub(crate) fn context_of(piece: &PlacedPiece<'_>) -> PieceContext {
    match piece.kind {
        Delimiter::Output => PieceContext::Output,
        Delimiter::Tag => context_of_tag(piece.name),
    }
}

fn context_of_tag(name: &str) -> PieceContext {
    match name {
        "" => PieceContext::Name,
        "if" | "elsif" | "unless" => PieceContext::Condition,
        "else" => PieceContext::Else,
        "assign" => PieceContext::Assign,
        "for" | "tablerow" => PieceContext::Loop,
        "include" | "render" => PieceContext::Partial,
        _ => PieceContext::Tag,
    }
}
