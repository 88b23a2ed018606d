//! Laws of the filters over HTML.
ghost use Rattle.liquid_filters.specs.HtmlLaws.{EscapeIsOne, EscapeOnceIsOne};
ghost use Rattle.liquid_filters.specs.HtmlLaws.{EscapeOnceKeepsEscapes, EscapeOnceTwiceIsOnce};
ghost use Rattle.liquid_filters.specs.HtmlLaws.{NewlineToBrIsOne, StripHtmlIsOne};
ghost use Rattle.liquid_filters.specs.HtmlLaws.{StripHtmlLeavesNoTag, StripHtmlTwiceIsOnce};

/// What each filter answers, and that nothing else is its answer.
///
/// - `escape`: each character in turn, or its escape.
/// - `escape_once`: each character in turn, or its escape, seen with the text after it.
/// - `newline_to_br`: each character in turn, and a break before each LF.
/// - `escape_once` changes nothing a second time.
/// - `escape_once` changes nothing after `escape`.
/// - `strip_html`: four passes, each of which cuts from the leftmost opener that has a closer after
///   it to the end of the first such closer, and goes on after it.
/// - After `strip_html` no `>` stands anywhere after a `<`.
/// - `strip_html` changes nothing a second time.
pub fn html_laws()
    ensures escape_is_one { EscapeIsOne }
    ensures escape_once_is_one { EscapeOnceIsOne }
    ensures newline_to_br_is_one { NewlineToBrIsOne }
    ensures escape_once_twice_is_once { EscapeOnceTwiceIsOnce }
    ensures escape_once_keeps_escapes { EscapeOnceKeepsEscapes }
    ensures strip_html_is_one { StripHtmlIsOne }
    ensures strip_html_leaves_no_tag { StripHtmlLeavesNoTag }
    ensures strip_html_twice_is_once { StripHtmlTwiceIsOnce }
{}
