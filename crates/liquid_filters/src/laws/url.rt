//! Laws of the filters over URLs.
ghost use Rattle.liquid_filters.specs.UrlLaws.{UrlDecodeIsOne, UrlDecodeUndoesEncode};
ghost use Rattle.liquid_filters.specs.UrlLaws.{UrlEncodeIsOne};

/// What each filter answers, and that nothing else is its answer.
///
/// - `url_encode`: each byte in turn, or its escape.
/// - `url_decode`: each escape in turn is its byte, each other `+` a space and each other byte
///   itself.
/// - `url_decode` gives back what `url_encode` encoded.
pub fn url_laws()
    ensures url_encode_is_one { UrlEncodeIsOne }
    ensures url_decode_is_one { UrlDecodeIsOne }
    ensures url_decode_undoes_encode { UrlDecodeUndoesEncode }
{}
