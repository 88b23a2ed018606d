//! Laws of the filters: each is the contract of a function without a body.
ghost use Rattle.liquid_shopify_host_filters.specs.Laws.{DecodeUndoesEncode, HandleTwiceIsOnce};
ghost use Rattle.liquid_shopify_host_filters.specs.Laws.{SquishTwiceIsOnce, SumGoesOn};

/// `base64_decode` gives back what `base64_encode` encoded.
pub fn base64_decode_undoes_encode()
    ensures { DecodeUndoesEncode }
{}

/// The `sum` of a list that follows another goes on from the other's sum.
pub fn sum_goes_on()
    ensures { SumGoesOn }
{}

/// A handle is its own handle.
pub fn handle_twice_is_once()
    ensures { HandleTwiceIsOnce }
{}

/// `squish` twice is `squish` once.
pub fn squish_twice_is_once()
    ensures { SquishTwiceIsOnce }
{}
