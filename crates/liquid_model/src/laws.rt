//! Laws of values and of finding along a path: each clause is a law, and the functions do nothing.
ghost use Rattle.liquid_model.specs.Laws.{EqualityIsAnEquivalence, EqualValuesHashAlike};
ghost use Rattle.liquid_model.specs.Laws.{OrderIsTotal, KindsAreRanked, ScalarsAreOrdered};
ghost use Rattle.liquid_model.specs.Laws.{FirstUnequalPlaceDecides, MapsGoPairByPair};
ghost use Rattle.liquid_model.specs.Laws.{ComparePairByPair, CompareAgreesWithEquality};
ghost use Rattle.liquid_model.specs.Laws.{CompareWithoutAnswer, CompareByFirstUnequalPlace};
ghost use Rattle.liquid_model.specs.Laws.{ListTextIsItemTexts, NumberTextIsRead, FindGoesOn};
ghost use Rattle.liquid_model.specs.Laws.{ScalarsAloneFind, ItemsByIndex, TextsIndexToo};
ghost use Rattle.liquid_model.specs.Laws.{ItemsByName, OwnKeysWin, PutIsFound};
ghost use Rattle.liquid_model.specs.Quotes.{PlainTextsAreShownWhole, QuotationsAreLines};
ghost use Rattle.liquid_model.specs.Projected.{ProjectedAlike};
ghost use Rattle.liquid_model.specs.Uses.{IncludedAlike, JoinedAlike};
ghost use Rattle.liquid_model.specs.Skipping.{ListWithAllItems, ListWithoutItems};
ghost use Rattle.liquid_model.specs.Skipping.{MapWithAllKeys, MapWithSomeKeys};
ghost use Rattle.liquid_model.specs.Skipping.{PutAtSameKey, PutInBoth, PutInOne};

/// Equality and hashing of values.
///
/// - Equality of values is an equivalence.
/// - Equal values feed a hasher alike.
pub fn equality_laws()
    ensures equality_is_an_equivalence { EqualityIsAnEquivalence }
    ensures equal_values_hash_alike { EqualValuesHashAlike }
{}

/// The total order of values.
///
/// - The order of values is total, and answers `Equal` exactly at equal values.
/// - The order ranks kinds: nil, truth values, numbers, texts, lists, maps.
/// - Within a kind, false stands before true, numbers go by value and texts by bytes.
/// - Of two lists the first unequal place decides, and a beginning stands before the whole.
/// - Maps are ordered pair by pair, key first.
pub fn order_laws()
    ensures order_is_total { OrderIsTotal }
    ensures kinds_are_ranked { KindsAreRanked }
    ensures scalars_are_ordered { ScalarsAreOrdered }
    ensures first_unequal_place_decides { FirstUnequalPlaceDecides }
    ensures maps_go_pair_by_pair { MapsGoPairByPair }
{}

/// The order of conditions.
///
/// - Where `compare` answers, it answers `Equal` exactly at equal values.
/// - `compare` has no answer for two nils and for unlike kinds.
/// - Of two lists the first unequal place decides `compare` too.
/// - `compare` takes maps pair by pair, key first.
pub fn compare_laws()
    ensures compare_agrees_with_equality { CompareAgreesWithEquality }
    ensures compare_without_answer { CompareWithoutAnswer }
    ensures compare_by_first_unequal_place { CompareByFirstUnequalPlace }
    ensures compare_pair_by_pair { ComparePairByPair }
{}

/// The text of a value.
///
/// - The text of a list is its items' texts, joined by nothing.
/// - The whole number of a number's text is that number.
pub fn value_text_laws()
    ensures list_text_is_item_texts { ListTextIsItemTexts }
    ensures number_text_is_whole { NumberTextIsRead }
{}

/// Finding along a path, and maps by name.
///
/// - The empty path finds the value itself, and a path goes on from where its beginning leads.
/// - A step that is no scalar finds nothing, and in nil nothing is found.
/// - An index counts from 0, and a negative one from the end: item -k of n items is item n - k.
/// - A text with a whole number is an index into a list.
/// - `first`, `last` and `size` of a list.
/// - A map's own key wins, also one named `size`.
/// - What was put at a key of a map is found there, and the other keys keep their values.
pub fn find_laws()
    ensures find_goes_on { FindGoesOn }
    ensures scalars_alone_find { ScalarsAloneFind }
    ensures items_by_index { ItemsByIndex }
    ensures texts_index_too { TextsIndexToo }
    ensures items_by_name { ItemsByName }
    ensures own_keys_win { OwnKeysWin }
    ensures put_is_found { PutIsFound }
{}

/// Laws of uses: what is alike in a use is alike in each that it includes, and what is alike in two
/// together in both; and a value is alike with what is left of it.
pub fn use_laws()
    ensures included { IncludedAlike }
    ensures joined { JoinedAlike }
    ensures projected { ProjectedAlike }
{}

/// Laws for a reader of data that skips what nobody asks for: what it keeps of maps and of lists is
/// alike with all of them.
pub fn skipping_laws()
    ensures both { PutInBoth }
    ensures one { PutInOne }
    ensures same_key { PutAtSameKey }
    ensures all_keys { MapWithAllKeys }
    ensures some_keys { MapWithSomeKeys }
    ensures all_items { ListWithAllItems }
    ensures no_items { ListWithoutItems }
{}

/// Quotations in messages.
///
/// - What a message shows of a text is a short line.
/// - A short text of characters that each stand for themselves is shown as it is.
pub fn quotation_laws()
    ensures quotations_are_lines { QuotationsAreLines }
    ensures plain_texts_are_shown_whole { PlainTextsAreShownWhole }
{}
