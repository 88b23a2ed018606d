//! What is proved of the list filters beyond their answers: each clause is a law, and the functions
//! do nothing.
//!
//! The clause `NAME_is_one` says what the filter's answer is without the filter's own steps, and
//! that nothing else is.
ghost use Rattle.liquid_filters.specs.ListLaws.{JoinIsOne, SortIsOne, SortNaturalIsOne};
ghost use Rattle.liquid_filters.specs.ListLaws.{SortTwiceIsOnce, SortNaturalTwiceIsOnce};
ghost use Rattle.liquid_filters.specs.ListLaws.{CompactIsOne, WhereIsOne, MapIsOne, UniqIsOne};
ghost use Rattle.liquid_filters.specs.ListLaws.{ReverseIsOne, ConcatIsOne, FirstIsOne, LastIsOne};

/// What each filter answers, and that nothing else is its answer.
///
/// - `join`: the texts in a row, the separator between each and the next.
/// - `sort`: the keys never fall along the answer, and the items with one key keep their order.
/// - `sort_natural`: the same for the texts in lower case.
/// - A `sort` twice is the `sort` once, where it isn't refused.
/// - A `sort_natural` twice is the `sort_natural` once, where it isn't refused.
/// - `compact`: the items that aren't nil, or that have the property and not nil.
/// - `where`: the maps whose property is there and truthy, or is the target.
/// - `map`: the property's values of the items that have it.
/// - `uniq`: an item is kept exactly where no kept item before it equals it.
/// - `reverse`: as long, with the items counted from the other end.
/// - `concat`: the list's items, then the argument's.
/// - `first`: the first item or character.
/// - `last`: the last item or character.
pub fn list_laws()
    ensures join_is_one { JoinIsOne }
    ensures sort_is_one { SortIsOne }
    ensures sort_natural_is_one { SortNaturalIsOne }
    ensures sort_twice_is_once { SortTwiceIsOnce }
    ensures sort_natural_twice_is_once { SortNaturalTwiceIsOnce }
    ensures compact_is_one { CompactIsOne }
    ensures where_is_one { WhereIsOne }
    ensures map_is_one { MapIsOne }
    ensures uniq_is_one { UniqIsOne }
    ensures reverse_is_one { ReverseIsOne }
    ensures concat_is_one { ConcatIsOne }
    ensures first_is_one { FirstIsOne }
    ensures last_is_one { LastIsOne }
{}
