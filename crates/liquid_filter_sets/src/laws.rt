//! What is proved of the sets' filters beyond their answers.
ghost use Rattle.liquid_filter_sets.specs.Laws.{EachKeptIsSelected, SelectsPartByPart};
ghost use Rattle.liquid_filter_sets.specs.ReadBack.{DataAreReadBack, DeeperIsRefused};
ghost use Rattle.liquid_filter_sets.specs.ReadBack.{JsonifyIsReadBack};

/// `where_exp` of two lists in a row is that of the one, and that of the other after it: no item
/// depends on those beside it, and their order stays.
pub fn selects_part_by_part()
    ensures { SelectsPartByPart }
{}

/// The condition of `where_exp` holds of each item that is kept.
pub fn each_kept_is_selected()
    ensures { EachKeptIsSelected }
{}

/// What `jsonify` writes is read as the value again, and that of a map as these data, where lists
/// and maps stand at most 127 deep in one another; what stands deeper is refused.
pub fn jsonify_is_read_back()
    ensures value { JsonifyIsReadBack }
    ensures data { DataAreReadBack }
    ensures deeper { DeeperIsRefused }
{}
