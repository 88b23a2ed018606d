//! What is proved of Jekyll's filters beyond their answers.
ghost use Rattle.liquid_jekyll_host_filters.specs.Laws.{AbsoluteUrlTwiceIsOnce, GroupsDiffer};
ghost use Rattle.liquid_jekyll_host_filters.specs.Laws.{GroupsKeepOrder, GroupsLoseNothing};
ghost use Rattle.liquid_jekyll_host_filters.specs.Laws.{NormalizeKeepsWords};
ghost use Rattle.liquid_jekyll_host_filters.specs.Laws.{RelativeUrlTwiceIsOnce};
ghost use Rattle.liquid_jekyll_host_filters.specs.Named.{EachIsFound};

/// `relative_url` changes nothing a second time where there is no base path.
pub fn relative_url_twice_is_once()
    ensures { RelativeUrlTwiceIsOnce }
{}

/// `absolute_url` changes nothing a second time where the address begins with a scheme.
pub fn absolute_url_twice_is_once()
    ensures { AbsoluteUrlTwiceIsOnce }
{}

/// `normalize_whitespace` keeps the words of a text.
pub fn normalize_keeps_words()
    ensures { NormalizeKeepsWords }
{}

/// The groups of `group_by` have each item of the list, and each once; no two have one name.
pub fn groups_lose_nothing()
    ensures items { GroupsLoseNothing }
    ensures names { GroupsDiffer }
{}

/// The groups of `group_by` stand in the order in which their texts come, and in each the items in
/// the order of the list.
pub fn groups_keep_order()
    ensures { GroupsKeepOrder }
{}

/// `JekyllFilter::named` finds each filter by its name.
pub fn each_is_found_by_its_name()
    ensures { EachIsFound }
{}
