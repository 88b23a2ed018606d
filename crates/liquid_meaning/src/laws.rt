//! Laws of what templates mean: each function's contract is the law, and its body does nothing.

ghost use Rattle.liquid_meaning.specs.Assigning.{AssignedAnywhere};
ghost use Rattle.liquid_meaning.specs.Escaping.{EscapedOutputs, EscapedTexts};
ghost use Rattle.liquid_meaning.specs.FilterNeeds.{KnownRespected};
ghost use Rattle.liquid_meaning.specs.FreeNames.{FreeDataAlone, FreeNamesAlone, FreeUsesAlone};
ghost use Rattle.liquid_meaning.specs.GivenValues.{GivenAreLiterals};
ghost use Rattle.liquid_meaning.specs.Isolation.{Isolation, AgreeingRuns, OthersKept};
ghost use Rattle.liquid_meaning.specs.Isolation.{RenderLeavesAll, RenderSeesItsValues, Headline};
ghost use Rattle.liquid_evaluation.specs.Laws.{CountedWindow};
ghost use Rattle.liquid_meaning.specs.Lenient.{LenientExtends, NoneUnknown};
ghost use Rattle.liquid_meaning.specs.LoopLaws.{RangeLaw, RowLaw, WindowLaw};
ghost use Rattle.liquid_meaning.specs.ProjectedRuns.{ProjectedRun, SameSight};
ghost use Rattle.liquid_meaning.specs.Reads.{AllRespect, NamesCover, ReadsAlone};
ghost use Rattle.liquid_meaning.specs.Laws.{AssignedInLoop, AssignedStay, ForloopCountsItems};
ghost use Rattle.liquid_meaning.specs.Laws.{KindsOfOwnRuns, KindsOfRuns, KindsWithHost};
ghost use Rattle.liquid_meaning.specs.Laws.{TextIsItself};
ghost use Rattle.liquid_meaning.specs.PartialLaws.{PartialsInReach};

/// The laws of isolation: a run depends on the names that its template or a partial mentions, and
/// leaves all others alone.
pub fn isolation_laws()
    ensures headline { Headline }
    ensures isolation { Isolation }
    ensures agreeing { AgreeingRuns }
    ensures others { OthersKept }
    ensures render { RenderLeavesAll }
    ensures render_sees { RenderSeesItsValues }
{}

/// Further laws of runs. A text is itself; what is assigned stays, also after a loop (a `render`
/// leaves nothing: [isolation_laws]); the numbers of `forloop` fit together; and every run ends by
/// a kind that is one of runs, where the filters do, as all that exist do, or else by `Memory`,
/// where a filter of a host answers that. What an escaped node writes is its text, escaped, and of
/// an output that is the text of its chain's value.
pub fn run_laws()
    ensures text { TextIsItself }
    ensures stays { AssignedStay }
    ensures in_loop { AssignedInLoop }
    ensures anywhere { AssignedAnywhere }
    ensures forloop { ForloopCountsItems }
    ensures kinds { KindsOfRuns }
    ensures own_kinds { KindsOfOwnRuns }
    ensures host_kinds { KindsWithHost }
    ensures escaped { EscapedTexts }
    ensures escaped_outputs { EscapedOutputs }
{}

/// Laws of a loop's items: which of them a window asks for, what a range counts, both together, and
/// where the rows of a table end.
pub fn loop_laws()
    ensures window { WindowLaw }
    ensures range { RangeLaw }
    ensures counted { CountedWindow }
    ensures rows { RowLaw }
{}

/// The law of reading: a run depends on those parts of its environment alone that its template or a
/// partial can see.
pub fn reading_laws()
    ensures reads { ReadsAlone }
    ensures all { AllRespect }
    ensures known { KnownRespected }
    ensures names { NamesCover }
    ensures projected_run { ProjectedRun }
    ensures same_sight { SameSight }
{}

/// The laws of missing values: a run in which they are nil writes what the run in which they are
/// faults writes, and may go on where that ends by `UnknownVariable`, `UnexpectedValue` or
/// `InvalidInput`; and it never ends by `UnknownVariable`, unless a filter answers that. An
/// argument that isn't required is the literal of its value, or of nil where it is missing.
pub fn missing_laws()
    ensures extends { LenientExtends }
    ensures known { NoneUnknown }
    ensures given { GivenAreLiterals }
{}

/// The law of partials: a template means the same over any partials that have the same under the
/// names that it leads to, which are those that it can look up, those that the partials of these
/// can, and so on.
pub fn partial_laws()
    ensures in_reach { PartialsInReach }
{}

/// The laws of free names: a run sees no names of its data but those that its template reads where
/// nothing else has bound them, and of these no more than the uses that cover it.
pub fn free_laws()
    ensures names { FreeNamesAlone }
    ensures uses { FreeUsesAlone }
    ensures data { FreeDataAlone }
{}
