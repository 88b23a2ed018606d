//! Laws of what loops go over: each function's contract is the law, and its body does nothing.
ghost use Rattle.liquid_evaluation.specs.Laws.{CountedWindow, ItemsByPlace, SourceInTwoSteps};
ghost use Rattle.liquid_evaluation.specs.Laws.{WindowByPlace};

/// A source's items are those of its range, together or one by one.
pub fn range_laws()
    ensures steps { SourceInTwoSteps }
    ensures places { ItemsByPlace }
{}

/// Which items a window asks for, one by one: those of a list, and the numbers of a range.
pub fn window_laws()
    ensures window { WindowByPlace }
    ensures counted { CountedWindow }
{}
