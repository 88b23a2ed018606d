//! Worked runs and names: templates whose meaning can be seen by reading them.

ghost use Rattle.liquid_meaning.specs.WorkedLoops.{WorkedLoops};
ghost use Rattle.liquid_meaning.specs.WorkedMissing.{WorkedMissing};
ghost use Rattle.liquid_meaning.specs.WorkedNames.{WorkedNames};
ghost use Rattle.liquid_meaning.specs.WorkedPartials.{WorkedPartials};
ghost use Rattle.liquid_meaning.specs.WorkedReading.{WorkedReading};
ghost use Rattle.liquid_meaning.specs.WorkedStores.{WorkedStores};

/// What some templates write, how they end and what they leave: the meaning gives just that.
pub fn worked_runs()
    ensures stores { WorkedStores }
    ensures loops { WorkedLoops }
    ensures partials { WorkedPartials }
    ensures missing { WorkedMissing }
{}

/// Which names some templates mention.
pub fn worked_names()
    ensures { WorkedNames }
{}

/// Which uses cover some templates, and what is left of some values.
pub fn worked_uses()
    ensures { WorkedReading }
{}
