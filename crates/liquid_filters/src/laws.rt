//! What is proved of the filters beyond their answers: each clause is a law, and the functions do
//! nothing. Those of all filters together stand here.
ghost use Rattle.liquid_filters.specs.Joining.{JoinGivesBack};
ghost use Rattle.liquid_filters.specs.RunKinds.{KindsOfAnswers};

pub mod dates;
pub mod html;
pub mod jekyll_shopify;
pub mod lists;
pub mod numbers;
pub mod texts;
pub mod url;

/// Each filter answers a value or a kind of fault that a run has: no kind of a source, and neither
/// `Memory` nor `Write`.
pub fn answer_law()
    ensures { KindsOfAnswers }
{}

/// Joining what `split` gave, by the same text, gives the text back.
pub fn join_gives_back()
    ensures { JoinGivesBack }
{}
