//! What the names that a template mentions are given to.
ghost use Rattle.std.specs.Prelude.{Bool, [], ◌∷◌, List};
ghost use Rattle.liquid_model.specs.Texts.{Text};
ghost use Rattle.liquid_evaluation.specs.Telling.{IsTelling};

/// Is given the names that a template mentions, one after another and as often as they stand there.
pub trait NameVisitor {
    // What it comes to: from the first state, given these names, to whether it ended the visit,
    // and the second state.
    ghost tells: { Self → List Text → Bool → Self → Type 0 };

    /// Takes a name, and answers whether the telling ends.
    fn visit(&mut self, name: &str) -> bool
        ensures { tells self.old (name.now ∷ []) result self.new };

    ghost laws: { IsTelling tells };
}
