//! What a tag and a block say of themselves.
ghost use Rattle.std.specs.Prelude.{◌≡◌, ℕ, List, ◌++◌, codes};

/// What a tag says of itself.
pub trait TagReflection {
    ghost tag_name: { Self → List ℕ };

    /// The name that Liquid gives the tag.
    fn tag(&self) -> &'static str
        ensures { result.now ≡ tag_name self.now };

    /// What the tag does, in a line, or nothing.
    fn description(&self) -> &'static str;
}

/// What a block says of itself.
pub trait BlockReflection {
    ghost start_name: { Self → List ℕ };

    /// The name that begins the block.
    fn start_tag(&self) -> &'static str
        ensures { result.now ≡ start_name self.now };

    /// The name that ends the block: `end` and the one that begins it.
    fn end_tag(&self) -> &'static str
        ensures { result.now ≡ codes "end" ++ start_name self.now };

    /// What the block does, in a line, or nothing.
    fn description(&self) -> &'static str;
}
