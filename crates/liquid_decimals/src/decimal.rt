//! Exact decimals.
ghost use Rattle.std.specs.Prelude.{◌≤◌};

/// A whole number of units, each 1 over ten to the power of the places.
#[derive(Clone, Copy)]
pub(crate) struct Decimal {
    /// 1999 of `19.99`.
    pub(crate) units: i64,
    /// 2 of `19.99`.
    pub(crate) places: u32,
    ghost few_places: { places ≤ 18 },
}
