//! How a run goes.
ghost use Rattle.std.specs.Prelude.{◌≡◌};
ghost use Rattle.liquid_engine.specs.Pages.{strict_setting};

use liquid_core::Missing;

/// How a run goes: how deep partials may be nested, and what becomes of a missing value.
#[derive(Clone, Copy, Debug, PartialEq, Eq, Drop)]
pub struct RunSetting {
    /// How many partials may be nested.
    pub depth: u32,
    /// What becomes of a missing value.
    pub missing: Missing,
}

impl RunSetting {
    /// The setting of this depth in which a missing value is a fault. It takes no memory.
    pub fn strict(depth: u32) -> RunSetting
        ensures { result ≡ strict_setting depth }
    {
        RunSetting {
            depth,
            missing: Missing::IsFault,
        }
    }
}
