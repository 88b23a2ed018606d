//! Laws of look-up: each clause is a law, and the function does nothing.
ghost use Rattle.liquid_core.specs.Laws.{InnermostScopeDecides, FirstLayerDecides};

/// Looking up a name.
///
/// - The innermost scope that holds a name decides.
/// - The first layer that holds a path's first name decides, also where the rest of the path leads
///   to nothing there.
pub fn lookup_laws()
    ensures innermost_scope_decides { InnermostScopeDecides }
    ensures first_layer_decides { FirstLayerDecides }
{}
