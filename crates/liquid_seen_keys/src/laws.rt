//! Laws of keys: each clause is a law.
ghost use Rattle.liquid_seen_keys.specs.Keys.{EqualKeysEqualPages};

/// Over data of one key a page is the same, and ends alike, whatever filters a host has, however
/// deep partials may nest, and whatever becomes of a missing value.
pub fn key_laws()
    ensures pages { EqualKeysEqualPages }
{}
