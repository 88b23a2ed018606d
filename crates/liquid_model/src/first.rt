//! Lists that mostly get one item.
ghost use Rattle.std.specs.Prelude.{◌≡◌, ◌∷◌, ◌++◌, [], OnErr, OnOk};

use std::alloc::AllocError;

/// Appends an item, with space for it alone if it is the first: a list that mostly has one item
/// takes no space for four. Fails where memory is refused, and then the list is as it was.
pub fn push_first<T: Drop>(items: &mut Vec<T>, item: T) -> Result<(), AllocError>
    ensures items { OnOk result (items.new.items ≡ items.old.items ++ item ∷ []) }
    ensures unchanged { OnErr result (items.new.items ≡ items.old.items) }
{
    if items.is_empty() {
        items.reserve_exact(1)?;
    }
    Ok(items.push(item)?)
}
