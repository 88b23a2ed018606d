//! Which parts of values are asked for.
ghost use Rattle.std.specs.Prelude.{◌≡◌, MatchOption};
ghost use Rattle.liquid_model.specs.Uses as seen;
ghost use Rattle.liquid_model.specs.Uses.{includes, includes_fields, includes_items};
ghost use Rattle.liquid_model.specs.Uses.{no_fields, nothing, parts, uncounted, use_in};
ghost use Rattle.liquid_model.specs.UseViews.{use_view, members_view, turns_view};

use std::collections::BTreeMap;

/// What is asked of a value: the parts of it that somebody looks at.
#[cycle(uses)]
#[derive(Drop)]
pub enum Use {
    /// Nothing, not even whether there is a value.
    Nothing,
    /// The whole value.
    Everything,
    /// Whether there is a value, its kind, a scalar whole, and these parts.
    Parts {
        /// What is asked of the members, each by the text of the step that finds it: a key, an
        /// index, `first`, `last` or `size`.
        members: Uses,
        /// What is asked of the items that a loop goes over; without it, not even how many
        /// items there are.
        items: Option<ItemUse>,
    },
}

/// What is asked of the items that a loop goes over.
#[cycle(uses)]
#[derive(Drop)]
pub struct ItemUse {
    /// The most items that are seen, from the first on. Without it every item is seen, and how
    /// many there are.
    pub limit: Option<usize>,
    /// What is asked of each of them.
    pub each: Box<Use>,
}

/// What is asked of values by their names. Of a value that isn't named here nothing is asked.
pub type Uses = BTreeMap<String, Use>;

impl Use {
    /// Whether all that the other use asks for is asked for here. It takes no memory.
    pub fn includes(&self, other: &Use) -> bool
        ensures { result ≡ includes (use_view self.now) (use_view other.now) }
    {
        included(other, self)
    }
}

impl ItemUse {
    /// Whether the items up to a limit are asked for; without one, whether every item is.
    pub fn reaches(&self, limit: Option<usize>) -> bool
        ensures { result ≡ seen.reaches self.now.limit limit }
    {
        match self.limit {
            None => true,
            Some(most) => match limit {
                None => false,
                Some(count) => count <= most,
            },
        }
    }
}

/// Whether of each name all is asked that the other uses ask for. It takes no memory.
pub fn includes_all(uses: &Uses, others: &Uses) -> bool
    ensures { result
        ≡ includes_fields (parts (members_view uses.now.entries) uncounted)
        (members_view others.now.entries) }
{
    included_members(others, uses)
}

#[cycle(included)]
fn included(asked: &Use, held: &Use) -> bool
    ensures { result ≡ includes (use_view held.now) (use_view asked.now) }
{
    match asked {
        Use::Nothing => true,
        Use::Everything => matches!(held, Use::Everything),
        Use::Parts { members, items } => match held {
            Use::Nothing => false,
            Use::Everything => true,
            Use::Parts {
                members: held_members,
                items: held_items,
            } => included_members(members, held_members) && included_items(items, held_items),
        },
    }
}

#[cycle(included)]
fn included_members(asked: &Uses, held: &Uses) -> bool
    ensures { result
        ≡ includes_fields (parts (members_view held.now.entries) uncounted)
        (members_view asked.now.entries) }
{
    for (name, member) in asked.iter() {
        let holds = match member_of(held, name.as_str()) {
            Some(found) => included(member, found),
            None => matches!(member, Use::Nothing),
        };
        if !holds {
            return false;
        }
    }
    true
}

#[cycle(included)]
fn included_items(asked: &Option<ItemUse>, held: &Option<ItemUse>) -> bool
    ensures { result
        ≡ includes_items (parts no_fields (turns_view held.now)) (turns_view asked.now) }
{
    match asked {
        None => true,
        Some(wanted) => match held {
            Some(found) => { found.reaches(wanted.limit) && included(&wanted.each, &found.each) }
            None => false,
        },
    }
}

/// What is asked of the value of that name, where the uses name it.
pub fn member_of<'u>(members: &'u Uses, name: &str) -> Option<&'u Use>
    ensures { MatchOption result (use_in name.now (members_view members.now.entries) ≡ nothing)
        (λ u. use_in name.now (members_view members.now.entries) ≡ use_view u.now) }
{
    members.get(name)
}
