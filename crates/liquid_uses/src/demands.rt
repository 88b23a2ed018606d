//! What the nodes of a template ask for, where uses of the round before say what is asked of its
//! names. Nothing here has a contract: what comes of it is tested by `covers`.

use crate::merge::{copied, joined, part_count};
use liquid_core::{Expression, ItemUse, Use, Uses, Value, Variable, member_of};
use std::alloc::{AllocError, Global};
use std::collections::BTreeMap;

/// The most steps of a path that are kept apart; what lies deeper is asked whole.
const MOST_STEPS: usize = 32;

/// What is asked of an expression's value.
#[derive(Clone, Copy, Drop)]
pub(crate) enum Wanted<'n> {
    /// Everything.
    Whole,
    /// Whether there is a value, and its kind.
    Present,
    /// What is asked of the value of that name, and whether there is one.
    AsNamed(&'n str),
    /// Of each item up to a limit what is asked of the value of that name, and without a limit how
    /// many items there are.
    EachAsNamed(Option<usize>, &'n str),
}

/// What was asked for so far.
#[derive(Drop)]
pub(crate) struct Demands<'u> {
    pub alloc: Global,
    pub before: &'u Uses,
    pub found: Uses,
    /// How many parts may still be handed on from name to name.
    pub room: usize,
}

impl Demands<'_> {
    /// Asks for that of an expression, and for everything of each variable in its steps.
    #[cycle(ask)]
    pub(crate) fn ask(
        &mut self,
        expression: &Expression,
        wanted: Wanted<'_>,
    ) -> Result<(), AllocError> {
        match expression {
            Expression::Literal(_) => Ok(()),
            Expression::Variable(variable) => {
                let last = self.use_of(wanted)?;
                self.ask_variable(variable, last)
            }
        }
    }

    /// Asks for that of an expression, and for everything of each variable in its steps.
    pub(crate) fn ask_value(
        &mut self,
        expression: &Expression,
        asked: Use,
    ) -> Result<(), AllocError> {
        match expression {
            Expression::Literal(_) => Ok(()),
            Expression::Variable(variable) => self.ask_variable(variable, asked),
        }
    }

    /// Asks for that of the value of a name.
    pub(crate) fn ask_name(&mut self, name: &str, asked: Use) -> Result<(), AllocError> {
        let both = match self.found.remove(name) {
            Some(before) => joined(self.alloc, asked, before)?,
            None => asked,
        };
        let key = String::from_str(self.alloc, name)?;
        drop(self.found.insert(key, both)?);
        Ok(())
    }

    pub(crate) fn use_of(&mut self, wanted: Wanted<'_>) -> Result<Use, AllocError> {
        match wanted {
            Wanted::Whole => Ok(Use::Everything),
            Wanted::Present => Ok(present(self.alloc)),
            Wanted::AsNamed(name) => match member_of(self.before, name) {
                None => Ok(present(self.alloc)),
                Some(Use::Nothing) => Ok(present(self.alloc)),
                Some(asked) => self.handed_on(asked),
            },
            Wanted::EachAsNamed(limit, name) => {
                let item = match member_of(self.before, name) {
                    None => Use::Nothing,
                    Some(asked) => self.handed_on(asked)?,
                };
                Ok(Use::Parts {
                    members: BTreeMap::new(self.alloc),
                    items: Some(ItemUse {
                        limit,
                        each: Box::new(self.alloc, item)?,
                    }),
                })
            }
        }
    }

    /// A copy of the use, or everything where there is no room for it.
    pub(crate) fn handed_on(&mut self, asked: &Use) -> Result<Use, AllocError> {
        let parts = part_count(asked, 0);
        if parts > self.room {
            return Ok(Use::Everything);
        }
        self.room -= parts;
        copied(self.alloc, asked)
    }

    #[cycle(ask)]
    fn ask_variable(&mut self, variable: &Variable, last: Use) -> Result<(), AllocError> {
        for step in &variable.indexes {
            self.ask(step, Wanted::Whole)?;
        }
        let asked = led_to(self.alloc, MOST_STEPS, &variable.indexes, last)?;
        self.ask_name(variable.name.as_str(), asked)
    }
}

/// Whether there is a value, and its kind.
fn present(alloc: Global) -> Use {
    Use::Parts {
        members: BTreeMap::new(alloc),
        items: None,
    }
}

/// What is asked of the value that the steps begin at, where this is asked of the one that they
/// lead to. Past `room` steps that are literal texts it is everything.
fn led_to(alloc: Global, room: usize, steps: &[Expression], last: Use) -> Result<Use, AllocError> {
    let Some((step, more)) = steps.split_first() else {
        return Ok(last);
    };
    let Expression::Literal(Value::Text(key)) = step else {
        return Ok(Use::Everything);
    };
    if room == 0 {
        return Ok(Use::Everything);
    }
    let asked = led_to(alloc, room - 1, more, last)?;
    let mut members: Uses = BTreeMap::new(alloc);
    drop(members.insert(String::from_str(alloc, key.as_str())?, asked)?);
    Ok(Use::Parts {
        members,
        items: None,
    })
}
