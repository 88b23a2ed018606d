//! The paths of variables, by the loops around them and the names that tags set.
use crate::data_path::copy_of;
use crate::used_path::Asking;
use crate::wants::literal_steps;
use crate::{DataPath, Step};
use liquid_core::{Expression, Value, Variable};
use std::alloc::AllocError;

impl<'t> Asking<'t> {
    /// Forgets the loops whose bodies end before a place.
    pub(super) fn leave_loops(&mut self, place: usize) {
        for _ in 0..self.loops.len() {
            let is_over = match self.loops.last() {
                Some(around) => around.end <= place,
                None => false,
            };
            if !is_over {
                return;
            }
            drop(self.loops.pop());
        }
    }

    /// The path of a variable, where all of its steps are literal texts and it is known.
    pub(super) fn whole_path(
        &self,
        variable: &Variable,
    ) -> std::result::Result<Option<DataPath>, AllocError> {
        if literal_steps(variable) < variable.indexes.len() {
            return Ok(None);
        }
        self.path_of(variable)
    }

    /// The path of a variable up to its first step that isn't a literal text, where it is known.
    pub(super) fn path_of(
        &self,
        variable: &Variable,
    ) -> std::result::Result<Option<DataPath>, AllocError> {
        let Some(mut path) = self.path_of_name(variable.name.as_str())? else {
            return Ok(None);
        };
        for index in variable.indexes.iter().take(literal_steps(variable)) {
            if let Expression::Literal(Value::Text(key)) = index {
                path.steps
                    .push(Step::Key(String::from_str(self.alloc, key.as_str())?))?;
            }
        }
        Ok(Some(path))
    }

    /// The path of a name: that of the items of the innermost loop which binds it, or the name
    /// itself, where no tag sets it.
    fn path_of_name(&self, name: &str) -> std::result::Result<Option<DataPath>, AllocError> {
        for around in self.loops.iter().rev() {
            if around.variable == name {
                return match &around.items {
                    Some(path) => Ok(Some(copy_of(self.alloc, path)?)),
                    None => Ok(None),
                };
            }
        }
        if let Some(alias) = self.aliases.iter().find(|alias| alias.name == name) {
            return match &alias.path {
                Some(path) => Ok(Some(copy_of(self.alloc, path)?)),
                None => Ok(None),
            };
        }
        if self.names.contains(name) {
            return Ok(None);
        }
        Ok(Some(DataPath::of_name(self.alloc, name)?))
    }
}
