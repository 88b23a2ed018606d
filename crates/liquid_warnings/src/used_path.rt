//! What the pieces of a template ask of its data.
ghost use Rattle.std.specs.Prelude.{◌≡◌, IfErr};

mod variables;

use crate::wants::{
    WHOLE, item_key, keep_items, keeps_items, literal_steps, number_of, want_after, want_before,
    want_of_entry, want_of_holder, want_of_output, want_of_target,
};
use crate::{DataPath, Span, Step, Want};
use liquid_core::{ErrorKind, Expression, Result, Value, Variable};
use liquid_evaluation::{Atom, ChainFilter, Condition, FilterChain, RangeExpression};
use liquid_syntax::{
    Arm, Binding, Each, For, Node, Position, TableRow, Template, WindowExpression,
};
use std::alloc::{AllocError, Global};
use std::collections::BTreeSet;

/// A path in the data that a piece asks for.
#[derive(Drop)]
pub struct UsedPath {
    pub path: DataPath,
    /// Where the piece stands.
    pub position: Position,
    pub want: Want,
}

/// The paths in the data that the pieces of a template ask for, piece after piece. The names are
/// those that tags of this template or others set or bind: what stands under these is known only
/// where a loop around the piece binds the name to the items of a path, and paths under other such
/// names are left out. A path ends before a step that isn't a literal text.
///
/// The answer is `Memory` where a growth was refused, and no other kind.
pub fn asked_paths(
    alloc: Global,
    template: &Template,
    names: &BTreeSet<String>,
) -> Result<Vec<UsedPath>>
    ensures memory { IfErr result (λ e. e.kind ≡ ErrorKind.Memory) }
{
    let mut asking = Asking {
        alloc,
        names,
        loops: Vec::new(alloc),
        aliases: Vec::new(alloc),
        position: Position { line: 1, column: 1 },
        found: Vec::new(alloc),
    };
    asking.ask_template(template)?;
    let Asking {
        alloc: _,
        names: _,
        loops: _,
        aliases: _,
        position: _,
        found,
    } = asking;
    Ok(found)
}

/// A loop around the piece that is looked at.
#[derive(Drop)]
struct Around<'t> {
    variable: &'t str,
    /// The path of its items, where it is known.
    items: Option<DataPath>,
    /// Where its body ends.
    end: usize,
}

/// A name that an `assign` sets.
#[derive(Drop)]
struct Alias<'t> {
    name: &'t str,
    /// The path that it has the value or the items of, where no other `assign` sets it.
    path: Option<DataPath>,
}

/// The piece that is looked at, and what was found.
#[derive(Drop)]
struct Asking<'t> {
    alloc: Global,
    names: &'t BTreeSet<String>,
    /// The innermost is the last.
    loops: Vec<Around<'t>>,
    /// The names that an `assign` of this template gave the value of a path so far.
    aliases: Vec<Alias<'t>>,
    position: Position,
    found: Vec<UsedPath>,
}

type Done = std::result::Result<(), AllocError>;

impl<'t> Asking<'t> {
    fn ask_template(&mut self, template: &'t Template) -> Done {
        let nodes = template.nodes().iter().zip(template.positions());
        for (place, (node, position)) in nodes.enumerate() {
            self.leave_loops(place);
            self.position = *position;
            self.ask_node(node)?;
        }
        Ok(())
    }

    fn ask_node(&mut self, node: &'t Node) -> Done {
        match node {
            Node::Output(chain) => self.ask_chain(chain, want_of_output(&chain.filters)),
            Node::Assign(name, chain) => self.ask_assign(name.as_str(), chain),
            Node::If(condition, _) | Node::Unless(condition, _) => self.ask_condition(condition),
            Node::Case(target, arms, _) => self.ask_case(target, arms),
            Node::For(head, bodies) => self.ask_for(head, bodies.first_end),
            Node::TableRow(head, end) => self.ask_tablerow(head, *end),
            Node::Cycle(_, values) => self.ask_all(values),
            Node::Filtered(filters, _) => self.ask_arguments(filters),
            Node::JekyllInclude(_, pairs) => self.ask_pairs(pairs),
            Node::Include(name, pairs) | Node::Render(name, pairs) => self.ask_partial(name, pairs),
            Node::RenderEach(name, each, pairs) => self.ask_render_each(name, each, pairs),
            _ => Ok(()),
        }
    }

    fn ask_for(&mut self, head: &'t For, end: usize) -> Done {
        self.ask_window(&head.window)?;
        self.enter(head.variable.as_str(), &head.source, &head.window, end)
    }

    fn ask_tablerow(&mut self, head: &'t TableRow, end: usize) -> Done {
        self.ask_window(&head.window)?;
        self.ask_optional(&head.cols)?;
        self.enter(head.variable.as_str(), &head.source, &head.window, end)
    }

    fn ask_render_each(
        &mut self,
        name: &'t Expression,
        each: &'t Each,
        pairs: &'t [Binding],
    ) -> Done {
        self.ask(name, Want::Present)?;
        self.ask_source(&each.source, WHOLE)?;
        self.ask_pairs(pairs)
    }

    fn ask_partial(&mut self, name: &'t Expression, pairs: &'t [Binding]) -> Done {
        self.ask(name, Want::Present)?;
        self.ask_pairs(pairs)
    }

    fn ask_all(&mut self, values: &'t [Expression]) -> Done {
        for value in values {
            self.ask(value, Want::Present)?;
        }
        Ok(())
    }

    fn ask_pairs(&mut self, pairs: &'t [Binding]) -> Done {
        for pair in pairs {
            self.ask(&pair.value, Want::Present)?;
        }
        Ok(())
    }

    fn ask_optional(&mut self, value: &'t Option<Expression>) -> Done {
        match value {
            Some(value) => self.ask(value, Want::Present),
            None => Ok(()),
        }
    }

    fn ask_window(&mut self, window: &'t WindowExpression) -> Done {
        self.ask_optional(&window.limit)?;
        self.ask_optional(&window.offset)
    }

    fn ask_chain(&mut self, chain: &'t FilterChain, want: Want) -> Done {
        self.ask(&chain.entry, want)?;
        self.ask_keys(chain)?;
        self.ask_arguments(&chain.filters)
    }

    /// An argument that isn't required is nil where it is missing.
    fn ask_arguments_of(&mut self, filter: &'t ChainFilter) -> Done {
        for (index, argument) in filter.arguments.iter().enumerate() {
            let want = if index < filter.required {
                Want::Present
            } else {
                Want::Perhaps
            };
            self.ask(argument, want)?;
        }
        Ok(())
    }

    /// The keys of items by which filters sort, choose or map them.
    fn ask_keys(&mut self, chain: &'t FilterChain) -> Done {
        let Expression::Variable(variable) = &chain.entry else {
            return Ok(());
        };
        for filter in &chain.filters {
            if let Some(key) = item_key(filter) {
                self.ask_key(variable, key)?;
            }
            if !keeps_items(filter) {
                return Ok(());
            }
        }
        Ok(())
    }

    /// A key of the items of a list.
    fn ask_key(&mut self, list: &'t Variable, key: &str) -> Done {
        let Some(mut path) = self.whole_path(list)? else {
            return Ok(());
        };
        path.steps.push(Step::Each)?;
        path.steps
            .push(Step::Key(String::from_str(self.alloc, key)?))?;
        self.found.push(UsedPath {
            path,
            position: self.position,
            want: Want::Perhaps,
        })?;
        Ok(())
    }

    /// The name has the value of a path from there on, or its items in another order.
    fn ask_assign(&mut self, name: &'t str, chain: &'t FilterChain) -> Done {
        self.ask_chain(chain, want_of_entry(&chain.filters))?;
        let path = match &chain.entry {
            Expression::Variable(variable) if keep_items(&chain.filters) => {
                self.whole_path(variable)?
            }
            _ => None,
        };
        for alias in &mut self.aliases {
            if alias.name == name {
                alias.path = None;
                return Ok(());
            }
        }
        self.aliases.push(Alias { name, path })?;
        Ok(())
    }

    fn ask_arguments(&mut self, filters: &'t [ChainFilter]) -> Done {
        for filter in filters {
            self.ask_arguments_of(filter)?;
        }
        Ok(())
    }

    fn ask_condition(&mut self, condition: &'t Condition) -> Done {
        for conjunction in &condition.conjunctions {
            for atom in conjunction {
                self.ask_atom(atom)?;
            }
        }
        Ok(())
    }

    fn ask_atom(&mut self, atom: &'t Atom) -> Done {
        match atom {
            Atom::Bare(value) => self.ask(value, Want::Tested),
            Atom::Compared(left, operator, right) => {
                self.ask(left, want_before(*operator, right))?;
                self.ask(right, want_after(*operator, left))
            }
        }
    }

    fn ask_case(&mut self, target: &'t Expression, arms: &'t [Arm]) -> Done {
        self.ask(target, want_of_target(arms))?;
        for arm in arms {
            self.ask_all(&arm.values)?;
        }
        Ok(())
    }

    /// What a loop goes over, from outside of it; then the loop is around what follows.
    fn enter(
        &mut self,
        variable: &'t str,
        source: &'t RangeExpression,
        window: &WindowExpression,
        end: usize,
    ) -> Done {
        let span = Span {
            offset: number_of(&window.offset),
            limit: number_of(&window.limit),
        };
        self.ask_source(source, span)?;
        let mut items = match source {
            RangeExpression::Array(Expression::Variable(variable)) => self.whole_path(variable)?,
            _ => None,
        };
        if let Some(path) = &mut items {
            path.steps.push(Step::Each)?;
        }
        self.loops.push(Around {
            variable,
            items,
            end,
        })?;
        Ok(())
    }

    fn ask_source(&mut self, source: &'t RangeExpression, span: Span) -> Done {
        match source {
            RangeExpression::Array(value) => self.ask(value, Want::Items(span)),
            RangeExpression::Counted(first, last) => {
                self.ask(first, Want::Present)?;
                self.ask(last, Want::Present)
            }
        }
    }

    /// An expression, and those in its steps.
    fn ask(&mut self, value: &'t Expression, want: Want) -> Done {
        let Expression::Variable(variable) = value else {
            return Ok(());
        };
        self.ask_steps(variable)?;
        let Some(path) = self.path_of(variable)? else {
            return Ok(());
        };
        let is_whole = literal_steps(variable) == variable.indexes.len();
        self.found.push(UsedPath {
            path,
            position: self.position,
            want: if is_whole { want } else { Want::Present },
        })?;
        if is_whole {
            self.ask_holder(variable, want)?;
        }
        Ok(())
    }

    /// What has the last key of a path, or should have it.
    fn ask_holder(&mut self, variable: &'t Variable, want: Want) -> Done {
        let Some(want) = want_of_holder(variable, want) else {
            return Ok(());
        };
        let Some(mut path) = self.path_of(variable)? else {
            return Ok(());
        };
        drop(path.steps.pop());
        self.found.push(UsedPath {
            path,
            position: self.position,
            want,
        })?;
        Ok(())
    }

    /// The variables that stand in the steps of another one.
    fn ask_steps(&mut self, variable: &'t Variable) -> Done {
        for index in &variable.indexes {
            if let Expression::Variable(inner) = index {
                if let Some(path) = self.path_of(inner)? {
                    self.found.push(UsedPath {
                        path,
                        position: self.position,
                        want: Want::Present,
                    })?;
                }
            }
        }
        Ok(())
    }
}
