//! What the body of a `for` knows of its loop.
ghost use Rattle.std.specs.Prelude.{◌≡◌, ◌<◌, ◌≤◌, ◌+◌, ◌-◌, ◌==◌, codes};
ghost use Rattle.liquid_model.specs.Answer.{IsValueOrMemory};
ghost use Rattle.liquid_model.specs.Data.{nil, object, put, truth};
ghost use Rattle.liquid_model.specs.View.{view, pairs_view};
ghost use Rattle.liquid_core.specs.Loops.{count, forloop_object};
ghost use Rattle.liquid_engine.specs.Forloop.{parent_seen};

use liquid_core::{Object, Result, Value, store};
use std::alloc::Global;
use std::collections::BTreeMap;

/// The object `forloop` at one item of a loop.
#[derive(Clone, Copy, Drop)]
pub struct ForloopObject<'p> {
    index0: usize,
    length: usize,
    parentloop: Option<&'p Value>,
    ghost within: { (index0 < length) × (length ≤ 9223372036854775807) },
}

impl<'p> ForloopObject<'p> {
    /// `forloop` at item `i` of `len`, without a parent.
    pub fn new(i: usize, len: usize) -> ForloopObject<'p>
        requires item { i < len }
        requires count { len ≤ 9223372036854775807 }
        ensures place { (result.index0 ≡ i) × (result.length ≡ len) }
        ensures parent { parent_seen result.parentloop ≡ nil }
    {
        ForloopObject {
            index0: i,
            length: len,
            parentloop: None,
        }
    }

    /// The same with this as its `parentloop`: what `forloop` was before the loop, where it was
    /// anything.
    pub fn parentloop(self, parentloop: Option<&'p Value>) -> ForloopObject<'p>
        ensures place { (result.index0 ≡ self.entry.index0) × (result.length ≡ self.entry.length) }
        ensures parent { parent_seen result.parentloop ≡ parent_seen parentloop.entry }
    {
        let index0 = self.index0;
        let length = self.length;
        ForloopObject {
            index0,
            length,
            parentloop,
        }
    }

    /// The map that a template sees. It takes memory, and nothing else can be refused.
    pub fn to_object(&self, alloc: Global) -> Result<Object>
        ensures { IsValueOrMemory (λ o. object (pairs_view o.entries)) result
            (forloop_object self.now.index0 self.now.length (parent_seen self.now.parentloop)) }
    {
        let mut object: Object = BTreeMap::new(alloc);
        put_number(alloc, &mut object, "length", self.length)?;
        let parent = self.parent(alloc)?;
        put(alloc, &mut object, "parentloop", parent)?;
        self.put_places(alloc, &mut object)?;
        self.put_ends(alloc, &mut object)?;
        Ok(object)
    }

    /// The place of the item, counted from both ends, from 0 and from 1.
    fn put_places(&self, alloc: Global, object: &mut Object) -> Result<()>
        ensures { IsValueOrMemory (λ _. pairs_view object.new.entries) result
            (put (codes "rindex") (count (self.now.length - self.now.index0))
            (put (codes "rindex0") (count (self.now.length - self.now.index0 - 1))
            (put (codes "index") (count (self.now.index0 + 1))
            (put (codes "index0") (count self.now.index0)
            (pairs_view object.old.entries))))) }
    {
        let remaining = self.length - self.index0;
        put_number(alloc, object, "index0", self.index0)?;
        put_number(alloc, object, "index", self.index0 + 1)?;
        put_number(alloc, object, "rindex0", remaining - 1)?;
        put_number(alloc, object, "rindex", remaining)
    }

    /// Whether the item is the first, and the last.
    fn put_ends(&self, alloc: Global, object: &mut Object) -> Result<()>
        ensures { IsValueOrMemory (λ _. pairs_view object.new.entries) result
            (put (codes "last") (truth (self.now.index0 + 1 == self.now.length))
            (put (codes "first") (truth (self.now.index0 == 0))
            (pairs_view object.old.entries))) }
    {
        let first = Value::Bool(self.index0 == 0);
        put(alloc, object, "first", first)?;
        let last = Value::Bool(self.index0 + 1 == self.length);
        put(alloc, object, "last", last)
    }

    /// A copy of the parent, or nil.
    fn parent(&self, alloc: Global) -> Result<Value>
        ensures { IsValueOrMemory view result (parent_seen self.now.parentloop) }
    {
        match self.parentloop {
            Some(parent) => parent.copy(alloc),
            None => Ok(Value::Nil),
        }
    }
}

fn put_number(alloc: Global, object: &mut Object, name: &str, number: usize) -> Result<()>
    requires { number ≤ 9223372036854775807 }
    ensures { IsValueOrMemory (λ _. pairs_view object.new.entries) result
        (put name.now (count number) (pairs_view object.old.entries)) }
{
    put(alloc, object, name, Value::Integer(number as i64))
}

fn put(alloc: Global, object: &mut Object, name: &str, value: Value) -> Result<()>
    ensures { IsValueOrMemory (λ _. pairs_view object.new.entries) result
        (put name.now (view value) (pairs_view object.old.entries)) }
{
    store(object, String::from_str(alloc, name)?, value)
}
