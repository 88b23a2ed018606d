//! The layouts around a page.
ghost use Rattle.std.specs.Prelude.{◌≡◌, Err, option_map};
ghost use Rattle.liquid_model.specs.Answer.{IsValueOrMemory};
ghost use Rattle.liquid_model.specs.View.{pairs_view};
ghost use Rattle.liquid_site_build.specs.Chains as spec;
ghost use Rattle.liquid_site_build.specs.SourceViews.{site_texts_view};
ghost use Rattle.liquid_site_build.specs.inside.ChainViews.{layout_chain_view};

use crate::sources::{SiteText, SiteTexts};
use liquid_core::{Object, Result, Value, look_up};
use liquid_syntax::add_name;
use std::alloc::Global;
use std::collections::BTreeSet;

/// The layouts around a page, from the inmost one on, or why there are none.
#[derive(Drop)]
pub(crate) enum Chain<'l> {
    /// The layouts.
    Layouts(Vec<&'l SiteText>),
    /// No layout has this name.
    NoLayout(String),
    /// The layout of this name is around itself.
    InsideItself(String),
}

/// The layouts around the page that has this front matter.
pub(crate) fn layout_chain<'l>(
    alloc: Global,
    layouts: &'l SiteTexts,
    front: &'l Object,
) -> Result<Chain<'l>>
    ensures { IsValueOrMemory layout_chain_view result (spec.layout_chain
        (site_texts_view layouts.now) (pairs_view front.now.entries)) }
{
    let mut chain = Vec::new(alloc);
    let mut passed = BTreeSet::new(alloc);
    let mut named = layout_named(front);
    let count = layouts.len();
    for turn in 0..count {
        // No effect at run time. The proof reads how many turns are left from this use.
        let _ = turn;
        let Some(name) = named else {
            return Ok(Chain::Layouts(chain));
        };
        if passed.contains(name) {
            return broken(alloc, layouts, name);
        }
        let Some(layout) = layouts.get(name) else {
            return broken(alloc, layouts, name);
        };
        add_name(alloc, &mut passed, name)?;
        chain.push(layout)?;
        named = layout_named(&layout.front);
    }
    match named {
        Some(name) => broken(alloc, layouts, name),
        None => Ok(Chain::Layouts(chain)),
    }
}

/// The layout that front matter names: a text does, but for `none` and the empty one.
fn layout_named(front: &Object) -> Option<&str>
    ensures { option_map (λ name. name.now) result ≡
        spec.layout_named (pairs_view front.now.entries) }
{
    match look_up(front, "layout") {
        Some(Value::Text(name)) => {
            if name.is_empty() || name.as_str() == "none" {
                return None;
            }
            Some(name.as_str())
        }
        _ => None,
    }
}

/// Why a chain ends at this name.
fn broken<'l>(alloc: Global, layouts: &SiteTexts, name: &str) -> Result<Chain<'l>>
    ensures { IsValueOrMemory layout_chain_view result
        (Err (spec.chain_fault_at (site_texts_view layouts.now) name.now)) }
{
    let name = String::from_str(alloc, name)?;
    if layouts.contains_key(name.as_str()) {
        Ok(Chain::InsideItself(name))
    } else {
        Ok(Chain::NoLayout(name))
    }
}
