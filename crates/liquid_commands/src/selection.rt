//! Which files below a folder are looked at.
ghost use Rattle.std.specs.Prelude.{◌≡◌, ◌==◌, IfOk};
ghost use Rattle.std.specs.List.{list_any, slice_split};
ghost use Rattle.liquid_commands.specs.Selections as spec;
ghost use Rattle.liquid_commands.specs.Selections.{words_seen};
ghost use Rattle.liquid_yaml.specs.Bytes.{first_part, first_part_view};

use crate::inputs::WordFault;
use crate::words::ends_in;
use clap::ArgMatches;
use std::alloc::{AllocError, Global};

/// Which files below a folder are looked at: those with one of these endings, or with any where
/// there is none, but for those that a pattern leaves out.
#[derive(Drop)]
pub struct Selection<'w> {
    /// Without their dots.
    pub endings: Vec<&'w str>,
    pub left_out: Vec<Pattern<'w>>,
}

/// A pattern of paths: what its parts between slashes are.
#[derive(Drop)]
pub struct Pattern<'w> {
    pub parts: Vec<&'w str>,
}

impl Selection<'_> {
    /// Whether the file at a path from the folder on is looked at. `AllocError` where there is no
    /// room for the parts of the path.
    pub fn has(&self, alloc: Global, path: &str) -> Result<bool, AllocError>
        ensures { IfOk result (λ b. b ≡ spec.is_selected self.now.endings.items
            self.now.left_out.items path.now) }
    {
        if !has_ending(&self.endings, path) {
            return Ok(false);
        }
        let parts = parts_of(alloc, path)?;
        Ok(!is_left_out(&self.left_out, &parts))
    }
}

/// Whether one of these patterns leaves out the path of these parts.
fn is_left_out(patterns: &[Pattern<'_>], path: &[&str]) -> bool
    ensures { result ≡ spec.is_excluded patterns.now (words_seen path.now) }
{
    for pattern in patterns {
        if stands_in(&pattern.parts, path) {
            return true;
        }
    }
    false
}

/// Whether a path ends in a dot and one of these endings, or there is none of them.
fn has_ending(endings: &[&str], path: &str) -> bool
    ensures { result ≡ spec.has_ending endings.now path.now }
{
    endings.is_empty() || has_one(endings, path)
}

/// Whether a path ends in a dot and one of these endings.
fn has_one(endings: &[&str], path: &str) -> bool
    ensures { result ≡ list_any (λ e. spec.ends_in_dot path.now e.now) endings.now }
{
    for ending in endings {
        if ends_in_dot(path, *ending) {
            return true;
        }
    }
    false
}

/// Whether a path ends in a dot and this ending.
fn ends_in_dot(path: &str, ending: &str) -> bool
    ensures { result ≡ spec.ends_in_dot path.now ending.now }
{
    match path.as_bytes().len().checked_sub(ending.len()) {
        Some(start) if start > 0 => { path.as_bytes()[start - 1] == b'.' && ends_in(path, ending) }
        _ => false,
    }
}

/// Whether the parts of a pattern are parts of a path that stand one after another.
#[cycle(stands_in)]
fn stands_in(pattern: &[&str], path: &[&str]) -> bool
    ensures { result ≡ spec.stands_in (words_seen pattern.now) (words_seen path.now) }
{
    match path {
        [] => false,
        [_, rest @ ..] => begins(pattern, path) || stands_in(pattern, rest),
    }
}

/// Whether the parts of a pattern are the first ones of a path.
#[cycle(begins)]
fn begins(pattern: &[&str], path: &[&str]) -> bool
    ensures { result ≡ spec.begins_with_parts (words_seen pattern.now) (words_seen path.now) }
{
    match pattern {
        [] => true,
        [part, parts @ ..] => match path {
            [] => false,
            [first, rest @ ..] => is_part(*part, *first) && begins(parts, rest),
        },
    }
}

/// Whether a part of a path is what a pattern says: the same, with any characters for a `*`.
fn is_part(pattern: &str, part: &str) -> bool
    ensures { result ≡ spec.is_pattern_part pattern.now part.now }
{
    match pattern.split_once('*') {
        Some((front, end)) => is_around(front, end, part),
        None => pattern == part,
    }
}

/// Whether a text begins with one text and ends, after that, with another.
fn is_around(front: &str, end: &str, text: &str) -> bool
    ensures { result ≡ spec.is_around front.now end.now text.now }
{
    text.len() >= front.len()
        && &text.as_bytes()[..front.len()] == front.as_bytes()
        && text.len() - front.len() >= end.len()
        && ends_in(text, end)
}

/// The parts of a path between its slashes.
fn parts_of(alloc: Global, path: &str) -> Result<Vec<&str>, AllocError>
    ensures { IfOk result (λ parts. words_seen parts.items ≡ slice_split (λ b. b == 47) path.now) }
{
    let mut parts = Vec::new(alloc);
    let mut left = Some(path);
    while let Some(text) = left {
        let (part, rest) = first_part(text);
        parts.push(part)?;
        left = rest;
    }
    Ok(parts)
}

/// The part before the first slash, and what follows that, where it is there.
fn first_part(path: &str) -> (&str, Option<&str>)
    ensures { first_part_view result ≡ first_part 47 path.now }
{
    match path.split_once('/') {
        Some((part, rest)) => (part, Some(rest)),
        None => (path, None),
    }
}

/// The selection that the words ask for.
pub(crate) fn selection_of<'w>(
    alloc: Global,
    given: &ArgMatches<'w>,
) -> Result<Selection<'w>, WordFault> {
    let mut endings = Vec::new(alloc);
    for word in given.get_strs("ext").unwrap_or_default() {
        add_endings(word, &mut endings)?;
    }
    Ok(Selection {
        endings,
        left_out: patterns_of(alloc, given)?,
    })
}

/// Adds the endings between the commas of a word.
fn add_endings<'w>(word: &'w str, endings: &mut Vec<&'w str>) -> Result<(), WordFault> {
    for ending in word.split(',') {
        let ending = ending.strip_prefix('.').unwrap_or(ending);
        if ending.is_empty() || ending.contains('/') || ending.contains('*') {
            return Err(WordFault::Wrong(
                "--ext is the end of names, without `*`: --ext liquid, or --ext html,liquid",
            ));
        }
        endings.push(ending)?;
    }
    Ok(())
}

fn patterns_of<'w>(alloc: Global, given: &ArgMatches<'w>) -> Result<Vec<Pattern<'w>>, WordFault> {
    let mut patterns = Vec::new(alloc);
    for word in given.get_strs("exclude").unwrap_or_default() {
        patterns.push(pattern_of(alloc, word)?)?;
    }
    Ok(patterns)
}

/// The pattern of a word; a slash at its end says that it is a folder's.
fn pattern_of<'w>(alloc: Global, word: &'w str) -> Result<Pattern<'w>, WordFault> {
    let parts = parts_of(alloc, word.strip_suffix('/').unwrap_or(word))?;
    if !parts.iter().all(|part| can_stand(*part)) {
        return Err(WordFault::Wrong(
            "--exclude is a name below a folder, or several with `/` between, each with one `*` at \
             most: --exclude node_modules, --exclude 'assets/*.js'",
        ));
    }
    Ok(Pattern { parts })
}

/// Whether a part of a pattern may be that of a path: it has a name, and one `*` at most.
fn can_stand(part: &str) -> bool
    ensures { result ≡ spec.can_stand part.now }
{
    match part.split_once('*') {
        Some((_, end)) => !end.as_bytes().contains(&b'*'),
        None => !matches!(part, "" | "." | ".."),
    }
}
