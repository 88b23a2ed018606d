//! Which calls lead back to a partial that is being run.
use crate::calls::Call;
use std::alloc::{AllocError, Global};

/// How far the search has come with a file.
#[derive(Clone, Copy, PartialEq, Eq)]
enum Stage {
    Unseen,
    /// It is on the way from the first file to the one that is looked at.
    OnTheWay,
    Done,
}

/// A file on the way, and how many of its calls were followed.
#[derive(Clone, Copy)]
struct Visit {
    file: usize,
    followed: usize,
}

/// The calls of each file that lead back to a file on the way to them, by their places there. Every
/// circle of calls has one. Each call is followed once.
pub(crate) fn calls_back(
    alloc: Global,
    calls: &[Vec<Call<'_>>],
) -> Result<Vec<Vec<usize>>, AllocError> {
    let mut found = Vec::new(alloc);
    for _ in 0..calls.len() {
        found.push(Vec::new(alloc))?;
    }
    let mut stages = Vec::new(alloc);
    stages.resize(calls.len(), Stage::Unseen)?;
    for first in 0..calls.len() {
        follow(alloc, calls, first, &mut stages, &mut found)?;
    }
    Ok(found)
}

/// Follows the calls from a file on.
fn follow(
    alloc: Global,
    calls: &[Vec<Call<'_>>],
    first: usize,
    stages: &mut Vec<Stage>,
    found: &mut Vec<Vec<usize>>,
) -> Result<(), AllocError> {
    let mut way = Vec::new(alloc);
    enter(first, stages, &mut way)?;
    for _ in 0..u64::MAX {
        let Some(visit) = way.last_mut() else {
            break;
        };
        let Visit { file, followed } = *visit;
        let Some(call) = calls.get(file).and_then(|calls| calls.get(followed)) else {
            if let Some(stage) = stages.get_mut(file) {
                *stage = Stage::Done;
            }
            way.pop();
            continue;
        };
        visit.followed = followed.saturating_add(1);
        if let Some(next) = call.file {
            if stages.get(next) == Some(&Stage::OnTheWay) {
                note(file, followed, found)?;
            }
            enter(next, stages, &mut way)?;
        }
    }
    Ok(())
}

/// Notes a call of a file.
fn note(file: usize, call: usize, found: &mut Vec<Vec<usize>>) -> Result<(), AllocError> {
    if let Some(calls) = found.get_mut(file) {
        calls.push(call)?;
    }
    Ok(())
}

/// Puts a file on the way, unless it was.
fn enter(file: usize, stages: &mut Vec<Stage>, way: &mut Vec<Visit>) -> Result<(), AllocError> {
    if let Some(stage) = stages.get_mut(file) {
        if *stage == Stage::Unseen {
            *stage = Stage::OnTheWay;
            way.push(Visit { file, followed: 0 })?;
        }
    }
    Ok(())
}
