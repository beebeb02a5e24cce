// Tinycals and tacticals from words: `a31` is an action, `f1,2` is `focus`, `u` is `unfocus`, `s` is `skip`; the others are as in a script.
use mt_tactical::{Pick, TacBranch, TacBranches, TacItem, Tactical};
use mt_tiny::{Goals, Tiny};
use std::alloc::Global;
use std::test::Fail;

/// The tinycals of words that blanks part, in order.
pub fn tinycals(alloc: Global, text: &str) -> Result<Vec<Tiny<usize>>, Fail> {
    let mut tinies = Vec::new(alloc);
    for word in text.split(' ') {
        tinies.push(tinycal(alloc, word)?)?;
    }
    Ok(tinies)
}

fn tinycal(alloc: Global, word: &str) -> Result<Tiny<usize>, Fail> {
    if let Some(number) = word.strip_prefix('a') {
        return Ok(Tiny::Action(number.parse::<usize>()?));
    }
    if let Some(goals) = word.strip_prefix('f') {
        return Ok(Tiny::Focus(numbers(alloc, goals)?));
    }
    if word == "*:" {
        return Ok(Tiny::Wildcard);
    }
    if let Some(positions) = word.strip_suffix(':') {
        return Ok(Tiny::Positions(numbers(alloc, positions)?));
    }
    Ok(sign(word))
}

fn sign(word: &str) -> Tiny<usize> {
    match word {
        ";" => Tiny::Semicolon,
        "." => Tiny::Dot,
        "[" => Tiny::BranchOpen,
        "|" => Tiny::Bar,
        "]" => Tiny::BranchClose,
        "u" => Tiny::Unfocus,
        _ => Tiny::Skip,
    }
}

fn numbers(alloc: Global, text: &str) -> Result<Goals, Fail> {
    let mut goals = Goals::new(alloc);
    for number in text.split(',') {
        goals.push(number.parse::<usize>()?)?;
    }
    Ok(goals)
}

fn copy(alloc: Global, goals: &Goals) -> Result<Goals, Fail> {
    Ok(Goals::from_slice(alloc, goals.as_slice())?)
}

/// The tactical that begins at a place, and where it ends. Places are numbers of tinycals.
#[cycle(reading)]
pub fn tactical(
    alloc: Global,
    tinies: &[Tiny<usize>],
    at: usize,
    depth_left: usize,
) -> Result<(Tactical<usize>, usize), Fail> {
    if depth_left == 0 {
        return Ok((Tactical::End, at));
    }
    match tinies.get(at) {
        None | Some(Tiny::Bar | Tiny::BranchClose | Tiny::Unfocus) => Ok((Tactical::End, at)),
        Some(_) => {
            let (item, next) = item(alloc, tinies, at, depth_left - 1)?;
            let (rest, end) = tactical(alloc, tinies, next, depth_left - 1)?;
            Ok((
                Tactical::Item(Box::new(alloc, item)?, Box::new(alloc, rest)?),
                end,
            ))
        }
    }
}

#[cycle(reading)]
fn item(
    alloc: Global,
    tinies: &[Tiny<usize>],
    at: usize,
    depth_left: usize,
) -> Result<(TacItem<usize>, usize), Fail> {
    let next = at.saturating_add(1);
    if depth_left == 0 {
        return Ok((TacItem::Skip(at), next));
    }
    match tinies.get(at) {
        Some(Tiny::Action(action)) => Ok((TacItem::Action(at, *action), next)),
        Some(Tiny::Semicolon) => Ok((TacItem::Semicolon(at), next)),
        Some(Tiny::Dot) => Ok((TacItem::Dot(at), next)),
        Some(Tiny::BranchOpen) => {
            let (branches, close) = branches(alloc, tinies, at, depth_left - 1)?;
            Ok((
                TacItem::Branches { branches, close },
                close.saturating_add(1),
            ))
        }
        Some(Tiny::Focus(goals)) => {
            let numbers = copy(alloc, goals)?;
            let dot = matches!(tinies.get(next), Some(Tiny::Dot));
            let (body, unfocus) = tactical(alloc, tinies, next.saturating_add(1), depth_left - 1)?;
            let focus = TacItem::Focus {
                at,
                numbers,
                dot,
                sign: next,
                body,
                unfocus,
            };
            Ok((focus, unfocus.saturating_add(1)))
        }
        _ => Ok((TacItem::Skip(at), next)),
    }
}

// The branches from the one whose `[` or `|` stands at a place.
#[cycle(reading)]
fn branches(
    alloc: Global,
    tinies: &[Tiny<usize>],
    at: usize,
    depth_left: usize,
) -> Result<(TacBranches<usize>, usize), Fail> {
    if depth_left == 0 {
        return Ok((TacBranches::End, at));
    }
    let (pick, start) = pick(alloc, tinies, at.saturating_add(1))?;
    let (body, end) = tactical(alloc, tinies, start, depth_left - 1)?;
    let (rest, close) = match tinies.get(end) {
        Some(Tiny::Bar) => branches(alloc, tinies, end, depth_left - 1)?,
        _ => (TacBranches::End, end),
    };
    let branch = TacBranch { at, pick, body };
    Ok((
        TacBranches::Item(Box::new(alloc, branch)?, Box::new(alloc, rest)?),
        close,
    ))
}

fn pick(alloc: Global, tinies: &[Tiny<usize>], at: usize) -> Result<(Pick, usize), Fail> {
    match tinies.get(at) {
        Some(Tiny::Positions(positions)) => {
            Ok((
                Pick::Positions(at, copy(alloc, positions)?),
                at.saturating_add(1),
            ))
        }
        Some(Tiny::Wildcard) => Ok((Pick::Rest(at), at.saturating_add(1))),
        _ => Ok((Pick::Next, at)),
    }
}
