// Names of hypotheses.
ghost use Rattle.std.specs.Prelude.{◌≡◌, ◌+◌, if◌then◌else◌, [], Some, IfOk};
ghost use Rattle.mt_resolver.specs.Resolution.{first_place, one_further, with_binders};
ghost use Rattle.mt_resolver.specs.ScopeOf.{names_of, places_on};
ghost use Rattle.std.specs.Str.{bytes_eq};

use mt_term::{MAX_DEPTH, Name, Names, OutOfMemory, deeper};

/// Names of hypotheses, the innermost first; of several binders the last one is the innermost.
#[derive(Clone, Copy)]
pub enum Scope<'a> {
    Empty,
    More(&'a Name, &'a Scope<'a>),
    Binders(&'a Names, &'a Scope<'a>),
}

/// The first place of a name.
#[tactic(auto, using(crate::proofs::Places::place_rules))]
pub fn first_place(names: &Names, name: &[u8]) -> Option<usize>
    ensures { result ≡ first_place names.now name.now }
{
    for i in 0..names.len() {
        let Some(other) = names.get(i) else {
            return None;
        };
        if is_name(other, name) {
            return Some(i);
        }
    }
    None
}

fn is_name(name: &Name, bytes: &[u8]) -> bool
    ensures { result ≡ bytes_eq name.now bytes.now }
{
    name.as_bytes() == bytes
}

/// How many names stand after the last one that is this name.
#[tactic(auto, using(crate::proofs::Places::place_rules))]
fn last_place(names: &Names, name: &[u8]) -> Result<Option<usize>, OutOfMemory>
    ensures { IfOk result (λ o. o ≡ first_place (with_binders names.now []) name.now) }
{
    let mut found = None;
    for i in 0..names.len() {
        let Some(other) = names.get(i) else {
            return Ok(found);
        };
        found = place_under(other, name, found)?;
    }
    Ok(found)
}

// The place of a name under one name more.
fn place_under(
    other: &Name,
    name: &[u8],
    found: Option<usize>,
) -> Result<Option<usize>, OutOfMemory>
    ensures { IfOk result (λ o. o ≡ (if bytes_eq other.now name.now then Some 0 else one_further found)) }
{
    if is_name(other, name) {
        return Ok(Some(0));
    }
    match found {
        Some(i) => Ok(Some(further(i, 1)?)),
        None => Ok(None),
    }
}

/// The newest hypothesis of a name, counted from the innermost.
#[tactic(auto, using(crate::proofs::Places::place_rules))]
pub fn place_in(scope: &Scope<'_>, name: &[u8]) -> Result<Option<usize>, OutOfMemory>
    ensures { IfOk result (λ o. o ≡ first_place (names_of scope.now) name.now) }
{
    place_within(scope, name, 0, MAX_DEPTH)
}

// The same, where so many hypotheses are nearer.
#[tactic(auto, using(crate::proofs::Places::place_rules))]
fn place_within(
    scope: &Scope<'_>,
    name: &[u8],
    nearer: usize,
    depth_left: usize,
) -> Result<Option<usize>, OutOfMemory>
    ensures { IfOk result (λ o. o ≡ places_on nearer (first_place (names_of scope.now) name.now)) }
{
    let depth_left = deeper(depth_left)?;
    match scope {
        Scope::Empty => Ok(None),
        Scope::More(other, rest) => {
            if is_name(other, name) {
                return Ok(Some(nearer));
            }
            place_within(rest, name, further(nearer, 1)?, depth_left)
        }
        Scope::Binders(names, rest) => match last_place(names, name)? {
            Some(i) => Ok(Some(further(nearer, i)?)),
            None => place_within(rest, name, further(nearer, names.len())?, depth_left),
        },
    }
}

fn further(place: usize, by: usize) -> Result<usize, OutOfMemory>
    ensures { IfOk result (λ n. n ≡ place + by) }
{
    place.checked_add(by).ok_or(OutOfMemory)
}
