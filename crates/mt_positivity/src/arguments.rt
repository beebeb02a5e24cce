// Arguments of constructors: what does not mention a type, and what stands at a recursive place.
ghost use Rattle.std.specs.Prelude.{◌≡◌, ◌+◌, ◌<◌, length, IfOk};
ghost use Rattle.mt_pool.specs.Region.{tree_at, trees_at, arms_at, ids_of, branches_of, AllBelow, ArmsBelow};
ghost use Rattle.mt_positivity.specs.Deciding.{avoids, avoids_all, avoids_arms, is_argument, is_recursive, is_type_on, is_variable};

use mt_pool::{BranchIds, Node, Pool, TermId, TermIds};
use mt_term::{OutOfMemory, deeper};

/// An inductive type as its constructors see it: its number, and how many parameters and indices it
/// has.
#[derive(Clone, Copy)]
pub struct Family {
    pub number: usize,
    pub params: usize,
    pub indices: usize,
}

/// Whether a term does not mention an entry. A term deeper than `depth_left` counts as want of
/// memory.
#[cycle(avoiding)]
#[tactic(auto, using(mt_pool::proofs::Region::kept))]
pub fn avoids(pool: &Pool, entry: usize, t: TermId, depth_left: usize) -> Result<bool, OutOfMemory>
    requires { t.at < length pool.now }
    ensures { IfOk result (λ b. b ≡ avoids entry (tree_at pool.now t)) }
{
    let depth_left = deeper(depth_left)?;
    match pool.node(t) {
        Node::Var(_) | Node::Sort(_) => Ok(true),
        Node::Prod(_, a, b) | Node::Lam(_, a, b) | Node::App(a, b) => {
            Ok(avoids(pool, entry, *a, depth_left)? && avoids(pool, entry, *b, depth_left)?)
        }
        Node::Const(n) | Node::Ind(n) | Node::Con(n, _) => Ok(*n != entry),
        Node::Match(n, r, c, branches) => Ok(
            *n != entry
                && avoids(pool, entry, *r, depth_left)?
                && avoids(pool, entry, *c, depth_left)?
                && avoid_branches(pool, entry, branches, depth_left)?,
        ),
        Node::Meta(_, terms) => avoid_terms(pool, entry, terms, depth_left),
    }
}

/// Whether no term of a list mentions an entry.
#[cycle(avoiding)]
#[tactic(auto, using(mt_pool::proofs::Region::kept))]
pub fn avoid_terms(
    pool: &Pool,
    entry: usize,
    terms: &TermIds,
    depth_left: usize,
) -> Result<bool, OutOfMemory>
    requires { AllBelow (length pool.now) (ids_of terms.now) }
    ensures { IfOk result (λ b. b ≡ avoids_all entry (trees_at pool.now (ids_of terms.now))) }
{
    let depth_left = deeper(depth_left)?;
    match terms {
        TermIds::End => Ok(true),
        TermIds::Item(t, ts) => {
            Ok(avoids(pool, entry, *t, depth_left)? && avoid_terms(pool, entry, ts, depth_left)?)
        }
    }
}

#[cycle(avoiding)]
#[tactic(auto, using(mt_pool::proofs::Region::kept))]
fn avoid_branches(
    pool: &Pool,
    entry: usize,
    branches: &BranchIds,
    depth_left: usize,
) -> Result<bool, OutOfMemory>
    requires { ArmsBelow (length pool.now) (branches_of branches.now) }
    ensures { IfOk result (λ b. b ≡ avoids_arms entry (arms_at pool.now (branches_of branches.now))) }
{
    let depth_left = deeper(depth_left)?;
    match branches {
        BranchIds::End => Ok(true),
        BranchIds::Item(_, body, bs) => {
            Ok(
                avoids(pool, entry, *body, depth_left)?
                    && avoid_branches(pool, entry, bs, depth_left)?,
            )
        }
    }
}

// Whether a term is a variable.
#[tactic(auto, using(mt_pool::proofs::Region::kept))]
fn is_variable(pool: &Pool, index: usize, t: TermId) -> bool
    requires { t.at < length pool.now }
    ensures { result ≡ is_variable index (tree_at pool.now t) }
{
    match pool.node(t) {
        Node::Var(i) => *i == index,
        Node::Sort(_)
        | Node::Prod(_, _, _)
        | Node::Lam(_, _, _)
        | Node::App(_, _)
        | Node::Const(_)
        | Node::Ind(_)
        | Node::Con(_, _)
        | Node::Match(_, _, _, _)
        | Node::Meta(_, _) => false,
    }
}

// Whether a term may stand at a place among the type's arguments, under so many arguments of a
// constructor.
#[tactic(auto, using(mt_pool::proofs::Region::kept))]
fn is_argument(
    pool: &Pool,
    of: Family,
    passed: usize,
    place: usize,
    t: TermId,
    depth_left: usize,
) -> Result<bool, OutOfMemory>
    requires { t.at < length pool.now }
    ensures { IfOk result (λ b. b ≡ is_argument of.number of.params passed place (tree_at pool.now t)) }
{
    if place < of.params {
        let index = passed
            .checked_add(of.params - 1 - place)
            .ok_or(OutOfMemory)?;
        return Ok(is_variable(pool, index, t));
    }
    avoids(pool, of.number, t, depth_left)
}

/// Whether a term is the type on so many arguments: its parameters, and then terms that do not
/// mention it.
#[tactic(auto, using(mt_pool::proofs::Region::kept))]
pub fn is_type_on(
    pool: &Pool,
    of: Family,
    passed: usize,
    t: TermId,
    many: usize,
    depth_left: usize,
) -> Result<bool, OutOfMemory>
    requires { t.at < length pool.now }
    ensures { IfOk result (λ b. b ≡ is_type_on of.number of.params passed (tree_at pool.now t) many) }
{
    let depth_left = deeper(depth_left)?;
    match pool.node(t) {
        Node::Ind(n) => Ok(many == 0 && *n == of.number),
        Node::App(f, a) => {
            if many == 0 {
                return Ok(false);
            }
            Ok(
                is_argument(pool, of, passed, many - 1, *a, depth_left)?
                    && is_type_on(pool, of, passed, *f, many - 1, depth_left)?,
            )
        }
        Node::Var(_)
        | Node::Sort(_)
        | Node::Prod(_, _, _)
        | Node::Lam(_, _, _)
        | Node::Const(_)
        | Node::Con(_, _)
        | Node::Match(_, _, _, _)
        | Node::Meta(_, _) => Ok(false),
    }
}

/// Whether an argument's type is one of a recursive place, under so many arguments.
#[tactic(auto, using(mt_pool::proofs::Region::kept))]
pub fn is_recursive(
    pool: &Pool,
    of: Family,
    passed: usize,
    t: TermId,
    depth_left: usize,
) -> Result<bool, OutOfMemory>
    requires { t.at < length pool.now }
    ensures { IfOk result (λ b. b ≡ is_recursive of.number of.params of.indices passed (tree_at pool.now t)) }
{
    let depth_left = deeper(depth_left)?;
    let many = of.params.checked_add(of.indices).ok_or(OutOfMemory)?;
    match pool.node(t) {
        Node::Prod(_, a, b) => {
            let further = passed.checked_add(1).ok_or(OutOfMemory)?;
            Ok(
                avoids(pool, of.number, *a, depth_left)?
                    && is_recursive(pool, of, further, *b, depth_left)?,
            )
        }
        Node::Var(_)
        | Node::Sort(_)
        | Node::Lam(_, _, _)
        | Node::App(_, _)
        | Node::Const(_)
        | Node::Ind(_)
        | Node::Con(_, _)
        | Node::Match(_, _, _, _)
        | Node::Meta(_, _) => is_type_on(pool, of, passed, t, many, depth_left),
    }
}
