// The positivity of a constructor.
ghost use Rattle.std.specs.Prelude.{◌≡◌, ◌<◌, length, IfOk, IsTrue, ◌↔◌};
ghost use Rattle.mt_term.specs.Substitution.{products};
ghost use Rattle.mt_pool.specs.Region.{tree_at};
ghost use Rattle.mt_pool.specs.HeldOf.{constructors_in, declaration_in, ConstructorsBelow, HeldBelow};
ghost use Rattle.mt_positivity.specs.Deciding.{is_positive, is_positive_from, is_positive_past};
ghost use Rattle.mt_positivity.specs.Entries.{HasConstructor, IsPositiveLast, LastIsPositive};

use crate::arguments::{Family, avoids, is_recursive, is_type_on};
use mt_pool::{Held, HeldCons, Node, Pool, TermId};
use mt_term::{MAX_DEPTH, OutOfMemory, deeper};

/// Whether the last constructor of an inductive type, entry `n`, is positive.
///
/// # Errors
///
/// `OutOfMemory` where memory is wanting, or a term is deeper than the bound.
pub fn positive(pool: &Pool, n: usize, entry: &Held) -> Result<bool, OutOfMemory>
    requires held { HeldBelow (length pool.now) entry.now }
    requires constructor { HasConstructor entry.now }
    ensures { IfOk result (λ b. IsTrue b ↔ LastIsPositive n (declaration_in pool.now entry.now)) }
{
    match entry {
        Held::Inductive {
            params,
            ty,
            cons,
            ..
        } => is_last_positive(pool, n, *params, *ty, cons),
        Held::Axiom { .. } | Held::Definition { .. } | Held::Recursive { .. } => Ok(true),
    }
}

// Whether the last of some constructors is positive.
fn is_last_positive(
    pool: &Pool,
    number: usize,
    params: usize,
    ty: TermId,
    cons: &HeldCons,
) -> Result<bool, OutOfMemory>
    requires ty { ty.at < length pool.now }
    requires cons { ConstructorsBelow (length pool.now) cons.now }
    requires some { 0 < length cons.now }
    ensures { IfOk result (λ b. IsTrue b ↔ IsPositiveLast number params (tree_at pool.now ty) (constructors_in pool.now cons.now)) }
{
    match cons.get(cons.len() - 1) {
        Some(last) => is_positive(pool, number, params, ty, last.ty),
        None => Ok(true),
    }
}

// Whether a constructor of a type with so many parameters is positive, by its closed type beside
// that of the type.
#[tactic(auto, using(mt_pool::proofs::Region::kept))]
fn is_positive(
    pool: &Pool,
    number: usize,
    params: usize,
    ty: TermId,
    constructor: TermId,
) -> Result<bool, OutOfMemory>
    requires ty { ty.at < length pool.now }
    requires constructor { constructor.at < length pool.now }
    ensures { IfOk result (λ b. b ≡ is_positive number params (tree_at pool.now ty) (tree_at pool.now constructor)) }
{
    let indices = products(pool, ty, MAX_DEPTH)?.saturating_sub(params);
    is_positive_from(pool, number, indices, params, 0, ty, constructor)
}

/// How many products stand at the front of a type. A term deeper than `depth_left` counts as want
/// of memory.
#[tactic(auto, using(mt_pool::proofs::Region::kept))]
pub fn products(pool: &Pool, t: TermId, depth_left: usize) -> Result<usize, OutOfMemory>
    requires { t.at < length pool.now }
    ensures { IfOk result (λ many. many ≡ products (tree_at pool.now t)) }
{
    let depth_left = deeper(depth_left)?;
    match pool.node(t) {
        Node::Prod(_, _, b) => products(pool, *b, depth_left)?
            .checked_add(1)
            .ok_or(OutOfMemory),
        Node::Var(_)
        | Node::Sort(_)
        | Node::Lam(_, _, _)
        | Node::App(_, _)
        | Node::Const(_)
        | Node::Ind(_)
        | Node::Con(_, _)
        | Node::Match(_, _, _, _)
        | Node::Meta(_, _) => Ok(0),
    }
}

// The same where so many parameters are left and so many passed.
#[tactic(auto, using(mt_pool::proofs::Region::kept))]
fn is_positive_from(
    pool: &Pool,
    number: usize,
    indices: usize,
    left: usize,
    passed: usize,
    ty: TermId,
    constructor: TermId,
) -> Result<bool, OutOfMemory>
    requires ty { ty.at < length pool.now }
    requires constructor { constructor.at < length pool.now }
    ensures { IfOk result (λ b. b ≡ is_positive_from number indices left passed (tree_at pool.now ty) (tree_at pool.now constructor)) }
{
    if left == 0 {
        let of = Family {
            number,
            params: passed,
            indices,
        };
        return is_positive_past(pool, of, 0, constructor, MAX_DEPTH);
    }
    match (pool.node(ty), pool.node(constructor)) {
        (Node::Prod(_, a, b), Node::Prod(_, c, d)) => {
            let further = passed.checked_add(1).ok_or(OutOfMemory)?;
            Ok(
                pool.alike(*a, *c)
                    && is_positive_from(pool, number, indices, left - 1, further, *b, *d)?,
            )
        }
        _ => Ok(false),
    }
}

// Whether what is left of a constructor's type, past the parameters and so many arguments, is
// positive.
#[tactic(auto, using(mt_pool::proofs::Region::kept))]
fn is_positive_past(
    pool: &Pool,
    of: Family,
    passed: usize,
    t: TermId,
    depth_left: usize,
) -> Result<bool, OutOfMemory>
    requires { t.at < length pool.now }
    ensures { IfOk result (λ b. b ≡ is_positive_past of.number of.params of.indices passed (tree_at pool.now t)) }
{
    let depth_left = deeper(depth_left)?;
    let many = of.params.checked_add(of.indices).ok_or(OutOfMemory)?;
    match pool.node(t) {
        Node::Prod(_, a, b) => {
            let further = passed.checked_add(1).ok_or(OutOfMemory)?;
            let fits = avoids(pool, of.number, *a, depth_left)?
                || is_recursive(pool, of, passed, *a, depth_left)?;
            Ok(fits && is_positive_past(pool, of, further, *b, depth_left)?)
        }
        Node::Var(_)
        | Node::Sort(_)
        | Node::Lam(_, _, _)
        | Node::App(_, _)
        | Node::Const(_)
        | Node::Ind(_)
        | Node::Con(_, _)
        | Node::Match(_, _, _, _)
        | Node::Meta(_, _) => is_type_on(pool, of, passed, t, many, depth_left),
    }
}
