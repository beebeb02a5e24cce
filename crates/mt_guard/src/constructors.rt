// What an environment says of types and their constructors.
ghost use Rattle.std.specs.Prelude.{◌≡◌, ◌<◌, ℕ, List, Some, length, slice_get, IfOk};
ghost use Rattle.mt_env.specs.Environments.{environment_in, EntriesBelow};
ghost use Rattle.mt_guard.specs.Deciding.{is_of_kind, is_on_type};
ghost use Rattle.mt_guard.specs.Lookups.{made_in, made_of, making_at, making_of, MakerBelow};
ghost use Rattle.mt_pool.specs.HeldOf.{constructors_in, declaration_in, ConstructorsBelow, HeldBelow};
ghost use Rattle.mt_pool.specs.Region.{tree_at};
ghost use Rattle.mt_term.specs.Seen.{seen};
ghost use Rattle.mt_term.specs.Trees.{Tree};

use mt_env::Env;
use mt_pool::{Held, HeldCons, Node, Pool, TermId};
use mt_positivity::products;
use mt_term::{MAX_DEPTH, OutOfMemory, deeper};

/// A constructor of a type, which has so many parameters and indices, and may be coinductive.
#[derive(Clone, Copy)]
pub struct Maker {
    pub co: bool,
    pub params: usize,
    pub indices: usize,
    pub constructor: TermId,
}

// The entry of a number.
#[tactic(auto, using(std::proofs::lemmas::Option::slice_get_past))]
fn held_at(env: &Env, n: usize) -> Option<&Held>
    ensures { seen result ≡ slice_get env.now.entries n }
{
    if n < env.len() {
        Some(env.entry(n))
    } else {
        None
    }
}

// The constructor of a number, of a type of so many parameters.
#[tactic(auto, using(mt_pool::proofs::Region::kept, crate::proofs::Lookups::lookups))]
fn maker_of(
    pool: &Pool,
    co: bool,
    params: usize,
    ty: TermId,
    cons: &HeldCons,
    k: usize,
) -> Result<Option<Maker>, OutOfMemory>
    requires ty { ty.at < length pool.now }
    requires cons { ConstructorsBelow (length pool.now) cons.now }
    ensures tree { IfOk result (λ o. made_in pool.now o ≡ made_of co params (tree_at pool.now ty) (slice_get (constructors_in pool.now cons.now) k)) }
    ensures held { IfOk result (λ o. MakerBelow (length pool.now) o) }
{
    match cons.get(k) {
        Some(constructor) => {
            let indices = products(pool, ty, MAX_DEPTH)?.saturating_sub(params);
            Ok(Some(Maker {
                co,
                params,
                indices,
                constructor: constructor.ty,
            }))
        }
        None => Ok(None),
    }
}

// Constructor `k` of an entry, where there is one.
fn maker_in(pool: &Pool, held: &Held, k: usize) -> Result<Option<Maker>, OutOfMemory>
    requires { HeldBelow (length pool.now) held.now }
    ensures tree { IfOk result (λ o. made_in pool.now o ≡ making_of (Some (declaration_in pool.now held.now)) k) }
    ensures held { IfOk result (λ o. MakerBelow (length pool.now) o) }
{
    match held {
        Held::Inductive {
            co,
            params,
            ty,
            cons,
            ..
        } => maker_of(pool, *co, *params, *ty, cons, k),
        Held::Axiom { .. } | Held::Definition { .. } | Held::Recursive { .. } => Ok(None),
    }
}

/// Constructor `k` of entry `e`, where there is one.
#[tactic(auto, using(crate::proofs::Lookups::making_rules))]
pub fn find_maker(pool: &Pool, env: &Env, e: usize, k: usize) -> Result<Option<Maker>, OutOfMemory>
    requires { EntriesBelow (length pool.now) env.now.entries }
    ensures tree { IfOk result (λ o. made_in pool.now o ≡ making_at (environment_in pool.now env.now) e k) }
    ensures held { IfOk result (λ o. MakerBelow (length pool.now) o) }
{
    if e < env.len() {
        maker_in(pool, env.entry(e), k)
    } else {
        Ok(None)
    }
}

// Whether an entry is an inductive, or a coinductive, type.
#[tactic(auto, using(crate::proofs::Lookups::lookups))]
fn is_of_kind(env: &Env, coinductive: bool, e: usize) -> bool
    ensures { (p : List Tree) → result ≡ is_of_kind coinductive (slice_get (environment_in p env.now).entries e) }
{
    match held_at(env, e) {
        Some(Held::Inductive { co: true, .. }) => coinductive,
        Some(Held::Inductive { co: false, .. }) => !coinductive,
        None
        | Some(Held::Axiom { .. })
        | Some(Held::Definition { .. })
        | Some(Held::Recursive { .. }) => false,
    }
}

/// Whether a term is an inductive, or a coinductive, type on arguments.
#[tactic(auto, using(mt_pool::proofs::Region::kept))]
pub fn is_on_type(
    pool: &Pool,
    env: &Env,
    coinductive: bool,
    t: TermId,
    depth_left: usize,
) -> Result<bool, OutOfMemory>
    requires { t.at < length pool.now }
    ensures { IfOk result (λ b. b ≡ is_on_type (environment_in pool.now env.now) coinductive (tree_at pool.now t)) }
{
    let depth_left = deeper(depth_left)?;
    match pool.node(t) {
        Node::Ind(e) => Ok(is_of_kind(env, coinductive, *e)),
        Node::App(g, _) => is_on_type(pool, env, coinductive, *g, depth_left),
        Node::Var(_)
        | Node::Sort(_)
        | Node::Prod(_, _, _)
        | Node::Lam(_, _, _)
        | Node::Const(_)
        | Node::Con(_, _)
        | Node::Match(_, _, _, _)
        | Node::Meta(_, _) => Ok(false),
    }
}
