// Inductive types on their parameters and indices.
ghost use Rattle.std.specs.Prelude.{◌≡◌, ◌<◌, ℕ, List, length, slice_get, IfOk};
ghost use Rattle.mt_infer.specs.Arguments.{args_in, ArgsBelow};
ghost use Rattle.mt_infer.specs.Families.{constructors_seen, family_held, family_in, FamilyBelow, FamilyInBelow};
ghost use Rattle.mt_infer.specs.Fitting.{declared, on_params};
ghost use Rattle.mt_layers.specs.Environments.{environment_in, found_in, EnvBelow, FoundBelow};
ghost use Rattle.mt_pool.specs.HeldOf.{ConstructorsBelow};
ghost use Rattle.mt_pool.specs.Region.{ids_of, tree_at, trees_at, AllBelow, Kept, Denotes};
ghost use Rattle.mt_rules.specs.Inference.{as_family, constructor_type, family_of, family_on, only};
ghost use Rattle.mt_term.specs.Spines.{as_ind, at_args};
ghost use Rattle.mt_term.specs.Trees.{Tree};

use crate::arguments::{Args, all_but, apply_all, count, first_of, has_products, ids_of_arguments};
use mt_env::Env;
use mt_layers::{entry, type_of_constructor};
use mt_pool::{Held, HeldCons, Node, Pool, TermId, TermIds};
use mt_term::{OutOfMemory, deeper};
use std::alloc::Global;

/// An inductive type on its parameters and indices: its number, these, its type at the parameters,
/// its constructors, and whether it is large.
#[derive(Drop)]
pub struct Family<'a> {
    pub number: usize,
    pub params: TermIds,
    pub indices: TermIds,
    pub arity: TermId,
    pub constructors: &'a HeldCons,
    pub large: bool,
}

/// The type of a constructor of these.
#[tactic(auto, unfolding(crate::specs::Families::constructors_seen))]
pub fn constructor_type(constructors: &HeldCons, k: usize) -> Option<TermId>
    ensures tree { (p : List Tree) → found_in p result ≡ constructor_type (slice_get (constructors_seen p constructors.now) k) }
    ensures held { (m : ℕ) → ConstructorsBelow m constructors.now → FoundBelow m result }
{
    type_of_constructor(constructors, k)
}

/// The type of constructor `k`.
#[tactic(auto, unfolding(crate::specs::Families::family_held, crate::specs::Families::FamilyBelow, crate::specs::Fitting::declared))]
pub fn constructor_type_at(family: &Family<'_>, k: usize) -> Option<TermId>
    ensures tree { (p : List Tree) → found_in p result ≡ declared (family_held p family.now) k }
    ensures held { (m : ℕ) → FamilyBelow m family.now → FoundBelow m result }
{
    constructor_type(family.constructors, k)
}

/// The inductive type on its parameters. Recurses at most `depth_left` levels.
#[tactic(auto, using(crate::proofs::Held::infer_held), unfolding(crate::specs::Families::family_held, crate::specs::Families::FamilyBelow, crate::specs::Fitting::on_params))]
pub fn on_params(
    pool: &mut Pool,
    family: &Family<'_>,
    depth_left: usize,
) -> Result<TermId, OutOfMemory>
    requires { FamilyBelow (length pool.old) family.now }
    ensures kept { Kept pool.old pool.new }
    ensures tree { IfOk result (λ u. Denotes pool.new u (on_params (family_held pool.old family.now))) }
{
    let head = pool.put(Node::Ind(family.number))?;
    apply_all(pool, head, &family.params, depth_left)
}

/// A type as the inductive type `number` on its parameters and indices. Recurses at most
/// `depth_left` levels.
#[tactic(auto, using(crate::proofs::Held::infer_held), unfolding(crate::specs::Families::family_held))]
pub fn family_numbered<'a>(
    pool: &mut Pool,
    alloc: Global,
    env: &'a Env,
    number: usize,
    t: TermId,
    depth_left: usize,
) -> Result<Option<Family<'a>>, OutOfMemory>
    requires held { t.at < length pool.old }
    requires env_held { EnvBelow (length pool.old) env.now }
    ensures kept { Kept pool.old pool.new }
    ensures held { IfOk result (λ o. FamilyInBelow (length pool.new) o) }
    ensures tree { let es = (environment_in pool.old env.now).entries in
        IfOk result (λ o. family_in pool.new o ≡ only number (as_family es (tree_at pool.old t))) }
{
    match family_on(pool, alloc, env, t, &Args::End, depth_left)? {
        None => Ok(None),
        Some(family) => {
            if family.number != number {
                return Ok(None);
            }
            Ok(Some(family))
        }
    }
}

/// A type on the arguments as an inductive type on its parameters and indices. Recurses at most
/// `depth_left` levels.
#[tactic(auto, using(crate::proofs::Held::infer_held))]
fn family_on<'a>(
    pool: &mut Pool,
    alloc: Global,
    env: &'a Env,
    t: TermId,
    args: &Args<'_>,
    depth_left: usize,
) -> Result<Option<Family<'a>>, OutOfMemory>
    requires held { t.at < length pool.old }
    requires others { ArgsBelow (length pool.old) args.now }
    requires env_held { EnvBelow (length pool.old) env.now }
    ensures kept { Kept pool.old pool.new }
    ensures held { IfOk result (λ o. FamilyInBelow (length pool.new) o) }
    ensures tree { let es = (environment_in pool.old env.now).entries in
        IfOk result (λ o. family_in pool.new o ≡ family_on es (as_ind (tree_at pool.old t) (args_in pool.old args.now))) }
{
    let depth_left = deeper(depth_left)?;
    match pool.node(t) {
        Node::App(f, a) => {
            let f = *f;
            let a = *a;
            family_on(pool, alloc, env, f, &Args::More(a, &*args), depth_left)
        }
        Node::Ind(e) => {
            let e = *e;
            family_of(pool, alloc, env, e, args, depth_left)
        }
        Node::Var(_)
        | Node::Sort(_)
        | Node::Prod(..)
        | Node::Lam(..)
        | Node::Const(_)
        | Node::Con(..)
        | Node::Match(..)
        | Node::Meta(..) => Ok(None),
    }
}

/// The inductive type of an entry on the arguments, where they are all its parameters and indices.
#[tactic(auto, using(crate::proofs::Held::family_rules), unfolding(crate::specs::Families::family_held, crate::specs::Families::FamilyBelow))]
fn family_of<'a>(
    pool: &mut Pool,
    alloc: Global,
    env: &'a Env,
    number: usize,
    args: &Args<'_>,
    depth_left: usize,
) -> Result<Option<Family<'a>>, OutOfMemory>
    requires others { ArgsBelow (length pool.old) args.now }
    requires env_held { EnvBelow (length pool.old) env.now }
    ensures kept { Kept pool.old pool.new }
    ensures held { IfOk result (λ o. FamilyInBelow (length pool.new) o) }
    ensures tree { let es = (environment_in pool.old env.now).entries in
        IfOk result (λ o. family_in pool.new o ≡ family_of number (args_in pool.old args.now) (slice_get es number)) }
{
    match entry(env, number) {
        Some(
            Held::Inductive {
                params,
                ty,
                cons,
                large,
                ..
            },
        ) => {
            if !has_products(pool, *ty, count(args)?, depth_left)? {
                return Ok(None);
            }
            let Some(first) = first_of(alloc, args, *params)? else {
                return Ok(None);
            };
            let indices = ids_of_arguments(alloc, all_but(args, *params))?;
            let Some(arity) = at_args(pool, alloc, *ty, &first, depth_left)? else {
                return Ok(None);
            };
            Ok(Some(Family {
                number,
                params: first,
                indices,
                arity,
                constructors: cons,
                large: *large,
            }))
        }
        None
        | Some(Held::Axiom { .. })
        | Some(Held::Definition { .. })
        | Some(Held::Recursive { .. }) => Ok(None),
    }
}

/// A type of products at the terms, where it has so many. Recurses at most `depth_left` levels.
#[tactic(auto, using(crate::proofs::Held::infer_held))]
pub fn at_args(
    pool: &mut Pool,
    alloc: Global,
    ty: TermId,
    terms: &TermIds,
    depth_left: usize,
) -> Result<Option<TermId>, OutOfMemory>
    requires term { ty.at < length pool.old }
    requires others { AllBelow (length pool.old) (ids_of terms.now) }
    ensures kept { Kept pool.old pool.new }
    ensures held { IfOk result (λ o. FoundBelow (length pool.new) o) }
    ensures tree { IfOk result (λ o. found_in pool.new o ≡ at_args (tree_at pool.old ty) (trees_at pool.old (ids_of terms.now))) }
{
    let depth_left = deeper(depth_left)?;
    match terms {
        TermIds::End => Ok(Some(ty)),
        TermIds::Item(u, rest) => match pool.node(ty) {
            Node::Prod(_, _, codomain) => {
                let codomain = *codomain;
                let ty = pool.substitute(alloc, codomain, 0, *u)?;
                at_args(pool, alloc, ty, rest, depth_left)
            }
            Node::Var(_)
            | Node::Sort(_)
            | Node::Lam(..)
            | Node::App(..)
            | Node::Const(_)
            | Node::Ind(_)
            | Node::Con(..)
            | Node::Match(..)
            | Node::Meta(..) => Ok(None),
        },
    }
}
