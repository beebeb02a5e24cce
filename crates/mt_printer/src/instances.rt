// Instances: assigned metavariables replaced by their bodies, through and through.
ghost use Rattle.std.specs.Prelude.{◌≡◌, IfOk};
ghost use Rattle.mt_term.specs.Instancing.{body_values, instance, put_values, put_values_all, put_values_arms};
ghost use Rattle.mt_term.specs.MetaOf.{body_of};
ghost use Rattle.mt_term.specs.TreeOf.{arms_of, tree_of, trees_of};
ghost use Rattle.mt_term.specs.Trees.{Meta};

use mt_term::{Branch, Branches, MAX_DEPTH, Metas, OutOfMemory, Term, Terms, deeper, under};
use std::alloc::Global;

// The instance of a term over a store.
pub(crate) fn instance(alloc: Global, metas: &Metas, t: &Term) -> Result<Term, OutOfMemory>
    ensures { IfOk result (λ u. tree_of u ≡ instance metas.now (tree_of t.now)) }
{
    with_values(alloc, metas, metas.len(), t, MAX_DEPTH)
}

// The instance of a term, through so many bodies within bodies.
#[cycle(values)]
fn with_values(
    alloc: Global,
    metas: &Metas,
    bodies: usize,
    t: &Term,
    depth_left: usize,
) -> Result<Term, OutOfMemory>
    ensures { IfOk result (λ u. tree_of u ≡ put_values (body_values metas.now bodies) (tree_of t.now)) }
{
    let depth_left = deeper(depth_left)?;
    match t {
        Term::Var(i) => Ok(Term::Var(*i)),
        Term::Sort(s) => Ok(Term::Sort(s.clone()?)),
        Term::Prod(x, a, b) => {
            let x = x.clone()?;
            let a = Box::new(alloc, with_values(alloc, metas, bodies, a, depth_left)?)?;
            let b = Box::new(alloc, with_values(alloc, metas, bodies, b, depth_left)?)?;
            Ok(Term::Prod(x, a, b))
        }
        Term::Lam(x, a, b) => {
            let x = x.clone()?;
            let a = Box::new(alloc, with_values(alloc, metas, bodies, a, depth_left)?)?;
            let b = Box::new(alloc, with_values(alloc, metas, bodies, b, depth_left)?)?;
            Ok(Term::Lam(x, a, b))
        }
        Term::App(f, a) => {
            let f = Box::new(alloc, with_values(alloc, metas, bodies, f, depth_left)?)?;
            let a = Box::new(alloc, with_values(alloc, metas, bodies, a, depth_left)?)?;
            Ok(Term::App(f, a))
        }
        Term::Const(n) => Ok(Term::Const(*n)),
        Term::Ind(n) => Ok(Term::Ind(*n)),
        Term::Con(n, k) => Ok(Term::Con(*n, *k)),
        Term::Match(n, r, c, bs) => {
            let r = Box::new(alloc, with_values(alloc, metas, bodies, r, depth_left)?)?;
            let c = Box::new(alloc, with_values(alloc, metas, bodies, c, depth_left)?)?;
            let bs = branches_with_values(alloc, metas, bodies, bs, depth_left)?;
            Ok(Term::Match(*n, r, c, bs))
        }
        Term::Meta(n, ts) => meta_with_value(alloc, metas, bodies, *n, ts, depth_left),
    }
}

// The instance of a metavariable on terms.
#[cycle(values)]
fn meta_with_value(
    alloc: Global,
    metas: &Metas,
    bodies: usize,
    n: usize,
    ts: &Terms,
    depth_left: usize,
) -> Result<Term, OutOfMemory>
    ensures { IfOk result (λ u. tree_of u ≡ put_values (body_values metas.now bodies) (Meta n (trees_of ts.now))) }
{
    let depth_left = deeper(depth_left)?;
    let terms = terms_with_values(alloc, metas, bodies, ts, depth_left)?;
    match value(alloc, metas, bodies, n, depth_left)? {
        Some(body) => under(alloc, &body, &terms),
        None => Ok(Term::Meta(n, terms)),
    }
}

// The instance of a metavariable's body, where it has one.
#[cycle(values)]
#[tactic(auto, using(crate::proofs::Instancing::value_step))]
fn value(
    alloc: Global,
    metas: &Metas,
    bodies: usize,
    n: usize,
    depth_left: usize,
) -> Result<Option<Term>, OutOfMemory>
    ensures { IfOk result (λ answer. body_of answer ≡ body_values metas.now bodies n) }
{
    let depth_left = deeper(depth_left)?;
    if bodies == 0 {
        return Ok(None);
    }
    match metas.get(n) {
        Some(meta) => match &meta.body {
            Some(body) => {
                let instance = with_values(alloc, metas, bodies - 1, body, depth_left)?;
                Ok(Some(instance))
            }
            None => Ok(None),
        },
        None => Ok(None),
    }
}

#[cycle(values)]
fn terms_with_values(
    alloc: Global,
    metas: &Metas,
    bodies: usize,
    ts: &Terms,
    depth_left: usize,
) -> Result<Terms, OutOfMemory>
    ensures { IfOk result (λ us. trees_of us ≡ put_values_all (body_values metas.now bodies) (trees_of ts.now)) }
{
    let depth_left = deeper(depth_left)?;
    match ts {
        Terms::End => Ok(Terms::End),
        Terms::Item(t, ts) => {
            let t = Box::new(alloc, with_values(alloc, metas, bodies, t, depth_left)?)?;
            let ts = Box::new(
                alloc,
                terms_with_values(alloc, metas, bodies, ts, depth_left)?,
            )?;
            Ok(Terms::Item(t, ts))
        }
    }
}

#[cycle(values)]
fn branches_with_values(
    alloc: Global,
    metas: &Metas,
    bodies: usize,
    bs: &Branches,
    depth_left: usize,
) -> Result<Branches, OutOfMemory>
    ensures { IfOk result (λ cs. arms_of cs ≡ put_values_arms (body_values metas.now bodies) (arms_of bs.now)) }
{
    let depth_left = deeper(depth_left)?;
    match bs {
        Branches::End => Ok(Branches::End),
        Branches::Item(b, bs) => {
            let branch = b;
            let names = branch.names.clone()?;
            let body = with_values(alloc, metas, bodies, &branch.body, depth_left)?;
            let b = Box::new(alloc, Branch { names, body })?;
            let bs = Box::new(
                alloc,
                branches_with_values(alloc, metas, bodies, bs, depth_left)?,
            )?;
            Ok(Branches::Item(b, bs))
        }
    }
}
