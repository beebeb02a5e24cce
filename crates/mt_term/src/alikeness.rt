// Equality but for binder names.
ghost use Rattle.std.specs.Prelude.{◌≡◌};
ghost use Rattle.mt_term.specs.Alike.{alike, alike_all, alike_arms, is_alike, same_atoms, same_sort};
ghost use Rattle.mt_term.specs.TreeOf.{tree_of, trees_of, arms_of};

use crate::terms::{Branches, Term, Terms};
use crate::universes::{Atom, Sort};

/// Whether two terms are equal but for binder names.
#[tactic(auto, unfolding(crate::specs::Alike::is_alike))]
pub fn alike(t: &Term, u: &Term) -> bool
    ensures { result ≡ is_alike (tree_of t.now) (tree_of u.now) }
{
    alike_terms(t, u)
}

fn have_same_atoms(a: &[Atom], b: &[Atom]) -> bool
    ensures { result ≡ same_atoms a.now b.now }
{
    match a {
        [] => b.is_empty(),
        [x, xs @ ..] => match b {
            [] => false,
            [y, ys @ ..] => x.name == y.name && x.offset == y.offset && have_same_atoms(xs, ys),
        },
    }
}

fn are_same_sort(s: &Sort, r: &Sort) -> bool
    ensures { result ≡ same_sort s.now r.now }
{
    match (s, r) {
        (Sort::Prop, Sort::Prop) => true,
        (Sort::Typ(u), Sort::Typ(v)) => {
            u.base == v.base && have_same_atoms(u.atoms.as_slice(), v.atoms.as_slice())
        }
        _ => false,
    }
}

#[cycle(alike)]
fn alike_terms(t: &Term, u: &Term) -> bool
    ensures { result ≡ alike (tree_of t.now) (tree_of u.now) }
{
    match (t, u) {
        (Term::Var(i), Term::Var(j)) => *i == *j,
        (Term::Sort(s), Term::Sort(r)) => are_same_sort(s, r),
        (Term::Prod(_, a, b), Term::Prod(_, c, d)) => alike_terms(a, c) && alike_terms(b, d),
        (Term::Lam(_, a, b), Term::Lam(_, c, d)) => alike_terms(a, c) && alike_terms(b, d),
        (Term::App(f, a), Term::App(g, b)) => alike_terms(f, g) && alike_terms(a, b),
        (Term::Const(c), Term::Const(d)) => *c == *d,
        (Term::Ind(e), Term::Ind(d)) => *e == *d,
        (Term::Con(e, k), Term::Con(d, j)) => *e == *d && *k == *j,
        (Term::Match(e, r, c, bs), Term::Match(d, p, t, cs)) => {
            *e == *d && alike_terms(r, p) && alike_terms(c, t) && alike_branches(bs, cs)
        }
        (Term::Meta(n, s), Term::Meta(m, r)) => *n == *m && alike_lists(s, r),
        _ => false,
    }
}

#[cycle(alike)]
fn alike_lists(ts: &Terms, us: &Terms) -> bool
    ensures { result ≡ alike_all (trees_of ts.now) (trees_of us.now) }
{
    match (ts, us) {
        (Terms::End, Terms::End) => true,
        (Terms::Item(t, ts), Terms::Item(u, us)) => alike_terms(t, u) && alike_lists(ts, us),
        _ => false,
    }
}

#[cycle(alike)]
fn alike_branches(bs: &Branches, cs: &Branches) -> bool
    ensures { result ≡ alike_arms (arms_of bs.now) (arms_of cs.now) }
{
    match (bs, cs) {
        (Branches::End, Branches::End) => true,
        (Branches::Item(b, bs), Branches::Item(c, cs)) => {
            let b = b;
            let c = c;
            b.names.len() == c.names.len()
                && alike_terms(&b.body, &c.body)
                && alike_branches(bs, cs)
        }
        _ => false,
    }
}
