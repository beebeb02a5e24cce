// The text of terms.
ghost use Rattle.std.specs.Prelude.{◌≡◌, ◌++◌, ◌∷◌, [], suc, IfOk, OnOk};
ghost use Rattle.mt_printer.specs.Chosen.{branch_scope, scope_of_names, shown_binder};
ghost use Rattle.mt_printer.specs.TermText.{arms_text, binder_text, branch_mark, enclosed, gives_text, is_binder, is_compound, more_terms_text, pattern_text, term_text, terms_text};
ghost use Rattle.mt_term.specs.EnvironmentOf.{environment_of};
ghost use Rattle.mt_term.specs.TreeOf.{arms_of, tree_of, trees_of};
ghost use Rattle.mt_term.specs.Trees.{Lam, Prod};

use crate::bytes::{put, put_number};
use crate::choosing::shown_binder;
use crate::scopes::Scope;
use crate::sorts::put_sort;
use crate::walks::{constructor_name, entry_name};
use mt_term::{Branches, MAX_DEPTH, Name, Names, OutOfMemory, PlainEnv, Term, Terms, deeper};
use std::alloc::Global;

fn is_binder(t: &Term) -> bool
    ensures { result ≡ is_binder (tree_of t.now) }
{
    matches!(t, Term::Prod(_, _, _) | Term::Lam(_, _, _))
}

fn is_compound(t: &Term) -> bool
    ensures { result ≡ is_compound (tree_of t.now) }
{
    matches!(t, Term::App(_, _)) || is_binder(t)
}

// What stands where a variable is bound.
fn put_binder(out: &mut Vec<u8>, shown: &Option<Name>) -> Result<(), OutOfMemory>
    ensures { OnOk result (out.new.items ≡ out.old.items ++ binder_text shown.now) }
{
    match shown {
        Some(name) => put(out, name.as_bytes()),
        None => put(out, b"_"),
    }
}

#[cycle(print)]
pub(crate) fn put_within(
    alloc: Global,
    out: &mut Vec<u8>,
    env: &PlainEnv,
    scope: &mut Scope,
    t: &Term,
    depth_left: usize,
) -> Result<(), OutOfMemory>
    ensures text { OnOk result (out.new.items ≡ out.old.items ++ term_text (environment_of env.now) scope.old (tree_of t.now)) }
    ensures scope { OnOk result (scope.new ≡ scope.old) }
{
    let depth_left = deeper(depth_left)?;
    match t {
        Term::Var(i) => put(out, scope.name(*i)),
        Term::Sort(s) => put_sort(alloc, out, &env.names, s),
        Term::Prod(x, a, b) => put_product(alloc, out, env, scope, x, a, b, depth_left),
        Term::Lam(x, a, b) => put_abstraction(alloc, out, env, scope, x, a, b, depth_left),
        Term::App(f, a) => {
            put_enclosed(alloc, out, env, scope, is_binder(f), f, depth_left)?;
            put(out, b" ")?;
            put_enclosed(alloc, out, env, scope, is_compound(a), a, depth_left)
        }
        Term::Const(n) | Term::Ind(n) => put(out, entry_name(&env.entries, *n)),
        Term::Con(e, k) => put(out, constructor_name(&env.entries, *e, *k)),
        Term::Match(e, r, c, bs) => {
            put(out, b"match ")?;
            put_within(alloc, out, env, scope, c, depth_left)?;
            put(out, b" return ")?;
            put_within(alloc, out, env, scope, r, depth_left)?;
            put(out, b" with [")?;
            put_branches(alloc, out, env, scope, *e, 0, bs, depth_left)?;
            put(out, b" ]")
        }
        Term::Meta(n, ts) => {
            put(out, b"?")?;
            put_number(alloc, out, *n as u64)?;
            put(out, b"[")?;
            put_terms(alloc, out, env, scope, ts, depth_left)?;
            put(out, b"]")
        }
    }
}

// A term, in parentheses where they are wanted.
#[cycle(print)]
fn put_enclosed(
    alloc: Global,
    out: &mut Vec<u8>,
    env: &PlainEnv,
    scope: &mut Scope,
    wrapped: bool,
    t: &Term,
    depth_left: usize,
) -> Result<(), OutOfMemory>
    ensures text { OnOk result (out.new.items ≡ out.old.items ++ enclosed wrapped (term_text (environment_of env.now) scope.old (tree_of t.now))) }
    ensures scope { OnOk result (scope.new ≡ scope.old) }
{
    let depth_left = deeper(depth_left)?;
    if !wrapped {
        return put_within(alloc, out, env, scope, t, depth_left);
    }
    put(out, b"(")?;
    put_within(alloc, out, env, scope, t, depth_left)?;
    put(out, b")")
}

#[cycle(print)]
fn put_product(
    alloc: Global,
    out: &mut Vec<u8>,
    env: &PlainEnv,
    scope: &mut Scope,
    x: &Name,
    a: &Term,
    b: &Term,
    depth_left: usize,
) -> Result<(), OutOfMemory>
    ensures text { OnOk result (out.new.items ≡ out.old.items ++ term_text (environment_of env.now) scope.old (Prod x.now (tree_of a.now) (tree_of b.now))) }
    ensures scope { OnOk result (scope.new ≡ scope.old) }
{
    let depth_left = deeper(depth_left)?;
    let shown = shown_binder(alloc, &env.entries, scope, x, 0, b, depth_left)?;
    match &shown {
        Some(name) => {
            put(out, b"\xe2\x88\x80")?;
            put(out, name.as_bytes())?;
            put(out, b":")?;
            put_within(alloc, out, env, scope, a, depth_left)?;
            put(out, b".")?;
        }
        None => {
            put_enclosed(alloc, out, env, scope, is_binder(a), a, depth_left)?;
            put(out, b" \xe2\x86\x92 ")?;
        }
    }
    scope.push(shown)?;
    put_within(alloc, out, env, scope, b, depth_left)?;
    scope.pop();
    Ok(())
}

#[cycle(print)]
fn put_abstraction(
    alloc: Global,
    out: &mut Vec<u8>,
    env: &PlainEnv,
    scope: &mut Scope,
    x: &Name,
    a: &Term,
    b: &Term,
    depth_left: usize,
) -> Result<(), OutOfMemory>
    ensures text { OnOk result (out.new.items ≡ out.old.items ++ term_text (environment_of env.now) scope.old (Lam x.now (tree_of a.now) (tree_of b.now))) }
    ensures scope { OnOk result (scope.new ≡ scope.old) }
{
    let depth_left = deeper(depth_left)?;
    let shown = shown_binder(alloc, &env.entries, scope, x, 0, b, depth_left)?;
    put(out, b"\xce\xbb")?;
    put_binder(out, &shown)?;
    put(out, b":")?;
    put_within(alloc, out, env, scope, a, depth_left)?;
    put(out, b".")?;
    scope.push(shown)?;
    put_within(alloc, out, env, scope, b, depth_left)?;
    scope.pop();
    Ok(())
}

// Terms with a semicolon between them.
#[cycle(print)]
fn put_terms(
    alloc: Global,
    out: &mut Vec<u8>,
    env: &PlainEnv,
    scope: &mut Scope,
    ts: &Terms,
    depth_left: usize,
) -> Result<(), OutOfMemory>
    ensures text { OnOk result (out.new.items ≡ out.old.items ++ terms_text (environment_of env.now) scope.old (trees_of ts.now)) }
    ensures scope { OnOk result (scope.new ≡ scope.old) }
{
    let depth_left = deeper(depth_left)?;
    match ts {
        Terms::End => Ok(()),
        Terms::Item(t, ts) => {
            put_within(alloc, out, env, scope, t, depth_left)?;
            put_more_terms(alloc, out, env, scope, ts, depth_left)
        }
    }
}

#[cycle(print)]
fn put_more_terms(
    alloc: Global,
    out: &mut Vec<u8>,
    env: &PlainEnv,
    scope: &mut Scope,
    ts: &Terms,
    depth_left: usize,
) -> Result<(), OutOfMemory>
    ensures text { OnOk result (out.new.items ≡ out.old.items ++ more_terms_text (environment_of env.now) scope.old (trees_of ts.now)) }
    ensures scope { OnOk result (scope.new ≡ scope.old) }
{
    let depth_left = deeper(depth_left)?;
    match ts {
        Terms::End => Ok(()),
        Terms::Item(t, ts) => {
            put(out, b";")?;
            put_within(alloc, out, env, scope, t, depth_left)?;
            put_more_terms(alloc, out, env, scope, ts, depth_left)
        }
    }
}

// The branches from number `k` on.
#[cycle(print)]
fn put_branches(
    alloc: Global,
    out: &mut Vec<u8>,
    env: &PlainEnv,
    scope: &mut Scope,
    e: usize,
    k: usize,
    bs: &Branches,
    depth_left: usize,
) -> Result<(), OutOfMemory>
    ensures text { OnOk result (out.new.items ≡ out.old.items ++ arms_text (environment_of env.now) scope.old e k (arms_of bs.now)) }
    ensures scope { OnOk result (scope.new ≡ scope.old) }
{
    let depth_left = deeper(depth_left)?;
    match bs {
        Branches::End => Ok(()),
        Branches::Item(b, bs) => {
            let branch = b;
            put(out, branch_mark(k))?;
            put(out, constructor_name(&env.entries, e, k))?;
            put_branch(
                alloc,
                out,
                env,
                scope,
                branch.names.as_slice(),
                &branch.body,
                depth_left,
            )?;
            let next = next_number(k)?;
            put_branches(alloc, out, env, scope, e, next, bs, depth_left)
        }
    }
}

fn branch_mark(k: usize) -> &'static [u8]
    ensures { result.now ≡ branch_mark k }
{
    if k == 0 { b" " } else { b" | " }
}

fn next_number(k: usize) -> Result<usize, OutOfMemory>
    ensures { IfOk result (λ next. next ≡ suc k) }
{
    k.checked_add(1).ok_or(OutOfMemory)
}

// The names that a branch binds, and its body under them.
#[cycle(print)]
fn put_branch(
    alloc: Global,
    out: &mut Vec<u8>,
    env: &PlainEnv,
    scope: &mut Scope,
    names: &[Name],
    body: &Term,
    depth_left: usize,
) -> Result<(), OutOfMemory>
    ensures text { OnOk result (out.new.items ≡ out.old.items ++ (pattern_text env.now.entries scope.old names.now (tree_of body.now) ++ gives_text
        ++ term_text (environment_of env.now) (branch_scope env.now.entries scope.old names.now (tree_of body.now)) (tree_of body.now))) }
    ensures scope { OnOk result (scope.new ≡ scope.old) }
{
    let depth_left = deeper(depth_left)?;
    match names {
        [] => {
            put(out, b" \xe2\x87\x92 ")?;
            put_within(alloc, out, env, scope, body, depth_left)
        }
        [x, rest @ ..] => {
            let shown = shown_binder(alloc, &env.entries, scope, x, rest.len(), body, depth_left)?;
            put(out, b" ")?;
            put_binder(out, &shown)?;
            scope.push(shown)?;
            put_branch(alloc, out, env, scope, rest, body, depth_left)?;
            scope.pop();
            Ok(())
        }
    }
}
