// The text of hypotheses, binder groups and variables of hints.
ghost use Rattle.std.specs.Prelude.{◌≡◌, ◌++◌, ◌∷◌, [], slice_get, take, IfOk, OnErr, OnOk};
ghost use Rattle.mt_printer.specs.Chosen.{scope_of_names};
ghost use Rattle.mt_printer.specs.EnvText.{alone, held};
ghost use Rattle.mt_printer.specs.ScopeOf.{hypotheses_of, style_of, trees_behind};
ghost use Rattle.mt_printer.specs.Telescopes.{leading, name_at, names_after, printed, telescope_names, telescope_text, text_after, under_binders};
ghost use Rattle.mt_printer.specs.TermText.{term_text};
ghost use Rattle.mt_term.specs.EnvironmentOf.{environment_of};
ghost use Rattle.mt_term.specs.TreeOf.{tree_of};

use crate::bytes::{put, put_whole};
use crate::choosing::choose;
use crate::scopes::Scope;
use crate::terms::put_within;
use mt_term::{Hyp, Hyps, MAX_DEPTH, Name, Names, OutOfMemory, PlainEnv, Term, copy, deeper};
use std::alloc::Global;

// What stands around hypotheses: as binder groups, as lines of a goal, or as the variables of a
// hint.
#[derive(Clone, Copy)]
pub(crate) enum Style {
    Groups,
    Lines,
    Variables,
}

fn first(style: Style) -> &'static [u8]
    ensures { result.now ≡ (style_of style).first }
{
    match style {
        Style::Groups => b" (",
        Style::Lines => b"  ",
        Style::Variables => b" ",
    }
}

fn further(style: Style) -> &'static [u8]
    ensures { result.now ≡ (style_of style).further }
{
    match style {
        Style::Groups => b" (",
        Style::Lines => b"  ",
        Style::Variables => b", ",
    }
}

fn between(style: Style) -> &'static [u8]
    ensures { result.now ≡ (style_of style).between }
{
    match style {
        Style::Lines => b" : ",
        Style::Groups | Style::Variables => b":",
    }
}

fn after(style: Style) -> &'static [u8]
    ensures { result.now ≡ (style_of style).after }
{
    match style {
        Style::Groups => b")",
        Style::Lines => b"\n",
        Style::Variables => b"",
    }
}

// One more hypothesis of a name.
#[tactic(auto, using(crate::proofs::Telescoping::names_push))]
fn add_name(names: &mut Names, scope: &mut Scope, name: Name) -> Result<(), OutOfMemory>
    requires { scope.old ≡ scope_of_names names.old [] }
    ensures names { OnOk result (names.new ≡ names.old ++ name ∷ []) }
    ensures scope { OnOk result (scope.new ≡ scope_of_names names.new []) }
{
    names.push(name.clone()?)?;
    scope.push(Some(name))
}

// The hypotheses after others, with what stands before the next of them.
fn put_after(
    alloc: Global,
    out: &mut Vec<u8>,
    env: &PlainEnv,
    style: Style,
    before: &[u8],
    names: &mut Names,
    scope: &mut Scope,
    hyps: &[Hyp],
    parts: &[&Term],
    depth_left: usize,
) -> Result<(), OutOfMemory>
    requires { scope.old ≡ scope_of_names names.old [] }
    ensures text { OnOk result (out.new.items ≡ out.old.items ++ text_after (environment_of env.now) (style_of style) before.now names.old (hypotheses_of hyps.now) (trees_behind parts.now)) }
    ensures names { OnOk result (names.new ≡ names_after env.now.entries names.old (hypotheses_of hyps.now) (trees_behind parts.now)) }
    ensures scope { OnOk result (scope.new ≡ scope_of_names names.new []) }
{
    let depth_left = deeper(depth_left)?;
    match hyps {
        [] => Ok(()),
        [hyp, rest @ ..] => {
            let name = choose(
                alloc,
                &env.entries,
                scope,
                &hyp.name,
                rest,
                parts,
                MAX_DEPTH,
            )?;
            put(out, before)?;
            put(out, name.as_bytes())?;
            put(out, between(style))?;
            put_within(alloc, out, env, scope, &hyp.ty, MAX_DEPTH)?;
            put(out, after(style))?;
            add_name(names, scope, name)?;
            put_after(
                alloc,
                out,
                env,
                style,
                further(style),
                names,
                scope,
                rest,
                parts,
                depth_left,
            )
        }
    }
}

// Appends the text of hypotheses with parts under them, and gives their names.
#[tactic(auto, unfolding(crate::specs::Telescopes::telescope_names, crate::specs::Telescopes::telescope_text))]
pub(crate) fn put_telescope(
    alloc: Global,
    out: &mut Vec<u8>,
    env: &PlainEnv,
    style: Style,
    hyps: &[Hyp],
    parts: &[&Term],
) -> Result<Names, OutOfMemory>
    ensures text { OnOk result (out.new.items ≡ out.old.items ++ telescope_text (environment_of env.now) (style_of style) (hypotheses_of hyps.now) (trees_behind parts.now)) }
    ensures names { IfOk result (λ names. names ≡ telescope_names env.now.entries (hypotheses_of hyps.now) (trees_behind parts.now)) }
{
    let mut names = Names::new(alloc);
    let mut scope = Scope::new(alloc);
    put_after(
        alloc,
        out,
        env,
        style,
        first(style),
        &mut names,
        &mut scope,
        hyps,
        parts,
        MAX_DEPTH,
    )?;
    Ok(names)
}

// The scope of hypotheses of these names.
pub(crate) fn scope_of(alloc: Global, names: &[Name]) -> Result<Scope, OutOfMemory>
    ensures { IfOk result (λ scope. scope ≡ scope_of_names names.now []) }
{
    let mut scope = Scope::new(alloc);
    for name in names {
        scope.push(Some(name.clone()?))?;
    }
    Ok(scope)
}

// One more hypothesis, copied.
fn put_hyp(alloc: Global, hyps: &mut Vec<Hyp>, x: &Name, a: &Term) -> Result<(), OutOfMemory>
    ensures { OnOk result (hypotheses_of hyps.new.items ≡ hypotheses_of hyps.old.items ++ record { name = x.now; ty = tree_of a.now } ∷ []) }
{
    let name = x.clone()?;
    let ty = copy(alloc, a)?;
    hyps.push(Hyp { name, ty })?;
    Ok(())
}

// The products that stand before a type, at most so many, after other hypotheses.
#[tactic(auto, using(crate::proofs::Telescoping::leading_step))]
fn put_leading(
    alloc: Global,
    hyps: &mut Vec<Hyp>,
    n: usize,
    t: &Term,
    depth_left: usize,
) -> Result<(), OutOfMemory>
    ensures { OnOk result (hypotheses_of hyps.new.items ≡ hypotheses_of hyps.old.items ++ leading n (tree_of t.now)) }
{
    let depth_left = deeper(depth_left)?;
    if n == 0 {
        return Ok(());
    }
    match t {
        Term::Prod(x, a, b) => {
            put_hyp(alloc, hyps, x, a)?;
            put_leading(alloc, hyps, n - 1, b, depth_left)
        }
        _ => Ok(()),
    }
}

// The products that stand before a type, at most so many.
pub(crate) fn leading(alloc: Global, n: usize, t: &Term) -> Result<Vec<Hyp>, OutOfMemory>
    ensures { IfOk result (λ hyps. hypotheses_of hyps.items ≡ leading n (tree_of t.now)) }
{
    let mut hyps = Vec::new(alloc);
    put_leading(alloc, &mut hyps, n, t, MAX_DEPTH)?;
    Ok(hyps)
}

// What stands under at most so many products and abstractions.
#[tactic(auto, using(crate::proofs::Telescoping::under_product, crate::proofs::Telescoping::under_abstraction))]
pub(crate) fn under_binders(n: usize, t: &Term, depth_left: usize) -> Result<&Term, OutOfMemory>
    ensures { IfOk result (λ u. tree_of u.now ≡ under_binders n (tree_of t.now)) }
{
    let depth_left = deeper(depth_left)?;
    if n == 0 {
        return Ok(t);
    }
    match t {
        Term::Prod(_, _, b) | Term::Lam(_, _, b) => under_binders(n - 1, b, depth_left),
        _ => Ok(t),
    }
}

// The name at a place; no bytes where there is none.
pub(crate) fn name_at(names: &Names, n: usize) -> &[u8]
    ensures { result.now ≡ name_at names.now n }
{
    match names.get(n) {
        Some(name) => name.as_bytes(),
        None => b"",
    }
}

// Appends the text of a term under hypotheses of these names.
pub(crate) fn put_under(
    alloc: Global,
    out: &mut Vec<u8>,
    env: &PlainEnv,
    names: &[Name],
    t: &Term,
) -> Result<(), OutOfMemory>
    ensures { OnOk result (out.new.items ≡ out.old.items ++ term_text (environment_of env.now) (scope_of_names names.now []) (tree_of t.now)) }
{
    let mut scope = scope_of(alloc, names)?;
    put_within(alloc, out, env, &mut scope, t, MAX_DEPTH)
}

/// Appends the text of a term whose variables are shown by these names, the newest last; nothing
/// where memory is wanting.
#[tactic(auto, unfolding(crate::specs::Telescopes::printed))]
pub fn put_term(
    alloc: Global,
    out: &mut Vec<u8>,
    env: &PlainEnv,
    scope: &Names,
    t: &Term,
) -> Result<(), OutOfMemory>
    ensures text { OnOk result (out.new.items ≡ out.old.items ++ printed (environment_of env.now) scope.now (tree_of t.now)) }
    ensures kept { OnErr result (out.new.items ≡ out.old.items) }
{
    let mut text = Vec::new(alloc);
    put_under(alloc, &mut text, env, scope.as_slice(), t)?;
    put_whole(out, &text)
}

// The oldest names, at most so many.
pub(crate) fn first_of(names: &[Name], count: usize) -> &[Name]
    ensures { result.now ≡ take count names.now }
{
    if count < names.len() {
        &names[..count]
    } else {
        names
    }
}

// Copies of hypotheses.
pub(crate) fn copies(alloc: Global, hyps: &Hyps) -> Result<Vec<Hyp>, OutOfMemory>
    ensures { IfOk result (λ answer. hypotheses_of answer.items ≡ hyps.now) }
{
    let mut answer = Vec::new(alloc);
    for n in 0..hyps.len() {
        put_copy(alloc, &mut answer, hyps, n)?;
    }
    Ok(answer)
}

// A copy of the hypothesis at a place.
fn put_copy(alloc: Global, answer: &mut Vec<Hyp>, hyps: &Hyps, n: usize) -> Result<(), OutOfMemory>
    ensures { OnOk result (hypotheses_of answer.new.items ≡ hypotheses_of answer.old.items ++ held alone (slice_get hyps.now n)) }
{
    if let Some(hyp) = hyps.get(n) {
        let name = hyp.name.clone()?;
        let ty = copy(alloc, &hyp.ty)?;
        answer.push(Hyp { name, ty })?;
    }
    Ok(())
}
