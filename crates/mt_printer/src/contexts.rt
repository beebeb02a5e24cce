// The names of a context, where nothing but some terms stands under it.
ghost use Rattle.std.specs.Prelude.{◌≡◌, ◌++◌, ◌∷◌, [], slice_get, IfOk, OnOk};
ghost use Rattle.mt_printer.specs.Chosen.{scope_of_names};
ghost use Rattle.mt_printer.specs.Contexts.{context_names, names_onto};
ghost use Rattle.mt_printer.specs.EnvText.{alone, held};
ghost use Rattle.mt_printer.specs.ScopeOf.{trees_behind};

use crate::choosing::choose;
use crate::scopes::Scope;
use mt_term::{Hyps, MAX_DEPTH, Name, Names, OutOfMemory, PlainEnv, Term};
use std::alloc::Global;
use std::clone::Clone;

/// The names of a context, oldest first, each chosen against these terms alone.
#[tactic(auto, unfolding(crate::specs::Contexts::context_names))]
pub fn context_names(
    alloc: Global,
    env: &PlainEnv,
    context: &Hyps,
    parts: &[&Term],
) -> Result<Names, OutOfMemory>
    ensures { IfOk result (λ names. names ≡ context_names env.now.entries context.now (trees_behind parts.now)) }
{
    let mut names = Names::new(alloc);
    let mut scope = Scope::new(alloc);
    for n in 0..context.len() {
        put_name(alloc, &mut names, &mut scope, env, context, n, parts)?;
    }
    Ok(names)
}

// The name of the hypothesis at a place, after those before it.
fn put_name(
    alloc: Global,
    names: &mut Names,
    scope: &mut Scope,
    env: &PlainEnv,
    context: &Hyps,
    n: usize,
    parts: &[&Term],
) -> Result<(), OutOfMemory>
    requires { scope.old ≡ scope_of_names names.old [] }
    ensures names { OnOk result (names.new ≡ names_onto env.now.entries names.old (held alone (slice_get context.now n)) (trees_behind parts.now)) }
    ensures scope { OnOk result (scope.new ≡ scope_of_names names.new []) }
{
    match context.get(n) {
        Some(hyp) => {
            let name = choose(alloc, &env.entries, scope, &hyp.name, &[], parts, MAX_DEPTH)?;
            add_name(names, scope, name)
        }
        None => Ok(()),
    }
}

// One more hypothesis of a name.
#[tactic(auto, using(crate::proofs::Telescoping::names_push))]
fn add_name(names: &mut Names, scope: &mut Scope, name: Name) -> Result<(), OutOfMemory>
    requires { scope.old ≡ scope_of_names names.old [] }
    ensures names { OnOk result (names.new ≡ names.old ++ name ∷ []) }
    ensures scope { OnOk result (scope.new ≡ scope_of_names names.new []) }
{
    names.push(name.clone()?)?;
    scope.push(Some(name))
}
