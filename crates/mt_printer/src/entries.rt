// The text of entries, each as a script has it.
ghost use Rattle.std.specs.Prelude.{◌≡◌, ◌++◌, slice_get, OnOk, IfOk};
ghost use Rattle.mt_printer.specs.EnvText.{constructor_part, constructor_text, constructors_text, held, entry_text, inductive_parts, inductive_text, inductive_under, inductive_word, is_written, place_text, recursive_rest, recursive_text, recursive_word, typed_text};
ghost use Rattle.mt_printer.specs.ScopeOf.{trees_behind};
ghost use Rattle.mt_term.specs.Declarations.{Axiom, Definition};
ghost use Rattle.mt_term.specs.EntryOf.{declaration_of};
ghost use Rattle.mt_term.specs.EnvironmentOf.{environment_of};
ghost use Rattle.mt_term.specs.TreeOf.{tree_of};

use crate::bytes::put;
use crate::telescopes::{Style, leading, name_at, put_telescope, put_under, under_binders};
use mt_term::{Cons, Entry, MAX_DEPTH, Name, Names, OutOfMemory, PlainEnv, Term};
use std::alloc::Global;

// The line of an entry; a generated principle has none.
pub(crate) fn put_entry(
    alloc: Global,
    out: &mut Vec<u8>,
    env: &PlainEnv,
    entry: &Entry,
) -> Result<(), OutOfMemory>
    ensures { OnOk result (out.new.items ≡ out.old.items ++ entry_text (environment_of env.now) (declaration_of entry.now)) }
{
    match entry {
        Entry::Axiom { name, ty } => put_axiom(alloc, out, env, name, ty),
        Entry::Definition { name, ty, body } => put_definition(alloc, out, env, name, ty, body),
        Entry::Inductive {
            name,
            co,
            params,
            ty,
            cons,
            ..
        } => { put_inductive(alloc, out, env, name, *co, *params, ty, cons) }
        Entry::Recursive {
            name,
            co,
            binders,
            place,
            ty,
            body,
            made,
        } => {
            if *made {
                return Ok(());
            }
            put_recursive(alloc, out, env, name, *co, *binders, *place, ty, body)
        }
    }
}

// Whether an entry has a line.
pub(crate) fn is_written(entry: &Entry) -> bool
    ensures { result ≡ is_written (Some (declaration_of entry.now)) }
{
    match entry {
        Entry::Recursive { made, .. } => !*made,
        _ => true,
    }
}

// A name and its closed type.
#[tactic(auto, unfolding(crate::specs::EnvText::typed_text))]
fn put_typed(
    alloc: Global,
    out: &mut Vec<u8>,
    env: &PlainEnv,
    name: &Name,
    ty: &Term,
) -> Result<(), OutOfMemory>
    ensures { OnOk result (out.new.items ≡ out.old.items ++ typed_text (environment_of env.now) name.now (tree_of ty.now)) }
{
    put(out, name.as_bytes())?;
    put(out, b" : ")?;
    put_under(alloc, out, env, &[], ty)
}

fn put_axiom(
    alloc: Global,
    out: &mut Vec<u8>,
    env: &PlainEnv,
    name: &Name,
    ty: &Term,
) -> Result<(), OutOfMemory>
    ensures { OnOk result (out.new.items ≡ out.old.items ++ entry_text (environment_of env.now) (Axiom name.now (tree_of ty.now))) }
{
    put(out, b"axiom ")?;
    put_typed(alloc, out, env, name, ty)?;
    put(out, b".\n")
}

fn put_definition(
    alloc: Global,
    out: &mut Vec<u8>,
    env: &PlainEnv,
    name: &Name,
    ty: &Term,
    body: &Term,
) -> Result<(), OutOfMemory>
    ensures { OnOk result (out.new.items ≡ out.old.items ++ entry_text (environment_of env.now) (Definition name.now (tree_of ty.now) (tree_of body.now))) }
{
    put(out, b"definition ")?;
    put_typed(alloc, out, env, name, ty)?;
    put(out, b" \xe2\x89\x9d ")?;
    put_under(alloc, out, env, &[], body)?;
    put(out, b".\n")
}

fn inductive_word(co: bool) -> &'static [u8]
    ensures { result.now ≡ inductive_word co }
{
    if co { b"coinductive " } else { b"inductive " }
}

// The type under its parameters, and the types of constructors under them.
fn parts_of_inductive<'a>(
    alloc: Global,
    params: usize,
    ty: &'a Term,
    cons: &'a Cons,
) -> Result<Vec<&'a Term>, OutOfMemory>
    ensures { IfOk result (λ parts. trees_behind parts.items ≡ inductive_parts params (tree_of ty.now) cons.now) }
{
    let mut parts = Vec::new(alloc);
    parts.push(under_binders(params, ty, MAX_DEPTH)?)?;
    for k in 0..cons.len() {
        put_part(&mut parts, params, cons, k)?;
    }
    Ok(parts)
}

// The type of constructor `k` under the parameters, as one more part.
fn put_part<'a>(
    parts: &mut Vec<&'a Term>,
    params: usize,
    cons: &'a Cons,
    k: usize,
) -> Result<(), OutOfMemory>
    ensures { OnOk result (trees_behind parts.new.items ≡ trees_behind parts.old.items ++ held (constructor_part params) (slice_get cons.now k)) }
{
    if let Some(constructor) = cons.get(k) {
        parts.push(under_binders(params, &constructor.ty, MAX_DEPTH)?)?;
    }
    Ok(())
}

fn put_inductive(
    alloc: Global,
    out: &mut Vec<u8>,
    env: &PlainEnv,
    name: &Name,
    co: bool,
    params: usize,
    ty: &Term,
    cons: &Cons,
) -> Result<(), OutOfMemory>
    ensures { OnOk result (out.new.items ≡ out.old.items ++ inductive_text (environment_of env.now) name.now co params (tree_of ty.now) cons.now) }
{
    put(out, inductive_word(co))?;
    put(out, name.as_bytes())?;
    let hyps = leading(alloc, params, ty)?;
    let parts = parts_of_inductive(alloc, params, ty, cons)?;
    let names = put_telescope(alloc, out, env, Style::Groups, &hyps, &parts)?;
    put_inductive_under(alloc, out, env, &names, params, ty, cons)?;
    put(out, b".\n")
}

// What stands after the parameters of an inductive type.
fn put_inductive_under(
    alloc: Global,
    out: &mut Vec<u8>,
    env: &PlainEnv,
    names: &Names,
    params: usize,
    ty: &Term,
    cons: &Cons,
) -> Result<(), OutOfMemory>
    ensures { OnOk result (out.new.items ≡ out.old.items ++ inductive_under (environment_of env.now) names.now params (tree_of ty.now) cons.now) }
{
    put(out, b" : ")?;
    let kind = under_binders(params, ty, MAX_DEPTH)?;
    put_under(alloc, out, env, names.as_slice(), kind)?;
    put(out, b" \xe2\x89\x9d")?;
    put_constructors(alloc, out, env, names, params, cons)
}

fn put_constructors(
    alloc: Global,
    out: &mut Vec<u8>,
    env: &PlainEnv,
    names: &Names,
    params: usize,
    cons: &Cons,
) -> Result<(), OutOfMemory>
    ensures { OnOk result (out.new.items ≡ out.old.items ++ constructors_text (environment_of env.now) names.now params cons.now) }
{
    for k in 0..cons.len() {
        put_constructor(alloc, out, env, names, params, cons, k)?;
    }
    Ok(())
}

// Constructor `k` and its type.
fn put_constructor(
    alloc: Global,
    out: &mut Vec<u8>,
    env: &PlainEnv,
    names: &Names,
    params: usize,
    cons: &Cons,
    k: usize,
) -> Result<(), OutOfMemory>
    ensures { OnOk result (out.new.items ≡ out.old.items ++ held (constructor_text (environment_of env.now) names.now params) (slice_get cons.now k)) }
{
    match cons.get(k) {
        Some(constructor) => {
            put(out, b" | ")?;
            put(out, constructor.name.as_bytes())?;
            put(out, b" : ")?;
            let kind = under_binders(params, &constructor.ty, MAX_DEPTH)?;
            put_under(alloc, out, env, names.as_slice(), kind)
        }
        None => Ok(()),
    }
}

fn recursive_word(co: bool) -> &'static [u8]
    ensures { result.now ≡ recursive_word co }
{
    if co { b"let corec " } else { b"let rec " }
}

fn put_recursive(
    alloc: Global,
    out: &mut Vec<u8>,
    env: &PlainEnv,
    name: &Name,
    co: bool,
    binders: usize,
    place: usize,
    ty: &Term,
    body: &Term,
) -> Result<(), OutOfMemory>
    ensures { OnOk result (out.new.items ≡ out.old.items ++ recursive_text (environment_of env.now) name.now co binders place (tree_of ty.now) (tree_of body.now)) }
{
    put(out, recursive_word(co))?;
    put(out, name.as_bytes())?;
    let hyps = leading(alloc, binders, ty)?;
    let kind = under_binders(binders, ty, MAX_DEPTH)?;
    let inner = under_binders(binders, body, MAX_DEPTH)?;
    let names = put_telescope(alloc, out, env, Style::Groups, &hyps, &[kind, inner])?;
    put_recursive_rest(alloc, out, env, &names, co, place, kind, inner)?;
    put(out, b".\n")
}

// What stands after the binders of a recursive function.
#[tactic(auto, unfolding(crate::specs::EnvText::recursive_rest))]
fn put_recursive_rest(
    alloc: Global,
    out: &mut Vec<u8>,
    env: &PlainEnv,
    names: &Names,
    co: bool,
    place: usize,
    kind: &Term,
    inner: &Term,
) -> Result<(), OutOfMemory>
    ensures { OnOk result (out.new.items ≡ out.old.items ++ recursive_rest (environment_of env.now) names.now co place (tree_of kind.now) (tree_of inner.now)) }
{
    put_place(out, co, names, place)?;
    put(out, b" : ")?;
    put_under(alloc, out, env, names.as_slice(), kind)?;
    put(out, b" \xe2\x89\x9d ")?;
    put_under(alloc, out, env, names.as_slice(), inner)
}

// The recursive place.
fn put_place(out: &mut Vec<u8>, co: bool, names: &Names, place: usize) -> Result<(), OutOfMemory>
    ensures { OnOk result (out.new.items ≡ out.old.items ++ place_text co names.now place) }
{
    if co {
        return Ok(());
    }
    put(out, b" on ")?;
    put(out, name_at(names, place))
}
