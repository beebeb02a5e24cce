// Environments with more entries at their end.
ghost use Rattle.std.specs.Prelude.{◌≡◌, ◌++◌, ◌∷◌, [], IfOk, OnOk, slice_get, take};
ghost use Rattle.mt_protocol.specs.Copies.{held, alone};
ghost use Rattle.mt_protocol.specs.Replies.{followed_by};
ghost use Rattle.mt_term.specs.EntryOf.{declaration_of};
ghost use Rattle.mt_term.specs.EnvironmentOf.{environment_of};

use mt_term::{Cons, Constructor, Entries, Entry, Names, OutOfMemory, Pairs, PlainEnv, copy};
use std::alloc::Global;
use std::clone::Clone;

/// A copy of an environment followed by copies of entries.
pub fn followed_by(alloc: Global, env: &PlainEnv, known: &Entries) -> Result<PlainEnv, OutOfMemory>
    ensures { IfOk result (λ e. environment_of e ≡ followed_by (environment_of env.now) known.now) }
{
    let mut entries = Entries::new(alloc);
    put_entries(alloc, &mut entries, &env.entries)?;
    put_entries(alloc, &mut entries, known)?;
    let names = env.names.clone()?;
    let below = copied_pairs(alloc, &env.below)?;
    Ok(PlainEnv {
        entries,
        names,
        below,
    })
}

fn put_entries(alloc: Global, to: &mut Entries, from: &Entries) -> Result<(), OutOfMemory>
    ensures { OnOk result (to.new ≡ to.old ++ from.now) }
{
    for n in 0..from.len() {
        put_entry(alloc, to, from, n)?;
    }
    Ok(())
}

// The entry at a place, copied.
fn put_entry(alloc: Global, to: &mut Entries, from: &Entries, n: usize) -> Result<(), OutOfMemory>
    ensures { OnOk result (to.new ≡ to.old ++ held alone (slice_get from.now n)) }
{
    if let Some(entry) = from.get(n) {
        to.push(copied(alloc, entry)?)?;
    }
    Ok(())
}

fn copied(alloc: Global, entry: &Entry) -> Result<Entry, OutOfMemory>
    ensures { IfOk result (λ e. declaration_of e ≡ declaration_of entry.now) }
{
    match entry {
        Entry::Axiom { name, ty } => {
            let name = name.clone()?;
            let ty = copy(alloc, ty)?;
            Ok(Entry::Axiom { name, ty })
        }
        Entry::Definition { name, ty, body } => {
            let name = name.clone()?;
            let ty = copy(alloc, ty)?;
            let body = copy(alloc, body)?;
            Ok(Entry::Definition { name, ty, body })
        }
        Entry::Inductive {
            name,
            co,
            params,
            ty,
            cons,
            large,
        } => {
            let name = name.clone()?;
            let ty = copy(alloc, ty)?;
            let cons = copied_constructors(alloc, cons)?;
            Ok(Entry::Inductive {
                name,
                co: *co,
                params: *params,
                ty,
                cons,
                large: *large,
            })
        }
        Entry::Recursive {
            name,
            co,
            binders,
            place,
            ty,
            body,
            made,
        } => {
            let name = name.clone()?;
            let ty = copy(alloc, ty)?;
            let body = copy(alloc, body)?;
            Ok(Entry::Recursive {
                name,
                co: *co,
                binders: *binders,
                place: *place,
                ty,
                body,
                made: *made,
            })
        }
    }
}

fn copied_constructors(alloc: Global, cons: &Cons) -> Result<Cons, OutOfMemory>
    ensures { IfOk result (λ c. c ≡ cons.now) }
{
    let mut answer = Cons::new(alloc);
    for n in 0..cons.len() {
        put_constructor(alloc, &mut answer, cons, n)?;
    }
    Ok(answer)
}

// The constructor at a place, copied.
fn put_constructor(alloc: Global, to: &mut Cons, from: &Cons, n: usize) -> Result<(), OutOfMemory>
    ensures { OnOk result (to.new ≡ to.old ++ held alone (slice_get from.now n)) }
{
    if let Some(constructor) = from.get(n) {
        let name = constructor.name.clone()?;
        let ty = copy(alloc, &constructor.ty)?;
        to.push(Constructor { name, ty })?;
    }
    Ok(())
}

fn copied_pairs(alloc: Global, pairs: &Pairs) -> Result<Pairs, OutOfMemory>
    ensures { IfOk result (λ p. p ≡ pairs.now) }
{
    let mut answer = Pairs::new(alloc);
    for n in 0..pairs.len() {
        put_pair(&mut answer, pairs, n)?;
    }
    Ok(answer)
}

fn put_pair(to: &mut Pairs, from: &Pairs, n: usize) -> Result<(), OutOfMemory>
    ensures { OnOk result (to.new ≡ to.old ++ held alone (slice_get from.now n)) }
{
    if let Some(pair) = from.get(n) {
        to.push(*pair)?;
    }
    Ok(())
}
