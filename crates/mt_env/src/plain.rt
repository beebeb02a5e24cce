// Environments out of the pool.
ghost use Rattle.std.specs.Prelude.{◌≡◌, ◌≤◌, length, IfOk};
ghost use Rattle.mt_term.specs.EntryOf.{declaration_of};
ghost use Rattle.mt_term.specs.EnvironmentOf.{environment_of};
ghost use Rattle.mt_pool.specs.HeldOf.{constructors_in, declaration_in, ConstructorsBelow, HeldBelow};
ghost use Rattle.mt_env.specs.Environments.{back_at, environment_in, declarations_in, EntriesBelow};

use crate::environments::{Env, EnvMark};
use mt_pool::{Held, HeldConstructor, Pool};
use mt_term::{Cons, Constructor, Entries, Entry, Name, Names, OutOfMemory, Pairs, PlainEnv};
use std::alloc::Global;

// Constructors with terms for their types.
#[tactic(auto, using(crate::proofs::PlainLaws::held_at))]
fn plain_constructors(
    alloc: Global,
    pool: &Pool,
    held: &[HeldConstructor],
) -> Result<Cons, OutOfMemory>
    requires { ConstructorsBelow (length pool.now) held.now }
    ensures { IfOk result (λ cons. cons ≡ constructors_in pool.now held.now) }
{
    let mut cons = Cons::new(alloc);
    for constructor in held {
        let name = constructor.name.clone()?;
        let ty = pool.export(alloc, constructor.ty)?;
        cons.push(Constructor { name, ty })?;
    }
    Ok(cons)
}

// An entry with terms in place of ids.
fn plain_entry(alloc: Global, pool: &Pool, held: &Held) -> Result<Entry, OutOfMemory>
    requires { HeldBelow (length pool.now) held.now }
    ensures { IfOk result (λ entry. declaration_of entry ≡ declaration_in pool.now held.now) }
{
    match held {
        Held::Axiom { name, ty } => {
            let name = name.clone()?;
            let ty = pool.export(alloc, *ty)?;
            Ok(Entry::Axiom { name, ty })
        }
        Held::Definition { name, ty, body } => {
            let name = name.clone()?;
            let ty = pool.export(alloc, *ty)?;
            let body = pool.export(alloc, *body)?;
            Ok(Entry::Definition { name, ty, body })
        }
        Held::Inductive {
            name,
            co,
            params,
            ty,
            cons,
            large,
        } => {
            let name = name.clone()?;
            let ty = pool.export(alloc, *ty)?;
            let cons = plain_constructors(alloc, pool, cons.as_slice())?;
            Ok(Entry::Inductive {
                name,
                co: *co,
                params: *params,
                ty,
                cons,
                large: *large,
            })
        }
        Held::Recursive {
            name,
            co,
            binders,
            place,
            ty,
            body,
            made,
        } => {
            let name = name.clone()?;
            let ty = pool.export(alloc, *ty)?;
            let body = pool.export(alloc, *body)?;
            Ok(Entry::Recursive {
                name,
                co: *co,
                binders: *binders,
                place: *place,
                ty,
                body,
                made: *made,
            })
        }
    }
}

#[tactic(auto, using(crate::proofs::PlainLaws::held_at))]
fn plain_entries(alloc: Global, pool: &Pool, held: &[Held]) -> Result<Entries, OutOfMemory>
    requires { EntriesBelow (length pool.now) held.now }
    ensures { IfOk result (λ entries. entries ≡ declarations_in pool.now held.now) }
{
    let mut entries = Entries::new(alloc);
    for entry in held {
        entries.push(plain_entry(alloc, pool, entry)?)?;
    }
    Ok(entries)
}

fn copied_names(alloc: Global, names: &[Name]) -> Result<Names, OutOfMemory>
    ensures { IfOk result (λ copied. copied ≡ names.now) }
{
    let mut copied = Names::new(alloc);
    for name in names {
        copied.push(name.clone()?)?;
    }
    Ok(copied)
}

fn copied_pairs(alloc: Global, pairs: &[(usize, usize)]) -> Result<Pairs, OutOfMemory>
    ensures { IfOk result (λ copied. copied ≡ pairs.now) }
{
    let mut copied = Pairs::new(alloc);
    for pair in pairs {
        copied.push(*pair)?;
    }
    Ok(copied)
}

impl Env {
    /// The environment of a mark as trees.
    #[tactic(auto, using(crate::proofs::PlainLaws::first_below))]
    pub fn plain(&self, alloc: Global, pool: &Pool, mark: &EnvMark) -> Result<PlainEnv, OutOfMemory>
        requires held { EntriesBelow (length pool.now) self.now.entries }
        requires entries { mark.now.entries ≤ length self.now.entries }
        requires constraints { mark.now.constraints ≤ length self.now.graph.below }
        ensures { IfOk result (λ plain. environment_of plain
            ≡ environment_in pool.now (back_at self.now mark.now.entries mark.now.constraints)) }
    {
        let entries = plain_entries(alloc, pool, &self.entries[..mark.entries])?;
        let mut graph = self.graph.clone()?;
        graph.back_to(mark.constraints);
        let names = copied_names(alloc, graph.names())?;
        let below = copied_pairs(alloc, graph.below())?;
        Ok(PlainEnv {
            entries,
            names,
            below,
        })
    }
}
