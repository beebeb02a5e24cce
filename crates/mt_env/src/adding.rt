// The names of a new entry.
ghost use Rattle.std.specs.Prelude.{◌≡◌, [], ◌∷◌, ◌++◌, length, take, IfErr, OnOk, OnErr};
ghost use Rattle.mt_term.specs.EntryOf.{declaration_of};
ghost use Rattle.mt_term.specs.Naming.{naming_entry, naming_constructors};
ghost use Rattle.mt_env.specs.Names.{term_of, Distinct};
ghost use Rattle.mt_env.specs.Refusals.{AreRefusedBy};

use crate::refs::Ref;
use crate::stops::EnvStop;
use crate::table::Table;
use mt_term::{Cons, Entry};
use std::alloc::Global;

// Adds a name if it is not in use.
#[tactic(auto, using(crate::proofs::NameLaws::distinct_more))]
fn enter_name(alloc: Global, table: &mut Table, name: &[u8], r: Ref) -> Result<(), EnvStop>
    requires { Distinct table.old }
    ensures ok { OnOk result (table.new ≡ table.old ++ (name.now, term_of r) ∷ []) }
    ensures distinct { OnOk result (Distinct table.new) }
    ensures err { OnErr result (table.new ≡ table.old) }
    ensures cause { IfErr result (λ e. AreRefusedBy e table.old ((name.now, term_of r) ∷ [])) }
{
    match table.find(name) {
        Some(_) => Err(EnvStop::Taken),
        None => Ok(table.insert(alloc, name, r)?),
    }
}

// Adds the names of constructors. Some of them may stay where one is refused.
#[tactic(auto, using(crate::proofs::EnteringLaws::entering))]
fn enter_constructors(
    alloc: Global,
    table: &mut Table,
    number: usize,
    cons: &Cons,
) -> Result<(), EnvStop>
    requires { Distinct table.old }
    ensures ok { OnOk result (table.new ≡ table.old ++ naming_constructors number 0 cons.now) }
    ensures distinct { OnOk result (Distinct table.new) }
    ensures err { OnErr result (take (length table.old) table.new ≡ table.old) }
    ensures cause { IfErr result (λ e. AreRefusedBy e table.old (naming_constructors number 0 cons.now)) }
{
    for k in 0..cons.len() {
        let Some(constructor) = cons.get(k) else {
            unreachable!()
        };
        enter_name(
            alloc,
            table,
            constructor.name.as_bytes(),
            Ref::Con(number, k),
        )?;
    }
    Ok(())
}

// Adds the names of an entry. Some of them may stay where one is refused.
#[tactic(auto, using(crate::proofs::EnteringLaws::entering))]
fn enter(alloc: Global, table: &mut Table, number: usize, entry: &Entry) -> Result<(), EnvStop>
    requires { Distinct table.old }
    ensures ok { OnOk result (table.new ≡ table.old ++ naming_entry number (declaration_of entry.now)) }
    ensures distinct { OnOk result (Distinct table.new) }
    ensures err { OnErr result (take (length table.old) table.new ≡ table.old) }
    ensures cause { IfErr result (λ e. AreRefusedBy e table.old (naming_entry number (declaration_of entry.now))) }
{
    match entry {
        Entry::Axiom { name, .. } => {
            enter_name(alloc, table, name.as_bytes(), Ref::Const(number))
        }
        Entry::Definition { name, .. } => {
            enter_name(alloc, table, name.as_bytes(), Ref::Const(number))
        }
        Entry::Recursive { name, .. } => {
            enter_name(alloc, table, name.as_bytes(), Ref::Const(number))
        }
        Entry::Inductive { name, cons, .. } => {
            enter_name(alloc, table, name.as_bytes(), Ref::Ind(number))?;
            enter_constructors(alloc, table, number, cons)
        }
    }
}

// Adds the names of an entry, or none where one is refused.
pub(crate) fn enter_all(
    alloc: Global,
    table: &mut Table,
    number: usize,
    entry: &Entry,
) -> Result<(), EnvStop>
    requires { Distinct table.old }
    ensures ok { OnOk result (table.new ≡ table.old ++ naming_entry number (declaration_of entry.now)) }
    ensures distinct { OnOk result (Distinct table.new) }
    ensures err { OnErr result (table.new ≡ table.old) }
    ensures cause { IfErr result (λ e. AreRefusedBy e table.old (naming_entry number (declaration_of entry.now))) }
{
    let before = table.len();
    match enter(alloc, table, number, entry) {
        Ok(()) => Ok(()),
        Err(stop) => {
            table.truncate(before);
            Err(stop)
        }
    }
}
