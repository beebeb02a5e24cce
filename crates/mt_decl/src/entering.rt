// An entry that the environment knows for a while.
ghost use Rattle.std.specs.Prelude.{◌≡◌, take, OnOk};
ghost use Rattle.mt_decl.specs.Growing.{Grows};
ghost use Rattle.mt_resolver.specs.TableOf.{AreNamesOf, Extends};
ghost use Rattle.mt_term.specs.EntryOf.{declaration_of};
ghost use Rattle.mt_term.specs.EnvironmentOf.{environment_of};
ghost use Rattle.mt_calculus.specs.SoundEnvironment.{before, with_entry};

use mt_resolver::Table;
use mt_term::{Entry, OutOfMemory, PlainEnv};
use std::alloc::Global;

/// An entry that is known from here on. Where memory is wanting, the environment and its names have
/// grown by no more than that.
#[tactic(auto, using(crate::proofs::GrowingRules::growing_rules, mt_resolver::proofs::Tables::table_rules))]
pub fn enter(
    alloc: Global,
    env: &mut PlainEnv,
    names: &mut Table,
    entry: Entry,
) -> Result<(), OutOfMemory>
    requires { AreNamesOf names.old env.old.entries }
    ensures known { OnOk result (environment_of env.new ≡ with_entry (environment_of env.old) (declaration_of entry)) }
    ensures named { OnOk result (AreNamesOf names.new env.new.entries) }
    ensures env { Grows (environment_of env.old) (environment_of env.new) }
    ensures names { Extends names.old names.new }
{
    let number = env.entries.len();
    names.add(alloc, number, &entry)?;
    env.entries.push(entry)?;
    Ok(())
}

/// Goes back to the oldest entries and the oldest names.
pub fn leave(env: &mut PlainEnv, names: &mut Table, entries: usize, known: usize)
    ensures env { environment_of env.new ≡ before (environment_of env.old) entries }
    ensures names { names.new ≡ take known names.old }
{
    env.entries.truncate(entries);
    names.truncate(known);
}
