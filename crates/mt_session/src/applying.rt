// What an accepted unit makes of the state.
ghost use Rattle.std.specs.Prelude.{◌≡◌, ℕ, ◌+◌, ◌<◌, ◌++◌, ◌∷◌, [], List, length, None, is_some, slice_get, true, OnOk, IfOk, IfSome};
ghost use Rattle.mt_term.specs.EntryOf.{declaration_of};
ghost use Rattle.mt_term.specs.EnvironmentOf.{environment_of};
ghost use Rattle.mt_term.specs.Trees.{Tree};
ghost use Rattle.mt_term.specs.TreeOf.{tree_of};
ghost use Rattle.mt_env.specs.Environments.{IsAdded, declarations_in};
ghost use Rattle.mt_env.specs.Names.{Distinct};
ghost use Rattle.mt_pool.specs.Region.{Kept};
ghost use Rattle.mt_term.specs.Declarations.{Definition};
ghost use Rattle.mt_term.specs.Naming.{naming};
ghost use Rattle.mt_universe.specs.Graphs.{declared};
ghost use Rattle.mt_session.specs.Ready.{IsTaskOf};
ghost use Rattle.mt_session.specs.Sessions.{AreTables, meta_in, proof_in, state_in, store_in, task_of};
ghost use Rattle.mt_session.specs.Tasks.{Begin, Close, Finish, Order, Rest, changed, with_body, with_entry_noted, without_goal};
ghost use Rattle.mt_term.specs.States.{Metavariable};

use crate::sessions::{OpenProof, Session};
use crate::tasks::Task;
use mt_env::{Env, EnvStop};
use mt_pool::Pool;
use mt_term::{Entry, Hyps, Metas, Name, Names, Note, OutOfMemory, PlainEnv, PlainMeta, Term};
use mt_universe::Graph;
use std::alloc::Global;
use std::clone::Clone;

/// The state after an accepted unit, which ends at a place.
pub fn apply(
    alloc: Global,
    session: &mut Session,
    end: usize,
    task: Task,
) -> Result<(), OutOfMemory>
    requires tables { AreTables session.old }
    requires fits { IsTaskOf (state_in session.old) (task_of task) }
    requires room { session.old.units < end }
    ensures state { OnOk result (state_in session.new ≡ changed (state_in session.old) end (task_of task)) }
    ensures tables { OnOk result (AreTables session.new) }
    ensures place { OnOk result (session.new.place ≡ end) }
    ensures units { OnOk result (session.new.units ≡ session.old.units + 1) }
{
    match task {
        Task::Order(low, high) => order(alloc, session, end, low, high),
        Task::Begin(name, ty) => {
            begin(session, end, name, ty);
            Ok(())
        }
        Task::Close(_, _, term) => {
            close(session, end, term);
            Ok(())
        }
        Task::Rest => {
            rest(session, end);
            Ok(())
        }
        Task::Finish(name, ty, body) => finish(alloc, session, end, name, ty, body),
    }
}

// One more unit was accepted.
fn rest(session: &mut Session, end: usize)
    requires tables { AreTables session.old }
    requires room { session.old.units < end }
    ensures state { state_in session.new ≡ changed (state_in session.old) end Rest }
    ensures tables { AreTables session.new }
    ensures place { session.new.place ≡ end }
    ensures units { session.new.units ≡ session.old.units + 1 }
{
    session.units += 1;
    session.place = end;
}

fn begin(session: &mut Session, end: usize, name: Name, ty: Term)
    requires tables { AreTables session.old }
    requires outside { (state_in session.old).proof ≡ None }
    requires room { session.old.units < end }
    ensures state { state_in session.new ≡ changed (state_in session.old) end (Begin name (tree_of ty)) }
    ensures tables { AreTables session.new }
    ensures place { session.new.place ≡ end }
    ensures units { session.new.units ≡ session.old.units + 1 }
{
    session.proof = Some(OpenProof {
        name,
        ty,
        body: None,
    });
    session.units += 1;
    session.place = end;
}

// The goal of the open proof is closed by a term.
fn close(session: &mut Session, end: usize, term: Term)
    requires tables { AreTables session.old }
    requires room { session.old.units < end }
    ensures state { (T : Tree) → state_in session.new ≡ changed (state_in session.old) end (Close (length session.old.metas) T (tree_of term)) }
    ensures tables { AreTables session.new }
    ensures place { session.new.place ≡ end }
    ensures units { session.new.units ≡ session.old.units + 1 }
{
    session.proof = with_term(session.proof.take(), term);
    session.units += 1;
    session.place = end;
}

// The open proof, with this term.
fn with_term(proof: Option<OpenProof>, term: Term) -> Option<OpenProof>
    ensures proof { (n : ℕ) → proof_in n result ≡ without_goal (proof_in n proof) }
    ensures store { (ms : List Metavariable) → store_in ms result ≡ with_body (length ms) (tree_of term) (store_in ms proof) }
{
    match proof {
        None => None,
        Some(begun) => Some(OpenProof {
            name: begun.name,
            ty: begun.ty,
            body: Some(term),
        }),
    }
}

/// Adds an entry.
pub fn enter(
    alloc: Global,
    session: &mut Session,
    end: usize,
    entry: Entry,
) -> Result<(), OutOfMemory>
    requires tables { AreTables session.old }
    requires outside { (state_in session.old).proof ≡ None }
    requires names { Distinct (naming (session.old.env.entries ++ declaration_of entry ∷ [])) }
    requires room { session.old.units < end }
    ensures state { OnOk result (state_in session.new ≡ with_entry_noted (state_in session.old) end (declaration_of entry)) }
    ensures tables { OnOk result (AreTables session.new) }
    ensures place { OnOk result (session.new.place ≡ end) }
    ensures units { OnOk result (session.new.units ≡ session.old.units + 1) }
{
    let number = session.env.entries.len();
    session.names.add(alloc, number, &entry)?;
    hold(alloc, &mut session.pool, &mut session.held, &entry)?;
    session.env.entries.push(entry)?;
    session.notes.push(Note::Entry(number))?;
    session.units += 1;
    session.place = end;
    Ok(())
}

// Adds an entry to those in the pool. None of its names is in use.
fn hold(alloc: Global, pool: &mut Pool, held: &mut Env, entry: &Entry) -> Result<(), OutOfMemory>
    requires { Distinct (naming (declarations_in [] held.old.entries ++ declaration_of entry.now ∷ [])) }
    ensures kept { Kept pool.old pool.new }
    ensures added { OnOk result (IsAdded held.old held.new pool.new (declaration_of entry.now)) }
{
    match held.add(alloc, pool, entry) {
        Ok(_) => Ok(()),
        Err(EnvStop::Taken) => unreachable!(),
        Err(EnvStop::OutOfMemory) => Err(OutOfMemory),
    }
}

// The open proof ends: its metavariable stays, and its entry comes.
fn finish(
    alloc: Global,
    session: &mut Session,
    end: usize,
    name: Name,
    ty: Term,
    body: Term,
) -> Result<(), OutOfMemory>
    requires tables { AreTables session.old }
    requires names { Distinct (naming (session.old.env.entries ++ Definition name (tree_of ty) (tree_of body) ∷ [])) }
    requires room { session.old.units < end }
    ensures state { OnOk result (state_in session.new ≡ changed (state_in session.old) end (Finish name (tree_of ty) (tree_of body))) }
    ensures tables { OnOk result (AreTables session.new) }
    ensures place { OnOk result (session.new.place ≡ end) }
    ensures units { OnOk result (session.new.units ≡ session.old.units + 1) }
{
    let proof = session.proof.take();
    keep_meta(alloc, &mut session.metas, proof)?;
    enter(alloc, session, end, Entry::Definition { name, ty, body })
}

// The metavariable of a proof that ended comes after those of earlier ones.
fn keep_meta(alloc: Global, metas: &mut Metas, proof: Option<OpenProof>) -> Result<(), OutOfMemory>
    ensures { OnOk result (metas.new ≡ store_in metas.old proof) }
{
    match proof {
        None => Ok(()),
        Some(begun) => metas.push(PlainMeta {
            context: Hyps::new(alloc),
            ty: begun.ty,
            body: begun.body,
        }),
    }
}

fn order(
    alloc: Global,
    session: &mut Session,
    end: usize,
    low: Name,
    high: Name,
) -> Result<(), OutOfMemory>
    requires tables { AreTables session.old }
    requires room { session.old.units < end }
    ensures state { OnOk result (state_in session.new ≡ changed (state_in session.old) end (Order low high)) }
    ensures tables { OnOk result (AreTables session.new) }
    ensures place { OnOk result (session.new.place ≡ end) }
    ensures units { OnOk result (session.new.units ≡ session.old.units + 1) }
{
    let number = session.held.graph().count();
    declare(&mut session.held, low, high)?;
    constrain(alloc, &mut session.env, session.held.graph(), number)?;
    session.notes.push(Note::Constraint(number))?;
    session.units += 1;
    session.place = end;
    Ok(())
}

// A constraint that was tried before: it is refused by nothing but want of memory.
fn declare(held: &mut Env, low: Name, high: Name) -> Result<(), OutOfMemory>
    ensures { OnOk result (held.new ≡ record held.old { graph = declared held.old.graph low high }) }
{
    match held.constrain(low, high) {
        Ok(()) => Ok(()),
        Err(_) => Err(OutOfMemory),
    }
}

// The names of a graph and its constraint of a number, which is the next one of the environment.
fn constrain(
    alloc: Global,
    env: &mut PlainEnv,
    graph: &Graph,
    number: usize,
) -> Result<(), OutOfMemory>
    ensures entries { env.new.entries ≡ env.old.entries }
    ensures names { OnOk result (env.new.names ≡ graph.now.names) }
    ensures below { OnOk result (IfSome (slice_get graph.now.below number) (λ c. env.new.below ≡ env.old.below ++ c ∷ [])) }
{
    match graph.below().get(number) {
        None => Err(OutOfMemory),
        Some(pair) => {
            env.names = copy_names(alloc, graph.names())?;
            env.below.push(*pair)
        }
    }
}

fn copy_names(alloc: Global, names: &[Name]) -> Result<Names, OutOfMemory>
    ensures { IfOk result (λ copy. copy ≡ names.now) }
{
    let mut copy = Names::new(alloc);
    for name in names {
        copy.push(name.clone()?)?;
    }
    Ok(copy)
}
