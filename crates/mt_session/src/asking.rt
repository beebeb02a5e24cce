// What a unit asks for in a state that declares no entry: its conditions and names in their order.
ghost use Rattle.std.specs.Prelude.{◌≡◌, ℕ, length, Some, IfOk, IfErr, OnOk};
ghost use Rattle.mt_universe.specs.Graphs.{IsGraph, declared};
ghost use Rattle.mt_universe.specs.Refusals.{IsRefusedBy};
ghost use Rattle.mt_term.specs.Declarations.{Environment};
ghost use Rattle.mt_term.specs.EnvironmentOf.{environment_of};
ghost use Rattle.mt_term.specs.TreeOf.{tree_of};
ghost use Rattle.mt_term_parser.specs.WrittenOf.{written_of};
ghost use Rattle.mt_unit_parser.specs.UnitOf.{deed_of, kind_of, tiny_of};
ghost use Rattle.mt_unit_parser.specs.WrittenUnits.{Theorem as WrittenTheorem, Constraint as WrittenConstraint};
ghost use Rattle.mt_resolver.specs.Resolution.{resolved};
ghost use Rattle.mt_resolver.specs.Resolves.{Resolves};
ghost use Rattle.mt_resolver.specs.TableOf.{AreNamesOf};
ghost use Rattle.mt_session.specs.Plans.{asked, asked_by_command, asked_by_deed, asked_by_proof, asked_by_step, closed_by, closed_term, costs_in, declares, extra_name, finished, fresh, is_action, is_declaring, ordered, takes_charge};
ghost use Rattle.mt_session.specs.Ready.{SoundState, goals_of};
ghost use Rattle.mt_session.specs.Sessions.{AreTables, opened, proof_in, state_in, task_of};
ghost use Rattle.mt_session.specs.Tasks.{universes_of};

use crate::forms::is_built_kind;
use crate::sessions::{OpenProof, Session};
use crate::tasks::Task;
use mt_resolver::{Scope, Table, resolve};
use mt_term::{Fault, Halt, Name, OutOfMemory, PlainEnv, Refusal, Term, copy};
use mt_term_parser::Raw;
use mt_tiny::Tiny;
use mt_unit_parser::{Action, ActionShape, UnitKind};
use mt_universe::{Graph, GraphStop};
use std::alloc::{AllocError, Global};
use std::clone::Clone;

/// What a unit asks for that declares no entry.
///
/// # Errors
///
/// `NotHere` where it is not built or may not stand there; then `Taken`, `Cycle`, `NoGoal`,
/// `OpenMetas` and `Unbound` in the order written.
pub fn ask(alloc: Global, session: &Session, at: usize, kind: &UnitKind) -> Result<Task, Halt>
    requires tables { AreTables session.now }
    requires sound { SoundState (state_in session.now) }
    ensures { Resolves task_of (asked (state_in session.now) at (kind_of kind.now)) result }
{
    if !is_built_kind(kind)? {
        return Err(refusal_at(Refusal::NotHere, at));
    }
    match &session.proof {
        None => asked_by_command(alloc, session, at, kind),
        Some(begun) => asked_by_proof(alloc, session, begun, at, kind),
    }
}

fn refusal_at(refusal: Refusal, at: usize) -> Halt
    ensures { result ≡ Halt.Refused (record { refusal = refusal; at = at }) }
{
    Halt::Refused(Fault { refusal, at })
}

/// Whether a unit takes a charge before all else: an action, where a goal is open.
pub fn takes_charge(session: &Session, kind: &UnitKind) -> Result<bool, OutOfMemory>
    ensures { IfOk result (λ b. b ≡ takes_charge (state_in session.now).proof (kind_of kind.now)) }
{
    Ok(is_built_kind(kind)? && is_action(kind) && has_goal(&session.proof))
}

fn is_action(kind: &UnitKind) -> bool
    ensures { result ≡ is_action (kind_of kind.now) }
{
    matches!(kind, UnitKind::Step(Tiny::Action(_)))
}

fn has_goal(proof: &Option<OpenProof>) -> bool
    ensures { (n : ℕ) → result ≡ costs_in (proof_in n proof.now) }
{
    match proof {
        None => false,
        Some(begun) => begun.body.is_none(),
    }
}

/// Whether a unit declares an entry: one that is built, outside a proof.
pub fn declares(session: &Session, kind: &UnitKind) -> Result<bool, OutOfMemory>
    ensures { IfOk result (λ b. b ≡ declares (state_in session.now).proof (kind_of kind.now)) }
{
    match &session.proof {
        None => Ok(is_built_kind(kind)? && is_declaring(kind)),
        Some(_) => Ok(false),
    }
}

fn is_declaring(kind: &UnitKind) -> bool
    ensures { result ≡ is_declaring (kind_of kind.now) }
{
    match kind {
        UnitKind::Axiom(..)
        | UnitKind::Definition(..)
        | UnitKind::Inductive { .. }
        | UnitKind::Recursive { .. } => true,
        UnitKind::Constraint(..)
        | UnitKind::Hint { .. }
        | UnitKind::Coercion(_)
        | UnitKind::Theorem(..)
        | UnitKind::Qed
        | UnitKind::Step(_)
        | UnitKind::Block(_) => false,
    }
}

// ---- commands

fn asked_by_command(
    alloc: Global,
    session: &Session,
    at: usize,
    kind: &UnitKind,
) -> Result<Task, Halt>
    requires { AreTables session.now }
    ensures { Resolves task_of (asked_by_command (environment_of session.now.env) at (kind_of kind.now)) result }
{
    match kind {
        UnitKind::Constraint(low, high) => asked_order(session.held.graph(), at, low, high),
        UnitKind::Theorem(name, ty) => asked_theorem(alloc, session, at, name, ty),
        _ => Err(refusal_at(Refusal::NotHere, at)),
    }
}

fn asked_theorem(
    alloc: Global,
    session: &Session,
    at: usize,
    name: &Name,
    ty: &Raw,
) -> Result<Task, Halt>
    requires { AreTables session.now }
    ensures { Resolves task_of (asked_by_command (environment_of session.now.env) at (WrittenTheorem name.now (written_of ty.now))) result }
{
    check_fresh(session, name, at)?;
    let ty = closed_term(alloc, session, ty)?;
    Ok(Task::Begin(name.clone()?, ty))
}

// The name of an entry that is to come is in use by none.
fn check_fresh(session: &Session, name: &Name, at: usize) -> Result<(), Halt>
    requires { AreTables session.now }
    ensures { Resolves (λ z. z) (fresh (environment_of session.now.env) name.now at) result }
{
    match session.names.find(name.as_bytes()) {
        None => Ok(()),
        Some(_) => Err(refusal_at(Refusal::Taken(name.clone()?), at)),
    }
}

// A closed term by its names.
fn closed_term(alloc: Global, session: &Session, raw: &Raw) -> Result<Term, Halt>
    requires { AreTables session.now }
    ensures { Resolves tree_of (closed_term (environment_of session.now.env) (written_of raw.now)) result }
{
    resolve(alloc, &session.env, &session.names, &Scope::Empty, raw)
}

fn asked_order(graph: &Graph, at: usize, low: &Name, high: &Name) -> Result<Task, Halt>
    ensures { (E : Environment) → graph.now ≡ universes_of E → Resolves task_of (asked_by_command E at (WrittenConstraint low.now high.now)) result }
{
    match tried_order(graph, low, high) {
        Ok(()) => Ok(Task::Order(low.clone()?, high.clone()?)),
        Err(GraphStop::TooMany) => Err(refusal_at(
            Refusal::Taken(extra_name(graph, low, high)?),
            at,
        )),
        Err(GraphStop::Cycle) => Err(refusal_at(Refusal::Cycle, at)),
        Err(GraphStop::OutOfMemory) => Err(Halt::OutOfMemory),
    }
}

// A constraint, tried on a copy of the graph.
fn tried_order(graph: &Graph, low: &Name, high: &Name) -> Result<(), GraphStop>
    ensures ok { OnOk result (IsGraph (declared graph.now low.now high.now)) }
    ensures err { IfErr result (λ e. IsRefusedBy e (declared graph.now low.now high.now)) }
{
    let mut tried = graph.clone()?;
    tried.declare(low.clone()?, high.clone()?)
}

// The name that would be the 257th.
fn extra_name(graph: &Graph, low: &Name, high: &Name) -> Result<Name, OutOfMemory>
    ensures { IfOk result (λ x. x ≡ extra_name graph.now.names low.now high.now) }
{
    match graph.number(low) {
        None if 256 <= graph.names().len() => low.clone(),
        _ => high.clone(),
    }
}

// ---- proofs

fn asked_by_proof(
    alloc: Global,
    session: &Session,
    begun: &OpenProof,
    at: usize,
    kind: &UnitKind,
) -> Result<Task, Halt>
    requires tables { AreTables session.now }
    requires sound { SoundState (state_in session.now) }
    requires begun { session.now.proof ≡ Some begun.now }
    ensures { Resolves task_of (asked_by_proof (state_in session.now) (opened (length session.now.metas) begun.now) at (kind_of kind.now)) result }
{
    match kind {
        UnitKind::Step(step) => asked_by_step(alloc, session, begun, at, step),
        UnitKind::Qed => end_of_proof(alloc, session, begun, at),
        _ => Err(refusal_at(Refusal::NotHere, at)),
    }
}

fn asked_by_step(
    alloc: Global,
    session: &Session,
    begun: &OpenProof,
    at: usize,
    step: &Tiny<Action>,
) -> Result<Task, Halt>
    requires { AreTables session.now }
    ensures { Resolves task_of (asked_by_step (state_in session.now) (opened (length session.now.metas) begun.now) at (tiny_of step.now)) result }
{
    match step {
        Tiny::Action(action) => asked_by_deed(alloc, session, begun, at, &action.shape),
        Tiny::Dot => Ok(Task::Rest),
        _ => Err(refusal_at(Refusal::NotHere, at)),
    }
}

fn asked_by_deed(
    alloc: Global,
    session: &Session,
    begun: &OpenProof,
    at: usize,
    deed: &ActionShape,
) -> Result<Task, Halt>
    requires { AreTables session.now }
    ensures { Resolves task_of (asked_by_deed (state_in session.now) (opened (length session.now.metas) begun.now) at (deed_of deed.now)) result }
{
    match deed {
        ActionShape::Exact(term) => closed_by(alloc, session, begun, at, term),
        _ => Err(refusal_at(Refusal::NotHere, at)),
    }
}

// The goal, closed by a term.
fn closed_by(
    alloc: Global,
    session: &Session,
    begun: &OpenProof,
    at: usize,
    term: &Raw,
) -> Result<Task, Halt>
    requires { AreTables session.now }
    ensures { let p = opened (length session.now.metas) begun.now in
        Resolves task_of (closed_by (state_in session.now) p at p.goals (written_of term.now)) result }
{
    match &begun.body {
        Some(_) => Err(refusal_at(Refusal::NoGoal, at)),
        None => {
            let term = closed_term(alloc, session, term)?;
            let ty = copy(alloc, &begun.ty)?;
            Ok(Task::Close(session.metas.len(), ty, term))
        }
    }
}

// The proof as an entry, where its goal is closed.
fn end_of_proof(
    alloc: Global,
    session: &Session,
    begun: &OpenProof,
    at: usize,
) -> Result<Task, Halt>
    requires sound { SoundState (state_in session.now) }
    requires begun { session.now.proof ≡ Some begun.now }
    ensures { let p = opened (length session.now.metas) begun.now in
        Resolves task_of (finished (state_in session.now) p at p.goals) result }
{
    match &begun.body {
        None => Err(refusal_at(Refusal::OpenMetas, at)),
        Some(term) => {
            let name = begun.name.clone()?;
            let ty = copy(alloc, &begun.ty)?;
            let body = copy(alloc, term)?;
            Ok(Task::Finish(name, ty, body))
        }
    }
}
