// The text of an open proof.
ghost use Rattle.std.specs.Prelude.{◌≡◌, ◌++◌, [], slice_get, OnErr, OnOk, IfOk};
ghost use Rattle.mt_printer.specs.EnvText.{held, text_under};
ghost use Rattle.mt_printer.specs.GoalsText.{all_goals_text, each_goal_text, focus_text, goal_text, goals_text, metavariable_text, proof_text, root_text, statement_text};
ghost use Rattle.mt_printer.specs.ScopeOf.{hypotheses_of};
ghost use Rattle.mt_term.specs.EnvironmentOf.{environment_of};
ghost use Rattle.mt_term.specs.Instancing.{instance, instance_part, instances};
ghost use Rattle.mt_term.specs.MetaOf.{metavariable_of};
ghost use Rattle.mt_term.specs.StateOf.{proof_of, state_of};
ghost use Rattle.mt_term.specs.TreeOf.{tree_of};

use crate::bytes::{put, put_number, put_whole};
use crate::instances::instance;
use crate::telescopes::{Style, put_telescope, put_under};
use mt_term::{
    GoalMarks, Hyp, Hyps, Metas, OutOfMemory, PlainEnv, PlainMeta, PlainProof, PlainState, Term,
    Terms,
};
use std::alloc::Global;

/// Appends the part of a state from its line `proof` to before `end`: the statement of the open
/// proof, its goals and its term, all as instances over the store; or that no proof is open.
/// Nothing where memory is wanting.
pub fn put_goals(alloc: Global, out: &mut Vec<u8>, state: &PlainState) -> Result<(), OutOfMemory>
    ensures text { OnOk result (out.new.items ≡ out.old.items ++ goals_text (state_of state.now)) }
    ensures kept { OnErr result (out.new.items ≡ out.old.items) }
{
    let mut text = Vec::new(alloc);
    put_goals_of(alloc, &mut text, state)?;
    put_whole(out, &text)
}

#[tactic(auto, unfolding(crate::specs::GoalsText::goals_text))]
fn put_goals_of(alloc: Global, out: &mut Vec<u8>, state: &PlainState) -> Result<(), OutOfMemory>
    ensures { OnOk result (out.new.items ≡ out.old.items ++ goals_text (state_of state.now)) }
{
    match &state.proof {
        Some(proof) => put_proof(alloc, out, &state.env, &state.store.metas, proof),
        None => put(out, b"proof none\n"),
    }
}

// Appends the text of the instance of a closed term.
fn put_instance(
    alloc: Global,
    out: &mut Vec<u8>,
    env: &PlainEnv,
    metas: &Metas,
    t: &Term,
) -> Result<(), OutOfMemory>
    ensures { OnOk result (out.new.items ≡ out.old.items ++ text_under (environment_of env.now) [] (instance metas.now (tree_of t.now))) }
{
    let t = instance(alloc, metas, t)?;
    put_under(alloc, out, env, &[], &t)
}

fn put_proof(
    alloc: Global,
    out: &mut Vec<u8>,
    env: &PlainEnv,
    metas: &Metas,
    proof: &PlainProof,
) -> Result<(), OutOfMemory>
    ensures { OnOk result (out.new.items ≡ out.old.items ++ proof_text (environment_of env.now) metas.now (proof_of proof.now)) }
{
    put_statement(alloc, out, env, metas, proof)?;
    put_all_goals(alloc, out, env, metas, proof)?;
    put_root(alloc, out, env, metas, proof)
}

#[tactic(auto, unfolding(crate::specs::GoalsText::statement_text))]
fn put_statement(
    alloc: Global,
    out: &mut Vec<u8>,
    env: &PlainEnv,
    metas: &Metas,
    proof: &PlainProof,
) -> Result<(), OutOfMemory>
    ensures { OnOk result (out.new.items ≡ out.old.items ++ statement_text (environment_of env.now) metas.now (proof_of proof.now)) }
{
    put(out, b"proof ")?;
    put(out, proof.name.as_bytes())?;
    put(out, b" : ")?;
    put_instance(alloc, out, env, metas, &proof.ty)
}

#[tactic(auto, unfolding(crate::specs::GoalsText::all_goals_text))]
fn put_all_goals(
    alloc: Global,
    out: &mut Vec<u8>,
    env: &PlainEnv,
    metas: &Metas,
    proof: &PlainProof,
) -> Result<(), OutOfMemory>
    ensures { OnOk result (out.new.items ≡ out.old.items ++ all_goals_text (environment_of env.now) metas.now (proof_of proof.now)) }
{
    put(out, b"\ngoals ")?;
    put_number(alloc, out, proof.goals.len() as u64)?;
    put(out, b"\n")?;
    put_each_goal(alloc, out, env, metas, &proof.goals)
}

// The instance of the proof's first metavariable.
#[tactic(auto, unfolding(crate::specs::GoalsText::root_text))]
fn put_root(
    alloc: Global,
    out: &mut Vec<u8>,
    env: &PlainEnv,
    metas: &Metas,
    proof: &PlainProof,
) -> Result<(), OutOfMemory>
    ensures { OnOk result (out.new.items ≡ out.old.items ++ root_text (environment_of env.now) metas.now (proof_of proof.now)) }
{
    put(out, b"term ")?;
    put_instance(alloc, out, env, metas, &Term::Meta(proof.root, Terms::End))?;
    put(out, b"\n")
}

fn put_each_goal(
    alloc: Global,
    out: &mut Vec<u8>,
    env: &PlainEnv,
    metas: &Metas,
    goals: &GoalMarks,
) -> Result<(), OutOfMemory>
    ensures { OnOk result (out.new.items ≡ out.old.items ++ each_goal_text (environment_of env.now) metas.now goals.now) }
{
    for n in 0..goals.len() {
        put_goal(alloc, out, env, metas, goals, n)?;
    }
    Ok(())
}

// The goal at a place.
fn put_goal(
    alloc: Global,
    out: &mut Vec<u8>,
    env: &PlainEnv,
    metas: &Metas,
    goals: &GoalMarks,
    n: usize,
) -> Result<(), OutOfMemory>
    ensures { OnOk result (out.new.items ≡ out.old.items ++ held (goal_text (environment_of env.now) metas.now) (slice_get goals.now n)) }
{
    match goals.get(n) {
        Some(mark) => {
            put(out, b"goal ")?;
            put_number(alloc, out, mark.0 as u64)?;
            put(out, focus_text(mark.1))?;
            put_metavariable(alloc, out, env, metas, mark.0)
        }
        None => Ok(()),
    }
}

fn focus_text(focus: bool) -> &'static [u8]
    ensures { result.now ≡ focus_text focus }
{
    if focus { b" focus\n" } else { b" later\n" }
}

// The context and the type of a metavariable, where it is there.
fn put_metavariable(
    alloc: Global,
    out: &mut Vec<u8>,
    env: &PlainEnv,
    metas: &Metas,
    n: usize,
) -> Result<(), OutOfMemory>
    ensures { OnOk result (out.new.items ≡ out.old.items ++ metavariable_text (environment_of env.now) metas.now (slice_get metas.now n)) }
{
    match metas.get(n) {
        Some(meta) => put_sequent(alloc, out, env, metas, meta),
        None => Ok(()),
    }
}

// The instances of the context and the type of a metavariable.
fn put_sequent(
    alloc: Global,
    out: &mut Vec<u8>,
    env: &PlainEnv,
    metas: &Metas,
    meta: &PlainMeta,
) -> Result<(), OutOfMemory>
    ensures { OnOk result (out.new.items ≡ out.old.items ++ metavariable_text (environment_of env.now) metas.now (Some (metavariable_of meta.now))) }
{
    let hyps = instances(alloc, metas, &meta.context)?;
    let goal = instance(alloc, metas, &meta.ty)?;
    let names = put_telescope(alloc, out, env, Style::Lines, &hyps, &[&goal])?;
    put(out, b"  \xe2\x8a\xa2 ")?;
    put_under(alloc, out, env, names.as_slice(), &goal)?;
    put(out, b"\n")
}

// Hypotheses with the instances of their types.
fn instances(alloc: Global, metas: &Metas, hyps: &Hyps) -> Result<Vec<Hyp>, OutOfMemory>
    ensures { IfOk result (λ answer. hypotheses_of answer.items ≡ instances metas.now hyps.now) }
{
    let mut answer = Vec::new(alloc);
    for n in 0..hyps.len() {
        add_instance(alloc, &mut answer, metas, hyps, n)?;
    }
    Ok(answer)
}

// The hypothesis at a place with the instance of its type.
fn add_instance(
    alloc: Global,
    answer: &mut Vec<Hyp>,
    metas: &Metas,
    hyps: &Hyps,
    n: usize,
) -> Result<(), OutOfMemory>
    ensures { OnOk result (hypotheses_of answer.new.items ≡ hypotheses_of answer.old.items ++ held (instance_part metas.now) (slice_get hyps.now n)) }
{
    if let Some(hyp) = hyps.get(n) {
        let name = hyp.name.clone()?;
        let ty = instance(alloc, metas, &hyp.ty)?;
        answer.push(Hyp { name, ty })?;
    }
    Ok(())
}
