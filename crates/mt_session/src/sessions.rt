// The state of a run as the program holds it.
ghost use Rattle.std.specs.Prelude.{◌≡◌, ◌++◌, ◌∷◌, [], length, IfOk, OnOk};
ghost use Rattle.mt_term.specs.StateOf.{open_proof_of, proof_of, state_of};
ghost use Rattle.mt_session.specs.Runs.{empty_state};
ghost use Rattle.mt_session.specs.Sessions.{AreTables, meta_in, opened, proof_in, state_in, store_in};

use mt_env::Env;
use mt_pool::Pool;
use mt_resolver::Table;
use mt_term::{
    Entries, GoalMarks, Hyps, Metas, Name, Names, Notes, OutOfMemory, Pairs, PlainEnv, PlainMeta,
    PlainProof, PlainState, PlainStore, Term, copy,
};
use std::alloc::Global;
use std::clone::Clone;

/// An open proof: its name, its statement, and the term that closes its goal, once there is one.
#[derive(Drop)]
pub struct OpenProof {
    pub name: Name,
    pub ty: Term,
    pub body: Option<Term>,
}

/// The state of a run. `metas` are the metavariables of earlier proofs: that of the open proof
/// comes after them. `names` are the names of the environment, and `held` is the environment in
/// `pool`.
#[derive(Drop)]
pub struct Session {
    pub env: PlainEnv,
    pub names: Table,
    pub pool: Pool,
    pub held: Env,
    pub metas: Metas,
    pub proof: Option<OpenProof>,
    pub units: usize,
    pub place: usize,
    pub notes: Notes,
}

impl Session {
    /// The state before the first unit.
    pub fn new(alloc: Global) -> Session
        ensures state { state_in result ≡ empty_state }
        ensures tables { AreTables result }
    {
        Session {
            env: PlainEnv {
                entries: Entries::new(alloc),
                names: Names::new(alloc),
                below: Pairs::new(alloc),
            },
            names: Table::new(alloc),
            pool: Pool::new(alloc),
            held: Env::new(alloc),
            metas: Metas::new(alloc),
            proof: None,
            units: 0,
            place: 0,
            notes: Notes::new(alloc),
        }
    }

    /// The state as plain trees.
    pub fn into_plain(self, alloc: Global) -> Result<PlainState, OutOfMemory>
        ensures { IfOk result (λ s. state_of s ≡ state_in self) }
    {
        let Session {
            env,
            names: _,
            pool: _,
            held: _,
            mut metas,
            proof,
            units,
            place,
            notes,
        } = self;
        let proof = plain_proofs(alloc, &mut metas, proof)?;
        Ok(PlainState {
            env,
            store: PlainStore { metas },
            proof,
            units,
            place,
            notes,
        })
    }
}

// The open proof as plain trees, where there is one.
fn plain_proofs(
    alloc: Global,
    metas: &mut Metas,
    proof: Option<OpenProof>,
) -> Result<Option<PlainProof>, OutOfMemory>
    ensures metas { OnOk result (metas.new ≡ store_in metas.old proof) }
    ensures proof { IfOk result (λ p. open_proof_of p ≡ proof_in (length metas.old) proof) }
{
    match proof {
        None => Ok(None),
        Some(begun) => Ok(Some(plain_proof(alloc, metas, begun)?)),
    }
}

// The open proof as plain trees; its first metavariable is added to those of earlier proofs.
fn plain_proof(
    alloc: Global,
    metas: &mut Metas,
    begun: OpenProof,
) -> Result<PlainProof, OutOfMemory>
    ensures metas { OnOk result (metas.new ≡ metas.old ++ meta_in begun ∷ []) }
    ensures proof { IfOk result (λ p. proof_of p ≡ opened (length metas.old) begun) }
{
    let root = metas.len();
    let mut goals = GoalMarks::new(alloc);
    if begun.body.is_none() {
        goals.push((root, true))?;
    }
    let ty = copy(alloc, &begun.ty)?;
    metas.push(PlainMeta {
        context: Hyps::new(alloc),
        ty: begun.ty,
        body: begun.body,
    })?;
    Ok(PlainProof {
        name: begun.name,
        ty,
        root,
        goals,
    })
}
