// Entries into the pool.
ghost use Rattle.std.specs.Prelude.{◌≡◌, length, IfOk};
ghost use Rattle.mt_term.specs.EntryOf.{declaration_of};
ghost use Rattle.mt_pool.specs.Region.{Kept};
ghost use Rattle.mt_pool.specs.HeldOf.{constructors_in, declaration_in, ConstructorsBelow, HeldBelow};

use mt_pool::{Held, HeldCons, HeldConstructor, Pool};
use mt_term::{Cons, Entry, OutOfMemory};
use std::alloc::Global;

// Constructors with ids in place of their types.
#[tactic(auto, using(mt_pool::proofs::Region::kept, crate::proofs::EnteringLaws::holding))]
fn hold_constructors(alloc: Global, pool: &mut Pool, cons: &Cons) -> Result<HeldCons, OutOfMemory>
    ensures kept { Kept pool.old pool.new }
    ensures below { IfOk result (λ held. ConstructorsBelow (length pool.new) held) }
    ensures says { IfOk result (λ held. constructors_in pool.new held ≡ cons.now) }
{
    let mut held = HeldCons::new(alloc);
    for k in 0..cons.len() {
        let Some(constructor) = cons.get(k) else {
            unreachable!()
        };
        let name = constructor.name.clone()?;
        let ty = pool.import(alloc, &constructor.ty)?;
        held.push(HeldConstructor { name, ty })?;
    }
    Ok(held)
}

/// An entry with ids in place of its terms.
///
/// # Errors
///
/// `OutOfMemory` where memory is wanting.
#[tactic(auto, using(mt_pool::proofs::Region::kept))]
pub fn hold(alloc: Global, pool: &mut Pool, entry: &Entry) -> Result<Held, OutOfMemory>
    ensures kept { Kept pool.old pool.new }
    ensures below { IfOk result (λ held. HeldBelow (length pool.new) held) }
    ensures says { IfOk result (λ held. declaration_in pool.new held ≡ declaration_of entry.now) }
{
    match entry {
        Entry::Axiom { name, ty } => {
            let name = name.clone()?;
            let ty = pool.import(alloc, ty)?;
            Ok(Held::Axiom { name, ty })
        }
        Entry::Definition { name, ty, body } => {
            let name = name.clone()?;
            let ty = pool.import(alloc, ty)?;
            let body = pool.import(alloc, body)?;
            Ok(Held::Definition { name, ty, body })
        }
        Entry::Inductive {
            name,
            co,
            params,
            ty,
            cons,
            large,
        } => {
            let name = name.clone()?;
            let ty = pool.import(alloc, ty)?;
            let cons = hold_constructors(alloc, pool, cons)?;
            Ok(Held::Inductive {
                name,
                co: *co,
                params: *params,
                ty,
                cons,
                large: *large,
            })
        }
        Entry::Recursive {
            name,
            co,
            binders,
            place,
            ty,
            body,
            made,
        } => {
            let name = name.clone()?;
            let ty = pool.import(alloc, ty)?;
            let body = pool.import(alloc, body)?;
            Ok(Held::Recursive {
                name,
                co: *co,
                binders: *binders,
                place: *place,
                ty,
                body,
                made: *made,
            })
        }
    }
}
