// Contexts of the terms whose types are inferred.
ghost use Rattle.std.specs.Prelude.{◌≡◌, ◌+◌, ℕ, IfOk, reverse, slice_get};
ghost use Rattle.mt_kernel.specs.Arguments.{tree_in};
ghost use Rattle.mt_kernel.specs.Contexts.{hypotheses_of, lifted_by};
ghost use Rattle.mt_rules.specs.Inference.{lifted_type, type_at};

use mt_term::{Hyp, Hyps, Name, OutOfMemory, Term, copy, lift};
use std::alloc::Global;

/// Names with their types, the innermost first.
#[derive(Clone, Copy)]
pub enum Context<'a> {
    Empty,
    More(&'a Name, &'a Term, &'a Context<'a>),
}

fn found<'a>(context: &Context<'a>, i: usize) -> Option<&'a Term>
    ensures { (by : ℕ) → lifted_type by (slice_get (hypotheses_of context.now) i) ≡ lifted_by by result }
{
    match context {
        Context::Empty => None,
        Context::More(_, ty, rest) => { if i == 0 { Some(ty) } else { found(rest, i - 1) } }
    }
}

/// The type of a variable, in the whole context.
pub fn type_at(alloc: Global, context: &Context<'_>, i: usize) -> Result<Option<Term>, OutOfMemory>
    ensures { IfOk result (λ o. tree_in o ≡ type_at (hypotheses_of context.now) i) }
{
    let by = i.checked_add(1).ok_or(OutOfMemory)?;
    match found(context, i) {
        None => Ok(None),
        Some(ty) => Ok(Some(lift(alloc, ty, by, 0)?)),
    }
}

/// The hypotheses of a context, as a refusal shows them.
pub fn hypotheses(alloc: Global, context: &Context<'_>) -> Result<Hyps, OutOfMemory>
    ensures { IfOk result (λ hyps. reverse hyps ≡ hypotheses_of context.now) }
{
    match context {
        Context::Empty => Ok(Hyps::new(alloc)),
        Context::More(name, ty, rest) => {
            let mut hyps = hypotheses(alloc, rest)?;
            hyps.push(Hyp {
                name: (*name).clone()?,
                ty: copy(alloc, ty)?,
            })?;
            Ok(hyps)
        }
    }
}
