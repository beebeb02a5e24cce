// Sorts as they are written.
ghost use Rattle.std.specs.Prelude.{◌≡◌};
ghost use Rattle.mt_resolver.specs.Resolution.{resolved_parts, resolved_sort};
ghost use Rattle.mt_resolver.specs.Sums.{part_after};
ghost use Rattle.mt_resolver.specs.Resolves.{Resolves};
ghost use Rattle.mt_term.specs.declared.refusals.Halt.TheVariants as halt;
ghost use Rattle.mt_term.specs.Trees.{Sort as SortTree};

use crate::scopes::first_place;
use mt_term::{Atom, Atoms, Fault, Halt, Names, Refusal, Sort, UnivExpr, normal_form};
use mt_term_parser::{Part, Parts, RawSort};
use std::alloc::{AllocError, Global};

/// A refusal at a place.
pub fn refusal_at(refusal: Refusal, at: usize) -> Halt
    ensures { result ≡ halt.Refused (record { refusal = refusal; at = at }) }
{
    Halt::Refused(Fault { refusal, at })
}

/// A sort in normal form, its universe names by their numbers.
pub fn sort_of(alloc: Global, names: &Names, sort: &RawSort, at: usize) -> Result<Sort, Halt>
    ensures { Resolves (λ s. SortTree s) (resolved_sort names.now at sort.now) result }
{
    match sort {
        RawSort::Prop => Ok(Sort::Prop),
        RawSort::Typ(parts) => {
            let u = sum_of(alloc, names, parts, at)?;
            Ok(Sort::Typ(normal_form(alloc, &u)?))
        }
    }
}

// The maximum of parts, not in normal form.
fn sum_of(alloc: Global, names: &Names, parts: &Parts, at: usize) -> Result<UnivExpr, Halt>
    ensures { Resolves (λ u. u) (resolved_parts names.now at parts.now) result }
{
    let mut sum = UnivExpr {
        base: 0,
        atoms: Atoms::new(alloc),
    };
    for i in 0..parts.len() {
        let Some(part) = parts.get(i) else {
            return Ok(sum);
        };
        sum = with_part(names, part, at, sum)?;
    }
    Ok(sum)
}

// A maximum with one part more.
fn with_part(names: &Names, part: &Part, at: usize, sum: UnivExpr) -> Result<UnivExpr, Halt>
    ensures { Resolves (λ u. u) (part_after names.now at part.now sum) result }
{
    let mut sum = sum;
    match part {
        Part::Number(k) => sum.base = sum.base.max(*k),
        Part::Name(x, offset) => match first_place(names, x.as_bytes()) {
            Some(name) => sum.atoms.push(Atom {
                name,
                offset: *offset,
            })?,
            None => return Err(refusal_at(Refusal::Unbound(x.clone()?), at)),
        },
    }
    Ok(sum)
}
