// The sort above one, and the sort of a product.
ghost use Rattle.std.specs.Prelude.{◌≡◌, IfOk};
ghost use Rattle.mt_term.specs.UniverseForms.{sort_above, sort_of_product};

use mt_term::{Atoms, OutOfMemory, Sort, UnivExpr, maximum, successor};
use std::alloc::Global;

/// The sort that is the type of a sort, where its numbers fit.
pub fn sort_above(alloc: Global, s: &Sort) -> Result<Option<Sort>, OutOfMemory>
    ensures { IfOk result (λ r. r ≡ sort_above s.now) }
{
    match s {
        Sort::Prop => Ok(Some(Sort::Typ(UnivExpr {
            base: 0,
            atoms: Atoms::new(alloc),
        }))),
        Sort::Typ(u) => match successor(alloc, u)? {
            Some(above) => Ok(Some(Sort::Typ(above))),
            None => Ok(None),
        },
    }
}

/// The sort of a product whose domain and codomain have these sorts.
pub fn sort_of_product(alloc: Global, s: Sort, r: Sort) -> Result<Sort, OutOfMemory>
    ensures { IfOk result (λ q. q ≡ sort_of_product s r) }
{
    match (s, r) {
        (_, Sort::Prop) => Ok(Sort::Prop),
        (Sort::Prop, r) => Ok(r),
        (Sort::Typ(u), Sort::Typ(w)) => Ok(Sort::Typ(maximum(alloc, &u, &w)?)),
    }
}
