// The inductive type whose constructors the arms of a match name.
ghost use Rattle.std.specs.Prelude.{◌≡◌, Some, drop, nat_eq, not, IfOk};
ghost use Rattle.mt_resolver.specs.Built.{has_case};
ghost use Rattle.mt_resolver.specs.Fitting.{fits};
ghost use Rattle.mt_resolver.specs.Resolution.{name_all, name_those_of, type_of_arms, type_of_constructor, type_of_first};
ghost use Rattle.mt_resolver.specs.TableOf.{AreNamesOf, tree_meant};
ghost use Rattle.mt_term.specs.ConstructorOf.{constructor_of};
ghost use Rattle.mt_term.specs.Substitution.{products};
ghost use Rattle.mt_term.specs.EntryOf.{seen_declaration};
ghost use Rattle.mt_term.specs.TreeOf.{tree_of};
ghost use Rattle.mt_term_parser.specs.WrittenOf.{cases_of};

use crate::meanings::Meaning;
use crate::table::Table;
use mt_term::{Cons, Constructor, Entry, Name, Names, OutOfMemory, PlainEnv, Term, deeper};
use mt_term_parser::RawArms;

/// The number of the inductive type whose constructors the arms name, in order and all of them,
/// each with as many names as it has arguments past the parameters.
#[tactic(auto, using(crate::proofs::ArmNames::arm_rules))]
pub fn type_of_arms(
    env: &PlainEnv,
    names: &Table,
    arms: &RawArms,
    depth_left: usize,
) -> Result<Option<usize>, OutOfMemory>
    requires { AreNamesOf names.now env.now.entries }
    ensures { IfOk result (λ o. o ≡ type_of_arms env.now.entries (cases_of arms.now)) }
{
    match type_of_first(env, names, arms) {
        Some(e) => {
            if name_those_of(env.entries.get(e), arms, depth_left)? {
                Ok(Some(e))
            } else {
                Ok(None)
            }
        }
        None => Ok(None),
    }
}

// The inductive type of the constructor that the first arm names.
#[tactic(auto, using(crate::proofs::ArmNames::arm_rules))]
fn type_of_first(env: &PlainEnv, names: &Table, arms: &RawArms) -> Option<usize>
    requires { AreNamesOf names.now env.now.entries }
    ensures { result ≡ type_of_first env.now.entries (cases_of arms.now) }
{
    let _env = env;
    match arms {
        RawArms::End => None,
        RawArms::Item(arm, _) => {
            let arm = arm;
            match names.find(arm.name.as_bytes()) {
                Some(meaning) => type_of_constructor(meaning),
                None => None,
            }
        }
    }
}

fn type_of_constructor(meaning: Meaning) -> Option<usize>
    ensures { result ≡ type_of_constructor (Some (tree_meant meaning)) }
{
    match meaning {
        Meaning::Constructor(e, _) => Some(e),
        Meaning::Constant(_) | Meaning::Type(_) => None,
    }
}

fn name_those_of(
    entry: Option<&Entry>,
    arms: &RawArms,
    depth_left: usize,
) -> Result<bool, OutOfMemory>
    ensures { IfOk result (λ b. b ≡ name_those_of (seen_declaration entry.entry) (cases_of arms.now)) }
{
    match entry {
        Some(Entry::Inductive { params, cons, .. }) => name_all(*params, cons, 0, arms, depth_left),
        _ => Ok(false),
    }
}

// Whether the arms name the constructors from a number on.
#[tactic(auto, using(crate::proofs::ArmNames::arm_rules))]
fn name_all(
    params: usize,
    cons: &Cons,
    from: usize,
    arms: &RawArms,
    depth_left: usize,
) -> Result<bool, OutOfMemory>
    ensures { IfOk result (λ b. b ≡ name_all params (drop from cons.now) (cases_of arms.now)) }
{
    let depth_left = deeper(depth_left)?;
    let next = from.checked_add(1).ok_or(OutOfMemory)?;
    match cons.get(from) {
        None => Ok(is_end(arms)),
        Some(constructor) => match arms {
            RawArms::End => Ok(false),
            RawArms::Item(arm, rest) => {
                let arm = arm;
                if fits(constructor, &arm.name, &arm.binders, params, depth_left)? {
                    name_all(params, cons, next, rest, depth_left)
                } else {
                    Ok(false)
                }
            }
        },
    }
}

fn is_end(arms: &RawArms) -> bool
    ensures { result ≡ not (has_case (cases_of arms.now)) }
{
    match arms {
        RawArms::End => true,
        RawArms::Item(..) => false,
    }
}

// Whether an arm is of a constructor.
#[tactic(auto, unfolding(crate::specs::Fitting::fits))]
fn fits(
    constructor: &Constructor,
    name: &Name,
    binders: &Names,
    params: usize,
    depth_left: usize,
) -> Result<bool, OutOfMemory>
    ensures { IfOk result (λ b. b ≡ fits params (constructor_of constructor.now) name.now binders.now) }
{
    let bound = binders.len().checked_add(params).ok_or(OutOfMemory)?;
    if constructor.name.as_bytes() != name.as_bytes() {
        return Ok(false);
    }
    has_products(&constructor.ty, bound, depth_left)
}

// Whether a type has so many products.
fn has_products(t: &Term, count: usize, depth_left: usize) -> Result<bool, OutOfMemory>
    ensures { IfOk result (λ b. b ≡ nat_eq count (products (tree_of t.now))) }
{
    let depth_left = deeper(depth_left)?;
    match t {
        Term::Prod(_, _, rest) => {
            if count == 0 {
                return Ok(false);
            }
            has_products(rest, count - 1, depth_left)
        }
        _ => Ok(count == 0),
    }
}
