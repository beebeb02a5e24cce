// The names of what a unit declares are new.
ghost use Rattle.std.specs.Prelude.{◌≡◌, ◌∷◌, [], drop, IfOk};
ghost use Rattle.mt_decl.specs.Fronts.{known, names_in, newness};
ghost use Rattle.mt_resolver.specs.Resolves.{Resolves};
ghost use Rattle.mt_resolver.specs.ScopeOf.{names_of};
ghost use Rattle.mt_resolver.specs.TableOf.{AreNamesOf};
ghost use Rattle.mt_term.specs.EnvironmentOf.{environment_of};

use mt_resolver::{Scope, Table, place_in};
use mt_term::{Fault, Halt, MAX_DEPTH, Name, OutOfMemory, PlainEnv, Refusal, deeper};
use mt_unit_parser::RawCons;

/// A name is new: it names no entry and no constructor, and none of the earlier ones.
///
/// # Errors
///
/// `Taken` at the unit's start.
#[tactic(auto, using(crate::proofs::FrontRules::new_rules))]
pub fn check_name(
    env: &PlainEnv,
    names: &Table,
    start: usize,
    earlier: &Scope<'_>,
    name: &Name,
) -> Result<(), Halt>
    requires { AreNamesOf names.now env.now.entries }
    ensures { Resolves (λ z. z) (newness (environment_of env.now) start (names_of earlier.now) (name.now ∷ [])) result }
{
    if is_known(env, names, earlier, name)? {
        return Err(Halt::Refused(Fault {
            refusal: Refusal::Taken(name.clone()?),
            at: start,
        }));
    }
    Ok(())
}

// Whether a name is in use, or one of the earlier ones.
#[tactic(auto, using(crate::proofs::FrontRules::known_rules))]
fn is_known(
    env: &PlainEnv,
    names: &Table,
    earlier: &Scope<'_>,
    name: &Name,
) -> Result<bool, OutOfMemory>
    requires { AreNamesOf names.now env.now.entries }
    ensures { IfOk result (λ b. b ≡ known (environment_of env.now) (names_of earlier.now) name.now) }
{
    let _env = env;
    if names.is_taken(name.as_bytes()) {
        return Ok(true);
    }
    Ok(place_in(earlier, name.as_bytes())?.is_some())
}

/// The name of an inductive type and those of its constructors are new, one after the other.
///
/// # Errors
///
/// `Taken` at the unit's start, of the first name that is not.
#[tactic(auto, using(crate::proofs::FrontRules::new_rules))]
pub fn check_names(
    env: &PlainEnv,
    names: &Table,
    start: usize,
    name: &Name,
    cons: &RawCons,
) -> Result<(), Halt>
    requires { AreNamesOf names.now env.now.entries }
    ensures { Resolves (λ z. z) (newness (environment_of env.now) start [] (name.now ∷ names_in cons.now)) result }
{
    check_name(env, names, start, &Scope::Empty, name)?;
    let empty = Scope::Empty;
    let earlier = Scope::More(&*name, &empty);
    check_constructors(env, names, start, &earlier, cons, 0, MAX_DEPTH)
}

// The names of the constructors from a number on.
#[tactic(auto, using(crate::proofs::FrontRules::new_rules))]
fn check_constructors(
    env: &PlainEnv,
    names: &Table,
    start: usize,
    earlier: &Scope<'_>,
    cons: &RawCons,
    from: usize,
    depth_left: usize,
) -> Result<(), Halt>
    requires { AreNamesOf names.now env.now.entries }
    ensures { Resolves (λ z. z) (newness (environment_of env.now) start (names_of earlier.now) (names_in (drop from cons.now))) result }
{
    let depth_left = deeper(depth_left)?;
    match cons.get(from) {
        None => Ok(()),
        Some(con) => {
            check_name(env, names, start, earlier, &con.name)?;
            let next = from.checked_add(1).ok_or(OutOfMemory)?;
            let earlier = Scope::More(&con.name, &*earlier);
            check_constructors(env, names, start, &earlier, cons, next, depth_left)
        }
    }
}
