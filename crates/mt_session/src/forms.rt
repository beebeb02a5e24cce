// The forms of units that are built.
ghost use Rattle.std.specs.Prelude.{◌≡◌, ◌∷◌, [], map, IfOk};
ghost use Rattle.mt_unit_parser.specs.UnitOf.{con_of, deed_of, function_of, group_of, kind_of, tiny_of, type_of};
ghost use Rattle.mt_session.specs.Plans.{are_constructors_built, are_functions_built, are_groups_built, are_types_built, is_built_deed, is_built_kind, is_built_step};

use mt_resolver::is_built;
use mt_term::OutOfMemory;
use mt_tiny::Tiny;
use mt_unit_parser::{
    Action, ActionShape, Groups, RawCons, RawFunction, RawFunctions, RawTypes, UnitKind,
};

/// Whether a unit has only forms that are built.
pub fn is_built_kind(kind: &UnitKind) -> Result<bool, OutOfMemory>
    ensures { IfOk result (λ b. b ≡ is_built_kind (kind_of kind.now)) }
{
    match kind {
        UnitKind::Constraint(_, _) | UnitKind::Qed => Ok(true),
        UnitKind::Axiom(_, ty) | UnitKind::Theorem(_, ty) => is_built(ty, true),
        UnitKind::Definition(_, Some(ty), body) => Ok(is_built(ty, true)? && is_built(body, true)?),
        UnitKind::Inductive { groups, types, .. } => {
            Ok(are_groups_built(groups)? && are_types_built(types)?)
        }
        UnitKind::Recursive { functions, .. } => are_functions_built(functions),
        UnitKind::Step(step) => is_built_step(step),
        _ => Ok(false),
    }
}

#[tactic(auto, using(crate::proofs::Shapes::form_rules))]
fn are_groups_built(groups: &Groups) -> Result<bool, OutOfMemory>
    ensures { IfOk result (λ b. b ≡ are_groups_built (map group_of groups.now)) }
{
    for i in 0..groups.len() {
        let Some(group) = groups.get(i) else {
            return Err(OutOfMemory);
        };
        if !is_built(&group.ty, true)? {
            return Ok(false);
        }
    }
    Ok(true)
}

#[tactic(auto, using(crate::proofs::Shapes::form_rules))]
fn are_constructors_built(cons: &RawCons) -> Result<bool, OutOfMemory>
    ensures { IfOk result (λ b. b ≡ are_constructors_built (map con_of cons.now)) }
{
    for i in 0..cons.len() {
        let Some(con) = cons.get(i) else {
            return Err(OutOfMemory);
        };
        if !is_built(&con.ty, true)? {
            return Ok(false);
        }
    }
    Ok(true)
}

// One type of built forms.
#[tactic(auto, using(crate::proofs::Shapes::form_rules))]
fn are_types_built(types: &RawTypes) -> Result<bool, OutOfMemory>
    ensures { IfOk result (λ b. b ≡ are_types_built (map type_of types.now)) }
{
    if types.len() != 1 {
        return Ok(false);
    }
    match types.get(0) {
        None => Ok(false),
        Some(ty) => Ok(is_built(&ty.arity, true)? && are_constructors_built(&ty.cons)?),
    }
}

// One function of built forms.
#[tactic(auto, using(crate::proofs::Shapes::form_rules))]
fn are_functions_built(functions: &RawFunctions) -> Result<bool, OutOfMemory>
    ensures { IfOk result (λ b. b ≡ are_functions_built (map function_of functions.now)) }
{
    if functions.len() != 1 {
        return Ok(false);
    }
    match functions.get(0) {
        None => Ok(false),
        Some(function) => is_function_built(function),
    }
}

fn is_function_built(function: &RawFunction) -> Result<bool, OutOfMemory>
    ensures { IfOk result (λ b. b ≡ are_functions_built (function_of function.now ∷ [])) }
{
    Ok(
        are_groups_built(&function.groups)?
            && is_built(&function.ty, true)?
            && is_built(&function.body, true)?,
    )
}

fn is_built_step(step: &Tiny<Action>) -> Result<bool, OutOfMemory>
    ensures { IfOk result (λ b. b ≡ is_built_step (tiny_of step.now)) }
{
    match step {
        Tiny::Action(action) => is_built_deed(&action.shape),
        Tiny::Dot => Ok(true),
        _ => Ok(false),
    }
}

fn is_built_deed(deed: &ActionShape) -> Result<bool, OutOfMemory>
    ensures { IfOk result (λ b. b ≡ is_built_deed (deed_of deed.now)) }
{
    match deed {
        ActionShape::Exact(term) => is_built(term, true),
        _ => Ok(false),
    }
}
