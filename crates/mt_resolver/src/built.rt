// The forms of raw terms that can be taken by their names.
ghost use Rattle.std.specs.Prelude.{◌≡◌, IfOk};
ghost use Rattle.mt_resolver.specs.Built.{are_built, are_cases_built, has_case, is_built};
ghost use Rattle.mt_term_parser.specs.WrittenOf.{arguments_of, cases_of, written_of};

use mt_term::{MAX_DEPTH, OutOfMemory, deeper};
use mt_term_parser::{Raw, RawArms, RawShape, Raws};

/// Whether a raw term has only forms that can be taken by their names: names, sorts, products,
/// abstractions with a type and applications; and, where `matches` says so, matches with a return
/// term and at least one arm.
pub fn is_built(raw: &Raw, matches: bool) -> Result<bool, OutOfMemory>
    ensures { IfOk result (λ b. b ≡ is_built matches (written_of raw.now)) }
{
    is_built_within(raw, matches, MAX_DEPTH)
}

#[cycle(built)]
fn is_built_within(raw: &Raw, matches: bool, depth_left: usize) -> Result<bool, OutOfMemory>
    ensures { IfOk result (λ b. b ≡ is_built matches (written_of raw.now)) }
{
    let depth_left = deeper(depth_left)?;
    match &raw.shape {
        RawShape::Name(_) | RawShape::Sort(_) => Ok(true),
        RawShape::Lam(_, Some(ty), body) => {
            Ok(
                is_built_within(ty, matches, depth_left)?
                    && is_built_within(body, matches, depth_left)?,
            )
        }
        RawShape::Prod(_, ty, body) => {
            Ok(
                is_built_within(ty, matches, depth_left)?
                    && is_built_within(body, matches, depth_left)?,
            )
        }
        RawShape::App(head, args) => {
            Ok(is_built_within(head, matches, depth_left)? && are_built(args, matches, depth_left)?)
        }
        RawShape::Match(matched, Some(ty), arms) => {
            if !matches || !has_arm(arms) || !is_built_within(matched, matches, depth_left)? {
                return Ok(false);
            }
            Ok(
                is_built_within(ty, matches, depth_left)?
                    && are_arms_built(arms, matches, depth_left)?,
            )
        }
        _ => Ok(false),
    }
}

#[cycle(built)]
fn are_built(args: &Raws, matches: bool, depth_left: usize) -> Result<bool, OutOfMemory>
    ensures { IfOk result (λ b. b ≡ are_built matches (arguments_of args.now)) }
{
    let depth_left = deeper(depth_left)?;
    match args {
        Raws::End => Ok(true),
        Raws::Item(arg, args) => {
            Ok(is_built_within(arg, matches, depth_left)? && are_built(args, matches, depth_left)?)
        }
    }
}

#[cycle(built)]
fn are_arms_built(arms: &RawArms, matches: bool, depth_left: usize) -> Result<bool, OutOfMemory>
    ensures { IfOk result (λ b. b ≡ are_cases_built matches (cases_of arms.now)) }
{
    let depth_left = deeper(depth_left)?;
    match arms {
        RawArms::End => Ok(true),
        RawArms::Item(arm, arms) => {
            let arm = arm;
            Ok(
                is_built_within(&arm.body, matches, depth_left)?
                    && are_arms_built(arms, matches, depth_left)?,
            )
        }
    }
}

fn has_arm(arms: &RawArms) -> bool
    ensures { result ≡ has_case (cases_of arms.now) }
{
    match arms {
        RawArms::End => false,
        RawArms::Item(..) => true,
    }
}
