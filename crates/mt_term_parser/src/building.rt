// Terms as they are written, made of their parts.
ghost use Rattle.std.specs.Prelude.{◌≡◌, [], ◌∷◌, map, IfOk};
ghost use Rattle.mt_term_parser.specs.Written.{Term, Lam, Prod, Match, Argument};
ghost use Rattle.mt_term_parser.specs.WrittenOf.{written_of, arguments_of, cases_of, choice_of, case_of};
ghost use Rattle.mt_term_parser.specs.Grammar.{arguments, applied, cases, cases_onto, cast};

use crate::raw::{Arm, Raw, RawArms, RawShape, Raws};
use mt_term::Name;
use std::alloc::{AllocError, Global};

pub fn in_box(alloc: Global, raw: Raw) -> Result<Box<Raw>, AllocError>
    ensures { IfOk result (λ b. b.value ≡ raw) }
{
    Ok(Box::new(alloc, raw)?)
}

pub fn lam(
    alloc: Global,
    start: usize,
    name: Name,
    domain: Option<Box<Raw>>,
    body: Raw,
) -> Result<Raw, AllocError>
    ensures { IfOk result (λ r. written_of r ≡ Term start (Lam name (choice_of domain) (written_of body))) }
{
    let body = in_box(alloc, body)?;
    Ok(Raw {
        start,
        shape: RawShape::Lam(name, domain, body),
    })
}

pub fn prod(
    alloc: Global,
    start: usize,
    name: Name,
    domain: Raw,
    body: Raw,
) -> Result<Raw, AllocError>
    ensures { IfOk result (λ r. written_of r ≡ Term start (Prod name (written_of domain) (written_of body))) }
{
    let domain = in_box(alloc, domain)?;
    let body = in_box(alloc, body)?;
    Ok(Raw {
        start,
        shape: RawShape::Prod(name, domain, body),
    })
}

// A term, with its type where one is written.
pub fn cast(alloc: Global, start: usize, term: Raw, ty: Option<Box<Raw>>) -> Result<Raw, AllocError>
    ensures { IfOk result (λ r. written_of r ≡ cast start (written_of term) (choice_of ty)) }
{
    let Some(ty) = ty else {
        return Ok(term);
    };
    let term = in_box(alloc, term)?;
    Ok(Raw {
        start,
        shape: RawShape::Cast(term, ty),
    })
}

// A function on its arguments, if there are any.
pub fn application_of(
    alloc: Global,
    start: usize,
    function: Raw,
    args: Vec<Raw>,
) -> Result<Raw, AllocError>
    ensures { IfOk result (λ r. written_of r ≡ applied start (written_of function) (map written_of args.items)) }
{
    if args.is_empty() {
        return Ok(function);
    }
    let args = raws_of(alloc, args)?;
    let function = in_box(alloc, function)?;
    Ok(Raw {
        start,
        shape: RawShape::App(function, args),
    })
}

fn raws_of(alloc: Global, mut items: Vec<Raw>) -> Result<Raws, AllocError>
    ensures { IfOk result (λ r. arguments_of r ≡ arguments (map written_of items.items)) }
{
    let mut raws = Raws::End;
    'row: while let Some(raw) = items.pop() {
        raws = raws_item(alloc, raw, raws)?;
    }
    Ok(raws)
}

fn raws_item(alloc: Global, raw: Raw, rest: Raws) -> Result<Raws, AllocError>
    ensures { IfOk result (λ r. arguments_of r ≡ Argument (written_of raw) (arguments_of rest)) }
{
    let raw = in_box(alloc, raw)?;
    let rest = Box::new(alloc, rest)?;
    Ok(Raws::Item(raw, rest))
}

pub fn match_of(
    alloc: Global,
    start: usize,
    term: Raw,
    returned: Option<Box<Raw>>,
    arms: Vec<Arm>,
) -> Result<Raw, AllocError>
    ensures { IfOk result (λ r. written_of r ≡ Term start (Match (written_of term) (choice_of returned) (cases (map case_of arms.items)))) }
{
    let arms = arms_of(alloc, arms)?;
    let term = in_box(alloc, term)?;
    Ok(Raw {
        start,
        shape: RawShape::Match(term, returned, arms),
    })
}

fn arms_of(alloc: Global, mut items: Vec<Arm>) -> Result<RawArms, AllocError>
    ensures { IfOk result (λ r. cases_of r ≡ cases (map case_of items.items)) }
{
    let mut arms = RawArms::End;
    'row: while let Some(arm) = items.pop() {
        arms = arms_item(alloc, arm, arms)?;
    }
    Ok(arms)
}

fn arms_item(alloc: Global, arm: Arm, rest: RawArms) -> Result<RawArms, AllocError>
    ensures { IfOk result (λ r. cases_of r ≡ cases_onto (case_of arm ∷ []) (cases_of rest)) }
{
    let arm = Box::new(alloc, arm)?;
    let rest = Box::new(alloc, rest)?;
    Ok(RawArms::Item(arm, rest))
}
