// Terms that are written after their parts.
use crate::entries::{
    EQ, LIST, NAT, ONE, PLUS, SOME, STREAM, TWICE, ZEROS, added, next, plus, zero,
};
use crate::metavariables::{GIVEN, NEXT, OPEN, OPEN_UNDER};
use crate::terms::{
    app, branch, con, constant, ind, lam, match_on, meta, one_term, prod, prop, typ, var,
};
use mt_term::{Branches, OutOfMemory, Term, Terms};
use std::alloc::{AllocFailed, Global};

/// The term that a text writes.
pub fn read(alloc: Global, text: &str) -> Result<Term, OutOfMemory> {
    let mut stack = Vec::new(alloc);
    for sign in text.as_bytes() {
        let t = term_of(alloc, &mut stack, *sign)?;
        stack.push(t)?;
    }
    top(&mut stack)
}

fn top(stack: &mut Vec<Term>) -> Result<Term, OutOfMemory> {
    stack.pop().ok_or(OutOfMemory)
}

// The term that a sign makes, of those before it.
fn term_of(alloc: Global, stack: &mut Vec<Term>, sign: u8) -> Result<Term, OutOfMemory> {
    match sign {
        b'x' => Ok(var(0)),
        b'y' => Ok(var(1)),
        b'O' => Ok(zero()),
        b'S' => Ok(con(NAT, 1)),
        b'L' => Ok(con(LIST, 0)),
        b'C' => Ok(con(LIST, 1)),
        b'M' => Ok(con(STREAM, 0)),
        b'N' => Ok(ind(NAT)),
        b'T' => Ok(ind(STREAM)),
        b'K' => Ok(ind(LIST)),
        b'E' => Ok(ind(EQ)),
        b'R' => Ok(con(EQ, 0)),
        b'P' => Ok(constant(PLUS)),
        b'Z' => Ok(constant(ZEROS)),
        b'I' => Ok(constant(ONE)),
        b'A' => Ok(constant(SOME)),
        b'D' => Ok(constant(TWICE)),
        b'B' => Ok(prop()),
        b'0' => Ok(typ(alloc, 0)),
        b'1' => Ok(typ(alloc, 1)),
        b'2' => Ok(typ(alloc, 2)),
        b'U' => Ok(meta(OPEN, Terms::End)),
        b'V' => Ok(meta(GIVEN, Terms::End)),
        _ => made_of(alloc, stack, sign),
    }
}

// The term that a sign makes of one or two terms.
fn made_of(alloc: Global, stack: &mut Vec<Term>, sign: u8) -> Result<Term, OutOfMemory> {
    let last = top(stack)?;
    match sign {
        b's' => next(alloc, last),
        b'h' => head(alloc, last),
        b't' => tail(alloc, last),
        b'p' => pred(alloc, zero(), last),
        b'r' => pred(alloc, plus(alloc, zero(), zero())?, last),
        b'z' => is_zero(alloc, last),
        b'd' => first(alloc, last),
        b'q' => added(alloc, last),
        b'v' => Ok(meta(NEXT, one_term(alloc, last)?)),
        b'u' => Ok(meta(OPEN_UNDER, one_term(alloc, last)?)),
        _ => joined(alloc, top(stack)?, last, sign),
    }
}

fn joined(alloc: Global, t: Term, u: Term, sign: u8) -> Result<Term, OutOfMemory> {
    match sign {
        b'.' => app(alloc, t, u),
        b'+' => plus(alloc, t, u),
        b'l' => lam(alloc, t, u),
        b'>' => prod(alloc, t, u),
        _ => Err(OutOfMemory),
    }
}

// The head of a stream.
fn head(alloc: Global, t: Term) -> Result<Term, OutOfMemory> {
    let branches = branch(alloc, 2, var(1), Branches::End)?;
    let function = lam(alloc, ind(STREAM), ind(NAT))?;
    match_on(alloc, STREAM, function, t, branches)
}

// The tail of a stream.
fn tail(alloc: Global, t: Term) -> Result<Term, OutOfMemory> {
    let branches = branch(alloc, 2, var(0), Branches::End)?;
    let function = lam(alloc, ind(STREAM), ind(STREAM))?;
    match_on(alloc, STREAM, function, t, branches)
}

// The number before a number, which for `O` is another.
fn pred(alloc: Global, none: Term, t: Term) -> Result<Term, OutOfMemory> {
    let branches = branch(alloc, 1, var(0), Branches::End)?;
    let branches = branch(alloc, 0, none, branches)?;
    let function = lam(alloc, ind(NAT), ind(NAT))?;
    match_on(alloc, NAT, function, t, branches)
}

// `one` for `O`, else `O`.
fn is_zero(alloc: Global, t: Term) -> Result<Term, OutOfMemory> {
    let branches = branch(alloc, 1, zero(), Branches::End)?;
    let branches = branch(alloc, 0, constant(ONE), branches)?;
    let function = lam(alloc, ind(NAT), ind(NAT))?;
    match_on(alloc, NAT, function, t, branches)
}

// The first of a list of numbers, or `O`.
fn first(alloc: Global, t: Term) -> Result<Term, OutOfMemory> {
    let branches = branch(alloc, 2, var(1), Branches::End)?;
    let branches = branch(alloc, 0, zero(), branches)?;
    let numbers = app(alloc, ind(LIST), ind(NAT))?;
    let function = lam(alloc, numbers, ind(NAT))?;
    match_on(alloc, LIST, function, t, branches)
}
