// The entries that the tables speak of, by their numbers.
use crate::terms::{app, branch, con, constant, ind, lam, match_on, prod, prop, typ, var};
use mt_term::{Branches, Cons, Constructor, Entry, Name, OutOfMemory, Term};
use std::alloc::{AllocFailed, Global};

pub const NAT: usize = 0;

pub const PLUS: usize = 1;

pub const STREAM: usize = 2;

pub const ZEROS: usize = 3;

pub const ONE: usize = 4;

pub const SOME: usize = 5;

pub const TWICE: usize = 6;

pub const LIST: usize = 7;

pub const EQ: usize = 8;

/// How many entries there are.
pub const COUNT: usize = 9;

/// `nat` with `O` and `S`.
pub fn nat(alloc: Global) -> Result<Entry, OutOfMemory> {
    let mut cons = Cons::new(alloc);
    cons.push(Constructor {
        name: Name::from_bytes(alloc, b"O")?,
        ty: ind(NAT),
    })?;
    cons.push(Constructor {
        name: Name::from_bytes(alloc, b"S")?,
        ty: prod(alloc, ind(NAT), ind(NAT))?,
    })?;
    Ok(Entry::Inductive {
        name: Name::from_bytes(alloc, b"nat")?,
        co: false,
        params: 0,
        ty: typ(alloc, 0),
        cons,
        large: true,
    })
}

/// `O`.
pub fn zero() -> Term {
    con(NAT, 0)
}

/// `S t`.
pub fn next(alloc: Global, t: Term) -> Result<Term, OutOfMemory> {
    app(alloc, con(NAT, 1), t)
}

/// `plus t u`.
pub fn plus(alloc: Global, t: Term, u: Term) -> Result<Term, OutOfMemory> {
    let f = app(alloc, constant(PLUS), t)?;
    app(alloc, f, u)
}

/// `match t with [ O ⇒ x | S p ⇒ S (plus p x) ]`, where `x` is the newest variable.
pub fn added(alloc: Global, t: Term) -> Result<Term, OutOfMemory> {
    let step = next(alloc, plus(alloc, var(0), var(1))?)?;
    let branches = branch(alloc, 1, step, Branches::End)?;
    let branches = branch(alloc, 0, var(0), branches)?;
    let function = lam(alloc, ind(NAT), ind(NAT))?;
    match_on(alloc, NAT, function, t, branches)
}

/// `let rec plus n m on n ≝ match n with [ O ⇒ m | S p ⇒ S (plus p m) ]`.
pub fn sum(alloc: Global) -> Result<Entry, OutOfMemory> {
    let body = lam(alloc, ind(NAT), added(alloc, var(1))?)?;
    let body = lam(alloc, ind(NAT), body)?;
    let result = prod(alloc, ind(NAT), ind(NAT))?;
    let ty = prod(alloc, ind(NAT), result)?;
    Ok(Entry::Recursive {
        name: Name::from_bytes(alloc, b"plus")?,
        co: false,
        binders: 2,
        place: 0,
        ty,
        body,
        made: false,
    })
}

/// `coinductive stream` with `more : nat → stream → stream`.
pub fn stream(alloc: Global) -> Result<Entry, OutOfMemory> {
    let mut cons = Cons::new(alloc);
    cons.push(Constructor {
        name: Name::from_bytes(alloc, b"more")?,
        ty: prod(alloc, ind(NAT), prod(alloc, ind(STREAM), ind(STREAM))?)?,
    })?;
    Ok(Entry::Inductive {
        name: Name::from_bytes(alloc, b"stream")?,
        co: true,
        params: 0,
        ty: typ(alloc, 0),
        cons,
        large: true,
    })
}

/// `more t s`.
pub fn more(alloc: Global, t: Term, s: Term) -> Result<Term, OutOfMemory> {
    let f = app(alloc, con(STREAM, 0), t)?;
    app(alloc, f, s)
}

/// `let corec zeros ≝ more O zeros`.
pub fn zeros(alloc: Global) -> Result<Entry, OutOfMemory> {
    Ok(Entry::Recursive {
        name: Name::from_bytes(alloc, b"zeros")?,
        co: true,
        binders: 0,
        place: 0,
        ty: ind(STREAM),
        body: more(alloc, con(NAT, 0), constant(ZEROS))?,
        made: false,
    })
}

/// `definition one ≝ S O`.
pub fn one(alloc: Global) -> Result<Entry, OutOfMemory> {
    Ok(Entry::Definition {
        name: Name::from_bytes(alloc, b"one")?,
        ty: ind(NAT),
        body: next(alloc, con(NAT, 0))?,
    })
}

/// `axiom some : nat`.
pub fn some(alloc: Global) -> Result<Entry, OutOfMemory> {
    Ok(Entry::Axiom {
        name: Name::from_bytes(alloc, b"some")?,
        ty: ind(NAT),
    })
}

/// `definition twice ≝ λn:nat.plus n n`.
pub fn twice(alloc: Global) -> Result<Entry, OutOfMemory> {
    Ok(Entry::Definition {
        name: Name::from_bytes(alloc, b"twice")?,
        ty: prod(alloc, ind(NAT), ind(NAT))?,
        body: lam(alloc, ind(NAT), plus(alloc, var(0), var(0))?)?,
    })
}

/// `inductive list (A:Type[0])` with `nil` and `cons`.
pub fn list(alloc: Global) -> Result<Entry, OutOfMemory> {
    let mut cons = Cons::new(alloc);
    let of = app(alloc, ind(LIST), var(0))?;
    cons.push(Constructor {
        name: Name::from_bytes(alloc, b"nil")?,
        ty: prod(alloc, typ(alloc, 0), of)?,
    })?;
    let tail = app(alloc, ind(LIST), var(1))?;
    let whole = app(alloc, ind(LIST), var(2))?;
    let arrows = prod(alloc, var(0), prod(alloc, tail, whole)?)?;
    cons.push(Constructor {
        name: Name::from_bytes(alloc, b"cons")?,
        ty: prod(alloc, typ(alloc, 0), arrows)?,
    })?;
    Ok(Entry::Inductive {
        name: Name::from_bytes(alloc, b"list")?,
        co: false,
        params: 1,
        ty: prod(alloc, typ(alloc, 0), typ(alloc, 0))?,
        cons,
        large: true,
    })
}

/// `inductive eq (A:Type[0]) (x:A) : A → Prop` with `refl`.
pub fn eq(alloc: Global) -> Result<Entry, OutOfMemory> {
    let mut cons = Cons::new(alloc);
    let of = app(alloc, app(alloc, ind(EQ), var(1))?, var(0))?;
    let of = prod(alloc, var(0), app(alloc, of, var(0))?)?;
    cons.push(Constructor {
        name: Name::from_bytes(alloc, b"refl")?,
        ty: prod(alloc, typ(alloc, 0), of)?,
    })?;
    let ty = prod(alloc, var(0), prod(alloc, var(1), prop())?)?;
    Ok(Entry::Inductive {
        name: Name::from_bytes(alloc, b"eq")?,
        co: false,
        params: 2,
        ty: prod(alloc, typ(alloc, 0), ty)?,
        cons,
        large: true,
    })
}

/// The entry of a number; the last for any greater one.
pub fn entry(alloc: Global, number: usize) -> Result<Entry, OutOfMemory> {
    match number {
        NAT => nat(alloc),
        PLUS => sum(alloc),
        STREAM => stream(alloc),
        ZEROS => zeros(alloc),
        ONE => one(alloc),
        SOME => some(alloc),
        TWICE => twice(alloc),
        LIST => list(alloc),
        _ => eq(alloc),
    }
}
