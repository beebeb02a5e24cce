// Weak heads and normal forms, with their costs.
use crate::rows::{Asked, Form, Row};

/// The rows of the weak head, the normal form and the instance.
pub static REDUCTIONS: [Row; 45] = [
    // O has the weak head O
    // A constructor has no step.
    Row {
        asked: Asked::Has(Form::WeakHead),
        t: "O",
        u: "O",
        yes: true,
        cost: 0,
    },
    // one has the weak head S O
    // By hand: `one` is a definition, and its unfolding is the one step.
    Row {
        asked: Asked::Has(Form::WeakHead),
        t: "I",
        u: "Os",
        yes: true,
        cost: 1,
    },
    // some has the weak head some
    // An axiom stays.
    Row {
        asked: Asked::Has(Form::WeakHead),
        t: "A",
        u: "A",
        yes: true,
        cost: 0,
    },
    // (λ:nat.x) O has the weak head O
    // By hand: one step of an abstraction on its argument.
    Row {
        asked: Asked::Has(Form::WeakHead),
        t: "NxlO.",
        u: "O",
        yes: true,
        cost: 1,
    },
    // (λ:nat.x) one has the weak head S O
    // By hand: the abstraction, and then the definition that it gives: 2.
    Row {
        asked: Asked::Has(Form::WeakHead),
        t: "NxlI.",
        u: "Os",
        yes: true,
        cost: 2,
    },
    // twice has the weak head λ:nat.plus x x
    Row {
        asked: Asked::Has(Form::WeakHead),
        t: "D",
        u: "Nxx+l",
        yes: true,
        cost: 1,
    },
    // twice one has the weak head S (plus O one)
    Row {
        asked: Asked::Has(Form::WeakHead),
        t: "DI.",
        u: "OI+s",
        yes: true,
        cost: 7,
    },
    // plus O O has the weak head O By hand: `O` has no step and is a whole constructor, so `plus`
    // unfolds (1); two abstractions on arguments (2); the match on `O` takes its branch (1).
    Row {
        asked: Asked::Has(Form::WeakHead),
        t: "OO+",
        u: "O",
        yes: true,
        cost: 4,
    },
    // plus (S O) O has the weak head S (plus O O)
    // By hand: as before, and the branch of `S` gives `S (plus O O)`, which has no step: 4.
    Row {
        asked: Asked::Has(Form::WeakHead),
        t: "OsO+",
        u: "OO+s",
        yes: true,
        cost: 4,
    },
    // plus one O has the weak head S (plus O O)
    // By hand: the argument at the place first becomes `S O` (1), and stays so: 1 + 4.
    Row {
        asked: Asked::Has(Form::WeakHead),
        t: "IO+",
        u: "OO+s",
        yes: true,
        cost: 5,
    },
    // plus x O has the weak head plus x O
    // By hand: a variable is no constructor, so nothing is charged.
    Row {
        asked: Asked::Has(Form::WeakHead),
        t: "xO+",
        u: "xO+",
        yes: true,
        cost: 0,
    },
    // plus some O has the weak head plus some O
    Row {
        asked: Asked::Has(Form::WeakHead),
        t: "AO+",
        u: "AO+",
        yes: true,
        cost: 0,
    },
    // plus (plus one one) O has the weak head S (plus (plus O one) O)
    Row {
        asked: Asked::Has(Form::WeakHead),
        t: "II+O+",
        u: "OI+O+s",
        yes: true,
        cost: 9,
    },
    // plus O has the weak head λ:nat.added O
    Row {
        asked: Asked::Has(Form::WeakHead),
        t: "PO.",
        u: "NOql",
        yes: true,
        cost: 2,
    },
    // zeros has the weak head zeros
    // Outside a match a corecursive function stays.
    Row {
        asked: Asked::Has(Form::WeakHead),
        t: "Z",
        u: "Z",
        yes: true,
        cost: 0,
    },
    // head zeros has the weak head O
    // By hand: the match unrolls `zeros` (1) and takes its branch (1).
    Row {
        asked: Asked::Has(Form::WeakHead),
        t: "Zh",
        u: "O",
        yes: true,
        cost: 2,
    },
    // tail zeros has the weak head zeros
    Row {
        asked: Asked::Has(Form::WeakHead),
        t: "Zt",
        u: "Z",
        yes: true,
        cost: 2,
    },
    // head (tail zeros) has the weak head O
    Row {
        asked: Asked::Has(Form::WeakHead),
        t: "Zth",
        u: "O",
        yes: true,
        cost: 4,
    },
    // pred zeros has the weak head pred (more O zeros)
    // A match on another type unrolls it too, once, and then stays.
    Row {
        asked: Asked::Has(Form::WeakHead),
        t: "Zp",
        u: "MO.Z.p",
        yes: true,
        cost: 1,
    },
    // pred one has the weak head O
    Row {
        asked: Asked::Has(Form::WeakHead),
        t: "Ip",
        u: "O",
        yes: true,
        cost: 2,
    },
    // pred S has the weak head pred S
    // By hand: `S` without its argument is no whole constructor: no step, 0.
    Row {
        asked: Asked::Has(Form::WeakHead),
        t: "Sp",
        u: "Sp",
        yes: true,
        cost: 0,
    },
    // pred x has the weak head pred x
    Row {
        asked: Asked::Has(Form::WeakHead),
        t: "xp",
        u: "xp",
        yes: true,
        cost: 0,
    },
    // pred (pred (S one)) has the weak head O
    Row {
        asked: Asked::Has(Form::WeakHead),
        t: "Ispp",
        u: "O",
        yes: true,
        cost: 3,
    },
    // is_zero (plus O O) has the weak head S O
    Row {
        asked: Asked::Has(Form::WeakHead),
        t: "OO+z",
        u: "Os",
        yes: true,
        cost: 6,
    },
    // first (nil nat) has the weak head O
    Row {
        asked: Asked::Has(Form::WeakHead),
        t: "LN.d",
        u: "O",
        yes: true,
        cost: 1,
    },
    // first (cons nat one (nil nat)) has the weak head S O
    Row {
        asked: Asked::Has(Form::WeakHead),
        t: "CN.I.LN..d",
        u: "Os",
        yes: true,
        cost: 2,
    },
    // first (cons nat) has the weak head first (cons nat)
    Row {
        asked: Asked::Has(Form::WeakHead),
        t: "CN.d",
        u: "CN.d",
        yes: true,
        cost: 0,
    },
    // first nil has the weak head first nil
    Row {
        asked: Asked::Has(Form::WeakHead),
        t: "Ld",
        u: "Ld",
        yes: true,
        cost: 0,
    },
    // S (plus O O) has the normal form S O
    Row {
        asked: Asked::Has(Form::Normal),
        t: "OO+s",
        u: "Os",
        yes: true,
        cost: 4,
    },
    // plus one one has the normal form S (S O) By hand: the weak head `S (plus O one)` takes 1 for
    // `one` and 4 for `plus`; `S` has no step; `plus O one` takes 4 to `one` and 1 to `S O`, whose
    // parts have none: 10.
    Row {
        asked: Asked::Has(Form::Normal),
        t: "II+",
        u: "Oss",
        yes: true,
        cost: 10,
    },
    // zeros has the normal form zeros
    Row {
        asked: Asked::Has(Form::Normal),
        t: "Z",
        u: "Z",
        yes: true,
        cost: 0,
    },
    // head zeros has the normal form O
    Row {
        asked: Asked::Has(Form::Normal),
        t: "Zh",
        u: "O",
        yes: true,
        cost: 2,
    },
    // twice (S one) has the normal form S (S (S (S O)))
    Row {
        asked: Asked::Has(Form::Normal),
        t: "DIs.",
        u: "Ossss",
        yes: true,
        cost: 16,
    },
    // λ:nat.plus O x has the normal form λ:nat.x
    Row {
        asked: Asked::Has(Form::Normal),
        t: "NOx+l",
        u: "Nxl",
        yes: true,
        cost: 4,
    },
    // plus x one has the normal form plus x (S O)
    Row {
        asked: Asked::Has(Form::Normal),
        t: "xI+",
        u: "xOs+",
        yes: true,
        cost: 1,
    },
    // nat→(λ:Type[0].x) nat has the normal form nat→nat
    Row {
        asked: Asked::Has(Form::Normal),
        t: "N0xlN.>",
        u: "NN>",
        yes: true,
        cost: 1,
    },
    // ?0[] has the weak head ?0[]
    // An open metavariable stays.
    Row {
        asked: Asked::Has(Form::WeakHead),
        t: "U",
        u: "U",
        yes: true,
        cost: 0,
    },
    // ?1[] has the weak head S O
    // By hand: the metavariable is assigned, and its body is the one step.
    Row {
        asked: Asked::Has(Form::WeakHead),
        t: "V",
        u: "Os",
        yes: true,
        cost: 1,
    },
    // ?2[one] has the weak head S one
    // By hand: the body `S x` under the terms: 1.
    Row {
        asked: Asked::Has(Form::WeakHead),
        t: "Iv",
        u: "Is",
        yes: true,
        cost: 1,
    },
    // plus ?1[] O has the weak head S (plus O O)
    // By hand: the argument at the place first becomes `S O` (1), and then as with `S O`: 1 + 4.
    Row {
        asked: Asked::Has(Form::WeakHead),
        t: "VO+",
        u: "OO+s",
        yes: true,
        cost: 5,
    },
    // plus ?0[] O has the weak head plus ?0[] O
    Row {
        asked: Asked::Has(Form::WeakHead),
        t: "UO+",
        u: "UO+",
        yes: true,
        cost: 0,
    },
    // ?2[?1[]] has the normal form S (S O)
    // By hand: the body of ?2 under its terms (1), and in it the body of ?1 (1).
    Row {
        asked: Asked::Has(Form::Normal),
        t: "Vv",
        u: "Oss",
        yes: true,
        cost: 2,
    },
    // ?3[one] has the normal form ?3[S O]
    // By hand: the term `one` unfolds (1).
    Row {
        asked: Asked::Has(Form::Normal),
        t: "Iu",
        u: "Osu",
        yes: true,
        cost: 1,
    },
    // S ?1[] has the instance S (S O)
    // An instance costs nothing.
    Row {
        asked: Asked::Has(Form::Instance),
        t: "Vs",
        u: "Oss",
        yes: true,
        cost: 0,
    },
    // ?3[?2[?1[]]] has the instance ?3[S (S O)]
    Row {
        asked: Asked::Has(Form::Instance),
        t: "Vvu",
        u: "Ossu",
        yes: true,
        cost: 0,
    },
];
