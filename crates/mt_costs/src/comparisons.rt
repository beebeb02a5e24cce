// Comparisons of terms, with their costs.
use crate::rows::{Asked, Row};
use mt_term::Mode;

/// The rows of the comparison, as equal and as types.
pub static COMPARISONS: [Row; 34] = [
    // O = O
    // By hand: alike terms take the charge of the comparison alone.
    Row {
        asked: Asked::Compared(Mode::Equal),
        t: "O",
        u: "O",
        yes: true,
        cost: 1,
    },
    // plus O O = O
    // By hand: the comparison (1), and the weak head of the left (4); the heads are the same.
    Row {
        asked: Asked::Compared(Mode::Equal),
        t: "OO+",
        u: "O",
        yes: true,
        cost: 5,
    },
    // S (plus O O) = S O By hand: the comparison (1); no side has a step, and the heads are the
    // same; the arguments are as in the row before (5).
    Row {
        asked: Asked::Compared(Mode::Equal),
        t: "OO+s",
        u: "Os",
        yes: true,
        cost: 6,
    },
    // one = S O
    Row {
        asked: Asked::Compared(Mode::Equal),
        t: "I",
        u: "Os",
        yes: true,
        cost: 3,
    },
    // plus one one = S one By hand: the comparison (1); the left becomes `S (plus O one)` (5), and
    // the right has no step; the arguments: the comparison (1), `plus O one` becomes `S O` (5) and
    // `one` too (1), and the comparison of `O` with `O` (1).
    Row {
        asked: Asked::Compared(Mode::Equal),
        t: "II+",
        u: "Is",
        yes: true,
        cost: 14,
    },
    // O = S O
    Row {
        asked: Asked::Compared(Mode::Equal),
        t: "O",
        u: "Os",
        yes: false,
        cost: 1,
    },
    // one = O
    Row {
        asked: Asked::Compared(Mode::Equal),
        t: "I",
        u: "O",
        yes: false,
        cost: 2,
    },
    // twice one = plus one one
    Row {
        asked: Asked::Compared(Mode::Equal),
        t: "DI.",
        u: "II+",
        yes: true,
        cost: 14,
    },
    // some = O
    Row {
        asked: Asked::Compared(Mode::Equal),
        t: "A",
        u: "O",
        yes: false,
        cost: 1,
    },
    // plus x O = plus x O
    Row {
        asked: Asked::Compared(Mode::Equal),
        t: "xO+",
        u: "xO+",
        yes: true,
        cost: 1,
    },
    // plus x one = plus x (S O)
    Row {
        asked: Asked::Compared(Mode::Equal),
        t: "xI+",
        u: "xOs+",
        yes: true,
        cost: 5,
    },
    // plus one x = S x
    Row {
        asked: Asked::Compared(Mode::Equal),
        t: "Ix+",
        u: "xs",
        yes: true,
        cost: 11,
    },
    // plus x O = plus y O
    Row {
        asked: Asked::Compared(Mode::Equal),
        t: "xO+",
        u: "yO+",
        yes: false,
        cost: 2,
    },
    // plus some one = plus some O
    Row {
        asked: Asked::Compared(Mode::Equal),
        t: "AI+",
        u: "AO+",
        yes: false,
        cost: 4,
    },
    // cons nat one (nil nat) = cons nat (S O) (nil nat)
    Row {
        asked: Asked::Compared(Mode::Equal),
        t: "CN.I.LN..",
        u: "CN.Os.LN..",
        yes: true,
        cost: 6,
    },
    // zeros = more O zeros
    Row {
        asked: Asked::Compared(Mode::Equal),
        t: "Z",
        u: "MO.Z.",
        yes: false,
        cost: 1,
    },
    // head zeros = O
    Row {
        asked: Asked::Compared(Mode::Equal),
        t: "Zh",
        u: "O",
        yes: true,
        cost: 3,
    },
    // λ:nat.x = λ:nat.(λ:nat.x) x
    Row {
        asked: Asked::Compared(Mode::Equal),
        t: "Nxl",
        u: "NNxlx.l",
        yes: true,
        cost: 4,
    },
    // pred x = odd_pred x By hand: the comparison (1); the motives and the matched terms (2); the
    // bodies, `O` with `plus O O` (5) and two alike (1).
    Row {
        asked: Asked::Compared(Mode::Equal),
        t: "xp",
        u: "xr",
        yes: true,
        cost: 9,
    },
    // pred x = is_zero x
    Row {
        asked: Asked::Compared(Mode::Equal),
        t: "xp",
        u: "xz",
        yes: false,
        cost: 5,
    },
    // Prop = Type[0]
    Row {
        asked: Asked::Compared(Mode::Equal),
        t: "B",
        u: "0",
        yes: false,
        cost: 1,
    },
    // nat→nat = nat→(λ:nat.nat) one
    Row {
        asked: Asked::Compared(Mode::Equal),
        t: "NN>",
        u: "NNNlI.>",
        yes: true,
        cost: 4,
    },
    // Prop is at most Type[0]
    Row {
        asked: Asked::Compared(Mode::AtMost),
        t: "B",
        u: "0",
        yes: true,
        cost: 1,
    },
    // Type[0] is at most Prop
    Row {
        asked: Asked::Compared(Mode::AtMost),
        t: "0",
        u: "B",
        yes: false,
        cost: 1,
    },
    // Type[0] is at most Type[1]
    Row {
        asked: Asked::Compared(Mode::AtMost),
        t: "0",
        u: "1",
        yes: true,
        cost: 1,
    },
    // Type[1] is at most Type[0]
    Row {
        asked: Asked::Compared(Mode::AtMost),
        t: "1",
        u: "0",
        yes: false,
        cost: 1,
    },
    // nat→Prop is at most nat→Type[0]
    // Codomains are compared in the mode.
    Row {
        asked: Asked::Compared(Mode::AtMost),
        t: "NB>",
        u: "N0>",
        yes: true,
        cost: 3,
    },
    // Prop→nat is at most Type[0]→nat
    // Domains are compared as equal.
    Row {
        asked: Asked::Compared(Mode::AtMost),
        t: "BN>",
        u: "0N>",
        yes: false,
        cost: 2,
    },
    // (λ:Type[1].x) Type[0] is at most Type[2]
    // By hand: the comparison (1) and the step of the abstraction (1); Type[0] is at most Type[2].
    Row {
        asked: Asked::Compared(Mode::AtMost),
        t: "1xl0.",
        u: "2",
        yes: true,
        cost: 2,
    },
    // ?0[] = ?0[]
    Row {
        asked: Asked::Compared(Mode::Equal),
        t: "U",
        u: "U",
        yes: true,
        cost: 1,
    },
    // ?1[] = S O
    // By hand: the comparison (1) and the body (1); the arguments are alike (1).
    Row {
        asked: Asked::Compared(Mode::Equal),
        t: "V",
        u: "Os",
        yes: true,
        cost: 3,
    },
    // ?3[one] = ?3[S O] By hand: the comparison (1); the terms: the comparison (1), the unfolding
    // (1), and the arguments, which are alike (1).
    Row {
        asked: Asked::Compared(Mode::Equal),
        t: "Iu",
        u: "Osu",
        yes: true,
        cost: 4,
    },
    // ?3[one] = ?3[O]
    // By hand: the comparison (1); the terms: the comparison (1) and the unfolding (1).
    Row {
        asked: Asked::Compared(Mode::Equal),
        t: "Iu",
        u: "Ou",
        yes: false,
        cost: 3,
    },
    // ?0[] = O
    Row {
        asked: Asked::Compared(Mode::Equal),
        t: "U",
        u: "O",
        yes: false,
        cost: 1,
    },
];
