// Checks of terms against types, with their costs.
//
// Most compare two terms t and u, by a proof by `refl` that they are equal: the type `eq A t t` is
// inferred and compared with `eq A t u`. That takes a charge for the whole, for A and for t, and
// then what the comparison of t with u takes.
use crate::rows::{Asked, Row};

/// The rows of the check.
pub static CHECKS: [Row; 48] = [
    // O : nat
    // By hand: the type (1), the constructor (1), and the comparison of two alike types (1).
    Row {
        asked: Asked::Checked,
        t: "O",
        u: "N",
        yes: true,
        cost: 3,
    },
    // S O : nat By hand: the type (1); the application, its two parts and the comparison of the
    // argument's type (4); the comparison (1).
    Row {
        asked: Asked::Checked,
        t: "Os",
        u: "N",
        yes: true,
        cost: 6,
    },
    // λ:nat.x : nat→nat By hand: the product and its parts (3); the abstraction, its type and its
    // body (3); the comparison (1).
    Row {
        asked: Asked::Checked,
        t: "Nxl",
        u: "NN>",
        yes: true,
        cost: 7,
    },
    // zeros : stream
    // By hand: the type (1), the constant (1), and the comparison of two alike types (1).
    Row {
        asked: Asked::Checked,
        t: "Z",
        u: "T",
        yes: true,
        cost: 3,
    },
    // O : stream
    // By hand: as `O : nat`, and the comparison says no: 3.
    Row {
        asked: Asked::Checked,
        t: "O",
        u: "T",
        yes: false,
        cost: 3,
    },
    // nat : Type[0]
    // By hand: the sort (1), the type (1), and the comparison of two alike sorts (1).
    Row {
        asked: Asked::Checked,
        t: "N",
        u: "0",
        yes: true,
        cost: 3,
    },
    // Prop : Type[1]
    // By hand: the two sorts (2), and the comparison of the sort of `Prop` with an alike one (1).
    Row {
        asked: Asked::Checked,
        t: "B",
        u: "1",
        yes: true,
        cost: 3,
    },
    // Type[0] : Type[0]
    // By hand: the two sorts (2), and the comparison of Type[1] with Type[0], which says no (1).
    Row {
        asked: Asked::Checked,
        t: "0",
        u: "0",
        yes: false,
        cost: 3,
    },
    // nat→Prop : Type[1]
    // By hand: the sort (1); the product and its parts (3); the comparison (1).
    Row {
        asked: Asked::Checked,
        t: "NB>",
        u: "1",
        yes: true,
        cost: 5,
    },
    // plus one one : nat By hand: the type (1); two applications (2), `plus` and two times `one`
    // (3), and the comparison of the type of each argument (2); the comparison (1).
    Row {
        asked: Asked::Checked,
        t: "II+",
        u: "N",
        yes: true,
        cost: 9,
    },
    // pred one : nat
    Row {
        asked: Asked::Checked,
        t: "Ip",
        u: "N",
        yes: true,
        cost: 12,
    },
    // head zeros : nat
    Row {
        asked: Asked::Checked,
        t: "Zh",
        u: "N",
        yes: true,
        cost: 10,
    },
    // first (cons nat one (nil nat)) : nat
    Row {
        asked: Asked::Checked,
        t: "CN.I.LN..d",
        u: "N",
        yes: true,
        cost: 27,
    },
    // twice : nat→nat
    // By hand: the product and its parts (3), the constant (1), the comparison (1).
    Row {
        asked: Asked::Checked,
        t: "D",
        u: "NN>",
        yes: true,
        cost: 5,
    },
    // refl nat O : eq nat O O By hand: the type takes 10, three applications (3), `eq`, `nat` and
    // two times `O` (4), and the comparison of the type of each argument (3); the term takes 7, two
    // applications (2), `refl`, `nat` and `O` (3), and two comparisons (2); the comparison of two
    // alike types (1).
    Row {
        asked: Asked::Checked,
        t: "RN.O.",
        u: "EN.O.O.",
        yes: true,
        cost: 18,
    },
    // refl nat one : eq nat one (S O) By hand: the type takes 13, three applications (3), `eq` and
    // `nat` and `one` (3), `S O` (4), and the comparison of the type of each argument (3); the term
    // takes 7, two applications (2), `refl` and `nat` and `one` (3), and two comparisons (2); the
    // comparison of the types takes 6, as said above, where `one` and `S O` take 3.
    Row {
        asked: Asked::Checked,
        t: "RN.I.",
        u: "EN.I.Os.",
        yes: true,
        cost: 26,
    },
    // refl nat O : eq nat (plus O O) O
    Row {
        asked: Asked::Checked,
        t: "RN.O.",
        u: "EN.OO+.O.",
        yes: true,
        cost: 31,
    },
    // refl nat (plus one one) : eq nat (plus one one) (S one)
    Row {
        asked: Asked::Checked,
        t: "RN.II+.",
        u: "EN.II+.Is.",
        yes: true,
        cost: 49,
    },
    // refl nat O : eq nat O one
    Row {
        asked: Asked::Checked,
        t: "RN.O.",
        u: "EN.O.I.",
        yes: false,
        cost: 22,
    },
    // refl nat (head zeros) : eq nat (head zeros) O
    Row {
        asked: Asked::Checked,
        t: "RN.Zh.",
        u: "EN.Zh.O.",
        yes: true,
        cost: 37,
    },
    // λ:nat.refl nat x : nat→eq nat (plus O x) x
    Row {
        asked: Asked::Checked,
        t: "NRN.x.l",
        u: "NEN.Ox+.x.>",
        yes: true,
        cost: 37,
    },
    // λ:nat.refl nat x : nat→eq nat (plus x O) x
    Row {
        asked: Asked::Checked,
        t: "NRN.x.l",
        u: "NEN.xO+.x.>",
        yes: false,
        cost: 32,
    },
    // refl nat (S (plus O O)) : eq nat (S (plus O O)) (S O)
    Row {
        asked: Asked::Checked,
        t: "RN.OO+s.",
        u: "EN.OO+s.Os.",
        yes: true,
        cost: 47,
    },
    // refl nat (twice one) : eq nat (twice one) (plus one one)
    Row {
        asked: Asked::Checked,
        t: "RN.DI..",
        u: "EN.DI..II+.",
        yes: true,
        cost: 46,
    },
    // refl nat O : eq nat O (S O)
    Row {
        asked: Asked::Checked,
        t: "RN.O.",
        u: "EN.O.Os.",
        yes: false,
        cost: 24,
    },
    // refl nat some : eq nat some O
    Row {
        asked: Asked::Checked,
        t: "RN.A.",
        u: "EN.A.O.",
        yes: false,
        cost: 21,
    },
    // refl nat (plus some one) : eq nat (plus some one) (plus some (S O))
    Row {
        asked: Asked::Checked,
        t: "RN.AI+.",
        u: "EN.AI+.AOs+.",
        yes: true,
        cost: 46,
    },
    // refl nat (plus some one) : eq nat (plus some one) (plus some O)
    Row {
        asked: Asked::Checked,
        t: "RN.AI+.",
        u: "EN.AI+.AO+.",
        yes: false,
        cost: 42,
    },
    // refl nat (plus (plus one one) O) : eq nat (plus (plus one one) O) (plus one one)
    Row {
        asked: Asked::Checked,
        t: "RN.II+O+.",
        u: "EN.II+O+.II+.",
        yes: true,
        cost: 85,
    },
    // refl nat (twice (S one)) : eq nat (twice (S one)) (S (S (S (S O))))
    Row {
        asked: Asked::Checked,
        t: "RN.DIs..",
        u: "EN.DIs..Ossss.",
        yes: true,
        cost: 65,
    },
    // refl nat ((λ:nat.x) one) : eq nat ((λ:nat.x) one) one
    Row {
        asked: Asked::Checked,
        t: "RN.NxlI..",
        u: "EN.NxlI..I.",
        yes: true,
        cost: 35,
    },
    // refl nat (head (tail zeros)) : eq nat (head (tail zeros)) O
    Row {
        asked: Asked::Checked,
        t: "RN.Zth.",
        u: "EN.Zth.O.",
        yes: true,
        cost: 53,
    },
    // refl nat (pred one) : eq nat (pred one) O
    Row {
        asked: Asked::Checked,
        t: "RN.Ip.",
        u: "EN.Ip.O.",
        yes: true,
        cost: 41,
    },
    // refl nat (pred (S some)) : eq nat (pred (S some)) some
    Row {
        asked: Asked::Checked,
        t: "RN.Asp.",
        u: "EN.Asp.A.",
        yes: true,
        cost: 46,
    },
    // refl nat (pred some) : eq nat (pred some) (odd_pred some)
    Row {
        asked: Asked::Checked,
        t: "RN.Ap.",
        u: "EN.Ap.Ar.",
        yes: true,
        cost: 62,
    },
    // refl nat (pred some) : eq nat (pred some) (is_zero some)
    Row {
        asked: Asked::Checked,
        t: "RN.Ap.",
        u: "EN.Ap.Az.",
        yes: false,
        cost: 52,
    },
    // refl nat (is_zero O) : eq nat (is_zero O) one
    Row {
        asked: Asked::Checked,
        t: "RN.Oz.",
        u: "EN.Oz.I.",
        yes: true,
        cost: 43,
    },
    // refl nat (first (nil nat)) : eq nat (first (nil nat)) O
    Row {
        asked: Asked::Checked,
        t: "RN.LN.d.",
        u: "EN.LN.d.O.",
        yes: true,
        cost: 52,
    },
    // refl nat (first (cons nat one (nil nat))) : eq nat (first (cons nat one (nil nat))) one
    Row {
        asked: Asked::Checked,
        t: "RN.CN.I.LN..d.",
        u: "EN.CN.I.LN..d.I.",
        yes: true,
        cost: 73,
    },
    // refl (list nat) (cons nat one (nil nat)) : eq (list nat) (cons nat one (nil nat)) (cons nat
    // (S O) (nil nat))
    Row {
        asked: Asked::Checked,
        t: "RKN..CN.I.LN...",
        u: "EKN..CN.I.LN...CN.Os.LN...",
        yes: true,
        cost: 71,
    },
    // refl stream zeros : eq stream zeros (tail zeros)
    Row {
        asked: Asked::Checked,
        t: "RT.Z.",
        u: "ET.Z.Zt.",
        yes: true,
        cost: 30,
    },
    // refl stream zeros : eq stream zeros (more O zeros)
    Row {
        asked: Asked::Checked,
        t: "RT.Z.",
        u: "ET.Z.MO.Z..",
        yes: false,
        cost: 27,
    },
    // refl (nat→nat) twice : eq (nat→nat) twice (λ:nat.plus x x)
    Row {
        asked: Asked::Checked,
        t: "RNN>.D.",
        u: "ENN>.D.Nxx+l.",
        yes: true,
        cost: 36,
    },
    // λ:Prop.x : Prop→Type[0] By hand: the product and its parts (3); the abstraction, its type and
    // its body (3); the comparison, and those of domains and codomains (3).
    Row {
        asked: Asked::Checked,
        t: "Bxl",
        u: "B0>",
        yes: true,
        cost: 9,
    },
    // λ:Type[0].x : Type[0]→Prop
    // By hand: as `λ:Prop.x : Prop→Type[0]`, and the comparison of the codomains says no: 9.
    Row {
        asked: Asked::Checked,
        t: "0xl",
        u: "0B>",
        yes: false,
        cost: 9,
    },
    // λ:nat→Prop.x : (nat→Prop)→nat→Type[0] By hand: the type takes 7, the product (1) and two
    // products with their parts (6); the term takes 5, the abstraction (1), the product and its
    // parts (3) and the body (1); the comparison takes 5, the whole (1), alike domains (1), and the
    // codomains (1) with their parts (2).
    Row {
        asked: Asked::Checked,
        t: "NB>xl",
        u: "NB>N0>>",
        yes: true,
        cost: 17,
    },
    // λ:Type[0]→nat.x : (Type[0]→nat)→Prop→nat
    Row {
        asked: Asked::Checked,
        t: "0N>xl",
        u: "0N>BN>>",
        yes: false,
        cost: 16,
    },
    // nat : (λ:Type[1].x) Type[0]
    Row {
        asked: Asked::Checked,
        t: "N",
        u: "1xl0.",
        yes: true,
        cost: 9,
    },
];
