// Inferences of types, with their costs. Where no type is inferred, the answer is no whatever the
// second term is.
use crate::rows::{Asked, Form, Row};

/// The rows of inference.
pub static INFERENCES: [Row; 28] = [
    // O : nat
    // By hand: one term (1).
    Row {
        asked: Asked::Has(Form::Type),
        t: "O",
        u: "N",
        yes: true,
        cost: 1,
    },
    // one : nat
    Row {
        asked: Asked::Has(Form::Type),
        t: "I",
        u: "N",
        yes: true,
        cost: 1,
    },
    // zeros : stream
    Row {
        asked: Asked::Has(Form::Type),
        t: "Z",
        u: "T",
        yes: true,
        cost: 1,
    },
    // refl : ∀:Type[0].∀:x.eq y x x
    Row {
        asked: Asked::Has(Form::Type),
        t: "R",
        u: "0xEy.x.x.>>",
        yes: true,
        cost: 1,
    },
    // Prop : Type[0]
    Row {
        asked: Asked::Has(Form::Type),
        t: "B",
        u: "0",
        yes: true,
        cost: 1,
    },
    // Type[1] : Type[2]
    Row {
        asked: Asked::Has(Form::Type),
        t: "1",
        u: "2",
        yes: true,
        cost: 1,
    },
    // nat→nat : Type[0]
    // By hand: the product and its parts (3).
    Row {
        asked: Asked::Has(Form::Type),
        t: "NN>",
        u: "0",
        yes: true,
        cost: 3,
    },
    // nat→Prop : Type[0]
    Row {
        asked: Asked::Has(Form::Type),
        t: "NB>",
        u: "0",
        yes: true,
        cost: 3,
    },
    // Type[0]→Prop : Type[1]
    // The greater of Type[1] and Type[0].
    Row {
        asked: Asked::Has(Form::Type),
        t: "0B>",
        u: "1",
        yes: true,
        cost: 3,
    },
    // ∀:nat.eq nat x O : Prop
    // The sort of the codomain is Prop, and so is that of the product.
    Row {
        asked: Asked::Has(Form::Type),
        t: "NEN.x.O.>",
        u: "B",
        yes: true,
        cost: 12,
    },
    // λ:nat.x : nat→nat
    // By hand: the abstraction, its type and its body (3).
    Row {
        asked: Asked::Has(Form::Type),
        t: "Nxl",
        u: "NN>",
        yes: true,
        cost: 3,
    },
    // plus one : nat→nat
    // By hand: the application and its parts (3), and the comparison of the argument's type (1).
    Row {
        asked: Asked::Has(Form::Type),
        t: "PI.",
        u: "NN>",
        yes: true,
        cost: 4,
    },
    // nil nat : list nat
    Row {
        asked: Asked::Has(Form::Type),
        t: "LN.",
        u: "KN.",
        yes: true,
        cost: 4,
    },
    // eq nat O O : Prop By hand: three applications (3), `eq` (1), three arguments (3), and the
    // comparison of the type of each (3).
    Row {
        asked: Asked::Has(Form::Type),
        t: "EN.O.O.",
        u: "B",
        yes: true,
        cost: 10,
    },
    // (λ:Type[1].x) Type[0] : Type[1]
    Row {
        asked: Asked::Has(Form::Type),
        t: "1xl0.",
        u: "1",
        yes: true,
        cost: 6,
    },
    // refl ((λ:Type[0].x) nat) O : eq ((λ:Type[0].x) nat) O O By hand: `(λ:Type[0].x) nat` takes 6,
    // its application and parts (5) and a comparison (1); `refl` on it 3 more, with a comparison;
    // the outer application and `O` (2), and the comparison (1) of `nat` with `(λ:Type[0].x) nat`,
    // which has a step (1).
    Row {
        asked: Asked::Has(Form::Type),
        t: "R0xlN..O.",
        u: "E0xlN..O.O.",
        yes: true,
        cost: 13,
    },
    // pred one : nat By hand: the match and the matched term (2); the motive (3), and the
    // comparison of its domain with `nat` (1); of each branch its body and the comparison of its
    // type (2 + 2).
    Row {
        asked: Asked::Has(Form::Type),
        t: "Ip",
        u: "N",
        yes: true,
        cost: 10,
    },
    // head zeros : nat
    Row {
        asked: Asked::Has(Form::Type),
        t: "Zh",
        u: "N",
        yes: true,
        cost: 8,
    },
    // first (nil nat) : nat
    Row {
        asked: Asked::Has(Form::Type),
        t: "LN.d",
        u: "N",
        yes: true,
        cost: 16,
    },
    // O on O has no type: no function
    // By hand: the application and its first part (2); `nat` is no product.
    Row {
        asked: Asked::Has(Form::Type),
        t: "OO.",
        u: "N",
        yes: false,
        cost: 2,
    },
    // S on nat has no type: not its domain By hand: the application and its parts (3), and the
    // comparison of the argument's type (1), which says no.
    Row {
        asked: Asked::Has(Form::Type),
        t: "SN.",
        u: "N",
        yes: false,
        cost: 4,
    },
    // λ:O.x has no type: O is no type
    // By hand: the abstraction and its type (2); `nat` is no sort.
    Row {
        asked: Asked::Has(Form::Type),
        t: "Oxl",
        u: "N",
        yes: false,
        cost: 2,
    },
    // head one has no type: one is no stream
    // By hand: the match and the matched term (2); `nat` is another type.
    Row {
        asked: Asked::Has(Form::Type),
        t: "Ih",
        u: "N",
        yes: false,
        cost: 2,
    },
    // x has no type where no hypothesis is
    Row {
        asked: Asked::Has(Form::Type),
        t: "x",
        u: "N",
        yes: false,
        cost: 1,
    },
    // ?0[] : nat
    // By hand: one term (1), and no hypothesis.
    Row {
        asked: Asked::Has(Form::Type),
        t: "U",
        u: "N",
        yes: true,
        cost: 1,
    },
    // ?2[O] : nat
    // By hand: the metavariable (1), its term (1), and the comparison of the types (1).
    Row {
        asked: Asked::Has(Form::Type),
        t: "Ov",
        u: "N",
        yes: true,
        cost: 3,
    },
    // ?2[Prop] has no type
    // By hand: the metavariable (1), its term (1), and the comparison of Type[0] with nat (1).
    Row {
        asked: Asked::Has(Form::Type),
        t: "Bv",
        u: "N",
        yes: false,
        cost: 3,
    },
    // S ?0[] : nat
    // By hand: the application and its parts (3), and the comparison of the types (1).
    Row {
        asked: Asked::Has(Form::Type),
        t: "Us",
        u: "N",
        yes: true,
        cost: 4,
    },
];
