// Units of every production, and every fault.
use mt_term::Halt;
use mt_unit_parser::{Parsed, RawEqs, RawFunctions, RawTypes, UnitKind, unit_at};
use std::alloc::Global;

// What a text begins with: a unit (its kind, place, end and what was seen of the text), no
// unit, or a refusal (its number and place).
type Outcome = (u8, usize, usize, usize);

fn kind_number(kind: &UnitKind) -> u8 {
    match kind {
        UnitKind::Constraint(_, _) => 101,
        UnitKind::Axiom(_, _) => 102,
        UnitKind::Definition(_, _, _) => 103,
        UnitKind::Inductive { .. } => 104,
        UnitKind::Recursive { .. } => 105,
        UnitKind::Hint { .. } => 106,
        UnitKind::Coercion(_) => 107,
        UnitKind::Theorem(_, _) => 108,
        UnitKind::Qed => 109,
        UnitKind::Step(_) => 110,
        UnitKind::Block(_) => 111,
    }
}

fn outcome(alloc: Global, text: &str) -> Outcome {
    match unit_at(alloc, text, 0) {
        Ok(Parsed::Unit(unit)) => (
            kind_number(&unit.kind),
            unit.span.start,
            unit.span.end,
            unit.span.seen,
        ),
        Ok(Parsed::End) => (0, 0, 0, 0),
        Err(Halt::Refused(fault)) => (fault.refusal.number(), fault.at, 0, 0),
        Err(_) => (23, 0, 0, 0),
    }
}

#[test]
fn commands(rt: HostRuntime) {
    let cases: [(&str, Outcome); 20] = [
        (" (* nothing *) ", (0, 0, 0, 0)),
        ("universe constraint a < b.", (101, 0, 26, 26)),
        ("axiom a : A. x", (102, 0, 12, 12)),
        (" definition a ≝ λx:A.x.", (103, 1, 26, 26)),
        ("definition a : A → B ≝ f.", (103, 0, 29, 29)),
        (
            "inductive list (A:S) : T ≝ | nil : list A | cons : A → list A → list A.",
            (104, 0, 77, 77),
        ),
        ("coinductive E : T ≝ .", (104, 0, 23, 23)),
        ("let rec f (x:A) (y:B) on x : C ≝ t.", (105, 0, 37, 37)),
        ("let corec f : C ≝ t.", (105, 0, 22, 22)),
        (
            "unification hint 1 ≔ x:A, y:B; x ≟ f y; y ≟ g ⊢ a ≡ b.",
            (106, 0, 64, 64),
        ),
        ("unification hint 1 ≔ ⊢ a ≡ b.", (106, 0, 35, 35)),
        ("inductive E : T ≝ | .", (104, 0, 23, 23)),
        (
            "inductive vec (A:S) (n:N) : N → T ≝ nil : vec A O.",
            (104, 0, 54, 54),
        ),
        ("let corec f (x:A) : C ≝ t.", (105, 0, 28, 28)),
        ("unification hint 2 ≔ _:A; x ≟ f ⊢ a ≡ b.", (106, 0, 48, 48)),
        ("unification hint 2 ≔ ; x ≟ f ⊢ a ≡ b.", (106, 0, 45, 45)),
        ("coercion c.", (107, 0, 11, 11)),
        ("theorem t : A.", (108, 0, 14, 14)),
        ("qed.", (109, 0, 4, 4)),
        (
            "axiom a : (((((((((((((((((((((((((((((((((((((((((((((((((((((((((((((((((((((((((((((((((((((((((((((((((((((((((((((((((((((((((((((((((((((((((((((((((((((((((((((((((((((((((((((((((((((((((((((((((((((((Prop))))))))))))))))))))))))))))))))))))))))))))))))))))))))))))))))))))))))))))))))))))))))))))))))))))))))))))))))))))))))))))))))))))))))))))))))))))))))))))))))))))))))))))))))))))))))))))))))))))))).",
            (102, 0, 413, 413),
        ),
    ];
    for (text, expected) in cases {
        assert_eq!(rt; outcome(rt.alloc(), text), expected);
    }
}

#[test]
fn steps(rt: HostRuntime) {
    let cases: [(&str, Outcome); 38] = [
        ("intro x .", (110, 0, 7, 9)),
        ("#_;", (110, 0, 2, 3)),
        ("exact f a[", (110, 0, 9, 10)),
        ("@f …|", (110, 0, 6, 7)),
        ("lapply t ]", (110, 0, 8, 10)),
        ("whd }", (110, 0, 3, 5)),
        ("constructor 2.", (110, 0, 13, 14)),
        ("clear x.", (110, 0, 7, 8)),
        ("skip .", (110, 0, 4, 6)),
        ("focus 1,2 .", (110, 0, 9, 11)),
        ("unfocus .", (110, 0, 7, 9)),
        ("; x", (110, 0, 1, 1)),
        ("[ x", (110, 0, 1, 1)),
        ("| x", (110, 0, 1, 1)),
        ("] x", (110, 0, 1, 1)),
        (". x", (110, 0, 1, 1)),
        ("1, 2 : x", (110, 0, 6, 6)),
        ("* : x", (110, 0, 3, 3)),
        ("{}", (111, 0, 2, 2)),
        ("{ whd; [ * : skip | 1: ] . }", (111, 0, 28, 28)),
        ("{ focus 1 . ; unfocus }", (111, 0, 23, 23)),
        ("{ #x; exact x }", (111, 0, 15, 15)),
        ("{;;}", (111, 0, 4, 4)),
        ("{[[|]|]}", (111, 0, 8, 8)),
        (
            "{[[[[[[[[[[[[[[[[[[[[[[[[[[[[[[[[[[[[[[[[[[[[[[[[[[[[[[[[[[[[[[[[[[[[[[[[[[[[[[[[[[[[[[[[[[[[[[[[[[[[[[[[[[[[[[[[[[[[[[[[[[[[[[[[[[[[[[[[[[[[[[[[[[[[[[[[[[[[[[[[[[[[[[[[[[[[[[[[[[[[[[[[[[[[[[[[[[[[[[[whd]]]]]]]]]]]]]]]]]]]]]]]]]]]]]]]]]]]]]]]]]]]]]]]]]]]]]]]]]]]]]]]]]]]]]]]]]]]]]]]]]]]]]]]]]]]]]]]]]]]]]]]]]]]]]]]]]]]]]]]]]]]]]]]]]]]]]]]]]]]]]]]]]]]]]]]]]]]]]]]]]]]]]]]]]]]]]]]]]]]]]]]]]]]]]]]]]]]]]]]}",
            (111, 0, 403, 403),
        ),
        ("# x |", (110, 0, 3, 5)),
        ("intro _ .", (110, 0, 7, 9)),
        ("refine f .", (110, 0, 8, 10)),
        ("apply f .", (110, 0, 7, 9)),
        ("cut f .", (110, 0, 5, 7)),
        ("change f .", (110, 0, 8, 10)),
        ("generalize f .", (110, 0, 12, 14)),
        ("cases f .", (110, 0, 7, 9)),
        ("elim f .", (110, 0, 6, 8)),
        ("normalize .", (110, 0, 9, 11)),
        ("assumption .", (110, 0, 10, 12)),
        ("{ focus 1, 2 ; skip . #x unfocus }", (111, 0, 34, 34)),
        (
            "{ [ 1, 2 : exact x | * : | apply (f …) ] }",
            (111, 0, 44, 44),
        ),
    ];
    for (text, expected) in cases {
        assert_eq!(rt; outcome(rt.alloc(), text), expected);
    }
}

#[test]
fn refusals(rt: HostRuntime) {
    let cases: [(&str, Outcome); 22] = [
        ("axiom a : %.", (1, 10, 0, 0)),
        ("axiom aλ : A.", (2, 7, 0, 0)),
        ("constructor 01.", (1, 12, 0, 0)),
        ("axiom a A.", (2, 8, 0, 0)),
        ("axiom _ : A.", (2, 6, 0, 0)),
        ("whd skip", (2, 4, 0, 0)),
        ("apply f x y", (3, 11, 0, 0)),
        ("nothing", (2, 0, 0, 0)),
        ("exact match x with [ | c ⇒ x ].", (2, 21, 0, 0)),
        ("let f : A ≝ t.", (2, 4, 0, 0)),
        ("let rec f on x : A ≝ t.", (2, 10, 0, 0)),
        ("{ skip skip }", (2, 7, 0, 0)),
        ("{ skip", (3, 6, 0, 0)),
        ("whd (* .", (3, 8, 0, 0)),
        (
            "{[[[[[[[[[[[[[[[[[[[[[[[[[[[[[[[[[[[[[[[[[[[[[[[[[[[[[[[[[[[[[[[[[[[[[[[[[[[[[[[[[[[[[[[[[[[[[[[[[[[[[[[[[[[[[[[[[[[[[[[[[[[[[[[[[[[[[[[[[[[[[[[[[[[[[[[[[[[[[[[[[[[[[[[[[[[[[[[[[[[[[[[[[[[[[[[[[[[[[[[[;",
            (4, 201, 0, 0),
        ),
        ("unification hint a ≔ ⊢ a ≡ b.", (2, 17, 0, 0)),
        ("coercion _.", (2, 9, 0, 0)),
        ("qed", (3, 3, 0, 0)),
        ("axiom a Prop.", (2, 8, 0, 0)),
        ("axiom a : Prop", (3, 14, 0, 0)),
        (
            "axiom a : ((((((((((((((((((((((((((((((((((((((((((((((((((((((((((((((((((((((((((((((((((((((((((((((((((((((((((((((((((((((((((((((((((((((((((((((((((((((((((((((((((((((((((((((((((((((((((((((((((((((((Prop)))))))))))))))))))))))))))))))))))))))))))))))))))))))))))))))))))))))))))))))))))))))))))))))))))))))))))))))))))))))))))))))))))))))))))))))))))))))))))))))))))))))))))))))))))))))))))))))))))))))).",
            (4, 210, 0, 0),
        ),
        (
            "exact ((((((((((((((((((((((((((((((((((((((((((((((((((((((((((((((((((((((((((((((((((((((((((((((((((((((((((((((((((((((((((((((((((((((((((((((((((((((((((((((((((((((((((((((((((((((((((((((((((((((((a",
            (4, 206, 0, 0),
        ),
    ];
    for (text, expected) in cases {
        assert_eq!(rt; outcome(rt.alloc(), text), expected);
    }
}

// How many types, how many constructors of the first, and the place of the first of these.
fn first_constructor(types: &RawTypes) -> (usize, usize, usize) {
    let Some(ty) = types.get(0) else {
        return (0, 0, 0);
    };
    let at = match ty.cons.get(0) {
        Some(con) => con.at,
        None => 0,
    };
    (types.len(), ty.cons.len(), at)
}

// How many functions, how many groups of the first, and the place of the type of the first of
// these.
fn first_group(functions: &RawFunctions) -> (usize, usize, usize) {
    let Some(function) = functions.get(0) else {
        return (0, 0, 0);
    };
    let start = match function.groups.get(0) {
        Some(group) => group.ty.start,
        None => 0,
    };
    (functions.len(), function.groups.len(), start)
}

// How many equations, and the place of the term of the first.
fn first_equation(eqs: &RawEqs) -> (usize, usize, usize) {
    let start = match eqs.get(0) {
        Some(eq) => eq.term.start,
        None => 0,
    };
    (eqs.len(), 0, start)
}

fn parts_of(kind: &UnitKind) -> (usize, usize, usize) {
    match kind {
        UnitKind::Inductive { types, .. } => first_constructor(types),
        UnitKind::Recursive { functions, .. } => first_group(functions),
        UnitKind::Hint { eqs, .. } => first_equation(eqs),
        _ => (0, 0, 0),
    }
}

fn parts(alloc: Global, text: &str) -> (usize, usize, usize) {
    match unit_at(alloc, text, 0) {
        Ok(Parsed::Unit(unit)) => parts_of(&unit.kind),
        _ => (0, 0, 0),
    }
}

#[test]
fn lists(rt: HostRuntime) {
    let cases = [
        ("inductive nat : T ≝ O : nat | S : nat → nat.", (1, 2, 22)),
        ("let rec f (x:A) (y:B) on x : C ≝ t.", (1, 2, 13)),
        ("unification hint 1 ≔ x:A; x ≟ f y ⊢ a ≡ b.", (1, 0, 34)),
    ];
    for (text, expected) in cases {
        assert_eq!(rt; parts(rt.alloc(), text), expected);
    }
}
