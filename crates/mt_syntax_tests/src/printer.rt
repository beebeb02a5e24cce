// Printed texts of terms and states, and a sink that fails.
use mt_printer::{
    PrintStop, print_env, print_goals, print_term, printed_instances, put_env, put_goals, put_term,
};
use mt_term::{
    Atom, Atoms, Branch, Branches, Cons, Constructor, Entries, Entry, GoalMarks, Hyp, Hyps, Metas,
    Name, Names, Note, Notes, Pairs, PlainEnv, PlainEq, PlainEqs, PlainHint, PlainMeta, PlainProof,
    PlainState, PlainStore, Sort, Term, Terms, UnivExpr,
};
use mt_text::MemorySink;
use std::alloc::{AllocError, Global};
use std::process::Abort;

const MEMORY: &str = "there is memory";

fn name(rt: &impl Abort, alloc: Global, text: &str) -> Name {
    Name::from_bytes(alloc, text.as_bytes()).expect(rt, MEMORY)
}

fn names(rt: &impl Abort, alloc: Global, texts: &[&str]) -> Names {
    let mut names = Names::new(alloc);
    for text in texts {
        names.push(name(rt, alloc, text)).expect(rt, MEMORY);
    }
    names
}

fn boxed(rt: &impl Abort, alloc: Global, t: Term) -> Box<Term> {
    Box::new(alloc, t)
        .map_err(AllocError::from)
        .expect(rt, MEMORY)
}

fn app(rt: &impl Abort, alloc: Global, f: Term, a: Term) -> Term {
    Term::App(boxed(rt, alloc, f), boxed(rt, alloc, a))
}

fn prod(rt: &impl Abort, alloc: Global, x: &str, a: Term, b: Term) -> Term {
    Term::Prod(name(rt, alloc, x), boxed(rt, alloc, a), boxed(rt, alloc, b))
}

fn lam(rt: &impl Abort, alloc: Global, x: &str, a: Term, b: Term) -> Term {
    Term::Lam(name(rt, alloc, x), boxed(rt, alloc, a), boxed(rt, alloc, b))
}

fn small(alloc: Global) -> Term {
    Term::Sort(Sort::Typ(UnivExpr {
        base: 0,
        atoms: Atoms::new(alloc),
    }))
}

fn branch(rt: &impl Abort, alloc: Global, xs: &[&str], body: Term, rest: Branches) -> Branches {
    let names = names(rt, alloc, xs);
    let item = Box::new(alloc, Branch { names, body }).map_err(AllocError::from);
    let rest = Box::new(alloc, rest).map_err(AllocError::from);
    Branches::Item(item.expect(rt, MEMORY), rest.expect(rt, MEMORY))
}

// `inductive nat : Type[0] ≝ | O : nat | S : nat → nat.`
fn nat(rt: &impl Abort, alloc: Global) -> Entry {
    let mut cons = Cons::new(alloc);
    let first = Constructor {
        name: name(rt, alloc, "O"),
        ty: Term::Ind(0),
    };
    cons.push(first).expect(rt, MEMORY);
    let second = Constructor {
        name: name(rt, alloc, "S"),
        ty: prod(rt, alloc, "_", Term::Ind(0), Term::Ind(0)),
    };
    cons.push(second).expect(rt, MEMORY);
    Entry::Inductive {
        name: name(rt, alloc, "nat"),
        co: false,
        params: 0,
        ty: small(alloc),
        cons,
        large: true,
    }
}

// `let rec f (n:nat) on n : nat ≝ match n return λ_:nat.nat with [ O ⇒ n | S p ⇒ f p ].`, or a
// generated principle like it.
fn recursive(rt: &impl Abort, alloc: Global, made: bool) -> Entry {
    let call = app(rt, alloc, Term::Const(1), Term::Var(0));
    let arms = branch(rt, alloc, &["p"], call, Branches::End);
    let arms = branch(rt, alloc, &[], Term::Var(0), arms);
    let back = boxed(rt, alloc, lam(rt, alloc, "_", Term::Ind(0), Term::Ind(0)));
    let body = Term::Match(0, back, boxed(rt, alloc, Term::Var(0)), arms);
    Entry::Recursive {
        name: name(rt, alloc, "f"),
        co: false,
        binders: 1,
        place: 0,
        ty: prod(rt, alloc, "n", Term::Ind(0), Term::Ind(0)),
        body: lam(rt, alloc, "n", Term::Ind(0), body),
        made,
    }
}

fn env(rt: &impl Abort, alloc: Global) -> PlainEnv {
    let mut entries = Entries::new(alloc);
    entries.push(nat(rt, alloc)).expect(rt, MEMORY);
    entries.push(recursive(rt, alloc, false)).expect(rt, MEMORY);
    entries.push(recursive(rt, alloc, true)).expect(rt, MEMORY);
    let axiom = Entry::Axiom {
        name: name(rt, alloc, "x"),
        ty: Term::Ind(0),
    };
    entries.push(axiom).expect(rt, MEMORY);
    let mut below = Pairs::new(alloc);
    below.push((0, 1)).expect(rt, MEMORY);
    PlainEnv {
        entries,
        names: names(rt, alloc, &["a", "b"]),
        below,
    }
}

fn sink(rt: &impl Abort, alloc: Global) -> MemorySink {
    MemorySink::new(alloc, 65536, 7, Vec::new(alloc)).expect(rt, MEMORY)
}

// Whether a term, under variables of these names, has a text.
fn has_text(rt: &impl Abort, alloc: Global, scope: &[&str], t: &Term, text: &str) -> bool {
    let env = env(rt, alloc);
    let scope = names(rt, alloc, scope);
    let mut sink = sink(rt, alloc);
    print_term(alloc, &mut sink, &env, &scope, t).is_ok() && sink.bytes() == text.as_bytes()
}

#[test]
fn terms_have_their_texts(rt: HostRuntime) {
    let alloc = rt.alloc();
    assert!(rt; has_text(&rt, alloc, &[], &small(alloc), "Type[0]"));
    let arrow = prod(&rt, alloc, "_", Term::Ind(0), Term::Ind(0));
    let left = prod(&rt, alloc, "_", arrow, Term::Ind(0));
    assert!(rt; has_text(&rt, alloc, &[], &left, "(nat → nat) → nat"));
    let inner = lam(&rt, alloc, "x", Term::Ind(0), Term::Var(1));
    let head = app(&rt, alloc, Term::Var(0), Term::Const(3));
    let outer = lam(&rt, alloc, "x", Term::Ind(0), app(&rt, alloc, head, inner));
    assert!(rt; has_text(&rt, alloc, &[], &outer, "λx_1:nat.x_1 x (λ_:nat.x_1)"));
    let used = app(&rt, alloc, Term::Var(1), Term::Var(0));
    let used = prod(&rt, alloc, "_", Term::Ind(0), used);
    assert!(rt; has_text(&rt, alloc, &["x"], &used, "∀x_1:nat.x x_1"));
}

#[test]
fn a_sort_has_its_universe_names(rt: HostRuntime) {
    let alloc = rt.alloc();
    let mut atoms = Atoms::new(alloc);
    atoms.push(Atom { name: 0, offset: 0 }).expect(&rt, MEMORY);
    atoms.push(Atom { name: 1, offset: 2 }).expect(&rt, MEMORY);
    let sort = Term::Sort(Sort::Typ(UnivExpr { base: 0, atoms }));
    assert!(rt; has_text(&rt, alloc, &[], &sort, "Type[a,b+2]"));
}

fn terms(rt: &impl Abort, alloc: Global, t: Term) -> Terms {
    let end = Box::new(alloc, Terms::End).map_err(AllocError::from);
    Terms::Item(boxed(rt, alloc, t), end.expect(rt, MEMORY))
}

// `?0 : nat ≝ S ?1[O]` without hypotheses, and `?1` open under `_ : nat`.
fn metas(rt: &impl Abort, alloc: Global) -> Metas {
    let inner = Term::Meta(1, terms(rt, alloc, Term::Con(0, 0)));
    let mut metas = Metas::new(alloc);
    let first = PlainMeta {
        context: Hyps::new(alloc),
        ty: Term::Ind(0),
        body: Some(app(rt, alloc, Term::Con(0, 1), inner)),
    };
    metas.push(first).expect(rt, MEMORY);
    let mut context = Hyps::new(alloc);
    let hyp = Hyp {
        name: name(rt, alloc, "_"),
        ty: Term::Ind(0),
    };
    context.push(hyp).expect(rt, MEMORY);
    let second = PlainMeta {
        context,
        ty: app(rt, alloc, Term::Var(0), Term::Meta(0, Terms::End)),
        body: None,
    };
    metas.push(second).expect(rt, MEMORY);
    metas
}

fn hint(rt: &impl Abort, alloc: Global) -> PlainHint {
    let mut vars = Hyps::new(alloc);
    let older = Hyp {
        name: name(rt, alloc, "n"),
        ty: Term::Ind(0),
    };
    vars.push(older).expect(rt, MEMORY);
    let newer = Hyp {
        name: name(rt, alloc, "_"),
        ty: Term::Ind(0),
    };
    vars.push(newer).expect(rt, MEMORY);
    let mut eqs = PlainEqs::new(alloc);
    let equation = PlainEq {
        place: 1,
        term: app(rt, alloc, Term::Con(0, 1), Term::Var(0)),
    };
    eqs.push(equation).expect(rt, MEMORY);
    PlainHint {
        precedence: 3,
        vars,
        eqs,
        left: app(rt, alloc, Term::Con(0, 1), Term::Var(1)),
        right: Term::Var(0),
    }
}

fn state(rt: &impl Abort, alloc: Global, notes: Notes, proof: Option<PlainProof>) -> PlainState {
    PlainState {
        env: env(rt, alloc),
        store: PlainStore {
            metas: metas(rt, alloc),
        },
        proof,
        units: 0,
        place: 0,
        notes,
    }
}

const LINES: &str =
    "env 6\ninductive nat : Type[0] ≝ | O : nat | S : nat → nat.\nlet rec f (n:nat) on n : nat ≝ match n return λ_:nat.nat with [ O ⇒ n | S p ⇒ f p ].\naxiom x : nat.\nuniverse constraint a < b.\nunification hint 3 ≔ n:nat, x:nat; x ≟ S n ⊢ S n ≡ x.\ncoercion f.\n";

#[test]
fn states_have_their_lines(rt: HostRuntime) {
    let alloc = rt.alloc();
    let mut notes = Notes::new(alloc);
    for n in 0..4 {
        notes.push(Note::Entry(n)).expect(&rt, MEMORY);
    }
    notes.push(Note::Constraint(0)).expect(&rt, MEMORY);
    notes.push(Note::Hint(hint(&rt, alloc))).expect(&rt, MEMORY);
    notes
        .push(Note::Coercion(name(&rt, alloc, "f")))
        .expect(&rt, MEMORY);
    let state = state(&rt, alloc, notes, None);
    let mut sink = sink(&rt, alloc);
    assert!(rt; print_env(alloc, &mut sink, &state).is_ok());
    assert_eq!(rt; sink.bytes(), LINES.as_bytes());
}

const GOALS: &str =
    "proof p : nat\ngoals 1\ngoal 1 focus\n  x : nat\n  ⊢ x (S ?1[O])\nterm S ?1[O]\n";

#[test]
fn a_proof_is_printed_by_instances(rt: HostRuntime) {
    let alloc = rt.alloc();
    let mut goals = GoalMarks::new(alloc);
    goals.push((1, true)).expect(&rt, MEMORY);
    let proof = PlainProof {
        name: name(&rt, alloc, "p"),
        ty: Term::Ind(0),
        root: 0,
        goals,
    };
    let state = state(&rt, alloc, Notes::new(alloc), Some(proof));
    let mut sink = sink(&rt, alloc);
    assert!(rt; print_goals(alloc, &mut sink, &state).is_ok());
    assert_eq!(rt; sink.bytes(), GOALS.as_bytes());
}

#[test]
fn a_failing_sink_has_a_prefix(rt: HostRuntime) {
    let alloc = rt.alloc();
    let state = state(&rt, alloc, Notes::new(alloc), None);
    let fails = [1].to_vec(alloc).expect(&rt, MEMORY);
    let mut sink = MemorySink::new(alloc, 64, 4, fails).expect(&rt, MEMORY);
    assert_eq!(rt;
        print_goals(alloc, &mut sink, &state),
        Err(PrintStop::WriteFault)
    );
    assert_eq!(rt; sink.bytes(), b"proo".as_slice());
}

#[test]
fn texts_are_put_at_the_end(rt: HostRuntime) {
    let alloc = rt.alloc();
    let mut notes = Notes::new(alloc);
    notes.push(Note::Entry(3)).expect(&rt, MEMORY);
    let state = state(&rt, alloc, notes, None);
    let scope = names(&rt, alloc, &["y", "z"]);
    let term = app(&rt, alloc, Term::Var(0), Term::Var(1));
    let mut out = b"> ".to_vec(alloc).expect(&rt, MEMORY);
    put_term(alloc, &mut out, &state.env, &scope, &term).expect(&rt, MEMORY);
    assert_eq!(rt; out.as_slice(), b"> z y".as_slice());
    put_env(alloc, &mut out, &state).expect(&rt, MEMORY);
    put_goals(alloc, &mut out, &state).expect(&rt, MEMORY);
    assert_eq!(rt;
        out.as_slice(),
        b"> z yenv 1\naxiom x : nat.\nproof none\n".as_slice()
    );
}

#[test]
fn laws(_rt: HostRuntime) {
    printed_instances();
}
