// Raw terms as the parser gives them.
ghost use Rattle.mt_resolver.specs.TableOf.{AreNamesOf};

use mt_resolver::{Meaning, Scope, Table, is_built, resolve};
use mt_term::{Cons, Constructor, Entries, Entry, Halt, Name, Names, Pairs, PlainEnv, Sort, Term};
use mt_term_parser::term_at;
use std::alloc::Global;
use std::test::Fail;

// Whether the term of a text can be taken by its names.
fn built(alloc: Global, text: &str, matches: bool) -> bool {
    match term_at(alloc, text, 0, 0) {
        Ok((raw, _)) => match is_built(&raw, matches) {
            Ok(is) => is,
            Err(_) => false,
        },
        Err(_) => false,
    }
}

#[test]
fn forms(rt: HostRuntime) {
    let cases = [
        ("λx:A.f x (∀y:x.Type[0,u+2]) → Prop", true, true),
        ("f (λx.x)", false, false),
        ("f …", false, false),
        ("f ?", false, false),
        ("(f : A)", false, false),
        ("match n return P with [ O ⇒ x ]", false, true),
        ("match n return P with [ O ⇒ ? ]", false, false),
        ("match n return P with [ ]", false, false),
        ("match n with [ O ⇒ x ]", false, false),
    ];
    for (text, first, all) in cases {
        assert_eq!(rt; built(rt.alloc(), text, false), first);
        assert_eq!(rt; built(rt.alloc(), text, true), all);
    }
}

fn name(alloc: Global, text: &str) -> Result<Name, Fail> {
    Ok(Name::from_bytes(alloc, text.as_bytes())?)
}

// `inductive nat : Prop ≝ O : nat | S : nat → nat.`, as the entry of number 1.
fn naturals(alloc: Global) -> Result<Entry, Fail> {
    let mut cons = Cons::new(alloc);
    cons.push(Constructor {
        name: name(alloc, "O")?,
        ty: Term::Ind(1),
    })?;
    cons.push(Constructor {
        name: name(alloc, "S")?,
        ty: Term::Prod(
            name(alloc, "_")?,
            Box::new(alloc, Term::Ind(1))?,
            Box::new(alloc, Term::Ind(1))?,
        ),
    })?;
    Ok(Entry::Inductive {
        name: name(alloc, "nat")?,
        co: false,
        params: 0,
        ty: Term::Sort(Sort::Prop),
        cons,
        large: true,
    })
}

fn axiom(alloc: Global) -> Result<Entry, Fail> {
    Ok(Entry::Axiom {
        name: name(alloc, "a")?,
        ty: Term::Sort(Sort::Prop),
    })
}

fn table(alloc: Global) -> Result<Table, Fail> {
    let mut names = Table::new(alloc);
    names.add(alloc, 0, &axiom(alloc)?)?;
    names.add(alloc, 1, &naturals(alloc)?)?;
    Ok(names)
}

// The numbers of what a name stands for.
fn numbers(names: &Table, name: &[u8]) -> (usize, usize) {
    match names.find(name) {
        Some(Meaning::Constant(n)) => (n, 100),
        Some(Meaning::Type(n)) => (n, 101),
        Some(Meaning::Constructor(n, k)) => (n, k),
        None => (102, 102),
    }
}

#[test]
fn tables(rt: HostRuntime) -> Result<(), Fail> {
    let names = table(rt.alloc())?;
    assert_eq!(rt; numbers(&names, b"a".as_slice()), (0, 100));
    assert_eq!(rt; numbers(&names, b"nat".as_slice()), (1, 101));
    assert_eq!(rt; numbers(&names, b"S".as_slice()), (1, 1));
    assert!(rt; names.is_taken(b"O".as_slice()));
    assert!(rt; !names.is_taken(b"o".as_slice()));
    Ok(())
}

// The number and the place of the refusal of a text's term, or 0.
fn outcome(alloc: Global, env: &PlainEnv, names: &Table, text: &str) -> (u8, usize)
    requires { AreNamesOf names.now env.now.entries }
{
    let raw = match term_at(alloc, text, 0, 0) {
        Ok((raw, _)) => raw,
        Err(_) => return (100, 0),
    };
    match resolve(alloc, env, names, &Scope::Empty, &raw) {
        Ok(_) => (0, 0),
        Err(Halt::Refused(fault)) => (fault.refusal.number(), fault.at),
        Err(_) => (101, 0),
    }
}

#[test]
#[tactic(auto, using(mt_resolver::proofs::Tables::nothing_rules))]
fn resolutions(rt: HostRuntime) -> Result<(), Fail> {
    let alloc = rt.alloc();
    let mut universes = Names::new(alloc);
    universes.push(name(alloc, "u")?)?;
    let env = PlainEnv {
        entries: Entries::new(alloc),
        names: universes,
        below: Pairs::new(alloc),
    };
    let names = Table::new(alloc);
    let cases = [
        ("λx:Prop.λy:x.y", (0, 0)),
        ("λx:Prop.λy:x.y x z", (5, 19)),
        ("∀x:Prop.Type[u,1] → x", (0, 0)),
        ("λx:Type[w].x", (5, 4)),
        ("λx:Prop.?", (21, 9)),
        ("match Prop return Prop with [ O ⇒ x ]", (14, 0)),
        ("match x return Prop with [ O ⇒ x ]", (5, 6)),
    ];
    for (text, expected) in cases {
        assert_eq!(rt; outcome(alloc, &env, &names, text), expected);
    }
    Ok(())
}
