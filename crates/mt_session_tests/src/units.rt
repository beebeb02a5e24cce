// Units declared from their texts.
ghost use Rattle.std.specs.Prelude.{◌≡◌, ◌<◌, length, OnOk};
ghost use Rattle.mt_env.specs.Environments.{environment_in, EntriesBelow};
ghost use Rattle.mt_resolver.specs.TableOf.{AreNamesOf};
ghost use Rattle.mt_term.specs.EntryOf.{declaration_of};
ghost use Rattle.mt_term.specs.EnvironmentOf.{environment_of};
ghost use Rattle.mt_calculus.specs.SoundEnvironment.{with_entry};

use mt_decl::declare_plain;
use mt_env::{Env, EnvStop};
use mt_pool::Pool;
use mt_resolver::Table;
use mt_term::{Entries, Entry, Halt, Names, OutOfMemory, Pairs, PlainEnv};
use mt_text::{Ledger, PlainLedger, Steps};
use mt_unit_parser::{Parsed, Unit, unit_at};
use std::alloc::Global;
use std::sync::ledger::Blank;
use std::test::Fail;

// What units before have declared.
#[derive(Drop)]
struct Known {
    pool: Pool,
    held: Env,
    env: PlainEnv,
    names: Table,
}

// 0 and, of a type, 1 where it allows a match into every sort, else 2, or of a function, its place.
fn told_of_entry(entry: &Entry) -> (u8, usize) {
    match entry {
        Entry::Inductive { large: true, .. } => (0, 1),
        Entry::Inductive { large: false, .. } => (0, 2),
        Entry::Recursive { place, .. } => (0, *place),
        _ => (0, 0),
    }
}

// The number of the refusal and its place.
fn told_of_halt(halt: Halt) -> (u8, usize) {
    match halt {
        Halt::Refused(fault) => (fault.refusal.number(), fault.at),
        Halt::Spent => (23, 0),
        Halt::OutOfMemory => (24, 0),
    }
}

#[tactic(auto, using(mt_resolver::proofs::Tables::table_rules))]
fn enter(
    alloc: Global,
    env: &mut PlainEnv,
    names: &mut Table,
    entry: Entry,
) -> Result<(), OutOfMemory>
    requires { AreNamesOf names.old env.old.entries }
    ensures known { OnOk result (environment_of env.new ≡ with_entry (environment_of env.old) (declaration_of entry)) }
    ensures named { OnOk result (AreNamesOf names.new env.new.entries) }
{
    let number = env.entries.len();
    names.add(alloc, number, &entry)?;
    env.entries.push(entry)?;
    Ok(())
}

fn add(alloc: Global, known: &mut Known, entry: Entry) -> Result<(), EnvStop>
    requires names { AreNamesOf known.old.names known.old.env.entries }
    requires held { environment_in known.old.pool known.old.held ≡ environment_of known.old.env }
    requires below { EntriesBelow (length known.old.pool) known.old.held.entries }
    ensures names { OnOk result (AreNamesOf known.new.names known.new.env.entries) }
    ensures held { OnOk result (environment_in known.new.pool known.new.held ≡ environment_of known.new.env) }
    ensures below { OnOk result (EntriesBelow (length known.new.pool) known.new.held.entries) }
{
    known.held.add(alloc, &mut known.pool, &entry)?;
    enter(alloc, &mut known.env, &mut known.names, entry)?;
    Ok(())
}

#[tactic(auto, using(crate::proofs::HoldingRules::holding_rules))]
fn declared_entry<L: Ledger>(
    alloc: Global,
    known: &mut Known,
    unit: &Unit,
    allowance: u64,
    steps: &mut Steps<L>,
) -> Result<Entry, Halt>
    requires names { AreNamesOf known.old.names known.old.env.entries }
    requires held { environment_in known.old.pool known.old.held ≡ environment_of known.old.env }
    requires below { EntriesBelow (length known.old.pool) known.old.held.entries }
    ensures names { AreNamesOf known.new.names known.new.env.entries }
    ensures held { environment_in known.new.pool known.new.held ≡ environment_of known.new.env }
    ensures below { EntriesBelow (length known.new.pool) known.new.held.entries }
{
    declare_plain(
        alloc,
        &mut known.pool,
        &known.held,
        &mut known.env,
        &mut known.names,
        unit,
        allowance,
        steps,
    )
}

// Declares a unit, and adds the entry where there is one.
fn declare_unit<L: Ledger>(
    alloc: Global,
    known: &mut Known,
    unit: &Unit,
    allowance: u64,
    steps: &mut Steps<L>,
) -> Result<(u8, usize), EnvStop>
    requires names { AreNamesOf known.old.names known.old.env.entries }
    requires held { environment_in known.old.pool known.old.held ≡ environment_of known.old.env }
    requires below { EntriesBelow (length known.old.pool) known.old.held.entries }
    ensures names { OnOk result (AreNamesOf known.new.names known.new.env.entries) }
    ensures held { OnOk result (environment_in known.new.pool known.new.held ≡ environment_of known.new.env) }
    ensures below { OnOk result (EntriesBelow (length known.new.pool) known.new.held.entries) }
{
    match declared_entry(alloc, known, unit, allowance, steps) {
        Ok(entry) => {
            let told = told_of_entry(&entry);
            add(alloc, known, entry)?;
            Ok(told)
        }
        Err(halt) => Ok(told_of_halt(halt)),
    }
}

fn declare<L: Ledger>(
    alloc: Global,
    known: &mut Known,
    unit: &Option<Unit>,
    allowance: u64,
    steps: &mut Steps<L>,
) -> Result<(u8, usize), EnvStop>
    requires names { AreNamesOf known.old.names known.old.env.entries }
    requires held { environment_in known.old.pool known.old.held ≡ environment_of known.old.env }
    requires below { EntriesBelow (length known.old.pool) known.old.held.entries }
    ensures names { OnOk result (AreNamesOf known.new.names known.new.env.entries) }
    ensures held { OnOk result (environment_in known.new.pool known.new.held ≡ environment_of known.new.env) }
    ensures below { OnOk result (EntriesBelow (length known.new.pool) known.new.held.entries) }
{
    match unit {
        Some(unit) => declare_unit(alloc, known, unit, allowance, steps),
        None => Ok((99, 0)),
    }
}

#[tactic(auto, using(mt_resolver::proofs::Tables::nothing_rules))]
fn nothing(alloc: Global) -> Known
    ensures names { AreNamesOf result.names result.env.entries }
    ensures held { environment_in result.pool result.held ≡ environment_of result.env }
    ensures below { EntriesBelow (length result.pool) result.held.entries }
{
    Known {
        pool: Pool::new(alloc),
        held: Env::new(alloc),
        env: PlainEnv {
            entries: Entries::new(alloc),
            names: Names::new(alloc),
            below: Pairs::new(alloc),
        },
        names: Table::new(alloc),
    }
}

fn told_after<L: Ledger>(
    alloc: Global,
    first: &Option<Unit>,
    second: &Option<Unit>,
    unit: &Option<Unit>,
    allowance: u64,
    blank: Blank,
) -> Result<(u8, usize), EnvStop>
    requires name { blank.name ≡ L.name }
    requires parts { blank.parts ≡ L.parts }
    requires some { 0 < L.parts }
{
    let mut steps = Steps::<L>::new(blank);
    let mut known = nothing(alloc);
    declare(alloc, &mut known, first, 100_000, &mut steps)?;
    declare(alloc, &mut known, second, 100_000, &mut steps)?;
    declare(alloc, &mut known, unit, allowance, &mut steps)
}

fn first_unit(alloc: Global, text: &str) -> Option<Unit> {
    match unit_at(alloc, text, 0) {
        Ok(Parsed::Unit(unit)) => Some(unit),
        _ => None,
    }
}

// What is told of a unit after two others; where one of those is empty, there is none.
fn outcome_after(
    alloc: Global,
    first: &str,
    second: &str,
    text: &str,
    allowance: u64,
) -> Result<(u8, usize), EnvStop> {
    let first = first_unit(alloc, first);
    let second = first_unit(alloc, second);
    let unit = first_unit(alloc, text);
    told_after::<PlainLedger>(alloc, &first, &second, &unit, allowance, Blank::new(1))
}

fn outcome(alloc: Global, text: &str, allowance: u64) -> Result<(u8, usize), EnvStop> {
    outcome_after(alloc, "", "", text, allowance)
}

#[test]
fn axioms_and_definitions(rt: HostRuntime) -> Result<(), Fail> {
    let cases = [
        ("axiom a : Type[0].", (0, 0)),
        ("axiom a : b.", (5, 10)),
        ("definition a : Type[1] ≝ Type[0].", (0, 0)),
        ("definition a : Type[0] ≝ Type[0].", (22, 0)),
        ("definition a ≝ Type[0].", (21, 0)),
        ("theorem a : Prop.", (21, 0)),
    ];
    for (text, expected) in cases {
        assert_eq!(rt; outcome(rt.alloc(), text, 1000)?, expected);
    }
    let spent = outcome(rt.alloc(), "axiom a : Type[0].", 0)?;
    assert_eq!(rt; spent, (23, 0));
    Ok(())
}

#[test]
fn inductive_types(rt: HostRuntime) -> Result<(), Fail> {
    let cases = [
        ("inductive nat : Type[0] ≝ O : nat | S : nat → nat.", (0, 1)),
        ("inductive empty : Prop ≝ .", (0, 1)),
        (
            "inductive list (A:Type[0]) : Type[0] ≝ nil : list A | cons : A → list A → list A.",
            (0, 1),
        ),
        (
            "inductive eq (A:Type[1]) (x:A) : A → Prop ≝ refl : eq A x x.",
            (0, 1),
        ),
        (
            "inductive and (A:Prop) (B:Prop) : Prop ≝ conj : A → B → and A B.",
            (0, 1),
        ),
        (
            "inductive or (A:Prop) (B:Prop) : Prop ≝ l : A → or A B | r : B → or A B.",
            (0, 2),
        ),
        (
            "inductive ex (A:Type[0]) (P:A → Prop) : Prop ≝ ex_intro : ∀x:A.P x → ex A P.",
            (0, 2),
        ),
        (
            "inductive W (A:Type[0]) (B:A → Type[0]) : Type[0] ≝ sup : ∀a:A.(B a → W A B) → W A B.",
            (0, 1),
        ),
        (
            "coinductive stream (A:Type[0]) : Type[0] ≝ cons : A → stream A → stream A.",
            (0, 1),
        ),
        ("inductive t : Type[0] ≝ c : (t → t) → t.", (12, 26)),
        ("inductive t : Prop → Prop ≝ c : t (t Prop).", (12, 32)),
        ("inductive t : Type[0] ≝ c : Type[0] → t.", (22, 0)),
        ("inductive t : Prop ≝ t : t.", (6, 0)),
        ("inductive t : Prop ≝ c : t | c : t.", (6, 0)),
        ("inductive t (A:Prop) : A ≝ .", (9, 0)),
        ("inductive t : Prop ≝ c : t | d : c.", (5, 35)),
    ];
    for (text, expected) in cases {
        assert_eq!(rt; outcome(rt.alloc(), text, 100_000)?, expected);
    }
    Ok(())
}

const NAT: &str = "inductive nat : Type[0] ≝ O : nat | S : nat → nat.";

const STREAM: &str = "coinductive stream : Type[0] ≝ more : nat → stream → stream.";

#[test]
fn functions(rt: HostRuntime) -> Result<(), Fail> {
    let cases = [
        (
            "let rec plus (n:nat) (m:nat) on n : nat ≝ match n return λx:nat.nat with [ O ⇒ m | S p ⇒ S (plus p m) ].",
            (0, 0),
        ),
        (
            "let rec plus (n:nat) (m:nat) on m : nat ≝ match m return λx:nat.nat with [ O ⇒ n | S p ⇒ S (plus n p) ].",
            (0, 1),
        ),
        ("let rec f (n:nat) on n : nat ≝ f n.", (13, 0)),
        ("let rec f (n:nat) on m : nat ≝ n.", (5, 0)),
        ("let rec f (n:nat) on n : nat ≝ m.", (5, 33)),
        ("let rec f (n:nat) on n : nat ≝ nat.", (22, 0)),
        ("let rec f (n:Prop) on n : Prop ≝ f n.", (13, 0)),
        ("let corec zeros : stream ≝ more O zeros.", (0, 0)),
        (
            "let corec from (n:nat) : stream ≝ more n (from (S n)).",
            (0, 0),
        ),
        ("let corec zeros : stream ≝ zeros.", (13, 0)),
        ("axiom nat : Prop.", (6, 0)),
    ];
    for (text, expected) in cases {
        let told = outcome_after(rt.alloc(), NAT, STREAM, text, 100_000)?;
        assert_eq!(rt; told, expected);
    }
    Ok(())
}
