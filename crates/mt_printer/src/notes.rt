// The text of accepted commands.
ghost use Rattle.std.specs.Prelude.{◌≡◌, ◌++◌, ◌≤◌, slice_get, OnErr, OnOk, IfOk};
ghost use Rattle.mt_printer.specs.EnvText.{constraint_text, constraint_word, env_text, equation_part, equation_text, equations_text, has_line, held, held_lines, hint_parts, hint_text, hint_under, hint_word, line_count, lines_of, note_text, notes_text, pair_text};
ghost use Rattle.mt_printer.specs.ScopeOf.{trees_behind};
ghost use Rattle.mt_term.specs.EnvironmentOf.{environment_of};
ghost use Rattle.mt_term.specs.NoteOf.{hint_of, note_of};
ghost use Rattle.mt_term.specs.StateOf.{state_of};

use crate::bytes::{put, put_number, put_whole};
use crate::entries::{is_written, put_entry};
use crate::sorts::universe_name;
use crate::telescopes::{Style, copies, first_of, name_at, put_telescope, put_under};
use mt_term::{Names, Note, Notes, OutOfMemory, PlainEnv, PlainEqs, PlainHint, PlainState, Term};
use std::alloc::Global;

/// Appends the line `env N` and the lines of the accepted commands, in order; N is their number.
/// Nothing where memory is wanting.
pub fn put_env(alloc: Global, out: &mut Vec<u8>, state: &PlainState) -> Result<(), OutOfMemory>
    ensures text { OnOk result (out.new.items ≡ out.old.items ++ env_text (state_of state.now)) }
    ensures kept { OnErr result (out.new.items ≡ out.old.items) }
{
    let mut text = Vec::new(alloc);
    put_env_of(alloc, &mut text, state)?;
    put_whole(out, &text)
}

#[tactic(auto, unfolding(crate::specs::EnvText::env_text))]
fn put_env_of(alloc: Global, out: &mut Vec<u8>, state: &PlainState) -> Result<(), OutOfMemory>
    ensures { OnOk result (out.new.items ≡ out.old.items ++ env_text (state_of state.now)) }
{
    put(out, b"env ")?;
    put_number(alloc, out, line_count(&state.env, &state.notes) as u64)?;
    put(out, b"\n")?;
    put_notes(alloc, out, &state.env, &state.notes)
}

// How many notes have a line.
fn line_count(env: &PlainEnv, notes: &Notes) -> usize
    ensures { result ≡ line_count (environment_of env.now) notes.now }
{
    let mut count = 0;
    for n in 0..notes.len() {
        count += lines_at(env, notes, n);
    }
    count
}

// One where the note at a place has a line, and otherwise none.
fn lines_at(env: &PlainEnv, notes: &Notes, n: usize) -> usize
    ensures is { result ≡ held_lines (environment_of env.now) (slice_get notes.now n) }
    ensures most { result ≤ 1 }
{
    match notes.get(n) {
        Some(note) => lines_of(env, note),
        None => 0,
    }
}

fn lines_of(env: &PlainEnv, note: &Note) -> usize
    ensures is { result ≡ lines_of (environment_of env.now) (note_of note.now) }
    ensures most { result ≤ 1 }
{
    if has_line(env, note) { 1 } else { 0 }
}

fn has_line(env: &PlainEnv, note: &Note) -> bool
    ensures { result ≡ has_line (environment_of env.now) (note_of note.now) }
{
    match note {
        Note::Entry(n) => match env.entries.get(*n) {
            Some(entry) => is_written(entry),
            None => false,
        },
        Note::Constraint(n) => env.below.get(*n).is_some(),
        _ => true,
    }
}

fn put_notes(
    alloc: Global,
    out: &mut Vec<u8>,
    env: &PlainEnv,
    notes: &Notes,
) -> Result<(), OutOfMemory>
    ensures { OnOk result (out.new.items ≡ out.old.items ++ notes_text (environment_of env.now) notes.now) }
{
    for n in 0..notes.len() {
        put_note_at(alloc, out, env, notes, n)?;
    }
    Ok(())
}

// The line of the note at a place.
fn put_note_at(
    alloc: Global,
    out: &mut Vec<u8>,
    env: &PlainEnv,
    notes: &Notes,
    n: usize,
) -> Result<(), OutOfMemory>
    ensures { OnOk result (out.new.items ≡ out.old.items ++ held (note_text (environment_of env.now)) (slice_get notes.now n)) }
{
    match notes.get(n) {
        Some(note) => put_note(alloc, out, env, note),
        None => Ok(()),
    }
}

// The line of a note.
fn put_note(
    alloc: Global,
    out: &mut Vec<u8>,
    env: &PlainEnv,
    note: &Note,
) -> Result<(), OutOfMemory>
    ensures { OnOk result (out.new.items ≡ out.old.items ++ note_text (environment_of env.now) (note_of note.now)) }
{
    match note {
        Note::Entry(n) => match env.entries.get(*n) {
            Some(entry) => put_entry(alloc, out, env, entry),
            None => Ok(()),
        },
        Note::Constraint(n) => put_constraint(out, env, *n),
        Note::Hint(hint) => put_hint(alloc, out, env, hint),
        Note::Coercion(name) => {
            put(out, b"coercion ")?;
            put(out, name.as_bytes())?;
            put(out, b".\n")
        }
    }
}

fn put_constraint(out: &mut Vec<u8>, env: &PlainEnv, n: usize) -> Result<(), OutOfMemory>
    ensures { OnOk result (out.new.items ≡ out.old.items ++ constraint_text env.now.names (slice_get env.now.below n)) }
{
    match env.below.get(n) {
        Some(pair) => put_pair(out, &env.names, pair.0, pair.1),
        None => Ok(()),
    }
}

#[tactic(auto, unfolding(crate::specs::EnvText::constraint_word))]
fn put_constraint_word(out: &mut Vec<u8>) -> Result<(), OutOfMemory>
    ensures { OnOk result (out.new.items ≡ out.old.items ++ constraint_word) }
{
    put(out, b"universe constraint ")
}

// The constraint that one universe is below another.
fn put_pair(out: &mut Vec<u8>, names: &Names, low: usize, high: usize) -> Result<(), OutOfMemory>
    ensures { OnOk result (out.new.items ≡ out.old.items ++ pair_text names.now low high) }
{
    put_constraint_word(out)?;
    put(out, universe_name(names, low))?;
    put(out, b" < ")?;
    put(out, universe_name(names, high))?;
    put(out, b".\n")
}

// The terms of a hint's equations and its sides.
fn parts_of_hint<'a>(alloc: Global, hint: &'a PlainHint) -> Result<Vec<&'a Term>, OutOfMemory>
    ensures { IfOk result (λ parts. trees_behind parts.items ≡ hint_parts (hint_of hint.now)) }
{
    let mut parts = Vec::new(alloc);
    for n in 0..hint.eqs.len() {
        put_term_of(&mut parts, &hint.eqs, n)?;
    }
    parts.push(&hint.left)?;
    parts.push(&hint.right)?;
    Ok(parts)
}

// The term of an equation as one more part.
fn put_term_of<'a>(
    parts: &mut Vec<&'a Term>,
    eqs: &'a PlainEqs,
    n: usize,
) -> Result<(), OutOfMemory>
    ensures { OnOk result (trees_behind parts.new.items ≡ trees_behind parts.old.items ++ held equation_part (slice_get eqs.now n)) }
{
    if let Some(equation) = eqs.get(n) {
        parts.push(&equation.term)?;
    }
    Ok(())
}

#[tactic(auto, unfolding(crate::specs::EnvText::hint_word))]
fn put_hint_word(out: &mut Vec<u8>) -> Result<(), OutOfMemory>
    ensures { OnOk result (out.new.items ≡ out.old.items ++ hint_word) }
{
    put(out, b"unification hint ")
}

fn put_hint(
    alloc: Global,
    out: &mut Vec<u8>,
    env: &PlainEnv,
    hint: &PlainHint,
) -> Result<(), OutOfMemory>
    ensures { OnOk result (out.new.items ≡ out.old.items ++ hint_text (environment_of env.now) (hint_of hint.now)) }
{
    put_hint_word(out)?;
    put_number(alloc, out, u64::from(hint.precedence))?;
    put(out, b" \xe2\x89\x94")?;
    let vars = copies(alloc, &hint.vars)?;
    let parts = parts_of_hint(alloc, hint)?;
    let names = put_telescope(alloc, out, env, Style::Variables, &vars, &parts)?;
    put_hint_under(alloc, out, env, &names, hint)?;
    put(out, b".\n")
}

// What stands after the variables of a hint.
#[tactic(auto, unfolding(crate::specs::EnvText::hint_under))]
fn put_hint_under(
    alloc: Global,
    out: &mut Vec<u8>,
    env: &PlainEnv,
    names: &Names,
    hint: &PlainHint,
) -> Result<(), OutOfMemory>
    ensures { OnOk result (out.new.items ≡ out.old.items ++ hint_under (environment_of env.now) names.now (hint_of hint.now)) }
{
    put_equations(alloc, out, env, names, &hint.eqs)?;
    put(out, b" \xe2\x8a\xa2 ")?;
    put_under(alloc, out, env, names.as_slice(), &hint.left)?;
    put(out, b" \xe2\x89\xa1 ")?;
    put_under(alloc, out, env, names.as_slice(), &hint.right)
}

fn put_equations(
    alloc: Global,
    out: &mut Vec<u8>,
    env: &PlainEnv,
    names: &Names,
    eqs: &PlainEqs,
) -> Result<(), OutOfMemory>
    ensures { OnOk result (out.new.items ≡ out.old.items ++ equations_text (environment_of env.now) names.now eqs.now) }
{
    for n in 0..eqs.len() {
        put_equation(alloc, out, env, names, eqs, n)?;
    }
    Ok(())
}

fn put_equation(
    alloc: Global,
    out: &mut Vec<u8>,
    env: &PlainEnv,
    names: &Names,
    eqs: &PlainEqs,
    n: usize,
) -> Result<(), OutOfMemory>
    ensures { OnOk result (out.new.items ≡ out.old.items ++ held (equation_text (environment_of env.now) names.now) (slice_get eqs.now n)) }
{
    match eqs.get(n) {
        Some(equation) => {
            put(out, b"; ")?;
            put(out, name_at(names, equation.place))?;
            put(out, b" \xe2\x89\x9f ")?;
            let older = first_of(names.as_slice(), equation.place);
            put_under(alloc, out, env, older, &equation.term)
        }
        None => Ok(()),
    }
}
