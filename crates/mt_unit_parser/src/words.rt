// The words and signs that units, actions and items begin with.
ghost use Rattle.std.specs.Prelude.{◌≡◌, ◌≤◌};
ghost use Rattle.std.specs.Str.{IsCharBoundary};
ghost use Rattle.mt_unit_parser.specs.Units.{later_verb, verb_of_word, verb_of_sign, verb_of};
ghost use Rattle.mt_unit_parser.specs.Blocks.{lead_of_sign, lead_of_rest, lead_of, begins_item, is_separator, is_dot, later_command, command_of_word, command_of, closes, ends_sequence};

use crate::commands::is_spelled;
use mt_lexer::Token;
use mt_term_parser::readings::{is_name_kind, is_word, sign_of, word_of};

/// What an action does.
#[derive(Clone, Copy)]
pub enum Verb {
    Intro,
    Exact,
    Refine,
    Apply,
    Cut,
    Lapply,
    Change,
    Whd,
    Normalize,
    Assumption,
    Constructor,
    Generalize,
    Clear,
    Cases,
    Elim,
}

/// What an item of a sequence begins with.
#[derive(Clone, Copy)]
pub enum Lead {
    Action(Verb),
    Skip,
    Open,
    Focus,
    Semicolon,
    Dot,
    Other,
}

/// What a command begins with.
#[derive(Clone, Copy)]
pub enum Command {
    Universe,
    Axiom,
    Definition,
    Inductive,
    Coinductive,
    Let,
    Unification,
    Coercion,
    Theorem,
    Qed,
    Other,
}

fn later_verb(word: &str) -> Option<Verb>
    ensures { result ≡ later_verb word.now }
{
    if word == "whd" {
        Some(Verb::Whd)
    } else if word == "normalize" {
        Some(Verb::Normalize)
    } else if word == "assumption" {
        Some(Verb::Assumption)
    } else if word == "constructor" {
        Some(Verb::Constructor)
    } else if word == "generalize" {
        Some(Verb::Generalize)
    } else if word == "clear" {
        Some(Verb::Clear)
    } else if word == "cases" {
        Some(Verb::Cases)
    } else if word == "elim" {
        Some(Verb::Elim)
    } else {
        None
    }
}

fn verb_of_word(word: &str) -> Option<Verb>
    ensures { result ≡ verb_of_word word.now }
{
    if word == "intro" {
        Some(Verb::Intro)
    } else if word == "exact" {
        Some(Verb::Exact)
    } else if word == "refine" {
        Some(Verb::Refine)
    } else if word == "apply" {
        Some(Verb::Apply)
    } else if word == "cut" {
        Some(Verb::Cut)
    } else if word == "lapply" {
        Some(Verb::Lapply)
    } else if word == "change" {
        Some(Verb::Change)
    } else {
        later_verb(word)
    }
}

fn verb_of_sign(sign: char) -> Option<Verb>
    ensures { result ≡ verb_of_sign sign }
{
    match sign {
        '#' => Some(Verb::Intro),
        '@' => Some(Verb::Apply),
        _ => None,
    }
}

/// The action that a token begins.
pub fn verb_of(text: &str, token: &Token) -> Option<Verb>
    requires order { token.now.start ≤ token.now.end }
    requires start { IsCharBoundary text.now token.now.start }
    requires stop { IsCharBoundary text.now token.now.end }
    ensures { result ≡ verb_of text.now token.now }
{
    if is_name_kind(token) {
        verb_of_word(word_of(text, token))
    } else {
        verb_of_sign(sign_of(text, token))
    }
}

fn lead_of_sign(sign: char) -> Lead
    ensures { result ≡ lead_of_sign sign }
{
    match sign {
        '[' => Lead::Open,
        ';' => Lead::Semicolon,
        '.' => Lead::Dot,
        _ => Lead::Other,
    }
}

fn lead_of_rest(text: &str, token: &Token) -> Lead
    requires order { token.now.start ≤ token.now.end }
    requires start { IsCharBoundary text.now token.now.start }
    requires stop { IsCharBoundary text.now token.now.end }
    ensures { result ≡ lead_of_rest text.now token.now }
{
    if is_spelled("skip", text, token) {
        Lead::Skip
    } else if is_spelled("focus", text, token) {
        Lead::Focus
    } else {
        lead_of_sign(sign_of(text, token))
    }
}

/// What a token is in a sequence.
pub fn lead_of(text: &str, token: &Token) -> Lead
    requires order { token.now.start ≤ token.now.end }
    requires start { IsCharBoundary text.now token.now.start }
    requires stop { IsCharBoundary text.now token.now.end }
    ensures { result ≡ lead_of text.now token.now }
{
    match verb_of(text, token) {
        Some(verb) => Lead::Action(verb),
        None => lead_of_rest(text, token),
    }
}

pub fn begins_item(lead: Lead) -> bool
    ensures { result ≡ begins_item lead }
{
    match lead {
        Lead::Action(_) | Lead::Skip | Lead::Open | Lead::Focus => true,
        _ => false,
    }
}

pub fn is_separator(lead: Lead) -> bool
    ensures { result ≡ is_separator lead }
{
    match lead {
        Lead::Semicolon | Lead::Dot => true,
        _ => false,
    }
}

pub fn is_dot(lead: Lead) -> bool
    ensures { result ≡ is_dot lead }
{
    match lead {
        Lead::Dot => true,
        _ => false,
    }
}

fn later_command(word: &str) -> Command
    ensures { result ≡ later_command word.now }
{
    if word == "unification" {
        Command::Unification
    } else if word == "coercion" {
        Command::Coercion
    } else if word == "theorem" {
        Command::Theorem
    } else if word == "qed" {
        Command::Qed
    } else {
        Command::Other
    }
}

fn command_of_word(word: &str) -> Command
    ensures { result ≡ command_of_word word.now }
{
    if word == "universe" {
        Command::Universe
    } else if word == "axiom" {
        Command::Axiom
    } else if word == "definition" {
        Command::Definition
    } else if word == "inductive" {
        Command::Inductive
    } else if word == "coinductive" {
        Command::Coinductive
    } else {
        later_command(word)
    }
}

/// The command that a token begins.
pub fn command_of(text: &str, token: &Token) -> Command
    requires order { token.now.start ≤ token.now.end }
    requires start { IsCharBoundary text.now token.now.start }
    requires stop { IsCharBoundary text.now token.now.end }
    ensures { result ≡ command_of text.now token.now }
{
    if is_word("let", text, token) {
        Command::Let
    } else if is_name_kind(token) {
        command_of_word(word_of(text, token))
    } else {
        Command::Other
    }
}

/// Whether the sign may stand after a phrase.
pub fn closes(sign: char) -> bool
    ensures { result ≡ closes sign }
{
    sign == '.' || sign == ';' || sign == '[' || sign == '|' || sign == ']' || sign == '}'
}

/// Whether the token may follow a sequence.
pub fn ends_sequence(text: &str, token: &Token) -> bool
    requires order { token.now.start ≤ token.now.end }
    requires start { IsCharBoundary text.now token.now.start }
    requires stop { IsCharBoundary text.now token.now.end }
    ensures { result ≡ ends_sequence text.now token.now }
{
    let sign = sign_of(text, token);
    sign == '}' || sign == '|' || sign == ']' || is_spelled("unfocus", text, token)
}
