//! The tokens of a script.
#![tactic(auto)]

ghost use Rattle.std.specs.Prelude.{◌≡◌, IfOk, IfErr};
ghost use Rattle.std.specs.Str.{IsCharBoundary};
ghost use Rattle.mt_lexer.specs.Tokens.{next_token};
ghost use Rattle.mt_lexer.specs.Places.{IsPlaced, IsStop};

mod gaps;
mod words;

use gaps::skip_gap;
use words::token_at;

/// What a token is. A word that begins with `_` or a letter is a name, `_` alone too, or a
/// reserved word.
#[derive(Clone, Copy, Debug, PartialEq, Eq)]
pub enum TokenKind {
    Name,
    Reserved,
    Number(u32),
    Sign,
    End,
}

/// A token, whose text stands at `start..end`.
#[derive(Clone, Copy, Debug, PartialEq, Eq)]
pub struct Token {
    pub kind: TokenKind,
    pub start: usize,
    pub end: usize,
}

/// Why there is no token: what begins at this place is none, or a comment is open at the end of
/// the text, which is this place.
#[derive(Clone, Copy, Debug, PartialEq, Eq)]
pub enum LexStop {
    Lex(usize),
    Incomplete(usize),
}

/// The next token of the text from a place on, after blanks and comments. It is `End` where no
/// further token begins.
pub fn next(text: &str, at: usize) -> Result<Token, LexStop>
    requires { IsCharBoundary text.now at }
    ensures token { result ≡ next_token text.now at }
    ensures placed { IfOk result (IsPlaced text.now at) }
    ensures stop { IfErr result (IsStop text.now at) }
{
    let start = skip_gap(text, at)?;
    token_at(text, start)
}
