// Tokens of every kind, and every fault.
use mt_lexer::{LexStop, Token, TokenKind, next};

fn first(text: &str) -> Result<Token, LexStop> {
    next(text, 0)
}

fn token(kind: TokenKind, start: usize, end: usize) -> Result<Token, LexStop> {
    Ok(Token { kind, start, end })
}

#[test]
fn tokens(rt: HostRuntime) {
    let cases = [
        ("", token(TokenKind::End, 0, 0)),
        (" \t\r\n", token(TokenKind::End, 4, 4)),
        ("(* a (* b *) *) x", token(TokenKind::Name, 16, 17)),
        ("(*)*)x", token(TokenKind::Name, 5, 6)),
        ("(*é*)x", token(TokenKind::Name, 6, 7)),
        ("(* (* *)", Err(LexStop::Incomplete(8))),
        ("(a", token(TokenKind::Sign, 0, 1)),
        ("_", token(TokenKind::Name, 0, 1)),
        ("naïve2 x", token(TokenKind::Name, 0, 7)),
        ("xλy", token(TokenKind::Name, 0, 1)),
        ("λy", token(TokenKind::Sign, 0, 2)),
        ("forall", token(TokenKind::Reserved, 0, 6)),
        ("Props", token(TokenKind::Name, 0, 5)),
        ("0 1", token(TokenKind::Number(0), 0, 1)),
        ("4294967295", token(TokenKind::Number(4_294_967_295), 0, 10)),
        ("4294967296", Err(LexStop::Lex(0))),
        ("99999999999999999999", Err(LexStop::Lex(0))),
        ("01", Err(LexStop::Lex(0))),
        ("=>>", token(TokenKind::Sign, 0, 2)),
        ("→", token(TokenKind::Sign, 0, 3)),
        (" ≝", token(TokenKind::Sign, 1, 4)),
        (" -", Err(LexStop::Lex(1))),
        ("é%", token(TokenKind::Name, 0, 2)),
        ("%", Err(LexStop::Lex(0))),
        ("\0", Err(LexStop::Lex(0))),
    ];
    for (text, expected) in cases {
        assert_eq!(rt; first(text), expected);
    }
}
