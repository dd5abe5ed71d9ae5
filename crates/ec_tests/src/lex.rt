//! The tokens and refusals of texts.
use ec_base::Fail::{Memory, Refused};
use ec_base::{MAX_SOURCE, Token, TokenKind};
use ec_lex::{LexRefusal, lex};
use std::alloc::Global;
use std::test::Fail;

fn shown_token(alloc: Global, token: &Token) -> Result<String, Fail> {
    let shown = match &token.kind {
        TokenKind::Word(word) => String::from_utf8_lossy(alloc, word.as_slice())?,
        TokenKind::Number(number) => format!(in alloc; "{number}")?,
        TokenKind::Str(bytes) => format!(in alloc; "{:?}", bytes.as_slice())?,
        TokenKind::Mark(mark) => format!(in alloc; "{mark:?}")?,
        TokenKind::End => String::from_str(alloc, "End")?,
    };
    Ok(format!(in alloc; "{shown}@{}-{}", token.at.from, token.at.to)?)
}

fn shown_tokens(alloc: Global, tokens: &[Token]) -> Result<String, Fail> {
    let mut out = String::new(alloc);
    for token in tokens {
        out.push_str(" ")?;
        out.push_str(shown_token(alloc, token)?.as_str())?;
    }
    Ok(out)
}

/// The tokens with their spans, or the refusal after a `!`.
fn shown(alloc: Global, text: &[u8]) -> Result<String, Fail> {
    if text.len() > MAX_SOURCE as usize {
        return Ok(String::new(alloc));
    }
    match lex(alloc, text) {
        Ok(tokens) => shown_tokens(alloc, tokens.as_slice()),
        Err(Refused(refusal)) => {
            let LexRefusal { what, at } = refusal;
            Ok(format!(in alloc; "!{what}@{}-{}", at.from, at.to)?)
        }
        Err(Memory) => Ok(String::from_str(alloc, "no memory")?),
    }
}

const MARKS: &[u8] =
    b"{^ ^} -> ++ -- << >> <= >= == != && || { } ( ) [ ] ; , . @ = + - * / % & | ^ ~ ! < >";

const SHOWN_MARKS: &str =
    " OpenPar@0-2 ClosePar@3-5 Arrow@6-8 Increment@9-11 Decrement@12-14 ShiftLeft@15-17 ShiftRight@18-20 LessEqual@21-23 GreaterEqual@24-26 Equal@27-29 NotEqual@30-32 AndAnd@33-35 OrOr@36-38 OpenBrace@39-40 CloseBrace@41-42 OpenParen@43-44 CloseParen@45-46 OpenBracket@47-48 CloseBracket@49-50 Semicolon@51-52 Comma@53-54 Dot@55-56 At@57-58 Assign@59-60 Plus@61-62 Minus@63-64 Star@65-66 Slash@67-68 Percent@69-70 And@71-72 Or@73-74 Caret@75-76 Tilde@77-78 Bang@79-80 Less@81-82 Greater@83-84 End@84-84";

const TEXTS: &[(&[u8], &str)] = &[
    (b"", " End@0-0"),
    (b" \t\r\n", " End@4-4"),
    (MARKS, SHOWN_MARKS),
    (b"<<=", " ShiftLeft@0-2 Assign@2-3 End@3-3"),
    (b"{^^}", " OpenPar@0-2 ClosePar@2-4 End@4-4"),
    (b"^^}", " Caret@0-1 ClosePar@1-3 End@3-3"),
    (b"-->", " Decrement@0-2 Greater@2-3 End@3-3"),
    (b"a_1 int\n_", " a_1@0-3 int@4-7 _@8-9 End@9-9"),
    (
        b"9223372036854775807",
        " 9223372036854775807@0-19 End@19-19",
    ),
    (b"9223372036854775808", "!2@0-19"),
    (b"0 10 007", "!2@5-8"),
    (b"x 1a+", "!2@2-4"),
    (b"a//b\nc", " a@0-1 c@5-6 End@6-6"),
    (b"a/* * / \n **/b", " a@0-1 b@13-14 End@14-14"),
    (b"/*/", "!3@0-3"),
    (b"a /* b", "!3@2-6"),
    (
        b"\"a\\n\\t\\\\\\\"%\"",
        " [97, 10, 9, 92, 34, 37]@0-12 End@12-12",
    ),
    (b"\"\x80\xff\"", " [128, 255]@0-4 End@4-4"),
    (b"\"a\\", "!4@0-3"),
    (b"\"\\q", "!4@0-3"),
    (b"\"a\\\n\"", "!4@0-3"),
    (b"\"a\x07\n", "!4@0-3"),
    (b"\"\\q\"", "!5@1-3"),
    (b"\"\\\x07\"", "!5@1-3"),
    (b"\"a\x07b\"", "!1@2-3"),
    (b"\"\x80\x7f\"", "!1@2-3"),
    (b"a $", "!1@2-3"),
    (b"\x80", "!1@0-1"),
    (b"#include <x\ny", " y@12-13 End@13-13"),
    (
        b"x\n \t# \tinclude\r<a> # $ \" /*\nz",
        " x@0-1 z@28-29 End@29-29",
    ),
    (b"x #include <a>", "!1@2-3"),
    (b"/* */ #include <a>", "!1@6-7"),
    (b"#define x\n", "!6@0-9"),
    (b" #include\n<a>", "!6@1-9"),
    (b"#includes <a>", "!6@0-13"),
];

#[test]
fn texts_have_their_tokens_and_refusals(rt: HostRuntime) -> Result<(), Fail> {
    for (text, want) in TEXTS {
        assert_eq!(rt; shown(rt.alloc(), text)?.as_str(), *want);
    }
    Ok(())
}
