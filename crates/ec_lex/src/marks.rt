//! The marks of the language.
ghost use Rattle.std.specs.Prelude.{◌≡◌, ◌≢◌, IfSome};
ghost use Rattle.ec_lex.specs.Marks as spec;

use ec_base::Mark;

/// The mark of two bytes that these are.
#[tactic(auto, unfolding(crate::specs::Marks::long_mark))]
pub fn long_mark(byte: u8, next: u8) -> Option<Mark>
    ensures value { result ≡ spec.long_mark byte next }
    ensures second { IfSome result (λ mark. next ≢ 0) }
{
    match (byte, next) {
        (b'{', b'^') => Some(Mark::OpenPar),
        (b'^', b'}') => Some(Mark::ClosePar),
        (b'-', b'>') => Some(Mark::Arrow),
        (b'+', b'+') => Some(Mark::Increment),
        (b'-', b'-') => Some(Mark::Decrement),
        (b'<', b'<') => Some(Mark::ShiftLeft),
        (b'>', b'>') => Some(Mark::ShiftRight),
        (b'<', b'=') => Some(Mark::LessEqual),
        (b'>', b'=') => Some(Mark::GreaterEqual),
        (b'=', b'=') => Some(Mark::Equal),
        (b'!', b'=') => Some(Mark::NotEqual),
        (b'&', b'&') => Some(Mark::AndAnd),
        (b'|', b'|') => Some(Mark::OrOr),
        _ => None,
    }
}

/// The mark of one byte that this is.
#[tactic(auto, unfolding(crate::specs::Marks::short_mark))]
pub fn short_mark(byte: u8) -> Option<Mark>
    ensures { result ≡ spec.short_mark byte }
{
    match byte {
        b'{' => Some(Mark::OpenBrace),
        b'}' => Some(Mark::CloseBrace),
        b'(' => Some(Mark::OpenParen),
        b')' => Some(Mark::CloseParen),
        b'[' => Some(Mark::OpenBracket),
        b']' => Some(Mark::CloseBracket),
        b';' => Some(Mark::Semicolon),
        b',' => Some(Mark::Comma),
        b'.' => Some(Mark::Dot),
        b'@' => Some(Mark::At),
        b'=' => Some(Mark::Assign),
        b'+' => Some(Mark::Plus),
        b'-' => Some(Mark::Minus),
        b'*' => Some(Mark::Star),
        b'/' => Some(Mark::Slash),
        b'%' => Some(Mark::Percent),
        b'&' => Some(Mark::And),
        b'|' => Some(Mark::Or),
        b'^' => Some(Mark::Caret),
        b'~' => Some(Mark::Tilde),
        b'!' => Some(Mark::Bang),
        b'<' => Some(Mark::Less),
        b'>' => Some(Mark::Greater),
        _ => None,
    }
}
