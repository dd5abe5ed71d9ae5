//! Kinds of bytes, and runs of them.
ghost use Rattle.std.specs.Prelude.{◌≡◌, ◌≤◌, ◌<◌, ◌≢◌, drop, length, slice_index};
ghost use Rattle.std.specs.List.{prefix_len};
ghost use Rattle.ec_lex.specs.Bytes as spec;

/// The byte there, and 0 past the end.
pub fn byte_at(text: &[u8], at: usize) -> u8
    ensures value { result ≡ slice_index text.now at }
    ensures within { result ≢ 0 → at < length text.now }
{
    if at < text.len() { text[at] } else { 0 }
}

pub fn is_line_blank(byte: u8) -> bool
    ensures { result ≡ spec.is_line_blank byte }
{
    byte == b' ' || byte == b'\t' || byte == b'\r'
}

pub fn is_blank(byte: u8) -> bool
    ensures { result ≡ spec.is_blank byte }
{
    is_line_blank(byte) || byte == b'\n'
}

pub fn is_word_byte(byte: u8) -> bool
    ensures { result ≡ spec.is_word_byte byte }
{
    byte.is_ascii_alphanumeric() || byte == b'_'
}

pub fn is_control(byte: u8) -> bool
    ensures { result ≡ spec.is_control byte }
{
    (byte < 32 && byte != b'\n') || byte == 127
}

/// The word bytes at the front.
pub fn run(text: &[u8]) -> &[u8]
    ensures { result.now ≡ spec.run text.now }
{
    for (at, byte) in text.iter().enumerate() {
        if !is_word_byte(*byte) {
            return &text[..at];
        }
    }
    text
}

/// How many bytes stand before the end of the line.
pub fn line_length(text: &[u8]) -> usize
    ensures value { result ≡ spec.line_length text.now }
    ensures within { result ≤ length text.now }
{
    for (at, byte) in text.iter().enumerate() {
        if *byte == b'\n' {
            return at;
        }
    }
    text.len()
}

fn past_line_blanks(text: &[u8]) -> &[u8]
    ensures { result.now ≡ spec.past_line_blanks text.now }
{
    for (at, byte) in text.iter().enumerate() {
        if !is_line_blank(*byte) {
            return &text[at..];
        }
    }
    &[]
}

/// Whether blanks, `include`, blanks and `<` come first, all on one line.
pub fn is_include(text: &[u8]) -> bool
    ensures { result ≡ spec.is_include text.now }
{
    let word = past_line_blanks(text);
    word.starts_with(b"include") && byte_at(past_line_blanks(&word[7..]), 0) == b'<'
}
