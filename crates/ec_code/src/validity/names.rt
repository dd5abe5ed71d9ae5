//! Names of functions in fiber code.
ghost use Rattle.std.specs.Prelude.{◌≡◌};
ghost use Rattle.std.specs.List.{list_all};
ghost use Rattle.ec_code.specs.Valid as valid;

use ec_base::MAX_CODE_NAME;

/// Whether a byte is a letter, a digit, `_` or `.`.
fn is_name_byte(byte: u8) -> bool
    ensures { result ≡ valid.is_name_byte byte }
{
    matches!(byte, b'a'..=b'z' | b'A'..=b'Z' | b'0'..=b'9' | b'_' | b'.')
}

fn are_name_bytes(bytes: &[u8]) -> bool
    ensures { result ≡ list_all valid.is_name_byte bytes.now }
{
    bytes.iter().all(|byte| is_name_byte(*byte))
}

/// Whether bytes may be a function's name.
pub(super) fn is_function_name(name: &[u8]) -> bool
    ensures { result ≡ valid.is_function_name name.now }
{
    1 <= name.len() && name.len() <= MAX_CODE_NAME as usize && are_name_bytes(name)
}
