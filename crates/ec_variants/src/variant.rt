//! Texts that differ from one in a byte.
ghost use Rattle.std.specs.Prelude.{◌≡◌, ◌<◌, ◌+◌, ◌++◌, length, take, drop, IfOk};

use ec_base::Text;
use std::alloc::{AllocError, Global};

/// The text with these bytes in place of the one at a place.
pub fn replaced(alloc: Global, text: &[u8], at: usize, by: &[u8]) -> Result<Text, AllocError>
    requires { at < length text.now }
    ensures { IfOk result (λ t. t ≡ take at text.now ++ (by.now ++ drop (at + 1) text.now)) }
{
    let mut all = Text::from_slice(alloc, &text[..at])?;
    all.append(by)?;
    all.append(&text[at + 1..])?;
    Ok(all)
}
