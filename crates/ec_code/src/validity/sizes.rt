//! The sizes, counts and strings of instructions.
ghost use Rattle.std.specs.Prelude.{◌≡◌, ◌^◌, nat_lt};
ghost use Rattle.ec_code.specs.Valid as valid;

use crate::instr::Instr;
use ec_base::{MAX_ARRAY, MAX_SLOT_COUNT, MAX_STRING, MAX_STRUCT_CELLS, conversions};

fn is_size(size: u32) -> bool
    ensures { result ≡ valid.is_size size }
{
    1 <= size && size <= MAX_STRUCT_CELLS
}

fn is_count(count: u32) -> bool
    ensures { result ≡ valid.is_count count }
{
    1 <= count && count <= MAX_SLOT_COUNT
}

fn is_length(length: u32) -> bool
    ensures { result ≡ valid.within 1 length MAX_ARRAY }
{
    1 <= length && length <= MAX_ARRAY
}

/// Whether no bit from this one on is set.
#[tactic(auto, using(crate::proofs::Bits::bits))]
fn has_bits_below(bits: u64, end: u32) -> bool
    ensures { result ≡ nat_lt bits (2 ^ end) }
{
    end >= 64 || bits >> end == 0
}

/// Whether a string is within its limit and asks for so many values.
fn is_format(string: &[u8], count: usize) -> bool
    ensures { result ≡ valid.is_format string.now count }
{
    if string.len() > MAX_STRING as usize {
        return false;
    }
    match conversions(string) {
        None => false,
        Some(n) => n as usize == count,
    }
}

/// Whether the counts, sizes, lengths and strings of an instruction are within their limits.
pub(super) fn has_sizes(x: &Instr) -> bool
    ensures { result ≡ valid.has_sizes x.now }
{
    match x {
        Instr::Check(_, length, _) => is_length(*length),
        Instr::Alloc(_, _, size, nils, _) => is_size(*size) && has_bits_below(*nils, *size),
        Instr::Load(_, _, _, size, _, _)
        | Instr::Store(_, _, size, _, _, _)
        | Instr::GetSync(_, _, size, _, _, _, _)
        | Instr::DataSync(_, _, _, size, _, _, _)
        | Instr::BlkmovSync(_, _, _, _, size, _, _, _) => is_size(*size),
        Instr::InitSync(_, count, reset, _) => is_count(*count) && is_count(*reset),
        Instr::PrintSync(string, cells, _) => is_format(string.as_slice(), cells.len()),
        _ => true,
    }
}
