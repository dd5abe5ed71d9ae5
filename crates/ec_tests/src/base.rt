//! What `printf` writes.
use ec_base::{MAX_STRING, NoMemory, conversions, format_values};
use std::alloc::Global;
use std::process::Abort;

/// A string, values, how many of them the string asks for, and what is written.
type Row = (&'static [u8], &'static [i64], Option<u32>, &'static [u8]);

const STRINGS: &[Row] = &[
    (b"", &[], Some(0), b""),
    (b"plain\n", &[], Some(0), b"plain\n"),
    (b"%d %d%%\n", &[-3, 9], Some(2), b"-3 9%\n"),
    (b"%ld", &[i64::MIN], Some(1), b"-9223372036854775808"),
    (b"%d%ld%d", &[1, 20, 300], Some(3), b"120300"),
    (b"%%d", &[5], Some(0), b"%d"),
    (b"%%%d", &[5], Some(1), b"%5"),
    (b"%d|%d", &[0], Some(2), b"0|"),
    (b"50%", &[], None, b"50"),
    (b"%l", &[], None, b""),
    (b"%x%d", &[7], None, b"7"),
];

fn writes(rt: &impl Abort, alloc: Global, row: &Row) -> Result<(), NoMemory> {
    let (string, values, asked, written) = row;
    assert!(rt; string.len() <= MAX_STRING as usize);
    assert_eq!(rt; conversions(string), *asked);
    let text = format_values(alloc, string, values)?;
    assert_eq!(rt; text.as_slice(), *written);
    Ok(())
}

#[test]
fn strings_ask_for_values_and_write_them(rt: HostRuntime) -> Result<(), NoMemory> {
    for row in STRINGS {
        writes(&rt, rt.alloc(), row)?;
    }
    Ok(())
}
