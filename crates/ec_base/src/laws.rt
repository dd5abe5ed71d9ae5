//! What `printf` writes, by the rules of `specs/Writes.antt`.
ghost use Rattle.ec_base.specs.Writes.{OnlyStringsWrite, StringsWrite, StringsWriteOneText};

/// A string and as many values as it asks for write one text, and with any other count of values they write none.
pub fn strings_write()
    ensures writes { StringsWrite }
    ensures only { OnlyStringsWrite }
    ensures exact { StringsWriteOneText }
{}
