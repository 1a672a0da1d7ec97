// The string table of a PDB: the header of its stream, and the name at an offset (crate: `StringTable::parse`, `StringTable::get`).
//
// A name is told by its place in the lent stream, or handed back as that part of it; nothing is copied.
#![tactic(auto)]

ghost use Rattle.std.specs.Prelude.{◌≡◌, ◌+◌, length, drop};
ghost use Rattle.find.specs.Find.{held_span, HandsSpan};
ghost use Rattle.strings.specs.Strings.{names_of, until_zero, name_at};
ghost use Rattle.strings.specs.Told.{told_table, told_name};

use find::Span;
use refusal::{LONGEST, Refusal};
use word::u32_at;

const SIGNATURE: u32 = 0xEFFE_EFFE;

// Where the names stand in the stream.
#[tactic(auto, using(crate::specs::StringsLaws::table_long, crate::specs::StringsLaws::table_short, crate::specs::StringsLaws::table_signature, crate::specs::StringsLaws::table_cut, crate::specs::StringsLaws::table_known, crate::specs::StringsLaws::table_version))]
pub fn string_table(stream: &[u8]) -> Result<Span, Refusal>
    ensures { told_table result ≡ names_of stream.now }
{
    if LONGEST < stream.len() {
        return Err(Refusal::TooLong);
    }
    if stream.len() < 12 {
        return Err(Refusal::Cut);
    }
    if u32_at(stream, 0) != SIGNATURE {
        return Err(Refusal::NoStringTable);
    }
    let size = u32_at(stream, 8) as usize;
    // The crate holds the names' end, counted from the stream's start, against what is left behind the header.
    if stream.len() - 12 < 12 + size {
        return Err(Refusal::Cut);
    }
    match u32_at(stream, 4) {
        1 | 2 => Ok(Span {
            start: 12,
            len: size,
        }),
        _ => Err(Refusal::HashVersion),
    }
}

// The place of the first zero from `at` on, or the end where there is none.
fn zero_from(names: &[u8], at: usize) -> usize
    ensures { result ≡ at + length (until_zero (drop at names.now)) }
{
    let mut i = at;
    while i < names.len() {
        if names[i] == 0 {
            return i;
        }
        i += 1;
    }
    i
}

// Where a name stands in the stream, its zero not counted.
pub fn name_at(stream: &[u8], offset: u32) -> Result<Span, Refusal>
    ensures { told_name result ≡ name_at stream.now offset }
{
    let table = string_table(stream)?;
    let at = offset as usize;
    let end = zero_from(&stream[table.start..table.start + table.len], at);
    if end < table.len {
        Ok(Span {
            start: table.start + at,
            len: end - at,
        })
    } else {
        Err(Refusal::Cut)
    }
}

// The name itself: the part of the stream that `name_at` tells. Where that refuses it is the empty part at the stream's start.
pub fn name_bytes(stream: &[u8], offset: u32) -> &[u8]
    ensures { HandsSpan stream.entry (held_span (name_at stream.now offset)) result }
{
    match name_at(stream, offset) {
        Ok(name) => &stream[name.start..name.start + name.len],
        Err(_) => &stream[..0],
    }
}
