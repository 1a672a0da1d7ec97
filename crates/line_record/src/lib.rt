// A line record, what an entry's words say of it, and how an end sets its length (crate: `LineInfo`, `LineNumberHeader::parse`, `set_end`).
//
// Everything is decided by the words alone: no call here reads an area.
#![tactic(auto)]

ghost use Rattle.std.specs.Prelude.{◌≡◌, ◌<◌, ◌≤◌, ◌^◌};
ghost use Rattle.line_record.specs.Flags.{start_line, line_kind, is_marker};
ghost use Rattle.line_record.specs.EndLine.{end_field, end_from, end_line};
ghost use Rattle.line_record.specs.Record.{max_start_line, empty_record, column_if, start_column, end_column, record_of, entry_of, shorter_of, with_length, closed_at};
ghost use Rattle.line_record.specs.Told.{told_line_entry};

use refusal::Refusal;

#[derive(Clone, Copy)]
pub enum LineKind {
    Expression,
    Statement,
}

// A line: no length as long as no end has set it, and no columns where its body has none.
#[derive(Clone, Copy)]
pub struct LineRecord {
    pub section: u16,
    pub offset: u32,
    pub length: Option<u32>,
    pub file: u32,
    pub start_line: u32,
    pub end_line: u32,
    pub column_start: Option<u32>,
    pub column_end: Option<u32>,
    pub kind: LineKind,
    // Where the body starts that it was read from, counted from the area's start.
    pub body: u32,
}

impl LineRecord {
    // The largest start line and the largest offset that a record can have.
    pub const MAX_START_LINE: u32 = 0xff_ffff;

    pub const MAX_OFFSET: u32 = 0xffff_ffff;

    // The position of no body: no area is as long.
    pub const NO_POSITION: u32 = 0xffff_ffff;

    // No answer is made of it.
    pub fn empty() -> Self
        ensures { result ≡ empty_record }
    {
        LineRecord {
            section: 0,
            offset: 0,
            length: None,
            file: 0,
            start_line: 0,
            end_line: 0,
            column_start: None,
            column_end: None,
            kind: LineKind::Statement,
            body: LineRecord::NO_POSITION,
        }
    }
}

// The low 24 bits of the flags word.
pub fn start_line(flags: u32) -> u32
    ensures { result ≡ start_line flags }
{
    flags % (LineRecord::MAX_START_LINE + 1)
}

// How an end line is read: as the crate does; with the field, which is the seven bits above the start line, as its low bits; or as the start line plus the
// field.
#[derive(Clone, Copy)]
pub enum EndLines {
    Crate,
    LowBits,
    Delta,
}

// Bits 24 to 30 of the flags word.
#[tactic(auto, using(crate::proofs::FieldLaws::field_is))]
fn end_field(flags: u32) -> u32
    ensures { result ≡ end_field flags }
{
    flags / 0x100_0000 % 128
}

// The end line whose low seven bits are these: the first one from the start line on.
#[tactic(auto, using(crate::proofs::EndLineLaws::end_below, crate::proofs::EndLineLaws::end_joined))]
fn end_from(start: u32, low: u32) -> u32
    requires { (start ≤ max_start_line) × (low < 2 ^ 7) }
    ensures { result ≡ end_from start low }
{
    let end = start - start % 128 + low;
    if end < start { end + 128 } else { end }
}

// The end line by a reading. The crate joins bits, and adds 128 where that lies below the start line; of the bits that it takes the step that adds is never
// reached (`step_never` of proofs/EndLineLaws.antt) and the end line is always the start line (`end_is_start`), so that is what is taken here. This is the one
// place where an end line is read.
#[tactic(auto, using(crate::proofs::EndLineLaws::end_is_start))]
pub fn end_line(how: EndLines, flags: u32) -> u32
    ensures { result ≡ end_line how flags }
{
    let start = start_line(flags);
    match how {
        EndLines::Crate => start,
        EndLines::LowBits => end_from(start, end_field(flags)),
        EndLines::Delta => start + end_field(flags),
    }
}

// Bit 31 of the flags word.
#[tactic(auto, unfolding(crate::specs::Flags::line_kind))]
pub fn kind(flags: u32) -> LineKind
    ensures { result ≡ line_kind flags }
{
    if flags < 0x8000_0000 {
        LineKind::Expression
    } else {
        LineKind::Statement
    }
}

// The two start lines that are no lines.
#[tactic(auto, unfolding(crate::specs::Flags::is_marker))]
pub fn is_marker(flags: u32) -> bool
    ensures { result ≡ is_marker flags }
{
    matches!(start_line(flags), 0xfeefee | 0xf00f00)
}

// What the lines of a block have in common: the section and the start of their subsection, where in the area its body stands, their file, whether they have
// columns, and how their end lines are read.
#[derive(Clone, Copy)]
pub struct LineSource {
    pub section: u16,
    pub base: u32,
    pub file: u32,
    pub columns: bool,
    pub how: EndLines,
    pub body: u32,
}

// The start column: the low half of the column word, if there are columns.
fn column_start(columns: bool, word: u32) -> Option<u32>
    ensures { result ≡ start_column (column_if columns word) }
{
    columns.then_some(word % 65536)
}

// The end column: the high half.
fn column_end(columns: bool, word: u32) -> Option<u32>
    ensures { result ≡ end_column (column_if columns word) }
{
    columns.then_some(word / 65536)
}

// The one place where a record is made of an entry: `offset` is the one in the section, and `word` the column word, if there are columns.
pub fn record_of(source: LineSource, offset: u32, flags: u32, word: u32) -> LineRecord
    ensures { result ≡ record_of source offset flags (column_if source.columns word) }
{
    LineRecord {
        section: source.section,
        offset,
        length: None,
        file: source.file,
        start_line: start_line(flags),
        end_line: end_line(source.how, flags),
        column_start: column_start(source.columns, word),
        column_end: column_end(source.columns, word),
        kind: kind(flags),
        body: source.body,
    }
}

// What the entry of these words says, whose offset is the one in the subsection: a record whose length is unset, or none for a marker, which forms no sum.
#[tactic(auto, unfolding(crate::specs::Record::entry_of))]
pub fn entry_of(
    source: LineSource,
    offset: u32,
    flags: u32,
    word: u32,
) -> Result<Option<LineRecord>, Refusal>
    ensures { told_line_entry result ≡ entry_of source offset flags (column_if source.columns word) }
{
    if is_marker(flags) {
        return Ok(None);
    }
    let at = source
        .base
        .checked_add(offset)
        .ok_or(Refusal::OffsetTooLarge)?;
    Ok(Some(record_of(source, at, flags, word)))
}

// The shorter of a length and n.
#[tactic(auto, unfolding(crate::specs::Record::shorter_of))]
fn shorter(length: Option<u32>, n: u32) -> Option<u32>
    ensures { result ≡ shorter_of length n }
{
    match length {
        None => Some(n),
        Some(m) => Some(m.min(n)),
    }
}

// The one place where a length is changed.
fn with_length(r: LineRecord, length: Option<u32>) -> LineRecord
    ensures { result ≡ with_length r length }
{
    LineRecord { length, ..r }
}

// The record with an end at `end` of `section`: in the same section and not before the record it sets the length, if unset or larger.
#[tactic(auto, unfolding(crate::specs::Record::closed_at))]
pub fn closed(r: LineRecord, section: u16, end: u32) -> LineRecord
    ensures { result ≡ closed_at section end r }
{
    if r.section != section || end < r.offset {
        return r;
    }
    with_length(r, shorter(r.length, end - r.offset))
}
