// The inlinees of an area: the entries of its first subsection of kind INLINEE_LINES, behind the body's signature (crate: `InlineeIterator`,
// `DebugInlineeLinesIterator`, `InlineeSourceLine`).
//
// An entry with extra files says where their words stand and how many there are; `table::word_in` hands out one of them.
#![tactic(auto)]

ghost use Rattle.std.specs.Prelude.{◌≡◌, ◌+◌, ◌*◌, ◌≤◌, length};
ghost use Rattle.walk.specs.Listing.{gives};
ghost use Rattle.kinds.specs.Kind.{crate_rule};
ghost use Rattle.inlinees.specs.Inlinees.{entry_place, source_line_at, inlinee_step};
ghost use Rattle.inlinees.specs.SourceLineLaws.{line_at, extended_at};
ghost use Rattle.inlinees.specs.Told.{told_source_line, told_inlinee};

use kinds::INLINEE_LINES;
use refusal::Refusal;
use table::{TableWalk, spot_first};
use word::u32_at;

// An entry: its extra files are `count` words from the place `extra` on.
#[derive(Clone, Copy)]
pub struct SourceLine {
    pub inlinee: u32,
    pub file: u32,
    pub line: u32,
    pub extra: usize,
    pub count: usize,
}

// The signature stands in the first four bytes, so that the first entry is at 4.
#[tactic(auto, using(crate::specs::SourceLineLaws::place_first, crate::specs::SourceLineLaws::place_is))]
fn entry_place(at: usize) -> usize
    ensures { result ≡ entry_place at }
{
    if at < 4 { 4 } else { at }
}

// The entry at p, whose words are there; and the place behind it.
#[tactic(auto, using(crate::specs::SourceLineLaws::line_words_lem))]
fn line_of(
    body: &[u8],
    p: usize,
    extra: usize,
    count: usize,
) -> Result<Option<(SourceLine, usize)>, Refusal>
    requires { (p + 12 ≤ length body.now) × (extra + 4 * count ≤ length body.now) }
    ensures { told_source_line result ≡ gives (line_at body.now p extra count) (extra + 4 * count) }
{
    let line = SourceLine {
        inlinee: u32_at(body, p),
        file: u32_at(body, p + 4),
        line: u32_at(body, p + 8),
        extra,
        count,
    };
    Ok(Some((line, extra + 4 * count)))
}

// An entry with a count and that many words behind its line.
#[tactic(auto, using(crate::specs::SourceLineLaws::extra_short, crate::specs::SourceLineLaws::extra_cut, crate::specs::SourceLineLaws::extra_whole))]
fn extended_line(body: &[u8], p: usize) -> Result<Option<(SourceLine, usize)>, Refusal>
    requires { p + 12 ≤ length body.now }
    ensures { told_source_line result ≡ extended_at body.now p }
{
    let left = body.len() - p;
    if left < 16 {
        return Err(Refusal::Cut);
    }
    let count = u32_at(body, p + 12) as usize;
    if left - 16 < 4 * count {
        return Err(Refusal::Cut);
    }
    line_of(body, p, p + 16, count)
}

// The entry at a place of a body, and the place behind it. A place inside the signature is that of the first entry. The places of an entry count from the
// body's start.
#[tactic(auto, using(crate::specs::SourceLineLaws::line_unsigned, crate::specs::SourceLineLaws::line_past, crate::specs::SourceLineLaws::line_none, crate::specs::SourceLineLaws::line_short, crate::specs::SourceLineLaws::line_extended, crate::specs::SourceLineLaws::line_plain))]
pub fn source_line_at(body: &[u8], at: usize) -> Result<Option<(SourceLine, usize)>, Refusal>
    ensures { told_source_line result ≡ source_line_at body.now at }
{
    if body.len() < 4 {
        return Err(Refusal::Cut);
    }
    let p = entry_place(at);
    if body.len() < p {
        return Err(Refusal::Cut);
    }
    let left = body.len() - p;
    if left == 0 {
        return Ok(None);
    }
    if left < 12 {
        return Err(Refusal::Cut);
    }
    if u32_at(body, 0) == 1 {
        return extended_line(body, p);
    }
    line_of(body, p, p + 12, 0)
}

// An inlinee of an area: the places count from the area's start; and the walk behind it.
pub fn next_inlinee(
    area: &[u8],
    walk: TableWalk,
) -> Result<Option<(SourceLine, TableWalk)>, Refusal>
    ensures { told_inlinee result ≡ inlinee_step crate_rule area.now walk }
{
    let Some(spot) = spot_first(area, INLINEE_LINES, walk)? else {
        return Ok(None);
    };
    let body = &area[spot.start..spot.start + spot.len];
    let Some((line, at)) = source_line_at(body, spot.at)? else {
        return Ok(None); // the body has no inlinee more
    };
    let inlinee = SourceLine {
        extra: spot.start + line.extra,
        ..line
    };
    let behind = TableWalk::In {
        start: spot.start,
        len: spot.len,
        at,
    };
    Ok(Some((inlinee, behind)))
}
