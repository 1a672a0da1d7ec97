// Line subsections: the tests over a whole area, and their number; a line body's header and blocks (crate: `DebugLinesSubsection`,
// `DebugLinesBlockIterator`); and the body that a slot of an order list names.
//
// `header_of` and `block_at` read a line body that is lent alone. `count_lines`, `seek` and `slot_body` read an area, and test number 11 first,
// since each goes through `sub_at`.
#![tactic(auto)]

ghost use Rattle.std.specs.Prelude.{◌≡◌};
ghost use Rattle.kinds.specs.Kind.{crate_rule};
ghost use Rattle.body.specs.Lines.{line_head, columned, line_bytes};
ghost use Rattle.find.specs.Told.{told_found};
ghost use Rattle.lines.specs.Lines.{count_lines};
ghost use Rattle.lines.specs.Blocks.{block_at};
ghost use Rattle.lines.specs.Slots.{body_from, scan_from, slot_at};
ghost use Rattle.lines.specs.Told.{told_header, told_block, told_counted, told_named};

use area::sub_at;
use find::Span;
use kinds::LINES;
use refusal::Refusal;
use word::{u16_at, u32_at};

// The header of a line body. Bit 0 of its flags says whether its lines have columns.
#[derive(Clone, Copy)]
pub struct LineHeader {
    pub offset: u32,
    pub section: u16,
    pub flags: u16,
    pub code: u32,
}

// The bytes of a line body's header, and those of a block's.
pub const LINE_HEAD: usize = 12;

pub const BLOCK_HEAD: usize = 12;

// A byte that is missing reads as 0.
pub fn header_of(body: &[u8]) -> LineHeader
    ensures { told_header result ≡ line_head body.now }
{
    let offset = u32_at(body, 0);
    let section = u16_at(body, 4);
    let flags = u16_at(body, 6);
    let code = u32_at(body, 8);
    LineHeader {
        offset,
        section,
        flags,
        code,
    }
}

pub fn has_columns(flags: u16) -> bool
    ensures { result ≡ columned flags }
{
    flags % 2 == 1
}

// A block of a line body: its file, how many lines it has and where they begin.
#[derive(Clone, Copy)]
pub struct Block {
    pub file: u32,
    pub count: usize,
    pub start: usize,
}

// The bytes of a block's lines and columns.
pub fn line_bytes(columns: bool, count: u32) -> usize
    ensures { result ≡ line_bytes columns count }
{
    if columns {
        return 12 * (count as usize);
    }
    8 * (count as usize)
}

// The block at a place of a line body, and the place behind it. The first block stands behind the header, at `LINE_HEAD`.
#[tactic(auto, using(crate::specs::BlocksLaws::block_past, crate::specs::BlocksLaws::block_end, crate::specs::BlocksLaws::block_short, crate::specs::BlocksLaws::block_small, crate::specs::BlocksLaws::block_cut, crate::specs::BlocksLaws::block_many, crate::specs::BlocksLaws::block_whole))]
pub fn block_at(body: &[u8], at: usize, columns: bool) -> Result<Option<(Block, usize)>, Refusal>
    ensures { told_block result ≡ block_at columns body.now at }
{
    if body.len() < at {
        return Err(Refusal::Cut);
    }
    let left = body.len() - at;
    if left == 0 {
        return Ok(None);
    }
    if left < BLOCK_HEAD {
        return Err(Refusal::Cut);
    }
    let file = u32_at(body, at);
    let count = u32_at(body, at + 4);
    let size = u32_at(body, at + 8) as usize;
    if size < BLOCK_HEAD {
        return Err(Refusal::BlockSize);
    }
    if left < size {
        return Err(Refusal::Cut);
    }
    if size - BLOCK_HEAD < line_bytes(columns, count) {
        return Err(Refusal::BlockSize);
    }
    let block = Block {
        file,
        count: count as usize,
        start: at + BLOCK_HEAD,
    };
    Ok(Some((block, at + size)))
}

// How many line subsections an area has, after the tests over all of it, in its order: a short line header is 1 before what is behind it.
pub fn count_lines(area: &[u8]) -> Result<usize, Refusal>
    ensures { told_counted result ≡ count_lines crate_rule area.now }
{
    let mut n: usize = 0;
    let mut p: usize = 0;
    loop {
        match sub_at(area, p) {
            Ok(Some((sub, next))) => {
                if sub.kind == LINES {
                    if sub.len < LINE_HEAD {
                        return Err(Refusal::Cut);
                    }
                    n += 1;
                }
                p = next;
            }
            Ok(None) => {
                return Ok(n);
            }
            Err(why) => {
                return Err(why);
            }
        }
    }
}

// The line subsection at or behind `from` whose body starts at `body`.
pub fn seek(area: &[u8], from: usize, body: usize) -> Result<Option<Span>, Refusal>
    ensures { told_found result ≡ body_from crate_rule area.now from body }
{
    let mut p = from;
    while let Some((sub, behind)) = sub_at(area, p)? {
        if sub.start == body {
            if sub.kind == LINES {
                return Ok(Some(Span {
                    start: sub.start,
                    len: sub.len,
                }));
            }
        }
        p = behind;
    }
    Ok(None)
}

// Where the search for a body begins: where the last one ended, or at the area's start if the body lies before that.
#[tactic(auto, using(crate::specs::SlotsLaws::scan_on, crate::specs::SlotsLaws::scan_anew))]
fn scan_from(scan: usize, body: usize) -> usize
    ensures { result ≡ scan_from scan body }
{
    if scan < body {
        return scan;
    }
    0
}

// The line body that a slot names. `scan` is the end of the body that was named last, or 0: bodies in the order of the area are found in one pass over it.
pub fn slot_body(area: &[u8], slots: &[u32], slot: usize, scan: usize) -> Result<Span, Refusal>
    ensures { told_named result ≡ slot_at crate_rule area.now slots.now slot scan }
{
    if slots.len() <= slot {
        return Err(Refusal::WrongSlot);
    }
    let body = slots[slot] as usize;
    match seek(area, scan_from(scan, body), body)? {
        Some(span) => Ok(span),
        None => Err(Refusal::WrongSlot),
    }
}
