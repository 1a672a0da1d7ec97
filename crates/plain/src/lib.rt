// Plain areas: those that the writer makes (added; the crate has no writer).
//
// One pass over the area decides, and tells what a writer has to know of the last subsection. A body is looked at where it stands; nothing is
// copied.
#![tactic(auto)]

ghost use Rattle.std.specs.Prelude.{◌≡◌, ◌+◌, ◌<◌, length, drop};
ghost use Rattle.std.proofs.Math.Option.{none};
ghost use Rattle.body.specs.Inlinees.{inlinee_bite};
ghost use Rattle.body.specs.Imports.{module_bite};
ghost use Rattle.body.specs.Exports.{pairs};
ghost use Rattle.plain.specs.Plain.{size_of, plain_block, plain_checksum, ascends_from, marked, lines_mark, inlinees_mark, is_opaque, mark_of, plain_of};
ghost use Rattle.plain.specs.WalkLaws.{stride};
ghost use Rattle.plain.specs.ScanLaws.{stride_of, wholly_of};
ghost use Rattle.plain.specs.Told.{told_mark, told_plain};

use kinds::{
    COFF_SYMBOL_RVA, CROSS_SCOPE_EXPORTS, CROSS_SCOPE_IMPORTS, FILE_CHECKSUMS, FRAME_DATA,
    FUNC_MDTOKEN_MAP, IL_LINES, INLINEE_LINES, LINES, MERGED_ASSEMBLY_INPUT, STRING_TABLE, SYMBOLS,
    TYPE_MDTOKEN_MAP,
};
use lines::{BLOCK_HEAD, LINE_HEAD, line_bytes};
use refusal::LONGEST;
use word::{u8_at, u16_at, u32_at};

// The last subsection of a plain area: its header's place, its kind and its mark, all 0 where there is none. A mark is what a plain body says to who
// appends to it: the column flag, the signature, the least local index that may follow, or 0.
#[derive(Clone, Copy)]
pub struct Last {
    pub header: usize,
    pub kind: u32,
    pub mark: u64,
}

// How far the block at i goes, 0 where none of plain form stands there. So do the next three.
#[tactic(auto, using(crate::specs::RecordLaws::line_bytes_max, crate::specs::RecordLaws::block_short, crate::specs::RecordLaws::block_odd, crate::specs::RecordLaws::block_cut, crate::specs::RecordLaws::block_goes))]
fn block_at(body: &[u8], i: usize, columns: bool) -> usize
    requires { i < length body.now }
    ensures { result ≡ stride (drop i body.now) (plain_block columns (drop i body.now)) }
{
    let left = body.len() - i;
    if left < BLOCK_HEAD {
        return 0;
    }
    let n = u32_at(body, i + 4);
    let size = u32_at(body, i + 8) as usize;
    if size != BLOCK_HEAD + line_bytes(columns, n) {
        return 0;
    }
    if left < size {
        return 0;
    }
    size
}

// The size of a checksum of a kind.
pub fn size_of(kind: u8) -> usize
    ensures { result ≡ size_of kind }
{
    if kind == 0 {
        return 0;
    }
    if kind == 1 {
        return 16;
    }
    if kind == 2 {
        return 20;
    }
    32
}

#[tactic(auto, using(crate::specs::RecordLaws::sum_short, crate::specs::RecordLaws::sum_odd, crate::specs::RecordLaws::sum_cut, crate::specs::RecordLaws::sum_kind, crate::specs::RecordLaws::sum_pad, crate::specs::RecordLaws::sum_goes))]
fn checksum_at(body: &[u8], i: usize) -> usize
    requires { i < length body.now }
    ensures { result ≡ stride (drop i body.now) (plain_checksum (drop i body.now)) }
{
    let left = body.len() - i;
    if left < 6 {
        return 0;
    }
    let n = u8_at(body, i + 4) as usize;
    let kind = u8_at(body, i + 5);
    if n != size_of(kind) {
        return 0;
    }
    if left < n + 8 {
        return 0;
    }
    if 3 < kind {
        return 0;
    }
    if u16_at(body, i + (6 + n)) != 0 {
        return 0;
    }
    n + 8
}

#[tactic(auto, using(crate::specs::RecordLaws::inlinee_short, crate::specs::RecordLaws::inlinee_bare, crate::specs::RecordLaws::inlinee_low, crate::specs::RecordLaws::inlinee_cut, crate::specs::RecordLaws::inlinee_goes))]
fn inlinee_at(body: &[u8], i: usize, extended: bool) -> usize
    requires { i < length body.now }
    ensures { result ≡ stride (drop i body.now) (inlinee_bite extended (drop i body.now)) }
{
    let left = body.len() - i;
    if left < 12 {
        return 0;
    }
    if extended {
        if left < 16 {
            return 0;
        }
        let n = u32_at(body, i + 12) as usize;
        if left - 16 < 4 * n {
            return 0;
        }
        return 16 + 4 * n;
    }
    12
}

#[tactic(auto, using(crate::specs::RecordLaws::module_short, crate::specs::RecordLaws::module_cut, crate::specs::RecordLaws::module_goes))]
fn module_at(body: &[u8], i: usize) -> usize
    requires { i < length body.now }
    ensures { result ≡ stride (drop i body.now) (module_bite (drop i body.now)) }
{
    let left = body.len() - i;
    if left < 8 {
        return 0;
    }
    let n = u32_at(body, i + 4) as usize;
    if left - 8 < 4 * n {
        return 0;
    }
    8 + 4 * n
}

// What records a body is made of: blocks, with or without columns; checksums; inlinees, with or without extra files; modules.
#[derive(Clone, Copy)]
enum Records {
    Blocks(bool),
    Checksums,
    Inlinees(bool),
    Modules,
}

fn record_at(body: &[u8], i: usize, records: Records) -> usize
    requires { i < length body.now }
    ensures { result ≡ stride_of records (drop i body.now) }
{
    match records {
        Records::Blocks(columns) => block_at(body, i, columns),
        Records::Checksums => checksum_at(body, i),
        Records::Inlinees(extended) => inlinee_at(body, i, extended),
        Records::Modules => module_at(body, i),
    }
}

// Whether the body is records of plain form to its end.
fn whole(body: &[u8], records: Records) -> bool
    ensures { result ≡ wholly_of records body.now }
{
    let mut i: usize = 0;
    while i < body.len() {
        let n = record_at(body, i, records);
        if n == 0 {
            return false;
        }
        i += n;
    }
    true
}

// The least local index that may follow the pairs.
fn floor_of(body: &[u8]) -> Option<u64>
    ensures { told_mark result ≡ ascends_from 0 (pairs body.now) }
{
    if body.len() % 8 != 0 {
        return None;
    }
    let mut floor: u64 = 0;
    let mut i: usize = 0;
    while i < body.len() {
        let local = u32_at(body, i) as u64;
        if local < floor {
            return None;
        }
        floor = local + 1;
        i += 8;
    }
    Some(floor)
}

fn mark_if(fine: bool, mark: u64) -> Option<u64>
    ensures { told_mark result ≡ marked fine mark }
{
    if fine {
        return Some(mark);
    }
    None
}

#[tactic(auto, using(crate::specs::PlainLaws::lines_short, crate::specs::PlainLaws::lines_long))]
fn lines_mark(body: &[u8]) -> Option<u64>
    ensures { told_mark result ≡ lines_mark body.now }
{
    if body.len() < LINE_HEAD {
        return None;
    }
    let flag = u16_at(body, 6) % 2;
    mark_if(
        whole(&body[LINE_HEAD..], Records::Blocks(flag == 1)),
        flag as u64,
    )
}

#[tactic(auto, using(crate::specs::PlainLaws::inlinees_short, crate::specs::PlainLaws::inlinees_odd, crate::specs::PlainLaws::inlinees_long))]
fn inlinees_mark(body: &[u8]) -> Option<u64>
    ensures { told_mark result ≡ inlinees_mark body.now }
{
    if body.len() < 4 {
        return None;
    }
    let signature = u32_at(body, 0);
    if 1 < signature {
        return None;
    }
    mark_if(
        whole(&body[4..], Records::Inlinees(signature == 1)),
        signature as u64,
    )
}

// Whether a writer takes a body of the kind as it is.
pub fn is_opaque(kind: u32) -> bool
    ensures { result ≡ is_opaque kind }
{
    match kind {
        SYMBOLS
        | STRING_TABLE
        | FRAME_DATA
        | IL_LINES
        | FUNC_MDTOKEN_MAP
        | TYPE_MDTOKEN_MAP
        | MERGED_ASSEMBLY_INPUT
        | COFF_SYMBOL_RVA => true,
        _ => false,
    }
}

#[tactic(auto, using(crate::specs::PlainLaws::mark_lines, crate::specs::PlainLaws::mark_checksums, crate::specs::PlainLaws::mark_inlinees, crate::specs::PlainLaws::mark_modules, crate::specs::PlainLaws::mark_pairs, crate::specs::PlainLaws::mark_opaque, crate::specs::PlainLaws::mark_uneven))]
fn mark_of(kind: u32, body: &[u8]) -> Option<u64>
    ensures { told_mark result ≡ mark_of kind body.now }
{
    match kind {
        LINES => lines_mark(body),
        FILE_CHECKSUMS => mark_if(whole(body, Records::Checksums), 0),
        INLINEE_LINES => inlinees_mark(body),
        CROSS_SCOPE_IMPORTS => mark_if(whole(body, Records::Modules), 0),
        CROSS_SCOPE_EXPORTS => floor_of(body),
        _ => {
            if body.len() % 4 == 0 {
                return mark_if(is_opaque(kind), 0);
            }
            None
        }
    }
}

// Whether the area is plain, and what is last in it.
pub fn is_plain(area: &[u8]) -> Option<Last>
    ensures { told_plain result ≡ plain_of area.now }
{
    if LONGEST < area.len() {
        return None;
    }
    let mut at: usize = 0;
    let mut last = Last {
        header: 0,
        kind: 0,
        mark: 0,
    };
    while at < area.len() {
        let left = area.len() - at;
        if left < 8 {
            return None;
        }
        let kind = u32_at(area, at);
        let n = u32_at(area, at + 4) as usize;
        if left - 8 < n {
            return None;
        }
        let start = at + 8;
        let next = start + n;
        let mark = mark_of(kind, &area[start..next])?;
        last = Last {
            header: at,
            kind,
            mark,
        };
        at = next;
    }
    Some(last)
}
