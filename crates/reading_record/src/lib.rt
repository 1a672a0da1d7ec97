// An item of the full reading, and the record at a place of a typed body as an item: its numbers, and the places of its words or bytes in the lent
// area; nothing is copied. Crate `reading_walk` walks over a whole area.
//
// One function for each kind of body hands on what the body's own crate reads there; where the body lies, and what a place is, is said once.
#![tactic(auto)]

ghost use Rattle.std.specs.Prelude.{◌≡◌, ◌+◌, ◌≤◌, length};
ghost use Rattle.refusal.specs.Told.{longest};
ghost use Rattle.refusal.specs.Answers.{told_answer};
ghost use Rattle.table.specs.Table.{spot_in};
ghost use Rattle.reading_record.specs.Record.{columns_from, record_at, record_in_body};
ghost use Rattle.reading_record.specs.Told.{told_columns, told_one_item, told_item};
ghost use Rattle.reading_record.specs.declared.ItemWalk.TheVariants as walk;
ghost use Rattle.reading_record.specs.declared.TypedBody.TheVariants as typed;

use checksums::{entry_at, number};
use exports::pair_at;
use imports::module_at;
use inlinees::source_line_at;
use lines::{LineHeader, block_at, has_columns};
use refusal::Refusal;
use table::spot_in;
use word::{u8_at, u16_at};

// A body that has records.
#[derive(Clone, Copy)]
pub enum TypedBody {
    Lines,
    Checksums,
    Inlinees,
    Imports,
    Exports,
}

// Where a walk stands: before the subsection at a place of the area, or at a place in the body of `len` bytes that starts at `start`.
#[derive(Clone, Copy)]
pub enum ItemWalk {
    Between {
        at: usize,
    },
    In {
        body: TypedBody,
        start: usize,
        len: usize,
        at: usize,
    },
}

impl ItemWalk {
    pub fn new() -> ItemWalk
        ensures { result ≡ walk.Between 0 }
    {
        ItemWalk::Between { at: 0 }
    }
}

// An item of the full reading. The column words of a block start at `columns`, if it has any.
#[derive(Clone, Copy)]
pub enum Item {
    OpenLines {
        header: LineHeader,
    },
    Block {
        file: u32,
        count: usize,
        lines: usize,
        columns: Option<usize>,
    },
    OpenChecksums,
    Checksum {
        name: u32,
        kind: u8,
        start: usize,
        len: usize,
    },
    OpenInlinees {
        signature: u32,
    },
    Inlinee {
        inlinee: u32,
        file: u32,
        line: u32,
        extra: usize,
        count: usize,
    },
    OpenImports,
    Module {
        name: u32,
        words: usize,
        count: usize,
    },
    OpenExports,
    Pair {
        local: u32,
        global: u32,
    },
    Opaque {
        kind: u32,
        start: usize,
        len: usize,
    },
}

// Where the columns of a block stand, behind its lines.
fn columns_at(columns: bool, at: usize) -> Option<usize>
    ensures { told_columns result ≡ columns_from columns at }
{
    columns.then_some(at)
}

// The record at a place of a body that starts at a place of an area, and the place behind it; behind the last one `None`.
#[tactic(auto, using(lines::specs::BlocksLaws::block_in))]
fn block_in(body: &[u8], start: usize, at: usize) -> Result<Option<(Item, usize)>, Refusal>
    requires { start + length body.now ≤ longest }
    ensures { told_answer told_one_item result ≡ record_at typed.Lines body.now start at }
{
    let columns = has_columns(u16_at(body, 6));
    let Some((b, next)) = block_at(body, at, columns)? else {
        return Ok(None);
    };
    let item = Item::Block {
        file: b.file,
        count: b.count,
        lines: start + b.start,
        columns: columns_at(columns, start + b.start + 8 * b.count),
    };
    Ok(Some((item, next)))
}

#[tactic(auto, using(checksums::specs::EntryLaws::entry_lies))]
fn checksum_in(body: &[u8], start: usize, at: usize) -> Result<Option<(Item, usize)>, Refusal>
    requires { start + length body.now ≤ longest }
    ensures { told_answer told_one_item result ≡ record_at typed.Checksums body.now start at }
{
    let Some((e, next)) = entry_at(body, at)? else {
        return Ok(None);
    };
    let item = Item::Checksum {
        name: e.name,
        kind: number(e.kind),
        start: start + e.start,
        len: u8_at(body, e.start - 2) as usize,
    };
    Ok(Some((item, next)))
}

#[tactic(auto, using(inlinees::specs::SourceLineLaws::line_lies))]
fn inlinee_in(body: &[u8], start: usize, at: usize) -> Result<Option<(Item, usize)>, Refusal>
    requires { start + length body.now ≤ longest }
    ensures { told_answer told_one_item result ≡ record_at typed.Inlinees body.now start at }
{
    let Some((e, next)) = source_line_at(body, at)? else {
        return Ok(None);
    };
    let item = Item::Inlinee {
        inlinee: e.inlinee,
        file: e.file,
        line: e.line,
        extra: start + e.extra,
        count: e.count,
    };
    Ok(Some((item, next)))
}

fn module_in(body: &[u8], start: usize, at: usize) -> Result<Option<(Item, usize)>, Refusal>
    requires { start + length body.now ≤ longest }
    ensures { told_answer told_one_item result ≡ record_at typed.Imports body.now start at }
{
    let Some((m, next)) = module_at(body, at)? else {
        return Ok(None);
    };
    let item = Item::Module {
        name: m.name,
        words: start + m.words,
        count: m.count,
    };
    Ok(Some((item, next)))
}

fn pair_in(body: &[u8], start: usize, at: usize) -> Result<Option<(Item, usize)>, Refusal>
    ensures { told_answer told_one_item result ≡ record_at typed.Exports body.now start at }
{
    let Some((p, next)) = pair_at(body, at)? else {
        return Ok(None);
    };
    let item = Item::Pair {
        local: p.local,
        global: p.global,
    };
    Ok(Some((item, next)))
}

// The record of a body of this kind.
fn record_of(
    body: &[u8],
    kind: TypedBody,
    start: usize,
    at: usize,
) -> Result<Option<(Item, usize)>, Refusal>
    requires { start + length body.now ≤ longest }
    ensures { told_answer told_one_item result ≡ record_at kind body.now start at }
{
    match kind {
        TypedBody::Lines => block_in(body, start, at),
        TypedBody::Checksums => checksum_in(body, start, at),
        TypedBody::Inlinees => inlinee_in(body, start, at),
        TypedBody::Imports => module_in(body, start, at),
        TypedBody::Exports => pair_in(body, start, at),
    }
}

// The record at a place of the body of `len` bytes that starts at `start`, and the walk behind it; behind the last one `None`. Refused are 11, 1 for
// a body that does not lie in the area, and what the body's records are refused for: 1, 3, 4 and 7.
#[tactic(auto, using(crate::specs::RecordLaws::spot_lies))]
pub fn record_at(
    area: &[u8],
    kind: TypedBody,
    start: usize,
    len: usize,
    at: usize,
) -> Result<Option<(Item, ItemWalk)>, Refusal>
    ensures { told_item result ≡ record_in_body area.now kind (spot_in area.now start len at) }
{
    let Some(q) = spot_in(area, start, len, at)? else {
        return Ok(None);
    };
    let Some((item, next)) = record_of(&area[q.start..q.start + q.len], kind, q.start, q.at)? else {
        return Ok(None);
    };
    let walk = ItemWalk::In {
        body: kind,
        start: q.start,
        len: q.len,
        at: next,
    };
    Ok(Some((item, walk)))
}
