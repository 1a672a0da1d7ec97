// One turn of the line walk (crate: `LineIterator`): it opens the walk, goes into the subsection that the next slot names, into its next block,
// over a line or to the subsection's end, and says whether a record is ready.
//
// A state goes in and comes back by value, and may be forged: each turn holds its places against the area again. The moves that a turn is made of are
// public too, and answer for every state, so that whoever makes many turns at once makes them by the same moves.
#![tactic(auto)]

ghost use Rattle.std.specs.Prelude.{◌≡◌, ◌+◌, ◌-◌, ◌*◌, ◌^◌, ◌<◌, ◌≤◌};
ghost use Rattle.kinds.specs.Kind.{crate_rule};
ghost use Rattle.line_record.specs.Told.{told_line_entry};
ghost use Rattle.line_step.specs.Turn.{source_of, line_entry_at, fresh_rest, with_held, past_lines, hold_of, line_turn, column_place, next_block, end_held};
ghost use Rattle.line_step.specs.Turn.{end_of, block_turn, inside_turn, place_at, enter_place, behind_body, sub_turn, finish_of, between_turn, open_of, turn_of};
ghost use Rattle.lines.specs.Lines.{count_lines};
ghost use Rattle.line_step.specs.Told.{told_next_block, told_end_body, told_entered, told_turn};

use line_record::{EndLines, LineRecord, LineSource, closed, entry_of};
use lines::{LINE_HEAD, LineHeader, block_at, count_lines, has_columns, header_of, slot_body};
use refusal::{LONGEST, Refusal};
use word::u32_at;

// What comes behind the present subsection: the next slot, how many line subsections are left, how far the area has been searched for the
// bodies that slots name; and the record that is held back until its end is known.
#[derive(Clone, Copy)]
pub struct Rest {
    pub slot: usize,
    pub left: usize,
    pub scan: usize,
    pub held: Option<LineRecord>,
}

// A place in a subsection: its header and the start of its body; the file of the present block, and how end lines are read; the end of the body and the next
// block; of the present block the lines left, the next line and column. The fields stand in the order in which a walk was the fastest (docs/SPEED.md, 62).
#[derive(Clone, Copy)]
pub struct Place {
    pub head: LineHeader,
    pub body: usize,
    pub file: u32,
    pub how: EndLines,
    pub end: usize,
    pub next: usize,
    pub lines: usize,
    pub line: usize,
    pub column: usize,
}

// A state of the walk: new, between two subsections, or inside one. Each says once how end lines are read, inside a subsection by its place, and each turn
// hands it on: no state names two readings, and no turn changes it.
#[derive(Clone, Copy)]
pub enum LineWalk {
    New(EndLines),
    Between(EndLines, Rest),
    Inside(Place, Rest),
}

// A turn that is not the last: a record is ready, or none yet. Behind the last one there is none any more.
#[derive(Clone, Copy)]
pub enum Turn {
    Line(LineRecord, LineWalk),
    Pass(LineWalk),
}

// What the lines at a place have in common. Where the body of a forged place starts too far on for 32 bits, its low bits are taken: no turn comes to its
// lines.
pub fn source_of(p: Place) -> LineSource
    ensures { result ≡ source_of p }
{
    LineSource {
        section: p.head.section,
        base: p.head.offset,
        file: p.file,
        columns: has_columns(p.head.flags),
        how: p.how,
        body: (p.body % 0x1_0000_0000) as u32,
    }
}

// The entry at a place. Where it does not lie in the body it is 1; without columns `column` is the first line's place.
#[tactic(auto, unfolding(crate::specs::Turn::line_entry_at))]
fn entry_at(body: &[u8], p: Place) -> Result<Option<LineRecord>, Refusal>
    ensures { told_line_entry result ≡ line_entry_at body.now p }
{
    if body.len() < p.line || body.len() - p.line < 8 {
        return Err(Refusal::Cut);
    }
    if body.len() < p.column || body.len() - p.column < 4 {
        return Err(Refusal::Cut);
    }
    let offset = u32_at(body, p.line);
    let flags = u32_at(body, p.line + 4);
    entry_of(source_of(p), offset, flags, u32_at(body, p.column))
}

// What comes behind a slot, of which nothing is searched yet, and no record is held.
pub fn fresh_rest(slot: usize, left: usize) -> Rest
    ensures { result ≡ fresh_rest slot left }
{
    Rest {
        slot,
        left,
        scan: 0,
        held: None,
    }
}

pub fn with_held(t: Rest, held: Option<LineRecord>) -> Rest
    ensures { result ≡ with_held t held }
{
    Rest { held, ..t }
}

// What comes behind the subsection that the next slot names and that ends at `end`. The slot of a forged state goes round where it does not fit 64 bits:
// no list has it.
pub fn behind_body(t: Rest, end: usize) -> Rest
    ensures { result ≡ behind_body t end }
{
    Rest {
        slot: t.slot.wrapping_add(1),
        left: t.left.saturating_sub(1),
        scan: end,
        ..t
    }
}

// The place n lines on. A line uses up its column entry, also where it is a marker. The places of a forged state go round where they do not fit 64 bits:
// nothing is read there before the next turn holds them against the area.
pub fn past_lines(p: Place, n: usize) -> Place
    ensures { result ≡ past_lines p n }
{
    Place {
        lines: p.lines.saturating_sub(n),
        line: p.line.wrapping_add(n.wrapping_mul(8)),
        column: p.column.wrapping_add(n.wrapping_mul(4)),
        ..p
    }
}

// A new record is held; the one that was held is closed by it and is ready.
fn hold(p: Place, t: Rest, r: LineRecord) -> Result<Option<Turn>, Refusal>
    ensures { told_turn result ≡ hold_of p t r }
{
    let w = LineWalk::Inside(p, with_held(t, Some(r)));
    match t.held {
        None => Ok(Some(Turn::Pass(w))),
        Some(o) => Ok(Some(Turn::Line(closed(o, r.section, r.offset), w))),
    }
}

// The next line of a block.
fn line_turn(body: &[u8], p: Place, t: Rest) -> Result<Option<Turn>, Refusal>
    requires { 1 ≤ p.lines }
    ensures { told_turn result ≡ line_turn body.now p t }
{
    match entry_at(body, p)? {
        Some(r) => hold(past_lines(p, 1), t, r),
        None => Ok(Some(Turn::Pass(LineWalk::Inside(past_lines(p, 1), t)))),
    }
}

// Where the columns of a block begin: behind its lines. Without columns nothing is read there.
fn column_place(columns: bool, start: usize, count: usize) -> usize
    requires { start + 8 * count < 2 ^ 64 }
    ensures { result ≡ column_place columns start count }
{
    if columns { start + 8 * count } else { start }
}

// The place in the next block of a subsection, or none where its blocks are done.
#[tactic(auto, using(lines::specs::BlocksLaws::block_in))]
pub fn next_block(body: &[u8], p: Place) -> Result<Option<Place>, Refusal>
    ensures { told_next_block result ≡ next_block body.now p }
{
    let columns = has_columns(p.head.flags);
    match block_at(body, p.next, columns)? {
        Some((block, next)) => {
            // By hand: a walk takes less where the place is changed as it stands than where it is made anew (docs/SPEED.md, 49).
            let mut q = p;
            q.next = next;
            q.file = block.file;
            q.lines = block.count;
            q.line = block.start;
            q.column = column_place(columns, block.start, block.count);
            Ok(Some(q))
        }
        None => Ok(None),
    }
}

// The end of a subsection, whose blocks are done, closes the record that is held.
#[tactic(auto, unfolding(crate::specs::Turn::end_held))]
pub fn end_body(h: LineHeader, held: Option<LineRecord>) -> Result<Option<LineRecord>, Refusal>
    ensures { told_end_body result ≡ end_held h held }
{
    let Some(r) = held else {
        return Ok(None);
    };
    let end = h.offset.checked_add(h.code).ok_or(Refusal::OffsetTooLarge)?;
    Ok(Some(closed(r, h.section, end)))
}

fn end_turn(p: Place, t: Rest) -> Result<Option<Turn>, Refusal>
    ensures { told_turn result ≡ end_of p t }
{
    let closing = end_body(p.head, t.held)?;
    Ok(Some(Turn::Pass(LineWalk::Between(p.how, with_held(t, closing)))))
}

// The next block of a subsection, or its end.
fn block_turn(body: &[u8], p: Place, t: Rest) -> Result<Option<Turn>, Refusal>
    ensures { told_turn result ≡ block_turn body.now p t }
{
    match next_block(body, p)? {
        Some(q) => Ok(Some(Turn::Pass(LineWalk::Inside(q, t)))),
        None => end_turn(p, t),
    }
}

// Inside a subsection, whose bytes end at the place's end, and whose body starts no later.
#[tactic(auto, unfolding(crate::specs::Turn::inside_turn))]
fn inside_turn(area: &[u8], p: Place, t: Rest) -> Result<Option<Turn>, Refusal>
    ensures { told_turn result ≡ inside_turn area.now p t }
{
    let end = p.end;
    if area.len() < end || end < p.body {
        return Err(Refusal::Cut);
    }
    if p.lines == 0 {
        return block_turn(&area[..end], p, t);
    }
    line_turn(&area[..end], p, t)
}

// Before the first block, at `first`, of a subsection whose body goes from `body` to `end`.
pub fn place_at(how: EndLines, head: LineHeader, body: usize, first: usize, end: usize) -> Place
    ensures { result ≡ place_at how head body first end }
{
    Place {
        head,
        how,
        body,
        end,
        next: first,
        file: 0,
        lines: 0,
        line: 0,
        column: 0,
    }
}

// Into the subsection whose body of `len` bytes starts at `start`: the place before its first block. A body that does not lie in the area is 1.
#[tactic(auto, unfolding(crate::specs::Turn::enter_place, crate::specs::Turn::headed_place))]
pub fn enter(area: &[u8], how: EndLines, start: usize, len: usize) -> Result<Place, Refusal>
    ensures { told_entered result ≡ enter_place how area.now start len }
{
    if area.len() < start || area.len() - start < len || len < LINE_HEAD {
        return Err(Refusal::Cut);
    }
    let end = start + len;
    let h = header_of(&area[start..end]);
    Ok(place_at(how, h, start, start + LINE_HEAD, end))
}

// The next subsection: the one that the next slot names.
#[tactic(auto, using(crate::specs::TurnLaws::sub_cut))]
fn sub_turn(area: &[u8], slots: &[u32], how: EndLines, t: Rest) -> Result<Option<Turn>, Refusal>
    ensures { told_turn result ≡ sub_turn crate_rule area.now slots.now how t }
{
    let span = slot_body(area, slots, t.slot, t.scan)?;
    let p = enter(area, how, span.start, span.len)?;
    Ok(Some(Turn::Pass(LineWalk::Inside(p, behind_body(t, p.end)))))
}

// No subsection is left: the held record is ready.
fn finish(how: EndLines, t: Rest) -> Result<Option<Turn>, Refusal>
    ensures { told_turn result ≡ finish_of how t }
{
    if let Some(r) = t.held {
        return Ok(Some(Turn::Line(r, LineWalk::Between(how, with_held(t, None)))));
    }
    Ok(None)
}

#[tactic(auto, unfolding(crate::specs::Turn::between_turn))]
fn between_turn(area: &[u8], slots: &[u32], how: EndLines, t: Rest) -> Result<Option<Turn>, Refusal>
    ensures { told_turn result ≡ between_turn crate_rule area.now slots.now how t }
{
    if t.left == 0 {
        return finish(how, t);
    }
    sub_turn(area, slots, how, t)
}

// A new walk makes the tests over the whole area.
fn open_turn(area: &[u8], how: EndLines) -> Result<Option<Turn>, Refusal>
    ensures { told_turn result ≡ open_of how (count_lines crate_rule area.now) }
{
    let n = count_lines(area)?;
    Ok(Some(Turn::Pass(LineWalk::Between(how, fresh_rest(0, n)))))
}

#[tactic(auto, unfolding(crate::specs::Turn::turn_of))]
pub fn take_turn(area: &[u8], slots: &[u32], w: LineWalk) -> Result<Option<Turn>, Refusal>
    ensures { told_turn result ≡ turn_of crate_rule area.now slots.now w }
{
    if LONGEST < area.len() {
        return Err(Refusal::TooLong);
    }
    match w {
        LineWalk::New(how) => open_turn(area, how),
        LineWalk::Between(how, t) => between_turn(area, slots, how, t),
        LineWalk::Inside(p, t) => inside_turn(area, p, t),
    }
}
