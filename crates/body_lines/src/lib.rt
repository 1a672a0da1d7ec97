// The lines of one body, many at once: those of a block one behind the other, with the held record in a few numbers, since each is made of the same
// header and file.
//
// It does what turn after turn does, and nothing where a turn would be refused: the walk stands before that turn then.
#![tactic(auto)]

ghost use Rattle.std.specs.Prelude.{◌≡◌, ◌+◌, ◌*◌, ◌/◌, ◌<◌, ◌≤◌, true, false, length};
ghost use Rattle.word.specs.Word.{u32_at, store};
ghost use Rattle.kinds.specs.Kind.{crate_rule};
ghost use Rattle.line_record.specs.Record.{column_if, max_offset};
ghost use Rattle.line_state_words.specs.LineWords.{record_size, record_words};
ghost use Rattle.body_lines.specs.BodyLines.{held_record, LinesFit, LinePut, LinesPut, HeldPut, FirstLine, count_markers, BlockPut, BodyPut};

use line_record::{LineRecord, closed, is_marker, record_of};
use line_state_words::{RECORD_WORDS, put_row};
use line_step::{Place, next_block, past_lines, source_of};
use lines::has_columns;
use refusal::LONGEST;
use word::u32_at;

// The two words of a line. They are read as a part of their own, of a length that is known.
#[derive(Clone, Copy)]
struct Line {
    offset: u32,
    flags: u32,
}

#[tactic(auto, using(crate::specs::BodyLinesLaws::part_word))]
fn line_at(area: &[u8], at: usize) -> Line
    requires { at + 8 ≤ length area.now }
    ensures { (result.offset ≡ u32_at area.now at) × (result.flags ≡ u32_at area.now (at + 4)) }
{
    let words = &area[at..at + 8];
    let offset = u32_at(words, 0);
    let flags = u32_at(words, 4);
    Line { offset, flags }
}

// The column word of a line, if there are columns.
#[tactic(auto, using(crate::specs::BodyLinesLaws::part_word, crate::specs::BodyLinesLaws::no_columns_lem))]
fn column_at(area: &[u8], columns: bool, at: usize) -> u32
    requires { at + 4 ≤ length area.now }
    ensures { column_if columns result ≡ column_if columns (u32_at area.now at) }
{
    if columns {
        return u32_at(&area[at..at + 4], 0);
    }
    0
}

// The record of an entry whose sum and words these are.
fn record_in(p: Place, offset: u32, flags: u32, word: u32) -> LineRecord
    ensures { result ≡ held_record p offset flags word }
{
    record_of(source_of(p), offset, flags, word)
}

// How far the lines of a block have come: the records that are put, the lines that are done, and of the held record its offset and words.
#[derive(Clone, Copy)]
pub struct LineHeld {
    pub n: usize,
    pub done: usize,
    pub offset: u32,
    pub flags: u32,
    pub word: u32,
}

// A record whose words have room. They are put as a part of their own, of a length that is known.
#[tactic(auto, using(answer_words::specs::PiecesLaws::put_part, line_state_words::specs::LineWordsLaws::record_length))]
fn put_words(out: &mut [u32], at: usize, r: LineRecord)
    requires { at + record_size ≤ length out.old }
    ensures { out.new ≡ store out.old at (record_words r) }
{
    put_row(&mut out[at..at + RECORD_WORDS], 0, r);
}

// A line that gives a record: the held one is put, closed by it, and the line's own is held. A line that lies before the held one closes nothing; that is
// told apart here, where the held one is known to have no length, since a walk takes 4 % fewer instructions so (docs/SPEED.md, 62).
#[tactic(auto, using(crate::specs::BodyLinesLaws::columns_as, crate::specs::BodyLinesLaws::put_before, crate::specs::BodyLinesLaws::put_closed))]
fn put_line(area: &[u8], p: Place, x: LineHeld, e: Line, out: &mut [u32]) -> LineHeld
    requires lines_fit { LinesFit area.now p }
    requires done_lt_lines { (x.done < p.lines) × (record_size * x.n + record_size ≤ length out.old) × (p.head.offset + e.offset ≤ max_offset) }
    ensures { LinePut area.now p x e.offset e.flags out.old result out.new }
{
    let at = RECORD_WORDS * x.n;
    let n = x.n + 1;
    let done = x.done + 1;
    let h = p.head;
    let end = h.offset + e.offset;
    let word = column_at(area, has_columns(h.flags), p.column + 4 * x.done);
    let r = record_in(p, x.offset, x.flags, x.word);
    if end < x.offset {
        put_words(out, at, r);
    } else {
        put_words(out, at, closed(r, h.section, end));
    }
    LineHeld {
        n,
        done,
        offset: end,
        flags: e.flags,
        word,
    }
}

// The lines of a block from `first` on, until there are no more, or no room for another record, or one that is refused.
fn put_lines(area: &[u8], p: Place, first: LineHeld, room: usize, out: &mut [u32]) -> LineHeld
    requires lines_fit { LinesFit area.now p }
    requires n_le_room { (first.n ≤ room) × (first.done ≤ p.lines) × (record_size * room ≤ length out.old) }
    ensures { LinesPut crate_rule area.now p room first out.old result out.new }
{
    let h = p.head;
    let mut x = first;
    while x.done < p.lines {
        if x.n == room {
            return x;
        }
        let e = line_at(area, p.line + 8 * x.done);
        if is_marker(e.flags) {
            x.done += 1;
        } else {
            if LineRecord::MAX_OFFSET - h.offset < e.offset {
                return x;
            }
            x = put_line(area, p, x, e, out);
        }
    }
    x
}

// Puts the record that is held, if there is one, as an end closes it; how many records there are then.
fn put_held(out: &mut [u32], n: usize, held: Option<LineRecord>, section: u16, end: u32) -> usize
    requires { record_size * n + record_size ≤ length out.old }
    ensures { HeldPut held section end n out.old result out.new }
{
    match held {
        None => n,
        Some(q) => {
            let more = n + 1;
            put_words(out, RECORD_WORDS * n, closed(q, section, end));
            more
        }
    }
}

// How far the walk has come in a body. `stuck`: there is no room for another record, or it stands before a turn that is left to others.
#[derive(Clone, Copy)]
pub struct InBody {
    pub n: usize,
    pub place: Place,
    pub held: Option<LineRecord>,
    pub stuck: bool,
}

// The same behind a line that gives a record.
fn first_line(
    area: &[u8],
    p: Place,
    held: Option<LineRecord>,
    n: usize,
    e: Line,
    room: usize,
    out: &mut [u32],
) -> InBody
    requires lines_fit { LinesFit area.now p }
    requires le_lines { (1 ≤ p.lines) × (n < room) × (record_size * room ≤ length out.old) }
    requires first_line { FirstLine area.now p e.offset e.flags }
    ensures block_put { BlockPut crate_rule area.now room p held n out.old result out.new }
    ensures n_lt_room { result.stuck ≡ false → (result.n < room) × (result.place.lines < p.lines) }
{
    let h = p.head;
    let offset = h.offset + e.offset;
    let word = column_at(area, has_columns(h.flags), p.column);
    let m = put_held(out, n, held, h.section, offset);
    let first = LineHeld {
        n: m,
        done: 1,
        offset,
        flags: e.flags,
        word,
    };
    let x = put_lines(area, p, first, room, out);
    let place = past_lines(p, x.done);
    let r = record_in(p, x.offset, x.flags, x.word);
    InBody {
        n: x.n,
        place,
        held: Some(r),
        stuck: x.n == room,
    }
}

// How many lines from a place on are markers, one behind the other. They are passed at once, which takes fewer instructions than by a turn each
// (docs/SPEED.md, 38).
fn count_markers(area: &[u8], p: Place) -> usize
    requires { LinesFit area.now p }
    ensures { result ≡ count_markers area.now p.line p.lines }
{
    for i in 0..p.lines {
        let e = line_at(area, p.line + 8 * i);
        if !is_marker(e.flags) {
            return i;
        }
    }
    p.lines
}

// The lines of a block, of which there is one at least.
#[tactic(auto, using(crate::specs::BodyLinesLaws::block_put_same, crate::specs::BodyLinesLaws::not_false))]
fn block_lines(
    area: &[u8],
    p: Place,
    held: Option<LineRecord>,
    n: usize,
    room: usize,
    out: &mut [u32],
) -> InBody
    requires lines_fit { LinesFit area.now p }
    requires le_lines { (1 ≤ p.lines) × (n < room) × (record_size * room ≤ length out.old) }
    ensures block_put { BlockPut crate_rule area.now room p held n out.old result out.new }
    ensures n_lt_room { result.stuck ≡ false → (result.n < room) × (result.place.lines < p.lines) }
{
    let h = p.head;
    let e = line_at(area, p.line);
    if is_marker(e.flags) {
        let passed = count_markers(area, p);
        let place = past_lines(p, passed);
        return InBody {
            n,
            place,
            held,
            stuck: false,
        };
    }
    if LineRecord::MAX_OFFSET - h.offset < e.offset {
        return InBody {
            n,
            place: p,
            held,
            stuck: true,
        };
    }
    first_line(area, p, held, n, e, room, out)
}

// Do the lines of the place, and their columns, lie in its body, does that start no later than it ends, and lie in an area that is not too long?
fn fits(area: &[u8], p: Place) -> bool
    ensures { result ≡ true → LinesFit area.now p }
{
    let end = p.end;
    let lines = p.lines;
    if LONGEST < area.len() {
        return false;
    }
    if area.len() < end {
        return false;
    }
    if end < p.body {
        return false;
    }
    if end < p.line {
        return false;
    }
    if (end - p.line) / 8 < lines {
        return false;
    }
    if end < p.column {
        return false;
    }
    lines <= (end - p.column) / 4
}

// The blocks of a body from a place on, and their lines, until the body is used up or the walk is stuck.
fn blocks(area: &[u8], first: InBody, room: usize, out: &mut [u32]) -> InBody
    requires lines_fit { LinesFit area.now first.place }
    requires n_lt_room { (first.n < room) × (record_size * room ≤ length out.old) }
    ensures { BodyPut crate_rule area.now room first.place first.held first.n out.old result out.new }
{
    let mut x = first;
    loop {
        let n = x.n;
        let p = x.place;
        let held = x.held;
        if p.lines == 0 {
            let end = p.end;
            match next_block(&area[..end], p) {
                Ok(Some(q)) => {
                    x.place = q;
                }
                Ok(None) => {
                    x.stuck = false;
                    return x;
                }
                Err(_) => {
                    x.stuck = true;
                    return x;
                }
            }
        } else {
            x = block_lines(area, p, held, n, room, out);
            if x.stuck {
                return x;
            }
        }
    }
}

// The lines of a body from a place on, as many as there is room for. Where anything is unusual the walk stands before it.
pub fn body_lines(
    area: &[u8],
    place: Place,
    held: Option<LineRecord>,
    n: usize,
    out: &mut [u32],
) -> InBody
    ensures { BodyPut crate_rule area.now (length out.old / record_size) place held n out.old result out.new }
{
    let room = out.len() / RECORD_WORDS;
    let x = InBody {
        n,
        place,
        held,
        stuck: true,
    };
    if room <= n {
        return x;
    }
    if !fits(area, place) {
        return x;
    }
    blocks(area, x, room, out)
}
