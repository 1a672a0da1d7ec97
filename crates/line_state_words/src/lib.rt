// A line record and a state of the line walk in words, for programs in other languages, and back.
#![tactic(auto)]

ghost use Rattle.std.specs.Prelude.{◌≡◌, [], ◌∷◌, ◌++◌, ◌≤◌, length, get_or};
ghost use Rattle.word.specs.Word.{put, store};
ghost use Rattle.answer_words.specs.Given.{given, Gives};
ghost use Rattle.line_record.specs.Told.{told_length, told_column, told_line_kind};
ghost use Rattle.line_state_words.specs.LineWords.{held_at, rest_size, state_size, how_word, how_named};
ghost use Rattle.line_state_words.specs.LineWords.{u16_of, u32_of, length_of, column_of, kind_in, record_in, held_in, rest_in, head_in, place_in, walk_by, line_walk_in};
ghost use Rattle.line_state_words.specs.LineWords.{option_words, record_words};
ghost use Rattle.line_state_words.specs.LineWords.{held_words, rest_words, place_words, part_words, walk_how, line_walk_words};
ghost use Rattle.line_state_words.specs.Told.{told_how, told_walk_in};

use answer_words::{GIVEN, TOO_SHORT, state_word};
use line_record::{EndLines, LineKind, LineRecord};
use line_step::{LineWalk, Place, Rest};
use lines::LineHeader;

// The words of a line record.
pub const RECORD_WORDS: usize = 13;

// Where in a state it says whether a record is held back, and where behind that word the record stands.
const HELD_AT: usize = 4;

const HELD_RECORD: usize = HELD_AT + 1;

// The words of a state without its place, and behind them those of the place.
const REST_WORDS: usize = HELD_RECORD + RECORD_WORDS;

const PLACE_WORDS: usize = 11;

// Where behind these it says how end lines are read.
const HOW_AT: usize = REST_WORDS + PLACE_WORDS;

// The words of a state.
pub const STATE_WORDS: usize = HOW_AT + 1;

// ---- a reading of end lines

fn how_word(how: EndLines) -> u64
    ensures { how_word how ≡ result }
{
    match how {
        EndLines::Crate => 0,
        EndLines::LowBits => 1,
        EndLines::Delta => 2,
    }
}

// The reading that a number names. Any other number is no choice, and never taken for one.
pub fn how_named(n: u64) -> Option<EndLines>
    ensures { told_how result ≡ how_named n }
{
    if n == 0 {
        return Some(EndLines::Crate);
    }
    if n == 1 {
        return Some(EndLines::LowBits);
    }
    if n == 2 {
        return Some(EndLines::Delta);
    }
    None
}

// ---- read back

fn word16(out: &[u64], i: usize) -> u16
    ensures { result ≡ u16_of (get_or out.now i 0) }
{
    (state_word(out, i) % 0x1_0000) as u16
}

fn word32(out: &[u64], i: usize) -> u32
    ensures { result ≡ u32_of (get_or out.now i 0) }
{
    (state_word(out, i) % 0x1_0000_0000) as u32
}

// A length or a column: a tag, and the number where the tag is not 0.
fn number_of(tag: u64, n: u64) -> Option<u32>
    ensures { result ≡ length_of tag n }
{
    if tag == 0 {
        None
    } else {
        Some((n % 0x1_0000_0000) as u32)
    }
}

fn kind_of(tag: u64) -> LineKind
    ensures { result ≡ kind_in tag }
{
    if tag == 0 {
        LineKind::Expression
    } else {
        LineKind::Statement
    }
}

fn record_in(out: &[u64]) -> LineRecord
    ensures { result ≡ record_in out.now }
{
    let length = number_of(state_word(out, 7), state_word(out, 8));
    let column_start = number_of(state_word(out, 12), state_word(out, 13));
    let column_end = number_of(state_word(out, 14), state_word(out, 15));
    let kind = kind_of(state_word(out, 16));
    LineRecord {
        section: word16(out, 5),
        offset: word32(out, 6),
        length,
        file: word32(out, 9),
        start_line: word32(out, 10),
        end_line: word32(out, 11),
        column_start,
        column_end,
        kind,
        body: word32(out, 17),
    }
}

fn held_in(out: &[u64]) -> Option<LineRecord>
    ensures { result ≡ held_in out.now }
{
    if state_word(out, HELD_AT) == 0 {
        return None;
    }
    Some(record_in(out))
}

fn rest_in(out: &[u64]) -> Rest
    ensures { result ≡ rest_in out.now }
{
    let held = held_in(out);
    Rest {
        slot: state_word(out, 1) as usize,
        left: state_word(out, 2) as usize,
        scan: state_word(out, 3) as usize,
        held,
    }
}

fn head_in(out: &[u64]) -> LineHeader
    ensures { result ≡ head_in out.now }
{
    LineHeader {
        offset: word32(out, 18),
        section: word16(out, 19),
        flags: word16(out, 20),
        code: word32(out, 21),
    }
}

fn place_in(how: EndLines, out: &[u64]) -> Place
    ensures { result ≡ place_in how out.now }
{
    let head = head_in(out);
    Place {
        head,
        how,
        body: state_word(out, 22) as usize,
        end: state_word(out, 23) as usize,
        next: state_word(out, 24) as usize,
        file: word32(out, 25),
        lines: state_word(out, 26) as usize,
        line: state_word(out, 27) as usize,
        column: state_word(out, 28) as usize,
    }
}

fn walk_by(how: EndLines, out: &[u64]) -> LineWalk
    ensures { result ≡ walk_by how out.now }
{
    let tag = state_word(out, 0);
    if tag == 0 {
        return LineWalk::New(how);
    }
    let rest = rest_in(out);
    if tag == 1 {
        return LineWalk::Between(how, rest);
    }
    LineWalk::Inside(place_in(how, out), rest)
}

// The state of a line walk that the first `STATE_WORDS` words say, if its word for it names a reading of end lines.
pub fn line_walk_in(out: &[u64]) -> Option<LineWalk>
    ensures { told_walk_in result ≡ line_walk_in out.now }
{
    let how = how_named(state_word(out, HOW_AT))?;
    Some(walk_by(how, out))
}

// ---- put

// A length or a column as two words.
fn number_words(l: Option<u32>) -> (u32, u32)
    ensures { option_words (told_length l) ≡ result.0 ∷ result.1 ∷ [] }
{
    match l {
        None => (0, 0),
        Some(n) => (1, n),
    }
}

fn kind_word(k: LineKind) -> u32
    ensures { told_line_kind k ≡ result }
{
    match k {
        LineKind::Expression => 0,
        LineKind::Statement => 1,
    }
}

// The words of a record.
fn words_of(r: LineRecord) -> [u32; RECORD_WORDS]
    ensures { result ≡ record_words r }
{
    let l = number_words(r.length);
    let s = number_words(r.column_start);
    let e = number_words(r.column_end);
    let k = kind_word(r.kind);
    [
        r.section as u32,
        r.offset,
        l.0,
        l.1,
        r.file,
        r.start_line,
        r.end_line,
        s.0,
        s.1,
        e.0,
        e.1,
        k,
        r.body,
    ]
}

// A record at a place, in words of 64 bits, as a state has it. Where its words do not fit nothing is put.
fn put_record(out: &mut [u64], at: usize, r: LineRecord)
    ensures { out.new ≡ store out.old at (record_words r) }
{
    answer_words::put_wide(out, at, &words_of(r));
}

// The same in words of 32 bits, as a call for many records gives it.
pub fn put_row(records: &mut [u32], at: usize, r: LineRecord)
    ensures { records.new ≡ store records.old at (record_words r) }
{
    answer_words::put32(records, at, &words_of(r));
}

fn put_held(out: &mut [u64], h: Option<LineRecord>)
    requires { state_size ≤ length out.old }
    ensures { out.new ≡ put out.old held_at (held_words h) }
{
    match h {
        None => {
            answer_words::put(out, HELD_AT, &[0; 1 + RECORD_WORDS], GIVEN);
        }
        Some(r) => {
            answer_words::put(out, HELD_AT, &[1], GIVEN);
            put_record(out, HELD_RECORD, r);
        }
    }
}

fn put_rest(out: &mut [u64], tag: u64, t: Rest)
    requires { state_size ≤ length out.old }
    ensures { out.new ≡ put out.old 0 (tag ∷ rest_words t) }
{
    answer_words::put(
        out,
        0,
        &[tag, t.slot as u64, t.left as u64, t.scan as u64],
        GIVEN,
    );
    let held = t.held;
    put_held(out, held);
}

fn put_place(out: &mut [u64], p: Place)
    requires { state_size ≤ length out.old }
    ensures { out.new ≡ put out.old rest_size (place_words p) }
{
    let head = p.head;
    answer_words::put(
        out,
        REST_WORDS,
        &[
            head.offset as u64,
            head.section as u64,
            head.flags as u64,
            head.code as u64,
            p.body as u64,
            p.end as u64,
            p.next as u64,
            p.file as u64,
            p.lines as u64,
            p.line as u64,
            p.column as u64,
        ],
        GIVEN,
    );
}

// The words of a state but that for the reading of end lines.
fn put_parts(out: &mut [u64], w: LineWalk)
    requires { state_size ≤ length out.old }
    ensures { out.new ≡ put out.old 0 (part_words w) }
{
    match w {
        LineWalk::New(_) => {
            answer_words::put(out, 0, &[0; HOW_AT], GIVEN);
        }
        LineWalk::Between(_, t) => {
            put_rest(out, 1, t);
            answer_words::put(out, REST_WORDS, &[0; PLACE_WORDS], GIVEN);
        }
        LineWalk::Inside(p, t) => {
            put_rest(out, 2, t);
            put_place(out, p);
        }
    }
}

fn walk_how(w: LineWalk) -> EndLines
    ensures { result ≡ walk_how w }
{
    match w {
        LineWalk::New(how) => how,
        LineWalk::Between(how, _) => how,
        LineWalk::Inside(p, _) => p.how,
    }
}

fn put_walk(out: &mut [u64], w: LineWalk)
    requires { state_size ≤ length out.old }
    ensures { out.new ≡ put out.old 0 (line_walk_words w) }
{
    let how = walk_how(w);
    put_parts(out, w);
    answer_words::put(out, HOW_AT, &[how_word(how)], GIVEN);
}

// A state of the line walk.
pub fn put_line_walk(out: &mut [u64], w: LineWalk) -> u32
    ensures { Gives out.old (given 1 0 (line_walk_words w)) result out.new }
{
    if out.len() < STATE_WORDS {
        return TOO_SHORT;
    }
    put_walk(out, w);
    GIVEN
}

// A step of the line walk: the next state, and behind it the words of the record.
pub fn put_line(out: &mut [u64], w: LineWalk, row: &[u32]) -> u32
    ensures { Gives out.old (given 1 0 (line_walk_words w ++ row.now)) result out.new }
{
    if out.len() < STATE_WORDS {
        return TOO_SHORT;
    }
    if out.len() - STATE_WORDS < row.len() {
        return TOO_SHORT;
    }
    put_walk(out, w);
    answer_words::put_wide(out, STATE_WORDS, row);
    GIVEN
}
