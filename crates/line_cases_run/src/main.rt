// Line walks, the lines of symbols and sheets, run: reads a fixed list of flags words and of cases from standard input and writes what the library answers
// for each. What is written is compared with the file stdout. Its answers were computed from documents 01 and 02 by two other programs, which share no code
// with this library and are not kept here: no line of it is this program's own.
//
// The flags words and the first cases are those of [1] and [3] of document 02, by all three readings of an end line and without positions; behind them
// stand those of [9], which count from 1 again, with the position of the body that each line is from. A call whose positions are written has an @ behind its
// word. A sheet always has them.
//
// The list: the number of flags words u32, and the words, u32 each. Then the cases, up to the list's end: a letter u8 (h: hand-chosen, g: generated) and a
// number u16, its name; the length of an area u16; the number of calls u8; the area; the calls. A call is its number u8, as below; the reading of end lines
// u8; whether positions are written u8; and two words u32: of a symbol the section and the offset, of a walk over given slots these. A flags word that is
// not there counts as 0; a case that is cut is not answered, nor what is behind it.
//
// The text: a line for each flags word, in their order. Then for each call a line that names it and its case, the records, and `end` or the refusal; or
// the sheet.
#![tactic(auto)]

use line_record::{EndLines, LineKind, LineRecord, end_line, is_marker, kind, start_line};
use line_step::LineWalk;
use line_walk::next_line;
use order::order_list;
use refusal::Refusal;
use std::io;
use std::io::Read;
use symbol_lines::lines_for_symbol;
use word::{u8_at, u16_at, u32_at};

// The calls: the lines of an area, by its order list, by no slots, by one slot and by two; the lines of a symbol; any other number is the sheet.
const LINES: u8 = 0;

const NO_SLOTS: u8 = 1;

const ONE_SLOT: u8 = 2;

const TWO_SLOTS: u8 = 3;

const SYMBOL: u8 = 4;

// No list is longer: what is behind so many bytes is not read.
const LIST: u64 = 131072;

// The bytes of a case before its area, and of a call.
const CASE_HEAD: usize = 6;

const CALL: usize = 11;

#[derive(Clone, Copy)]
struct Case {
    letter: u8,
    number: u16,
}

#[derive(Clone, Copy)]
struct Call {
    what: u8,
    how: EndLines,
    positions: bool,
    section: u16,
    first: u32,
    second: u32,
}

// ---- pieces of the text

fn say(rt: &impl Print, text: &[u8]) -> io::Result<()> {
    rt.write_all(text)
}

fn decimal(rt: &impl Print, n: u64) -> io::Result<()> {
    print!(rt; "{n}")
}

fn spaced(rt: &impl Print, n: u64) -> io::Result<()> {
    say(rt, b" ")?;
    decimal(rt, n)
}

fn hex(rt: &impl Print, n: u64, width: usize) -> io::Result<()> {
    print!(rt; "0x{n:0width$x}")
}

fn place(rt: &impl Print, section: u16, offset: u32) -> io::Result<()> {
    decimal(rt, section as u64)?;
    say(rt, b":")?;
    hex(rt, offset as u64, 1)
}

// A length or a column, if there is one.
fn if_any(rt: &impl Print, n: Option<u32>) -> io::Result<()> {
    match n {
        Some(n) => spaced(rt, n as u64),
        None => say(rt, b" -"),
    }
}

fn kind_text(rt: &impl Print, k: LineKind) -> io::Result<()> {
    match k {
        LineKind::Statement => say(rt, b" st"),
        LineKind::Expression => say(rt, b" ex"),
    }
}

// Where it is asked for, the position of the body stands behind the kind.
fn record(rt: &impl Print, r: LineRecord, positions: bool) -> io::Result<()> {
    say(rt, b"line ")?;
    place(rt, r.section, r.offset)?;
    if_any(rt, r.length)?;
    spaced(rt, r.file as u64)?;
    spaced(rt, r.start_line as u64)?;
    spaced(rt, r.end_line as u64)?;
    if_any(rt, r.column_start)?;
    if_any(rt, r.column_end)?;
    kind_text(rt, r.kind)?;
    if positions {
        say(rt, b" @")?;
        decimal(rt, r.body as u64)?;
    }
    say(rt, b"\n")
}

// A refusal: its number and, if it is that of an unknown kind, the kind. No other refusal of these calls carries anything.
fn refused(rt: &impl Print, why: Refusal) -> io::Result<()> {
    say(rt, b"refused")?;
    spaced(rt, refusal::number(why))?;
    if let Refusal::UnknownKind(n) = why {
        say(rt, b" carries ")?;
        hex(rt, n as u64, 1)?;
    }
    say(rt, b"\n")
}

// ---- flags words

fn flags_line(rt: &impl Print, flags: u32) -> io::Result<()> {
    say(rt, b"flags ")?;
    hex(rt, flags as u64, 8)?;
    if is_marker(flags) {
        say(rt, b" = marker start")?;
    } else {
        say(rt, b" = line start")?;
    }
    spaced(rt, start_line(flags) as u64)?;
    kind_text(rt, kind(flags))?;
    say(rt, b" crate")?;
    spaced(rt, end_line(EndLines::Crate, flags) as u64)?;
    say(rt, b" low")?;
    spaced(rt, end_line(EndLines::LowBits, flags) as u64)?;
    say(rt, b" delta")?;
    spaced(rt, end_line(EndLines::Delta, flags) as u64)?;
    say(rt, b"\n")
}

fn flags_lines(rt: &impl Print, list: &[u8], count: u32) -> io::Result<()> {
    for i in 0..count {
        flags_line(rt, u32_at(list, 4 + 4 * (i as usize)))?;
    }
    Ok(())
}

// ---- cases

fn slots_text(rt: &impl Print, call: Call) -> io::Result<()> {
    match call.what {
        NO_SLOTS => say(rt, b" slots=-"),
        ONE_SLOT => {
            say(rt, b" slots=")?;
            decimal(rt, call.first as u64)
        }
        TWO_SLOTS => {
            say(rt, b" slots=")?;
            decimal(rt, call.first as u64)?;
            say(rt, b",")?;
            decimal(rt, call.second as u64)
        }
        _ => Ok(()),
    }
}

fn at_text(rt: &impl Print, positions: bool) -> io::Result<()> {
    if positions {
        say(rt, b"@")?;
    }
    Ok(())
}

fn call_text(rt: &impl Print, call: Call) -> io::Result<()> {
    match call.what {
        LINES | NO_SLOTS | ONE_SLOT | TWO_SLOTS => {
            say(rt, b" lines")?;
            at_text(rt, call.positions)?;
            slots_text(rt, call)
        }
        SYMBOL => {
            say(rt, b" symbol")?;
            at_text(rt, call.positions)?;
            say(rt, b" at=")?;
            place(rt, call.section, call.second)
        }
        _ => {
            say(rt, b" dump")?;
            at_text(rt, call.positions)
        }
    }
}

fn reading_text(rt: &impl Print, how: EndLines) -> io::Result<()> {
    match how {
        EndLines::Crate => say(rt, b" end=crate"),
        EndLines::LowBits => say(rt, b" end=low"),
        EndLines::Delta => say(rt, b" end=delta"),
    }
}

// The line that names a case and a call. A sheet has one reading of end lines, which is not named.
fn case_line(rt: &impl Print, case: Case, call: Call) -> io::Result<()> {
    say(rt, b"case ")?;
    say(rt, &[case.letter])?;
    decimal(rt, case.number as u64)?;
    call_text(rt, call)?;
    if call.what <= SYMBOL {
        reading_text(rt, call.how)?;
    }
    say(rt, b"\n")
}

// A line for each step. A proved loop has to end, so it has a number of turns that no run uses up.
fn walk_lines(
    rt: &impl Print,
    area: &[u8],
    slots: &[u32],
    first: LineWalk,
    positions: bool,
) -> io::Result<()> {
    let mut walk = first;
    for _ in 0..u64::MAX {
        match next_line(area, slots, walk) {
            Ok(Some((r, next))) => {
                record(rt, r, positions)?;
                walk = next;
            }
            Ok(None) => {
                return say(rt, b"end\n");
            }
            Err(why) => {
                return refused(rt, why);
            }
        }
    }
    Ok(())
}

fn symbol(rt: &impl Print, area: &[u8], slots: &[u32], call: Call) -> io::Result<()> {
    match lines_for_symbol(area, slots, &[], call.section, call.second, call.how) {
        Ok(walk) => walk_lines(rt, area, slots, walk, call.positions),
        Err(why) => refused(rt, why),
    }
}

// No case has as many line subsections as there are slots here. Where the order list is refused the slots stay 0, and the walk is refused alike.
fn answer(rt: &impl Print, area: &[u8], call: Call) -> io::Result<()> {
    let first = LineWalk::New(call.how);
    let positions = call.positions;
    let mut slots = [0u32; 32];
    let _ = order_list(area, &mut slots);
    match call.what {
        LINES => walk_lines(rt, area, &slots, first, positions),
        NO_SLOTS => walk_lines(rt, area, &[], first, positions),
        ONE_SLOT => walk_lines(rt, area, &[call.first], first, positions),
        TWO_SLOTS => walk_lines(rt, area, &[call.first, call.second], first, positions),
        SYMBOL => symbol(rt, area, &slots, call),
        _ => { dump::print(rt, area).written }
    }
}

fn reading_of(n: u8) -> EndLines {
    match n {
        0 => EndLines::Crate,
        1 => EndLines::LowBits,
        _ => EndLines::Delta,
    }
}

// The call that stands at the start of these bytes. Of the first word a section is the low half.
fn call_of(call: &[u8]) -> Call {
    Call {
        what: u8_at(call, 0),
        how: reading_of(u8_at(call, 1)),
        positions: u8_at(call, 2) != 0,
        section: u16_at(call, 3),
        first: u32_at(call, 3),
        second: u32_at(call, 7),
    }
}

fn answer_each(rt: &impl Print, area: &[u8], calls: &[u8], case: Case) -> io::Result<()> {
    for bytes in calls.chunks_exact(CALL) {
        let call = call_of(bytes);
        case_line(rt, case, call)?;
        answer(rt, area, call)?;
    }
    Ok(())
}

fn answers(rt: &impl Print, list: &[u8]) -> io::Result<()> {
    let mut left = list;
    while let Some((head, behind)) = left.split_first_chunk::<CASE_HEAD>() {
        let Some((area, behind)) = behind.split_at_checked(u16_at(head, 3) as usize) else {
            return Ok(());
        };
        let Some((calls, next)) = behind.split_at_checked(CALL * (u8_at(head, 5) as usize)) else {
            return Ok(());
        };
        let case = Case {
            letter: u8_at(head, 0),
            number: u16_at(head, 1),
        };
        answer_each(rt, area, calls, case)?;
        left = next;
    }
    Ok(())
}

// All of the list behind the flags words.
fn behind_flags(list: &[u8], count: u32) -> &[u8] {
    list.get(4 + 4 * (count as usize)..).unwrap_or(&[])
}

fn main(rt: HostRuntime) -> io::Result<()> {
    let mut list = Vec::new(rt.alloc());
    rt.reader().take(LIST).read_to_end(&mut list)?;
    let count = u32_at(&list, 0);
    flags_lines(&rt, &list, count)?;
    answers(&rt, behind_flags(&list, count))
}
