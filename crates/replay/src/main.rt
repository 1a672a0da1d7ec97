// Cases with the crate's answers, replayed: reads a fixed list of cases from standard input and writes the answer of every call that it names. What
// is written is compared with the file stdout, which compare/fix made of the answers of the crate pdb 0.8.0 (compare/README.md).
//
// The list: the number of cases, u32. Each case: the number of calls u8, the length of a stream u16, a module's sizes in it u32 (symbols, C11, C13),
// the stream, the calls. An area is the module of the sizes 0, 0 and its length, as it is to the crate; a string table has no sizes. A call is
// its number u8, as below, and from INFO on a word u32 and a section u16, which only SYM reads.
#![tactic(auto)]

use answer_words::{put_refusal, state_word};
use area::sub_at;
use checksums::{Entry, number as kind_number};
use exports::{CrossModuleExport, export_count, next_export, resolve_export};
use files::{checksum_bytes, file_at, next_file};
use imports::{next_import, resolve_import};
use inlinees::next_inlinee;
use line_record::{EndLines, LineKind, LineRecord};
use line_step::LineWalk;
use line_walk::next_line;
use modi::{ModuleSizes, lines_part, module_symbols, tables_part};
use order::order_list;
use refusal::Refusal;
use std::io;
use std::io::Read;
use strings::{name_at, name_bytes, string_table};
use symbol_lines::lines_for_symbol;
use table::{TableWalk, word_in};
use word::{u8_at, u16_at, u32_at};

// The calls, numbered as their terms are in `term`: subsections, order list, files, lines, inlinees, imports, imports of which only the refusal is
// shown, exports, the number of exports, whether a module's symbols can be read, whether it has an order list, whether a string table can be read;
// the file at an index, the lines of a symbol, a reference, an export, the name at an offset.
const SUB: u8 = 0;

const ORDER: u8 = 1;

const FILE: u8 = 2;

const LINE: u8 = 3;

const INLINEE: u8 = 4;

const IMPORT: u8 = 5;

const IMPORT_REFUSED: u8 = 6;

const EXPORT: u8 = 7;

const EXPORTS: u8 = 8;

const SYMBOLS: u8 = 9;

const PROGRAM: u8 = 10;

const TABLE: u8 = 11;

const INFO: u8 = 12;

const SYM: u8 = 13;

const RESOLVE: u8 = 14;

const LOOKUP: u8 = 15;

// Other terms of the text. Those of the kinds of checksums are in the order of their numbers, from NONE on.
const NONE: u8 = 17;

const TYPE: u8 = 21;

const ID: u8 = 22;

const EXPRESSION: u8 = 23;

const STATEMENT: u8 = 24;

const YES: u8 = 25;

const END: u8 = 26;

const ERROR: u8 = 27;

const CASE: u8 = 28;

const READ: u8 = 29;

// No list is longer: what is behind so many bytes is not read.
const LIST: u64 = 131072;

#[derive(Clone, Copy)]
struct Call {
    number: u8,
    word: u32,
    section: u16,
}

// ---- pieces of the text

fn say(rt: &impl Print, text: &[u8]) -> io::Result<()> {
    rt.write_all(text)
}

fn put(rt: &impl Print, b: u8) -> io::Result<()> {
    say(rt, &[b])
}

fn hex(rt: &impl Print, n: u64) -> io::Result<()> {
    print!(rt; "{n:x}")
}

fn spaced(rt: &impl Print, n: u64) -> io::Result<()> {
    print!(rt; " {n}")
}

fn spaced_hex(rt: &impl Print, n: u64) -> io::Result<()> {
    put(rt, b' ')?;
    hex(rt, n)
}

fn dash(rt: &impl Print) -> io::Result<()> {
    put(rt, b' ')?;
    put(rt, b'-')
}

// A part of a slice; the empty one where it does not lie there.
fn part(all: &[u8], start: usize, len: usize) -> &[u8] {
    let behind = all.get(start..).unwrap_or(&[]);
    behind.get(..len).unwrap_or(&[])
}

// A term: each has its length in front and takes eight bytes.
fn term(rt: &impl Print, number: u8) -> io::Result<()> {
    let terms: &[u8] =
        b"\x03sub....\x05order..\x04file...\x04line...\x07inlinee\x06import.\x06import.\x06export.\x07exports\x07symbols\x07program\x05table..\x04info...\x03sym....\x07resolve\x06lookup.\x04name...\x04none...\x03md5....\x04sha1...\x06sha256.\x04type...\x02id.....\x02ex.....\x02st.....\x03yes....\x03end....\x05error..\x04case...\x04read...";
    let at = 8 * (number as usize);
    say(rt, part(terms, at + 1, u8_at(terms, at) as usize))
}

fn spaced_term(rt: &impl Print, number: u8) -> io::Result<()> {
    put(rt, b' ')?;
    term(rt, number)
}

// The last line of a walk.
fn over(rt: &impl Print) -> io::Result<()> {
    spaced_term(rt, END)?;
    put(rt, b'\n')
}

fn place(rt: &impl Print, section: u16, offset: u32) -> io::Result<()> {
    spaced(rt, section as u64)?;
    put(rt, b':')?;
    hex(rt, offset as u64)
}

fn byte(rt: &impl Print, b: u8) -> io::Result<()> {
    print!(rt; "{b:02x}")
}

fn bytes_text(rt: &impl Print, bytes: &[u8]) -> io::Result<()> {
    if bytes.len() == 0 {
        return dash(rt);
    }
    put(rt, b' ')?;
    for b in bytes {
        byte(rt, *b)?;
    }
    Ok(())
}

// A refusal: its number, and what it carries or 0.
fn refused(rt: &impl Print, why: Refusal) -> io::Result<()> {
    let mut words = [0u64; 2];
    put_refusal(&mut words, 0, why);
    spaced_term(rt, ERROR)?;
    spaced(rt, state_word(&words, 0))?;
    spaced_hex(rt, state_word(&words, 1))
}

// A length or a column, if there is one.
fn if_any(rt: &impl Print, n: Option<u32>) -> io::Result<()> {
    match n {
        Some(n) => spaced(rt, n as u64),
        None => dash(rt),
    }
}

fn line_kind(rt: &impl Print, k: LineKind) -> io::Result<()> {
    match k {
        LineKind::Statement => spaced_term(rt, STATEMENT),
        LineKind::Expression => spaced_term(rt, EXPRESSION),
    }
}

fn record(rt: &impl Print, r: LineRecord) -> io::Result<()> {
    place(rt, r.section, r.offset)?;
    if_any(rt, r.length)?;
    spaced(rt, r.file as u64)?;
    spaced(rt, r.start_line as u64)?;
    spaced(rt, r.end_line as u64)?;
    if_any(rt, r.column_start)?;
    if_any(rt, r.column_end)?;
    line_kind(rt, r.kind)?;
    put(rt, b'\n')
}

// A file's name and checksum.
fn entry_text(rt: &impl Print, area: &[u8], entry: Entry) -> io::Result<()> {
    spaced(rt, entry.name as u64)?;
    spaced_term(rt, NONE.wrapping_add(kind_number(entry.kind)))?;
    bytes_text(rt, checksum_bytes(area, entry.start, entry.len))
}

// What is asked, at the head of a line.
fn head(rt: &impl Print, call: Call) -> io::Result<()> {
    term(rt, call.number)?;
    match call.number {
        0..=11 => Ok(()),
        SYM => place(rt, call.section, call.word),
        RESOLVE | LOOKUP => spaced_hex(rt, call.word as u64),
        _ => spaced(rt, call.word as u64),
    }
}

// A call that is refused.
fn refused_line(rt: &impl Print, call: Call, why: Refusal) -> io::Result<()> {
    head(rt, call)?;
    refused(rt, why)?;
    put(rt, b'\n')
}

// ---- walks, a line for each step. A proved loop has to end, so it has a number of turns that no run uses up.

// A step over a table: if its line was written, the walk behind its record, or none where there is no record, or a refusal.
fn file_step(
    rt: &impl Print,
    area: &[u8],
    number: u8,
    walk: TableWalk,
) -> io::Result<Result<Option<TableWalk>, Refusal>> {
    match next_file(area, walk) {
        Ok(Some((file, next))) => {
            term(rt, number)?;
            spaced(rt, file.index as u64)?;
            entry_text(rt, area, file.entry)?;
            put(rt, b'\n')?;
            Ok(Ok(Some(next)))
        }
        Ok(None) => Ok(Ok(None)),
        Err(why) => Ok(Err(why)),
    }
}

fn word_text(
    rt: &impl Print,
    answer: Result<Option<u32>, Refusal>,
    in_hex: bool,
) -> io::Result<()> {
    match answer {
        Ok(Some(w)) => {
            if in_hex {
                hex(rt, w as u64)
            } else {
                print!(rt; "{w}")
            }
        }
        Ok(None) => dash(rt),
        Err(why) => refused(rt, why),
    }
}

// The words of a record, by their place and number.
fn words(rt: &impl Print, area: &[u8], at: usize, count: usize, in_hex: bool) -> io::Result<()> {
    if count == 0 {
        dash(rt)?;
    } else {
        put(rt, b' ')?;
    }
    for i in 0..count {
        if 0 < i {
            put(rt, b',')?;
        }
        word_text(rt, word_in(area, at, count, i), in_hex)?;
    }
    put(rt, b'\n')
}

fn inlinee_step(
    rt: &impl Print,
    area: &[u8],
    number: u8,
    walk: TableWalk,
) -> io::Result<Result<Option<TableWalk>, Refusal>> {
    match next_inlinee(area, walk) {
        Ok(Some((source, next))) => {
            term(rt, number)?;
            spaced(rt, source.inlinee as u64)?;
            spaced(rt, source.file as u64)?;
            spaced(rt, source.line as u64)?;
            words(rt, area, source.extra, source.count, false)?;
            Ok(Ok(Some(next)))
        }
        Ok(None) => Ok(Ok(None)),
        Err(why) => Ok(Err(why)),
    }
}

fn import_step(
    rt: &impl Print,
    area: &[u8],
    number: u8,
    walk: TableWalk,
) -> io::Result<Result<Option<TableWalk>, Refusal>> {
    match next_import(area, walk) {
        Ok(Some((module, next))) => {
            if number == IMPORT {
                term(rt, number)?;
                spaced(rt, module.name as u64)?;
                words(rt, area, module.words, module.count, true)?;
            }
            Ok(Ok(Some(next)))
        }
        Ok(None) => Ok(Ok(None)),
        Err(why) => Ok(Err(why)),
    }
}

fn export_line(rt: &impl Print, kind: u8, local: u32, global: u32) -> io::Result<()> {
    spaced_term(rt, kind)?;
    spaced_hex(rt, local as u64)?;
    spaced_hex(rt, global as u64)?;
    put(rt, b'\n')
}

fn export_text(rt: &impl Print, export: CrossModuleExport) -> io::Result<()> {
    match export {
        CrossModuleExport::Type { local, global } => export_line(rt, TYPE, local, global),
        CrossModuleExport::Id { local, global } => export_line(rt, ID, local, global),
    }
}

fn export_step(
    rt: &impl Print,
    area: &[u8],
    number: u8,
    walk: TableWalk,
) -> io::Result<Result<Option<TableWalk>, Refusal>> {
    match next_export(area, walk) {
        Ok(Some((export, next))) => {
            term(rt, number)?;
            export_text(rt, export)?;
            Ok(Ok(Some(next)))
        }
        Ok(None) => Ok(Ok(None)),
        Err(why) => Ok(Err(why)),
    }
}

fn table_step(
    rt: &impl Print,
    area: &[u8],
    number: u8,
    walk: TableWalk,
) -> io::Result<Result<Option<TableWalk>, Refusal>> {
    match number {
        FILE => file_step(rt, area, number, walk),
        INLINEE => inlinee_step(rt, area, number, walk),
        EXPORT => export_step(rt, area, number, walk),
        _ => import_step(rt, area, number, walk),
    }
}

fn table_walk(rt: &impl Print, area: &[u8], number: u8) -> io::Result<()> {
    let mut walk = TableWalk::New;
    for _ in 0..u64::MAX {
        match table_step(rt, area, number, walk)? {
            Ok(Some(next)) => {
                walk = next;
            }
            Ok(None) => {
                term(rt, number)?;
                return over(rt);
            }
            Err(why) => {
                term(rt, number)?;
                refused(rt, why)?;
                return put(rt, b'\n');
            }
        }
    }
    Ok(())
}

fn sub_walk(rt: &impl Print, area: &[u8]) -> io::Result<()> {
    let mut at: usize = 0;
    for _ in 0..u64::MAX {
        term(rt, SUB)?;
        match sub_at(area, at) {
            Ok(Some((sub, next))) => {
                spaced_hex(rt, sub.kind as u64)?;
                spaced(rt, sub.start as u64)?;
                spaced(rt, sub.len as u64)?;
                put(rt, b'\n')?;
                at = next;
            }
            Ok(None) => {
                return over(rt);
            }
            Err(why) => {
                refused(rt, why)?;
                return put(rt, b'\n');
            }
        }
    }
    Ok(())
}

fn line_walk(
    rt: &impl Print,
    area: &[u8],
    slots: &[u32],
    call: Call,
    first: LineWalk,
) -> io::Result<()> {
    let mut walk = first;
    for _ in 0..u64::MAX {
        head(rt, call)?;
        match next_line(area, slots, walk) {
            Ok(Some((r, next))) => {
                record(rt, r)?;
                walk = next;
            }
            Ok(None) => {
                return over(rt);
            }
            Err(why) => {
                refused(rt, why)?;
                return put(rt, b'\n');
            }
        }
    }
    Ok(())
}

// No case has as many line subsections as there are slots here.
fn lines(rt: &impl Print, area: &[u8], call: Call) -> io::Result<()> {
    let mut slots = [0u32; 256];
    let _ = order_list(area, &mut slots);
    if call.number == LINE {
        return line_walk(rt, area, &slots, call, LineWalk::New(EndLines::Crate));
    }
    match lines_for_symbol(area, &slots, &[], call.section, call.word, EndLines::Crate) {
        Ok(walk) => line_walk(rt, area, &slots, call, walk),
        Err(why) => refused_line(rt, call, why),
    }
}

// ---- answers of one line

fn slots_text(rt: &impl Print, slots: &[u32], n: usize) -> io::Result<()> {
    if n == 0 {
        dash(rt)?;
    }
    for s in slots.iter().take(n) {
        spaced(rt, *s as u64)?;
    }
    Ok(())
}

// The order list, or whether there is one.
fn order_answer(rt: &impl Print, area: &[u8], listed: bool) -> io::Result<()> {
    let mut slots = [0u32; 256];
    match order_list(area, &mut slots) {
        Ok(n) => {
            if listed {
                slots_text(rt, &slots, n)?;
            } else {
                spaced_term(rt, YES)?;
            }
            Ok(())
        }
        Err(why) => refused(rt, why),
    }
}

fn symbols_answer(rt: &impl Print, stream: &[u8], sizes: ModuleSizes) -> io::Result<()> {
    match module_symbols(stream, sizes) {
        Ok(()) => spaced_term(rt, YES),
        Err(why) => refused(rt, why),
    }
}

fn file_answer(rt: &impl Print, area: &[u8], index: u32) -> io::Result<()> {
    match file_at(area, index) {
        Ok(entry) => entry_text(rt, area, entry),
        Err(why) => refused(rt, why),
    }
}

fn reference_answer(rt: &impl Print, area: &[u8], index: u32) -> io::Result<()> {
    match resolve_import(area, index) {
        Ok(found) => {
            spaced(rt, found.name as u64)?;
            spaced_hex(rt, found.word as u64)
        }
        Err(why) => refused(rt, why),
    }
}

fn count_answer(rt: &impl Print, area: &[u8]) -> io::Result<()> {
    match export_count(area) {
        Ok(n) => spaced(rt, n as u64),
        Err(why) => refused(rt, why),
    }
}

fn export_answer(rt: &impl Print, area: &[u8], local: u32) -> io::Result<()> {
    match resolve_export(area, local) {
        Ok(Some(global)) => spaced_hex(rt, global as u64),
        Ok(None) => spaced_term(rt, NONE),
        Err(why) => refused(rt, why),
    }
}

fn table_answer(rt: &impl Print, stream: &[u8]) -> io::Result<()> {
    match string_table(stream) {
        Ok(_) => spaced_term(rt, YES),
        Err(why) => refused(rt, why),
    }
}

fn name_answer(rt: &impl Print, stream: &[u8], offset: u32) -> io::Result<()> {
    match name_at(stream, offset) {
        Ok(_) => bytes_text(rt, name_bytes(stream, offset)),
        Err(why) => refused(rt, why),
    }
}

// ---- cases

// The answers of one line, of an area.
fn area_line(rt: &impl Print, area: &[u8], call: Call) -> io::Result<()> {
    head(rt, call)?;
    match call.number {
        ORDER => order_answer(rt, area, true)?,
        PROGRAM => order_answer(rt, area, false)?,
        INFO => file_answer(rt, area, call.word)?,
        RESOLVE => reference_answer(rt, area, call.word)?,
        EXPORTS => count_answer(rt, area)?,
        _ => export_answer(rt, area, call.word)?,
    }
    put(rt, b'\n')
}

// The answers of one line, of a stream as a whole: a module's, or a string table.
fn stream_line(rt: &impl Print, stream: &[u8], sizes: ModuleSizes, call: Call) -> io::Result<()> {
    head(rt, call)?;
    match call.number {
        SYMBOLS => symbols_answer(rt, stream, sizes)?,
        TABLE => table_answer(rt, stream)?,
        _ => name_answer(rt, stream, call.word)?,
    }
    put(rt, b'\n')
}

// The answer of a call on an area.
fn area_answer(rt: &impl Print, area: &[u8], call: Call) -> io::Result<()> {
    match call.number {
        LINE | SYM => lines(rt, area, call),
        FILE | INLINEE | IMPORT | IMPORT_REFUSED | EXPORT => table_walk(rt, area, call.number),
        _ => area_line(rt, area, call),
    }
}

// A call on a module's tables, as one on the part of its stream that they are read from.
fn on_tables_part(
    rt: &impl Print,
    stream: &[u8],
    sizes: ModuleSizes,
    call: Call,
) -> io::Result<()> {
    match tables_part(stream, sizes) {
        Ok(part) => area_answer(rt, &stream[part.start..part.start + part.len], call),
        Err(why) => refused_line(rt, call, why),
    }
}

// A call on a module's lines or files, as one on the part of its stream that they are read from.
fn on_lines_part(rt: &impl Print, stream: &[u8], sizes: ModuleSizes, call: Call) -> io::Result<()> {
    match lines_part(stream, sizes) {
        Ok(part) => area_answer(rt, &stream[part.start..part.start + part.len], call),
        Err(why) => refused_line(rt, call, why),
    }
}

fn answer(rt: &impl Print, stream: &[u8], sizes: ModuleSizes, call: Call) -> io::Result<()> {
    match call.number {
        SUB => sub_walk(rt, stream),
        ORDER | FILE | LINE | PROGRAM | INFO | SYM => on_lines_part(rt, stream, sizes, call),
        INLINEE | IMPORT | IMPORT_REFUSED | EXPORT | EXPORTS | RESOLVE | LOOKUP => {
            on_tables_part(rt, stream, sizes, call)
        }
        _ => stream_line(rt, stream, sizes, call),
    }
}

// Answers the call at a place of the list, and where the next one stands.
fn call_at(
    rt: &impl Print,
    list: &[u8],
    at: usize,
    stream: &[u8],
    sizes: ModuleSizes,
) -> io::Result<usize> {
    let number = u8_at(list, at);
    let call = Call {
        number,
        word: u32_at(list, at.saturating_add(1)),
        section: u16_at(list, at.saturating_add(5)),
    };
    answer(rt, stream, sizes, call)?;
    let size = if number < INFO { 1 } else { 7 };
    Ok(at.saturating_add(size))
}

fn calls_at(
    rt: &impl Print,
    list: &[u8],
    first: usize,
    count: u8,
    stream: &[u8],
    sizes: ModuleSizes,
) -> io::Result<usize> {
    let mut at = first;
    for _ in 0..count {
        at = call_at(rt, list, at, stream, sizes)?;
    }
    put(rt, b'\n')?;
    Ok(at)
}

// Answers the case at a place of the list, and where the next one stands.
fn case_at(rt: &impl Print, list: &[u8], at: usize, i: u32) -> io::Result<usize> {
    let start = at.saturating_add(15);
    let len = u16_at(list, at.saturating_add(1)) as usize;
    let stream = part(list, start, len);
    let sizes = ModuleSizes {
        symbols: u32_at(list, at.saturating_add(3)),
        c11: u32_at(list, at.saturating_add(7)),
        c13: u32_at(list, at.saturating_add(11)),
    };
    term(rt, CASE)?;
    spaced(rt, i as u64)?;
    spaced(rt, stream.len() as u64)?;
    put(rt, b'\n')?;
    calls_at(
        rt,
        list,
        start.saturating_add(len),
        u8_at(list, at),
        stream,
        sizes,
    )
}

// The last line: how many cases and how many bytes of the list were read, and how many bytes there are.
fn cases(rt: &impl Print, list: &[u8]) -> io::Result<()> {
    let count = u32_at(list, 0);
    let mut at: usize = 4;
    for i in 1..=count {
        at = case_at(rt, list, at, i)?;
    }
    term(rt, READ)?;
    spaced(rt, count as u64)?;
    spaced(rt, at as u64)?;
    spaced(rt, list.len() as u64)?;
    put(rt, b'\n')
}

fn main(rt: HostRuntime) -> io::Result<()> {
    let mut list = Vec::new(rt.alloc());
    rt.reader().take(LIST).read_to_end(&mut list)?;
    cases(&rt, &list)
}
