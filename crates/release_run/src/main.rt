// A test release, written and read back: every kind of writer call, refused ones among them, from an empty buffer; the full reading of what was
// written, held against the accepted calls item by item; the bytes; and the listing that `c13dump` prints of them.
//
// The calls stand once, in `call_at`, and are gone through twice. The first time each call is made, and printed with its answer. The second time the
// next item of the reading is taken for each call that was accepted, printed, and compared with the call. What is printed is compared with the file
// stdout.
#![tactic(auto)]

use files::checksum_bytes;
use kinds::{COFF_SYMBOL_RVA, LINES, STRING_TABLE, SYMBOLS};
use reading_record::{Item, ItemWalk};
use reading_walk::next_item;
use refusal::Refusal;
use std::io;
use table::word_in;

// The calls fill the buffer to its last byte, so that the buffer is the area.
const ROOM: usize = 400;

const CALLS: usize = 38;

// A call, or the item that it leaves, with its numbers in the order of the call's parameters. A list is a place and a count: in the words or bytes that
// `main` lends for a call, in the area for an item.
#[derive(Clone, Copy)]
enum Call {
    OpenLines(u32, u16, u16, u32),
    Block(u32, usize, usize, usize, usize),
    OpenChecksums,
    Checksum(u32, u8, usize, usize),
    OpenInlinees(u32),
    Inlinee(u32, u32, u32, usize, usize),
    OpenImports,
    Module(u32, usize, usize),
    OpenExports,
    Pair(u32, u32),
    Opaque(u32, usize, usize),
}

// A call's numbers: which call it is, how many numbers it has, and these.
#[derive(Clone, Copy, PartialEq)]
struct Numbers(usize, usize, [u32; 4]);

// A call's lists: its words, its columns and its bytes.
#[derive(Clone, Copy)]
struct Lists(usize, usize, usize, usize, usize, usize);

// What stands at a place of the reading, no item or a refusal among it, and the walk behind it.
#[derive(Clone, Copy)]
struct Step(Result<Option<Call>, Refusal>, ItemWalk);

// ---- the calls

// A checksum of each kind. Refused are one where no subsection stands yet, and 16 bytes for SHA-1 and for none.
fn call_at(i: usize) -> Call {
    match i {
        0 => Call::Checksum(1, 1, 0, 16),
        1 => Call::OpenChecksums,
        2 => Call::Checksum(1, 1, 0, 16),
        3 => Call::Checksum(12, 2, 0, 16),
        4 => Call::Checksum(12, 2, 0, 20),
        5 => Call::Checksum(23, 3, 0, 32),
        6 => Call::Checksum(34, 0, 0, 16),
        7 => Call::Checksum(34, 0, 0, 0),
        _ => line_call_at(i),
    }
}

// Lines with columns, a marker among them, and lines without. The files are those of the checksums, by their places. Refused are an unpaired word
// among checksums and among lines, a column too few, and one too many.
fn line_call_at(i: usize) -> Call {
    match i {
        8 => Call::Block(0, 0, 1, 0, 0),
        9 => Call::OpenLines(0x1000, 1, 1, 0x20),
        10 => Call::Block(0, 0, 6, 6, 3),
        11 => Call::Block(24, 0, 6, 6, 2),
        12 => Call::Block(24, 9, 2, 11, 1),
        13 => Call::OpenLines(0x2000, 1, 0, 0x18),
        14 => Call::Block(52, 9, 2, 11, 1),
        15 => Call::Block(52, 9, 3, 0, 0),
        16 => Call::Block(52, 9, 2, 0, 0),
        17 => Call::Block(92, 0, 0, 0, 0),
        _ => word_call_at(i),
    }
}

// Inlinees without extra files and with them, and imports. Refused are a signature of 2, extra files under a signature of 0, a module among
// inlinees, and one that is too long for the room that is left.
fn word_call_at(i: usize) -> Call {
    match i {
        18 => Call::OpenInlinees(2),
        19 => Call::OpenInlinees(0),
        20 => Call::Inlinee(0x1001, 0, 7, 12, 2),
        21 => Call::Inlinee(0x1001, 0, 7, 0, 0),
        22 => Call::OpenInlinees(1),
        23 => Call::Inlinee(0x1002, 24, 9, 12, 2),
        24 => Call::Module(5, 14, 2),
        25 => Call::OpenImports,
        26 => Call::Module(5, 14, 2),
        27 => Call::Module(9, 0, 16),
        28 => Call::Module(9, 0, 0),
        _ => last_call_at(i),
    }
}

// Exports, and bodies that are carried as they are, to the last byte of the buffer. Refused are a pair that does not ascend, a body of a kind that
// has calls of its own, one that is too long for the room that is left, and a subsection more at the end.
fn last_call_at(i: usize) -> Call {
    match i {
        29 => Call::OpenExports,
        30 => Call::Pair(0x1000, 0x2000),
        31 => Call::Pair(0x1000, 0x2001),
        32 => Call::Pair(0x8000_0001, 0x3000),
        33 => Call::Opaque(LINES, 0, 32),
        34 => Call::Opaque(SYMBOLS, 0, 12),
        35 => Call::Opaque(STRING_TABLE, 0, 16),
        36 => Call::Opaque(COFF_SYMBOL_RVA, 0, 4),
        _ => Call::OpenExports,
    }
}

fn numbers_of(call: Call) -> Numbers {
    match call {
        Call::OpenLines(offset, section, flags, code) => {
            Numbers(0, 4, [offset, section as u32, flags as u32, code])
        }
        Call::Block(file, _, _, _, _) => Numbers(1, 1, [file, 0, 0, 0]),
        Call::OpenChecksums => Numbers(2, 0, [0, 0, 0, 0]),
        Call::Checksum(name, kind, _, _) => Numbers(3, 2, [name, kind as u32, 0, 0]),
        Call::OpenInlinees(signature) => Numbers(4, 1, [signature, 0, 0, 0]),
        Call::Inlinee(inlinee, file, line, _, _) => Numbers(5, 3, [inlinee, file, line, 0]),
        Call::OpenImports => Numbers(6, 0, [0, 0, 0, 0]),
        Call::Module(name, _, _) => Numbers(7, 1, [name, 0, 0, 0]),
        Call::OpenExports => Numbers(8, 0, [0, 0, 0, 0]),
        Call::Pair(local, global) => Numbers(9, 2, [local, global, 0, 0]),
        Call::Opaque(kind, _, _) => Numbers(10, 1, [kind, 0, 0, 0]),
    }
}

fn numbers_in(item: Result<Option<Call>, Refusal>) -> Numbers {
    match item {
        Ok(Some(call)) => numbers_of(call),
        Ok(None) => Numbers(11, 0, [0, 0, 0, 0]),
        Err(_) => Numbers(12, 0, [0, 0, 0, 0]),
    }
}

fn lists_of(call: Call) -> Lists {
    match call {
        Call::Block(_, lines, n, columns, k) => Lists(lines, n, columns, k, 0, 0),
        Call::Checksum(_, _, bytes, len) => Lists(0, 0, 0, 0, bytes, len),
        Call::Inlinee(_, _, _, extra, n) => Lists(extra, n, 0, 0, 0, 0),
        Call::Module(_, words, n) => Lists(words, n, 0, 0, 0, 0),
        Call::Opaque(_, body, len) => Lists(0, 0, 0, 0, body, len),
        _ => Lists(0, 0, 0, 0, 0, 0),
    }
}

fn lists_in(item: Result<Option<Call>, Refusal>) -> Lists {
    match item {
        Ok(Some(call)) => lists_of(call),
        _ => Lists(0, 0, 0, 0, 0, 0),
    }
}

// ---- text

fn say(rt: &impl Print, text: &[u8]) -> io::Result<()> {
    rt.write_all(text)
}

fn word(rt: &impl Print, n: u32) -> io::Result<()> {
    print!(rt; " 0x{n:x}")
}

// The first bytes, or all where there are fewer.
fn start_of(bytes: &[u8], len: usize) -> &[u8] {
    bytes.get(..len).unwrap_or(bytes)
}

// The words from a place on, or all where there are fewer.
fn part_of(words: &[u32], from: usize, count: usize) -> &[u32] {
    words
        .get(from..)
        .and_then(|behind| behind.get(..count))
        .unwrap_or(words)
}

// A name in 15 bytes.
fn name_in(rt: &impl Print, names: &[u8], which: usize) -> io::Result<()> {
    if which <= names.len() / 15 {
        say(rt, start_of(&names[15 * which..], 15))?;
    }
    Ok(())
}

fn name(rt: &impl Print, which: usize) -> io::Result<()> {
    name_in(
        rt,
        b"open lines     block          open checksums checksum       open inlinees  inlinee        open imports   module         open exports   pair           opaque         none           refused        ",
        which,
    )?;
    Ok(())
}

fn said(rt: &impl Print, n: Numbers) -> io::Result<()> {
    name(rt, n.0)?;
    for w in n.2.iter().take(n.1) {
        word(rt, *w)?;
    }
    Ok(())
}

// A list stands behind a slash.
fn slash(rt: &impl Print, len: usize) -> io::Result<()> {
    if 0 < len {
        say(rt, b" /")?;
    }
    Ok(())
}

fn list(rt: &impl Print, words: &[u32]) -> io::Result<()> {
    slash(rt, words.len())?;
    for w in words {
        word(rt, *w)?;
    }
    Ok(())
}

// At most 32 bytes.
fn hex(rt: &impl Print, bytes: &[u8]) -> io::Result<()> {
    let mut line = [0u8; 64];
    match text::put_hex_bytes(&mut line, Ok(0), bytes) {
        Ok(len) => say(rt, start_of(&line, len)),
        Err(_) => say(rt, b"more than 32 bytes"),
    }
}

fn octets(rt: &impl Print, bytes: &[u8]) -> io::Result<()> {
    if 0 < bytes.len() {
        say(rt, b" / ")?;
        hex(rt, bytes)?;
    }
    Ok(())
}

// ---- the first time

fn make_open(buf: &mut [u8; ROOM], at: usize, call: Call) -> Result<usize, Refusal> {
    match call {
        Call::OpenLines(offset, section, flags, code) => {
            writer::open_lines(buf, at, offset, section, flags, code)
        }
        Call::OpenChecksums => writer::open_checksums(buf, at),
        Call::OpenInlinees(signature) => writer::open_inlinees(buf, at, signature),
        Call::OpenImports => writer::open_imports(buf, at),
        Call::OpenExports => writer::open_exports(buf, at),
        Call::Pair(local, global) => writer::add_pair(buf, at, local, global),
        _ => Ok(at),
    }
}

fn make_add(
    buf: &mut [u8; ROOM],
    at: usize,
    call: Call,
    words: &[u32],
    columns: &[u32],
) -> Result<usize, Refusal> {
    match call {
        Call::Block(file, _, _, _, _) => writer::add_block(buf, at, file, words, columns),
        Call::Inlinee(inlinee, file, line, _, _) => {
            writer::add_inlinee(buf, at, inlinee, file, line, words)
        }
        Call::Module(name, _, _) => writer::add_module(buf, at, name, words),
        _ => make_open(buf, at, call),
    }
}

fn make(
    buf: &mut [u8; ROOM],
    at: usize,
    call: Call,
    words: &[u32],
    columns: &[u32],
    bytes: &[u8],
) -> Result<usize, Refusal> {
    match call {
        Call::Checksum(name, kind, _, _) => writer::add_checksum(buf, at, name, kind, bytes),
        Call::Opaque(kind, _, _) => writer::add_opaque(buf, at, kind, bytes),
        _ => make_add(buf, at, call, words, columns),
    }
}

// The place for the next call: the one that is answered, or, where it is refused, the one before.
fn answered(rt: &impl Print, at: usize, answer: Result<usize, Refusal>) -> io::Result<usize> {
    match answer {
        Ok(next) => {
            print!(rt; " : {next}")?;
            Ok(next)
        }
        Err(why) => {
            let number = refusal::number(why);
            print!(rt; " : refused {number}")?;
            Ok(at)
        }
    }
}

fn write(
    rt: &impl Print,
    buf: &mut [u8; ROOM],
    at: usize,
    call: Call,
    words: &[u32],
    bytes: &[u8],
) -> io::Result<usize> {
    let l = lists_of(call);
    let lines = part_of(words, l.0, l.1);
    let columns = part_of(words, l.2, l.3);
    let body = start_of(bytes, l.5);
    said(rt, numbers_of(call))?;
    list(rt, lines)?;
    list(rt, columns)?;
    octets(rt, body)?;
    answered(rt, at, make(buf, at, call, lines, columns, body))
}

// Which calls were accepted. A call that is accepted moves the place.
fn write_all(
    rt: &impl Print,
    buf: &mut [u8; ROOM],
    words: &[u32],
    bytes: &[u8],
) -> io::Result<[bool; CALLS]> {
    let mut accepted = [false; CALLS];
    let mut at = 0;
    for i in 0..CALLS {
        let next = write(rt, buf, at, call_at(i), words, bytes)?;
        say(rt, b"\n")?;
        accepted[i] = at < next;
        at = next;
    }
    Ok(accepted)
}

// ---- the second time

fn block_of(file: u32, count: usize, lines: usize, columns: Option<usize>) -> Call {
    let words = count.wrapping_add(count);
    match columns {
        Some(at) => Call::Block(file, lines, words, at, count),
        None => Call::Block(file, lines, words, 0, 0),
    }
}

// The call that leaves an item.
fn call_of(item: Item) -> Call {
    match item {
        Item::OpenLines { header } => {
            Call::OpenLines(header.offset, header.section, header.flags, header.code)
        }
        Item::Block {
            file,
            count,
            lines,
            columns,
        } => block_of(file, count, lines, columns),
        Item::OpenChecksums => Call::OpenChecksums,
        Item::Checksum {
            name,
            kind,
            start,
            len,
        } => Call::Checksum(name, kind, start, len),
        Item::OpenInlinees { signature } => Call::OpenInlinees(signature),
        Item::Inlinee {
            inlinee,
            file,
            line,
            extra,
            count,
        } => Call::Inlinee(inlinee, file, line, extra, count),
        Item::OpenImports => Call::OpenImports,
        Item::Module { name, words, count } => Call::Module(name, words, count),
        Item::OpenExports => Call::OpenExports,
        Item::Pair { local, global } => Call::Pair(local, global),
        Item::Opaque { kind, start, len } => Call::Opaque(kind, start, len),
    }
}

// The item that comes next.
fn item_at(area: &[u8], walk: ItemWalk) -> Step {
    match next_item(area, walk) {
        Ok(Some((item, next))) => Step(Ok(Some(call_of(item))), next),
        Ok(None) => Step(Ok(None), walk),
        Err(why) => Step(Err(why), walk),
    }
}

fn read_word(
    rt: &impl Print,
    area: &[u8],
    at: usize,
    count: usize,
    i: usize,
    words: &[u32],
) -> io::Result<bool> {
    let Ok(Some(w)) = word_in(area, at, count, i) else {
        return Ok(false);
    };
    word(rt, w)?;
    Ok(words.get(i) == Some(&w))
}

// The words of an item, and whether they are those of the call.
fn read_list(
    rt: &impl Print,
    area: &[u8],
    at: usize,
    count: usize,
    words: &[u32],
) -> io::Result<bool> {
    slash(rt, count)?;
    let mut same = count == words.len();
    for i in 0..count {
        same &= read_word(rt, area, at, count, i, words)?;
    }
    Ok(same)
}

fn read_octets(
    rt: &impl Print,
    area: &[u8],
    at: usize,
    len: usize,
    bytes: &[u8],
) -> io::Result<bool> {
    let read = checksum_bytes(area, at, len);
    octets(rt, read)?;
    Ok(read == bytes)
}

fn read_lists(
    rt: &impl Print,
    area: &[u8],
    item: Lists,
    call: Lists,
    words: &[u32],
    bytes: &[u8],
) -> io::Result<bool> {
    let lines = read_list(rt, area, item.0, item.1, part_of(words, call.0, call.1))?;
    let columns = read_list(rt, area, item.2, item.3, part_of(words, call.2, call.3))?;
    Ok(lines & columns & read_octets(rt, area, item.4, item.5, start_of(bytes, call.5))?)
}

fn told(rt: &impl Print, same: bool) -> io::Result<bool> {
    if !same {
        say(rt, b" DIFFERS")?;
    }
    say(rt, b"\n")?;
    Ok(same)
}

fn read(
    rt: &impl Print,
    area: &[u8],
    item: Result<Option<Call>, Refusal>,
    call: Option<Call>,
    words: &[u32],
    bytes: &[u8],
) -> io::Result<bool> {
    let numbers = numbers_in(item);
    said(rt, numbers)?;
    let same = read_lists(rt, area, lists_in(item), lists_in(Ok(call)), words, bytes)?;
    told(rt, same & (numbers == numbers_in(Ok(call))))
}

// Whether the items are the accepted calls, and nothing comes behind them.
fn read_all(
    rt: &impl Print,
    area: &[u8],
    accepted: &[bool; CALLS],
    words: &[u32],
    bytes: &[u8],
) -> io::Result<bool> {
    let mut same = true;
    let mut walk = ItemWalk::new();
    for i in 0..CALLS {
        if accepted[i] {
            let Step(item, next) = item_at(area, walk);
            same &= read(rt, area, item, Some(call_at(i)), words, bytes)?;
            walk = next;
        }
    }
    let behind = item_at(area, walk).0;
    Ok(same & read(rt, area, behind, None, words, bytes)?)
}

// ---- what is printed behind the calls and the items

// Rows of at most 32 bytes.
fn bytes_of(rt: &impl Print, area: &[u8]) -> io::Result<()> {
    for row in area.chunks(32) {
        hex(rt, row)?;
        say(rt, b"\n")?;
    }
    Ok(())
}

// The whole release: the words and bytes are what the calls take their lists from.
fn release(rt: &impl Print, buf: &mut [u8; ROOM], words: &[u32], bytes: &[u8]) -> io::Result<()> {
    let accepted = write_all(rt, buf, words, bytes)?;
    if read_all(rt, buf, &accepted, words, bytes)? {
        say(rt, b"the items are the accepted calls, one for one\n")?;
    } else {
        say(rt, b"THE ITEMS ARE NOT THE ACCEPTED CALLS\n")?;
    }
    bytes_of(rt, buf)?;
    dump::print(rt, buf).written
}

fn main(rt: HostRuntime) -> io::Result<()> {
    let mut buf = [0u8; ROOM];
    release(
        &rt,
        &mut buf,
        &[
            // 0 to 5: three lines, a marker in the middle; 6 to 8: their columns
            0,
            0x8000_000a,
            4,
            0x80fe_efee,
            8,
            0x8000_000c,
            0x0009_0001,
            0x0007_0002,
            0x000c_0003,
            // 9 and 10: a line; 11: its column
            16,
            0x0000_000e,
            0x0011_0005,
            // 12 and 13: extra files; 14 and 15: what a module imports
            52,
            92,
            0x1003,
            0x1004,
        ],
        b"\x00\x01\x02\x03\x04\x05\x06\x07\x08\x09\x0a\x0b\x0c\x0d\x0e\x0f\x10\x11\x12\x13\x14\x15\x16\x17\x18\x19\x1a\x1b\x1c\x1d\x1e\x1f",
    )
}
