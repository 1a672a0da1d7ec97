// The sheet of document 01, run: each of its lines with the answer of the library, written as text. A refusal is `refused`, its number and what it
// carries; each of the numbers 1 to 19 comes at least once. What is written is compared with the file stdout.
#![tactic(auto)]

use area::SubWalk;
use checksums::ChecksumKind;
use line_record::{EndLines, LineKind, LineRecord, LineSource};
use line_step::LineWalk;
use modi::ModuleSizes;
use reading_record::ItemWalk;
use refusal::Refusal;
use std::io;
use table::TableWalk;

fn say(rt: &impl Print, text: &[u8]) -> io::Result<()> {
    rt.write_all(text)
}

fn number(rt: &impl Print, n: u64) -> io::Result<()> {
    print!(rt; "{n} ")
}

fn end(rt: &impl Print) -> io::Result<()> {
    say(rt, b"\n")
}

fn refused(rt: &impl Print, why: Refusal) -> io::Result<()> {
    say(rt, b"refused ")?;
    number(rt, refusal::number(why))?;
    match why {
        Refusal::UnknownKind(kind) => number(rt, kind as u64),
        Refusal::UnknownChecksumKind(kind) => number(rt, kind as u64),
        Refusal::NotACrossModuleRef(index) => number(rt, index as u64),
        Refusal::CrossModuleRefNotFound(index) => number(rt, index as u64),
        Refusal::NoFile(index) => number(rt, index as u64),
        _ => Ok(()),
    }
}

// One step of a walk over subsections: kind, start and length.
fn sub_step(rt: &impl Print, area: &[u8], walk: SubWalk) -> io::Result<SubWalk> {
    let stepped = walk.step(area);
    let step = stepped.step;
    match step {
        Ok(Some((sub, _))) => {
            say(rt, b"sub ")?;
            number(rt, sub.kind as u64)?;
            number(rt, sub.start as u64)?;
            number(rt, sub.len as u64)?;
        }
        Ok(None) => say(rt, b"none ")?,
        Err(why) => refused(rt, why)?,
    }
    Ok(stepped.walk)
}

fn subsections(rt: &impl Print, area: &[u8]) -> io::Result<()> {
    let first = sub_step(rt, area, SubWalk::new())?;
    let second = sub_step(rt, area, first)?;
    sub_step(rt, area, second)?;
    end(rt)
}

fn kind(rt: &impl Print, k: LineKind) -> io::Result<()> {
    match k {
        LineKind::Statement => say(rt, b"statement "),
        LineKind::Expression => say(rt, b"expression "),
    }
}

// A record: offset, length, lines, kind.
fn line(rt: &impl Print, r: LineRecord) -> io::Result<()> {
    number(rt, r.offset as u64)?;
    let length = r.length;
    match length {
        Some(n) => number(rt, n as u64)?,
        None => say(rt, b"- ")?,
    }
    number(rt, r.start_line as u64)?;
    number(rt, r.end_line as u64)?;
    let k = r.kind;
    kind(rt, k)
}

fn flags(rt: &impl Print, word: u32) -> io::Result<()> {
    let source = LineSource {
        section: 1,
        base: 0,
        file: 0,
        columns: false,
        how: EndLines::Crate,
        body: LineRecord::NO_POSITION,
    };
    match line_record::entry_of(source, 0, word, 0) {
        Ok(Some(r)) => line(rt, r)?,
        Ok(None) => say(rt, b"marker ")?,
        Err(why) => refused(rt, why)?,
    }
    end(rt)
}

fn block(rt: &impl Print, body: &[u8], columns: bool) -> io::Result<()> {
    match lines::block_at(body, 0, columns) {
        Ok(Some((block, next))) => {
            say(rt, b"block ")?;
            number(rt, block.file as u64)?;
            number(rt, block.count as u64)?;
            number(rt, next as u64)?;
        }
        Ok(None) => say(rt, b"none ")?,
        Err(why) => refused(rt, why)?,
    }
    end(rt)
}

fn resolve(rt: &impl Print, area: &[u8], index: u32) -> io::Result<()> {
    match imports::resolve_import(area, index) {
        Ok(found) => {
            number(rt, found.name as u64)?;
            number(rt, found.word as u64)?;
        }
        Err(why) => refused(rt, why)?,
    }
    end(rt)
}

fn count(rt: &impl Print, area: &[u8]) -> io::Result<()> {
    match exports::export_count(area) {
        Ok(n) => number(rt, n as u64)?,
        Err(why) => refused(rt, why)?,
    }
    end(rt)
}

fn lookup(rt: &impl Print, area: &[u8], local: u32) -> io::Result<()> {
    match exports::resolve_export(area, local) {
        Ok(Some(global)) => number(rt, global as u64)?,
        Ok(None) => say(rt, b"none ")?,
        Err(why) => refused(rt, why)?,
    }
    end(rt)
}

fn sum(rt: &impl Print, kind: ChecksumKind, start: usize, len: usize) -> io::Result<()> {
    match kind {
        ChecksumKind::None => say(rt, b"none ")?,
        ChecksumKind::Md5 => say(rt, b"md5 ")?,
        ChecksumKind::Sha1 => say(rt, b"sha1 ")?,
        ChecksumKind::Sha256 => say(rt, b"sha256 ")?,
    }
    number(rt, start as u64)?;
    number(rt, len as u64)
}

fn entry(rt: &impl Print, body: &[u8], at: usize) -> io::Result<()> {
    match checksums::entry_at(body, at) {
        Ok(Some((entry, next))) => {
            number(rt, entry.name as u64)?;
            sum(rt, entry.kind, entry.start, entry.len)?;
            say(rt, b"next ")?;
            number(rt, next as u64)?;
        }
        Ok(None) => say(rt, b"none ")?,
        Err(why) => refused(rt, why)?,
    }
    end(rt)
}

fn file(rt: &impl Print, area: &[u8], index: u32) -> io::Result<()> {
    match files::file_at(area, index) {
        Ok(entry) => {
            number(rt, entry.name as u64)?;
            sum(rt, entry.kind, entry.start, entry.len)?;
        }
        Err(why) => refused(rt, why)?,
    }
    end(rt)
}

// One step of a line walk.
fn line_step(rt: &impl Print, area: &[u8], slots: &[u32], walk: LineWalk) -> io::Result<LineWalk> {
    match line_walk::next_line(area, slots, walk) {
        Ok(Some((r, next))) => {
            line(rt, r)?;
            Ok(next)
        }
        Ok(None) => {
            say(rt, b"none ")?;
            Ok(walk)
        }
        Err(why) => {
            refused(rt, why)?;
            Ok(walk)
        }
    }
}

fn steps(rt: &impl Print, area: &[u8], slots: &[u32]) -> io::Result<()> {
    let first = line_step(rt, area, slots, LineWalk::New(EndLines::Crate))?;
    let second = line_step(rt, area, slots, first)?;
    line_step(rt, area, slots, second)?;
    Ok(())
}

// The order list, and three steps over it.
fn walk(rt: &impl Print, area: &[u8], slots: &mut [u32]) -> io::Result<()> {
    match order::order_list(area, slots) {
        Ok(n) => {
            number(rt, n as u64)?;
            steps(rt, area, slots)?;
        }
        Err(why) => refused(rt, why)?,
    }
    end(rt)
}

// The order list in two slots, and three steps over it.
fn walked(rt: &impl Print, area: &[u8]) -> io::Result<()> {
    let mut slots = [0u32; 2];
    walk(rt, area, &mut slots)
}

// Three steps over slots that nobody filled.
fn forged(rt: &impl Print, area: &[u8]) -> io::Result<()> {
    let slots = [0u32; 2];
    steps(rt, area, &slots)?;
    end(rt)
}

// What the walks over an area's tables answer first, and the full reading.
fn first_file(rt: &impl Print, area: &[u8]) -> io::Result<()> {
    match files::next_file(area, TableWalk::New) {
        Ok(Some(_)) => say(rt, b"a file "),
        Ok(None) => say(rt, b"none "),
        Err(why) => refused(rt, why),
    }
}

fn first_inlinee(rt: &impl Print, area: &[u8]) -> io::Result<()> {
    match inlinees::next_inlinee(area, TableWalk::New) {
        Ok(Some(_)) => say(rt, b"an inlinee "),
        Ok(None) => say(rt, b"none "),
        Err(why) => refused(rt, why),
    }
}

fn first_import(rt: &impl Print, area: &[u8]) -> io::Result<()> {
    match imports::next_import(area, TableWalk::New) {
        Ok(Some(_)) => say(rt, b"a module "),
        Ok(None) => say(rt, b"none "),
        Err(why) => refused(rt, why),
    }
}

fn first_export(rt: &impl Print, area: &[u8]) -> io::Result<()> {
    match exports::next_export(area, TableWalk::New) {
        Ok(Some(_)) => say(rt, b"an export "),
        Ok(None) => say(rt, b"none "),
        Err(why) => refused(rt, why),
    }
}

fn first_item(rt: &impl Print, area: &[u8]) -> io::Result<()> {
    match reading_walk::next_item(area, ItemWalk::new()) {
        Ok(Some(_)) => say(rt, b"an item "),
        Ok(None) => say(rt, b"none "),
        Err(why) => refused(rt, why),
    }
}

fn firsts(rt: &impl Print, area: &[u8]) -> io::Result<()> {
    first_file(rt, area)?;
    first_inlinee(rt, area)?;
    first_import(rt, area)?;
    first_export(rt, area)?;
    first_item(rt, area)?;
    end(rt)
}

fn name(rt: &impl Print, stream: &[u8], offset: u32) -> io::Result<()> {
    match strings::name_at(stream, offset) {
        Ok(name) => {
            number(rt, name.start as u64)?;
            number(rt, name.len as u64)?;
            say(rt, strings::name_bytes(stream, offset))?;
        }
        Err(why) => refused(rt, why)?,
    }
    end(rt)
}

fn symbols(rt: &impl Print, stream: &[u8], symbols: u32, c11: u32, c13: u32) -> io::Result<()> {
    match modi::module_symbols(stream, ModuleSizes { symbols, c11, c13 }) {
        Ok(()) => say(rt, b"yes")?,
        Err(why) => refused(rt, why)?,
    }
    end(rt)
}

fn lines_of(rt: &impl Print, stream: &[u8], symbols: u32, c11: u32, c13: u32) -> io::Result<()> {
    match modi::lines_part(stream, ModuleSizes { symbols, c11, c13 }) {
        Ok(part) => {
            number(rt, part.start as u64)?;
            number(rt, part.len as u64)?;
        }
        Err(why) => refused(rt, why)?,
    }
    end(rt)
}

fn wrote(rt: &impl Print, w: Result<usize, Refusal>) -> io::Result<usize> {
    match w {
        Ok(at) => {
            number(rt, at as u64)?;
            end(rt)?;
            Ok(at)
        }
        Err(why) => {
            refused(rt, why)?;
            end(rt)?;
            Ok(0)
        }
    }
}

fn area_lines(rt: &impl Print) -> io::Result<()> {
    say(rt, b"empty area: ")?;
    subsections(rt, b"")?;
    say(rt, b"its order list and lines: ")?;
    walked(rt, b"")?;
    say(rt, b"its files, inlinees, imports, exports, items: ")?;
    firsts(rt, b"")?;
    say(rt, b"its number of exports: ")?;
    count(rt, b"")?;
    say(rt, b"a lookup in its exports: ")?;
    lookup(rt, b"", 7)?;
    say(rt, b"7 bytes: ")?;
    subsections(rt, b"\x00\x00\x00\x00\x00\x00\x00")?;
    say(rt, b"their order list: ")?;
    walked(rt, b"\x00\x00\x00\x00\x00\x00\x00")?;
    say(rt, b"their files, inlinees, imports, exports, items: ")?;
    firsts(rt, b"\x00\x00\x00\x00\x00\x00\x00")?;
    say(rt, b"kind 0xf0, length 0: ")?;
    subsections(rt, b"\xf0\x00\x00\x00\x00\x00\x00\x00")?;
    say(rt, b"kind 0xf0, length 4, no body: ")?;
    subsections(rt, b"\xf0\x00\x00\x00\x04\x00\x00\x00")?;
    say(rt, b"kind 0x80000000, length 4, its body: ")?;
    subsections(rt, b"\x00\x00\x00\x80\x04\x00\x00\x00\x01\x02\x03\x04")?;
    say(rt, b"kinds 0xf1 and 0xfd: ")?;
    subsections(
        rt,
        b"\xf1\x00\x00\x00\x00\x00\x00\x00\xfd\x00\x00\x00\x01\x00\x00\x00\x09",
    )
}

fn flag_lines(rt: &impl Print) -> io::Result<()> {
    say(rt, b"flags 0x0c00000a: ")?;
    flags(rt, 0x0c00_000a)?;
    say(rt, b"flags 0x80feefee: ")?;
    flags(rt, 0x80fe_efee)?;
    say(rt, b"flags 0x80f00f00: ")?;
    flags(rt, 0x80f0_0f00)?;
    say(rt, b"flags 0x8000000c: ")?;
    flags(rt, 0x8000_000c)
}

fn block_lines(rt: &impl Print) -> io::Result<()> {
    say(rt, b"block size 11: ")?;
    block(
        rt,
        b"\x00\x00\x00\x00\x00\x00\x00\x00\x0b\x00\x00\x00",
        false,
    )?;
    say(rt, b"block size 12, no lines: ")?;
    block(
        rt,
        b"\x00\x00\x00\x00\x00\x00\x00\x00\x0c\x00\x00\x00",
        false,
    )?;
    say(rt, b"block size 19, one line: ")?;
    block(
        rt,
        b"\x00\x00\x00\x00\x01\x00\x00\x00\x13\x00\x00\x00\x00\x00\x00\x00\x0a\x00\x00\x80",
        false,
    )?;
    say(rt, b"block size 20, one line: ")?;
    block(
        rt,
        b"\x00\x00\x00\x00\x01\x00\x00\x00\x14\x00\x00\x00\x00\x00\x00\x00\x0a\x00\x00\x80",
        false,
    )?;
    say(rt, b"block size 20, one line, columns: ")?;
    block(
        rt,
        b"\x00\x00\x00\x00\x01\x00\x00\x00\x14\x00\x00\x00\x00\x00\x00\x00\x0a\x00\x00\x80",
        true,
    )?;
    say(rt, b"block size 24, one line, columns: ")?;
    block(
        rt,
        b"\x00\x00\x00\x00\x01\x00\x00\x00\x18\x00\x00\x00\x00\x00\x00\x00\x0a\x00\x00\x80\x01\x00\x02\x00",
        true,
    )?;
    Ok(())
}

fn import_lines(rt: &impl Print) -> io::Result<()> {
    say(rt, b"imports, 0x8000_0001: ")?;
    resolve(
        rt,
        b"\xf7\x00\x00\x00\x10\x00\x00\x00\x05\x00\x00\x00\x02\x00\x00\x00\x03\x10\x00\x00\x04\x10\x00\x00",
        0x8000_0001,
    )?;
    say(rt, b"imports, 0x8000_0002: ")?;
    resolve(
        rt,
        b"\xf7\x00\x00\x00\x10\x00\x00\x00\x05\x00\x00\x00\x02\x00\x00\x00\x03\x10\x00\x00\x04\x10\x00\x00",
        0x8000_0002,
    )?;
    say(rt, b"imports, 0x8010_0000: ")?;
    resolve(
        rt,
        b"\xf7\x00\x00\x00\x10\x00\x00\x00\x05\x00\x00\x00\x02\x00\x00\x00\x03\x10\x00\x00\x04\x10\x00\x00",
        0x8010_0000,
    )?;
    say(rt, b"imports, 1: ")?;
    resolve(
        rt,
        b"\xf7\x00\x00\x00\x10\x00\x00\x00\x05\x00\x00\x00\x02\x00\x00\x00\x03\x10\x00\x00\x04\x10\x00\x00",
        1,
    )?;
    Ok(())
}

fn export_lines(rt: &impl Print) -> io::Result<()> {
    say(rt, b"export body of 12 bytes: ")?;
    count(
        rt,
        b"\xf8\x00\x00\x00\x0c\x00\x00\x00\x00\x00\x00\x00\x00\x00\x00\x00\x00\x00\x00\x00",
    )?;
    say(rt, b"export body of 0 bytes: ")?;
    count(rt, b"\xf8\x00\x00\x00\x00\x00\x00\x00")?;
    say(rt, b"export body of 16 bytes: ")?;
    count(
        rt,
        b"\xf8\x00\x00\x00\x10\x00\x00\x00\x01\x00\x00\x00\x07\x00\x00\x00\x02\x00\x00\x00\x08\x00\x00\x00",
    )?;
    say(rt, b"lookup of 2 in locals 1, 2: ")?;
    lookup(
        rt,
        b"\xf8\x00\x00\x00\x10\x00\x00\x00\x01\x00\x00\x00\x07\x00\x00\x00\x02\x00\x00\x00\x08\x00\x00\x00",
        2,
    )?;
    say(rt, b"lookup of 3 in locals 1, 2: ")?;
    lookup(
        rt,
        b"\xf8\x00\x00\x00\x10\x00\x00\x00\x01\x00\x00\x00\x07\x00\x00\x00\x02\x00\x00\x00\x08\x00\x00\x00",
        3,
    )?;
    say(rt, b"lookup of 2 in locals 2, 1: ")?;
    lookup(
        rt,
        b"\xf8\x00\x00\x00\x10\x00\x00\x00\x02\x00\x00\x00\x08\x00\x00\x00\x01\x00\x00\x00\x07\x00\x00\x00",
        2,
    )?;
    Ok(())
}

fn checksum_lines(rt: &impl Print) -> io::Result<()> {
    say(rt, b"checksum kind 4: ")?;
    entry(rt, b"\x07\x00\x00\x00\x00\x04\x00\x00", 0)?;
    say(rt, b"checksum kind 0, size 16: ")?;
    entry(
        rt,
        b"\x07\x00\x00\x00\x10\x00\x00\x01\x02\x03\x04\x05\x06\x07\x08\x09\x0a\x0b\x0c\x0d\x0e\x0f\x00\x00",
        0,
    )?;
    say(rt, b"MD5: ")?;
    entry(
        rt,
        b"\x01\x00\x00\x00\x10\x01\x00\x01\x02\x03\x04\x05\x06\x07\x08\x09\x0a\x0b\x0c\x0d\x0e\x0f\x00\x00",
        0,
    )?;
    say(rt, b"file at index 0: ")?;
    file(
        rt,
        b"\xf4\x00\x00\x00\x18\x00\x00\x00\x01\x00\x00\x00\x10\x01\x00\x01\x02\x03\x04\x05\x06\x07\x08\x09\x0a\x0b\x0c\x0d\x0e\x0f\x00\x00",
        0,
    )?;
    say(rt, b"file at the end of the body: ")?;
    file(
        rt,
        b"\xf4\x00\x00\x00\x18\x00\x00\x00\x01\x00\x00\x00\x10\x01\x00\x01\x02\x03\x04\x05\x06\x07\x08\x09\x0a\x0b\x0c\x0d\x0e\x0f\x00\x00",
        24,
    )?;
    say(rt, b"file beyond the body: ")?;
    file(
        rt,
        b"\xf4\x00\x00\x00\x18\x00\x00\x00\x01\x00\x00\x00\x10\x01\x00\x01\x02\x03\x04\x05\x06\x07\x08\x09\x0a\x0b\x0c\x0d\x0e\x0f\x00\x00",
        25,
    )?;
    say(rt, b"no checksum subsection, index 0: ")?;
    file(rt, b"", 0)
}

fn walk_lines(rt: &impl Print) -> io::Result<()> {
    say(rt, b"lines at 1:1000: ")?;
    walked(
        rt,
        b"\xf2\x00\x00\x00\x28\x00\x00\x00\x00\x10\x00\x00\x01\x00\x00\x00\x20\x00\x00\x00\x00\x00\x00\x00\x02\x00\x00\x00\x1c\x00\x00\x00\x00\x00\x00\x00\x0a\x00\x00\x80\x08\x00\x00\x00\x0c\x00\x00\x80",
    )?;
    say(rt, b"section offset 1, line offset 4294967295: ")?;
    walked(
        rt,
        b"\xf2\x00\x00\x00\x20\x00\x00\x00\x01\x00\x00\x00\x01\x00\x00\x00\x20\x00\x00\x00\x00\x00\x00\x00\x01\x00\x00\x00\x14\x00\x00\x00\xff\xff\xff\xff\x0a\x00\x00\x00",
    )?;
    say(rt, b"three line subsections, two slots: ")?;
    walked(
        rt,
        b"\xf2\x00\x00\x00\x0c\x00\x00\x00\x01\x00\x00\x00\x01\x00\x00\x00\x00\x00\x00\x00\xf2\x00\x00\x00\x0c\x00\x00\x00\x01\x00\x00\x00\x01\x00\x00\x00\x00\x00\x00\x00\xf2\x00\x00\x00\x0c\x00\x00\x00\x01\x00\x00\x00\x01\x00\x00\x00\x00\x00\x00\x00",
    )?;
    say(rt, b"a slot that names nothing: ")?;
    forged(
        rt,
        b"\xf2\x00\x00\x00\x28\x00\x00\x00\x00\x10\x00\x00\x01\x00\x00\x00\x20\x00\x00\x00\x00\x00\x00\x00\x02\x00\x00\x00\x1c\x00\x00\x00\x00\x00\x00\x00\x0a\x00\x00\x80\x08\x00\x00\x00\x0c\x00\x00\x80",
    )?;
    Ok(())
}

fn string_lines(rt: &impl Print) -> io::Result<()> {
    say(rt, b"names size 3, 27 bytes: ")?;
    name(
        rt,
        b"\xfe\xef\xfe\xef\x01\x00\x00\x00\x03\x00\x00\x00\x61\x62\x00\x00\x00\x00\x00\x00\x00\x00\x00\x00\x00\x00\x00",
        0,
    )?;
    say(rt, b"names size 3, 26 bytes: ")?;
    name(
        rt,
        b"\xfe\xef\xfe\xef\x01\x00\x00\x00\x03\x00\x00\x00\x61\x62\x00\x00\x00\x00\x00\x00\x00\x00\x00\x00\x00\x00",
        0,
    )?;
    say(rt, b"a signature of 0xEFFEEFFF: ")?;
    name(
        rt,
        b"\xff\xef\xfe\xef\x01\x00\x00\x00\x03\x00\x00\x00\x61\x62\x00\x00\x00\x00\x00\x00\x00\x00\x00\x00\x00\x00\x00",
        0,
    )?;
    say(rt, b"hash version 3: ")?;
    name(
        rt,
        b"\xfe\xef\xfe\xef\x03\x00\x00\x00\x03\x00\x00\x00\x61\x62\x00\x00\x00\x00\x00\x00\x00\x00\x00\x00\x00\x00\x00",
        0,
    )?;
    say(rt, b"offset 3 of names size 3: ")?;
    name(
        rt,
        b"\xfe\xef\xfe\xef\x01\x00\x00\x00\x03\x00\x00\x00\x61\x62\x00\x00\x00\x00\x00\x00\x00\x00\x00\x00\x00\x00\x00",
        3,
    )?;
    Ok(())
}

fn module_lines(rt: &impl Print) -> io::Result<()> {
    say(rt, b"no symbols: ")?;
    symbols(rt, b"", 0, 0, 0)?;
    say(rt, b"symbols of 3 bytes: ")?;
    symbols(rt, b"\x04\x00\x00", 3, 0, 0)?;
    say(rt, b"symbols with signature 4: ")?;
    symbols(rt, b"\x04\x00\x00\x00", 4, 0, 0)?;
    say(rt, b"symbols with signature 2: ")?;
    symbols(rt, b"\x02\x00\x00\x00", 4, 0, 0)?;
    say(rt, b"lines of a module with C11 lines: ")?;
    lines_of(rt, b"\x00", 0, 1, 0)?;
    say(rt, b"symbols and C13 above the stream: ")?;
    lines_of(rt, b"\x00", 1, 0, 1)
}

// A subsection of exports in a buffer that holds two pairs and no more.
fn writer_lines(rt: &impl Print) -> io::Result<()> {
    let mut buf = [0u8; 24];
    say(rt, b"open exports: ")?;
    let opened = wrote(rt, writer::open_exports(&mut buf, 0))?;
    say(rt, b"a pair: ")?;
    let first = wrote(rt, writer::add_pair(&mut buf, opened, 5, 6))?;
    say(rt, b"a pair that does not ascend: ")?;
    wrote(rt, writer::add_pair(&mut buf, first, 5, 7))?;
    say(rt, b"a module among exports: ")?;
    wrote(rt, writer::add_module(&mut buf, first, 1, &[2u32]))?;
    say(rt, b"a second pair: ")?;
    let second = wrote(rt, writer::add_pair(&mut buf, first, 6, 7))?;
    say(rt, b"a third pair, no room: ")?;
    wrote(rt, writer::add_pair(&mut buf, second, 7, 8))?;
    say(rt, b"what was written: ")?;
    count(rt, &buf)
}

// Number 11: an area above 65,536 bytes has no text but this. (One above 16,777,216 bytes does not fit a program's stack.)
fn long_lines(rt: &impl Print) -> io::Result<()> {
    say(rt, b"65537 bytes, as text: ")?;
    let area = [0u8; 65537];
    dump::print(rt, &area).written
}

fn main(rt: HostRuntime) -> io::Result<()> {
    area_lines(&rt)?;
    flag_lines(&rt)?;
    block_lines(&rt)?;
    import_lines(&rt)?;
    export_lines(&rt)?;
    checksum_lines(&rt)?;
    walk_lines(&rt)?;
    string_lines(&rt)?;
    module_lines(&rt)?;
    writer_lines(&rt)?;
    long_lines(&rt)
}
