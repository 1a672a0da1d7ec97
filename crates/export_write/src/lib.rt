// The writer calls, for programs in other languages, and the test whether an area is plain. Each writer call takes the buffer and the place behind what is
// written; its word is the place behind what is written then. It asks for room for a refusal before it does anything. The crate `c13` gives each
// its C name.
#![tactic(auto)]

ghost use Rattle.std.specs.Prelude.{◌≡◌};
ghost use Rattle.reading.specs.Reading.{open_checksums, open_inlinees, open_imports, open_exports, opaque};
ghost use Rattle.writer_decides.specs.Calls.{call_lines, call_block, call_checksum, call_inlinee, call_module, call_pair};
ghost use Rattle.writer.specs.Told.{told_wrote};
ghost use Rattle.answer_words.specs.Given.{Gives, one, reply_given};
ghost use Rattle.export_write.specs.Calls.{wrote_given, buffer_left, plain_given};

use answer_words::{GIVEN, NONE, REFUSAL_WORDS, TOO_SHORT, put, put_refusal};
use plain::is_plain;
use refusal::{LONGEST, Refusal};

// Whether an area is plain; one of more than 16,777,216 bytes is refused with 11. Words: the place of its last header, and the kind and the mark of its
// last subsection, all 0 in an empty area.
pub fn plain(area: &[u8], out: &mut [u64]) -> u32
    ensures { Gives out.old (plain_given area.now) result out.new }
{
    if LONGEST < area.len() {
        return put_refusal(out, 0, Refusal::TooLong);
    }
    match is_plain(area) {
        Some(last) => put(
            out,
            0,
            &[last.header as u64, last.kind as u64, last.mark],
            GIVEN,
        ),
        None => NONE,
    }
}

fn put_wrote(out: &mut [u64], wrote: Result<usize, Refusal>) -> u32
    ensures { Gives out.old (reply_given one (told_wrote wrote)) result out.new }
{
    match wrote {
        Ok(next) => put(out, 0, &[next as u64], GIVEN),
        Err(why) => put_refusal(out, 0, why),
    }
}

pub fn open_lines(
    buf: &mut [u8],
    place: usize,
    offset: u32,
    section: u16,
    flags: u16,
    code: u32,
    out: &mut [u64],
) -> u32
    ensures gives { Gives out.old
        (wrote_given (call_lines offset section flags code) buf.old place out.old)
        result out.new }
    ensures buf_after { buf.new ≡ buffer_left (call_lines offset section flags code) buf.old place out.old }
{
    if out.len() < REFUSAL_WORDS {
        return TOO_SHORT;
    }
    put_wrote(
        out,
        writer::open_lines(buf, place, offset, section, flags, code),
    )
}

pub fn add_block(
    buf: &mut [u8],
    place: usize,
    file: u32,
    lines: &[u32],
    columns: &[u32],
    out: &mut [u64],
) -> u32
    ensures gives { Gives out.old
        (wrote_given (call_block file lines.now columns.now) buf.old place out.old)
        result out.new }
    ensures buf_after { buf.new ≡ buffer_left (call_block file lines.now columns.now) buf.old place out.old }
{
    if out.len() < REFUSAL_WORDS {
        return TOO_SHORT;
    }
    put_wrote(out, writer::add_block(buf, place, file, lines, columns))
}

pub fn open_checksums(buf: &mut [u8], place: usize, out: &mut [u64]) -> u32
    ensures gives { Gives out.old (wrote_given open_checksums buf.old place out.old) result out.new }
    ensures buf_after { buf.new ≡ buffer_left open_checksums buf.old place out.old }
{
    if out.len() < REFUSAL_WORDS {
        return TOO_SHORT;
    }
    put_wrote(out, writer::open_checksums(buf, place))
}

pub fn add_entry(
    buf: &mut [u8],
    place: usize,
    name: u32,
    kind: u8,
    bytes: &[u8],
    out: &mut [u64],
) -> u32
    ensures gives { Gives out.old
        (wrote_given (call_checksum name kind bytes.now) buf.old place out.old)
        result out.new }
    ensures buf_after { buf.new ≡ buffer_left (call_checksum name kind bytes.now) buf.old place out.old }
{
    if out.len() < REFUSAL_WORDS {
        return TOO_SHORT;
    }
    put_wrote(out, writer::add_checksum(buf, place, name, kind, bytes))
}

pub fn open_inlinees(buf: &mut [u8], place: usize, signature: u32, out: &mut [u64]) -> u32
    ensures gives { Gives out.old (wrote_given (open_inlinees signature) buf.old place out.old) result out.new }
    ensures buf_after { buf.new ≡ buffer_left (open_inlinees signature) buf.old place out.old }
{
    if out.len() < REFUSAL_WORDS {
        return TOO_SHORT;
    }
    put_wrote(out, writer::open_inlinees(buf, place, signature))
}

pub fn add_inlinee(
    buf: &mut [u8],
    place: usize,
    inlinee: u32,
    file: u32,
    line: u32,
    extra: &[u32],
    out: &mut [u64],
) -> u32
    ensures gives { Gives out.old
        (wrote_given (call_inlinee inlinee file line extra.now) buf.old place out.old)
        result out.new }
    ensures buf_after { buf.new ≡ buffer_left (call_inlinee inlinee file line extra.now) buf.old place out.old }
{
    if out.len() < REFUSAL_WORDS {
        return TOO_SHORT;
    }
    put_wrote(
        out,
        writer::add_inlinee(buf, place, inlinee, file, line, extra),
    )
}

pub fn open_imports(buf: &mut [u8], place: usize, out: &mut [u64]) -> u32
    ensures gives { Gives out.old (wrote_given open_imports buf.old place out.old) result out.new }
    ensures buf_after { buf.new ≡ buffer_left open_imports buf.old place out.old }
{
    if out.len() < REFUSAL_WORDS {
        return TOO_SHORT;
    }
    put_wrote(out, writer::open_imports(buf, place))
}

pub fn add_module(buf: &mut [u8], place: usize, name: u32, words: &[u32], out: &mut [u64]) -> u32
    ensures gives { Gives out.old
        (wrote_given (call_module name words.now) buf.old place out.old)
        result out.new }
    ensures buf_after { buf.new ≡ buffer_left (call_module name words.now) buf.old place out.old }
{
    if out.len() < REFUSAL_WORDS {
        return TOO_SHORT;
    }
    put_wrote(out, writer::add_module(buf, place, name, words))
}

pub fn open_exports(buf: &mut [u8], place: usize, out: &mut [u64]) -> u32
    ensures gives { Gives out.old (wrote_given open_exports buf.old place out.old) result out.new }
    ensures buf_after { buf.new ≡ buffer_left open_exports buf.old place out.old }
{
    if out.len() < REFUSAL_WORDS {
        return TOO_SHORT;
    }
    put_wrote(out, writer::open_exports(buf, place))
}

pub fn add_pair(buf: &mut [u8], place: usize, local: u32, global: u32, out: &mut [u64]) -> u32
    ensures gives { Gives out.old (wrote_given (call_pair local global) buf.old place out.old) result out.new }
    ensures buf_after { buf.new ≡ buffer_left (call_pair local global) buf.old place out.old }
{
    if out.len() < REFUSAL_WORDS {
        return TOO_SHORT;
    }
    put_wrote(out, writer::add_pair(buf, place, local, global))
}

pub fn add_opaque(buf: &mut [u8], place: usize, kind: u32, body: &[u8], out: &mut [u64]) -> u32
    ensures gives { Gives out.old (wrote_given (opaque kind body.now) buf.old place out.old) result out.new }
    ensures buf_after { buf.new ≡ buffer_left (opaque kind body.now) buf.old place out.old }
{
    if out.len() < REFUSAL_WORDS {
        return TOO_SHORT;
    }
    put_wrote(out, writer::add_opaque(buf, place, kind, body))
}
