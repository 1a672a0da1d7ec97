// The writer of plain areas (added; the crate has no writer).
//
// A call takes the buffer and the place behind what is written, which is 0 at first and then what the call before answered. A step of crate `writer_decides`
// decides, on the buffer as it is; the call then writes into the part behind the place, or refuses and changes nothing.
#![tactic(auto)]

ghost use Rattle.std.specs.Prelude.{◌≡◌, ◌++◌, ◌+◌, ◌-◌, ◌*◌, ◌≤◌, ◌<◌, length, take, drop, Ok};
ghost use Rattle.word.specs.Word.{le32, put, store, header};
ghost use Rattle.reading.specs.Reading.{open_checksums, open_inlinees, open_imports, open_exports, opaque};
ghost use Rattle.body.specs.Words.{word_bytes};
ghost use Rattle.body.specs.Lines.{block_head_size};
ghost use Rattle.body.specs.Inlinees.{extended, extra_length};
ghost use Rattle.plain.specs.Plain.{size_of};
ghost use Rattle.writer_decides.specs.Calls.{open_act, wrote, kept, answered, buffer_after, call_lines, call_block, call_checksum, call_inlinee, call_module, call_pair, bytes_for};
ghost use Rattle.writer.specs.LentLaws.{over};
ghost use Rattle.writer.specs.Told.{told_wrote};

use kinds::{CROSS_SCOPE_EXPORTS, CROSS_SCOPE_IMPORTS, FILE_CHECKSUMS, INLINEE_LINES, LINES};
use lines::{BLOCK_HEAD, LINE_HEAD};
use refusal::Refusal;
use word::{put_u16, put_u32};
use writer_decides::{
    block_step, checksum_step, inlinee_step, module_step, opaque_rule, open_step, pair_step,
};

// ---- writers of bodies, each on the part of the buffer that it is lent

fn put_two(free: &mut [u8], a: u32, b: u32)
    requires { 8 ≤ length free.old }
    ensures { free.new ≡ over (le32 a ++ le32 b) free.old }
{
    put_u32(free, 0, a);
    put_u32(free, 4, b);
}

#[tactic(auto, using(word::specs::WordLaws::header_length, crate::specs::LentLaws::over_u32))]
fn put_three(free: &mut [u8], a: u32, b: u32, c: u32)
    requires { 12 ≤ length free.old }
    ensures { free.new ≡ over ((le32 a ++ le32 b) ++ le32 c) free.old }
{
    put_two(free, a, b);
    put_u32(free, 8, c);
}

fn put_words(free: &mut [u8], words: &[u32])
    requires { 4 * length words.now ≤ length free.old }
    ensures { free.new ≡ over (word_bytes words.now) free.old }
{
    for (i, word) in words.iter().enumerate() {
        put_u32(free, 4 * i, *word);
    }
}

// The bytes at the start of the free ones.
fn copy(bytes: &[u8], free: &mut [u8])
    requires { length bytes.now ≤ length free.old }
    ensures { free.new ≡ take (length bytes.now) bytes.now ++ drop (length bytes.now) free.old }
{
    for (i, byte) in bytes.iter().enumerate() {
        free[i] = *byte;
    }
}

// A whole subsection.
fn put_raw(free: &mut [u8], kind: u32, body: &[u8])
    requires { (8 + length body.now ≤ length free.old) × (length body.now < 4294967296) }
    ensures { free.new ≡ over (header kind (length body.now) ++ body.now) free.old }
{
    put_two(free, kind, body.len() as u32);
    copy(body, &mut free[8..]);
}

fn put_module(free: &mut [u8], name: u32, words: &[u32])
    requires { (8 + 4 * length words.now ≤ length free.old) × (length words.now < 4294967296) }
    ensures { free.new ≡ over (bytes_for 0 (call_module name words.now)) free.old }
{
    put_two(free, name, words.len() as u32);
    put_words(&mut free[8..], words);
}

// What stands behind inlinee, file and line.
fn put_extra(free: &mut [u8], extra: &[u32])
    requires { (4 + 4 * length extra.now ≤ length free.old) × (length extra.now < 4294967296) }
    ensures { free.new ≡ over (le32 (length extra.now) ++ word_bytes extra.now) free.old }
{
    put_u32(free, 0, extra.len() as u32);
    put_words(&mut free[4..], extra);
}

fn put_inlinee(free: &mut [u8], mark: u64, inlinee: u32, file: u32, line: u32, extra: &[u32])
    requires { (12 + extra_length (extended mark) (length extra.now) ≤ length free.old) × (length extra.now < 4294967296) }
    ensures { free.new ≡ over (bytes_for mark (call_inlinee inlinee file line extra.now)) free.old }
{
    put_three(free, inlinee, file, line);
    if mark == 1 {
        put_extra(&mut free[12..], extra);
    }
}

fn put_checksum(free: &mut [u8], name: u32, kind: u8, bytes: &[u8])
    requires { (length bytes.now + 8 ≤ length free.old) × (length bytes.now ≡ size_of kind) }
    ensures { free.new ≡ over (bytes_for 0 (call_checksum name kind bytes.now)) free.old }
{
    let n = bytes.len();
    put_u32(free, 0, name);
    put_u16(free, 4, (n + 256 * (kind as usize)) as u16);
    copy(bytes, &mut free[6..]);
    put_u16(free, 6 + n, 0);
}

fn put_block(free: &mut [u8], file: u32, lines: &[u32], columns: &[u32])
    requires { (block_head_size + 4 * length lines.now + 4 * length columns.now ≤ length free.old) × (block_head_size + 4 * length lines.now + 4 * length columns.now < 4294967296) }
    ensures { free.new ≡ over (bytes_for 0 (call_block file lines.now columns.now)) free.old }
{
    let n = 4 * lines.len();
    let size = BLOCK_HEAD + n + 4 * columns.len();
    put_three(free, file, (lines.len() / 2) as u32, size as u32);
    put_words(&mut free[BLOCK_HEAD..], lines);
    put_words(&mut free[BLOCK_HEAD + n..], columns);
}

// The last length: its subsection ends at next.
fn put_length(buf: &mut [u8], header: usize, next: usize) -> Result<usize, Refusal>
    requires { (header + 8 ≤ next) × (next ≤ 16777216) }
    ensures value { result ≡ Ok next }
    ensures buf_after { buf.new ≡ store buf.old (header + 4) (le32 (next - header - 8)) }
{
    put_u32(buf, header + 4, (next - header - 8) as u32);
    Ok(next)
}

// ---- the calls

// A new subsection with its first bytes.
fn open_with(
    buf: &mut [u8],
    written: usize,
    kind: u32,
    fine: bool,
    head: &[u8],
) -> Result<usize, Refusal>
    ensures result_value { told_wrote result ≡ wrote (open_act fine (8 + length head.now) buf.old written) }
    ensures buf_after { buf.new ≡ kept (open_act fine (8 + length head.now) buf.old written) (λ h m. put buf.old written (header kind (length head.now) ++ head.now)) buf.old }
{
    let go = open_step(buf, written, fine, 8 + head.len())?;
    put_raw(&mut buf[written..], kind, head);
    Ok(go.next)
}

#[tactic(auto, using(writer_decides::specs::CallLaws::opened, crate::specs::LentLaws::head_made))]
pub fn open_lines(
    buf: &mut [u8],
    written: usize,
    offset: u32,
    section: u16,
    flags: u16,
    code: u32,
) -> Result<usize, Refusal>
    ensures result_value { told_wrote result ≡ answered (call_lines offset section flags code) buf.old written }
    ensures buf_after { buf.new ≡ buffer_after (call_lines offset section flags code) buf.old written }
{
    let mut head = [0u8; LINE_HEAD];
    put_u32(&mut head, 0, offset);
    put_u16(&mut head, 4, section);
    put_u16(&mut head, 6, flags);
    put_u32(&mut head, 8, code);
    open_with(buf, written, LINES, true, &head)
}

pub fn open_checksums(buf: &mut [u8], written: usize) -> Result<usize, Refusal>
    ensures result_value { told_wrote result ≡ answered open_checksums buf.old written }
    ensures buf_after { buf.new ≡ buffer_after open_checksums buf.old written }
{
    let none = [0u8; 0];
    open_with(buf, written, FILE_CHECKSUMS, true, &none)
}

#[tactic(auto, using(writer_decides::specs::CallLaws::opened, crate::specs::LentLaws::signature_made))]
pub fn open_inlinees(buf: &mut [u8], written: usize, signature: u32) -> Result<usize, Refusal>
    ensures result_value { told_wrote result ≡ answered (open_inlinees signature) buf.old written }
    ensures buf_after { buf.new ≡ buffer_after (open_inlinees signature) buf.old written }
{
    let mut head = [0u8; 4];
    put_u32(&mut head, 0, signature);
    open_with(buf, written, INLINEE_LINES, signature <= 1, &head)
}

pub fn open_imports(buf: &mut [u8], written: usize) -> Result<usize, Refusal>
    ensures result_value { told_wrote result ≡ answered open_imports buf.old written }
    ensures buf_after { buf.new ≡ buffer_after open_imports buf.old written }
{
    let none = [0u8; 0];
    open_with(buf, written, CROSS_SCOPE_IMPORTS, true, &none)
}

pub fn open_exports(buf: &mut [u8], written: usize) -> Result<usize, Refusal>
    ensures result_value { told_wrote result ≡ answered open_exports buf.old written }
    ensures buf_after { buf.new ≡ buffer_after open_exports buf.old written }
{
    let none = [0u8; 0];
    open_with(buf, written, CROSS_SCOPE_EXPORTS, true, &none)
}

pub fn add_opaque(buf: &mut [u8], written: usize, kind: u32, body: &[u8]) -> Result<usize, Refusal>
    ensures result_value { told_wrote result ≡ answered (opaque kind body.now) buf.old written }
    ensures buf_after { buf.new ≡ buffer_after (opaque kind body.now) buf.old written }
{
    let fine = opaque_rule(kind, body.len());
    open_with(buf, written, kind, fine, body)
}

pub fn add_block(
    buf: &mut [u8],
    written: usize,
    file: u32,
    lines: &[u32],
    columns: &[u32],
) -> Result<usize, Refusal>
    ensures result_value { told_wrote result ≡ answered (call_block file lines.now columns.now) buf.old written }
    ensures buf_after { buf.new ≡ buffer_after (call_block file lines.now columns.now) buf.old written }
{
    let go = block_step(buf, written, lines, columns)?;
    put_block(&mut buf[written..], file, lines, columns);
    put_length(buf, go.header, go.next)
}

pub fn add_checksum(
    buf: &mut [u8],
    written: usize,
    name: u32,
    kind: u8,
    bytes: &[u8],
) -> Result<usize, Refusal>
    ensures result_value { told_wrote result ≡ answered (call_checksum name kind bytes.now) buf.old written }
    ensures buf_after { buf.new ≡ buffer_after (call_checksum name kind bytes.now) buf.old written }
{
    let go = checksum_step(buf, written, kind, bytes)?;
    put_checksum(&mut buf[written..], name, kind, bytes);
    put_length(buf, go.header, go.next)
}

pub fn add_inlinee(
    buf: &mut [u8],
    written: usize,
    inlinee: u32,
    file: u32,
    line: u32,
    extra: &[u32],
) -> Result<usize, Refusal>
    ensures result_value { told_wrote result ≡ answered (call_inlinee inlinee file line extra.now) buf.old written }
    ensures buf_after { buf.new ≡ buffer_after (call_inlinee inlinee file line extra.now) buf.old written }
{
    let go = inlinee_step(buf, written, extra)?;
    put_inlinee(&mut buf[written..], go.mark, inlinee, file, line, extra);
    put_length(buf, go.header, go.next)
}

pub fn add_module(
    buf: &mut [u8],
    written: usize,
    name: u32,
    words: &[u32],
) -> Result<usize, Refusal>
    ensures result_value { told_wrote result ≡ answered (call_module name words.now) buf.old written }
    ensures buf_after { buf.new ≡ buffer_after (call_module name words.now) buf.old written }
{
    let go = module_step(buf, written, words)?;
    put_module(&mut buf[written..], name, words);
    put_length(buf, go.header, go.next)
}

pub fn add_pair(buf: &mut [u8], written: usize, local: u32, global: u32) -> Result<usize, Refusal>
    ensures result_value { told_wrote result ≡ answered (call_pair local global) buf.old written }
    ensures buf_after { buf.new ≡ buffer_after (call_pair local global) buf.old written }
{
    let go = pair_step(buf, written, local)?;
    put_two(&mut buf[written..], local, global);
    put_length(buf, go.header, go.next)
}
