// The lines of `c13dump`'s text: a head, a subsection, a file, a line record, the end, a refusal. Each is put into a lent buffer behind what stands
// there, with its newline: whole where it fits, else it is refused with 10 and the buffer stays as found.
//
// So a line is made piece by piece at the start of a line of its own, and then put as one piece. A file's checksum may be of any size and is put from
// where it stands, when the room for it and for what is around it was tested.
#![tactic(auto)]

ghost use Rattle.std.specs.Prelude.{◌≡◌, ◌∷◌, [], ℕ, ◌+◌, ◌≤◌, ◌<◌, length, take};
ghost use Rattle.text.specs.Text.{ascii, decimal, at as place_at, page, room_at, piece_written, joined};
ghost use Rattle.text.specs.PageLaws.{written_all};
ghost use Rattle.text.specs.Told.{told_place};
ghost use Rattle.refusal.specs.Told.{told, number_of};
ghost use Rattle.checksums.specs.Told.{told_kind};
ghost use Rattle.line_record.specs.Told.{told_line_kind, told_length, told_column};
ghost use Rattle.printed.specs.Printed.{head_line, sub_line, checksum_word, bytes_text, file_line, end_of_text, refused_line, longest_line};
ghost use Rattle.printed.specs.PrintedLaws.{Short, short_line, file_head, text_size};
ghost use Rattle.printed.specs.LineText.{length_text, side_text, kind_text, address_pieces, source_pieces, origin_pieces, record_line};
ghost use Rattle.printed.specs.LineTextLaws.{ShortLength, ShortColumn};

use checksums::ChecksumKind;
use line_record::{LineKind, LineRecord};
use refusal::{Refusal, number};
use text::{put_bytes, put_decimal, put_hex, put_hex_bytes, room};

// The line that was made at the start of `line`, put where it fits whole.
fn put_line(
    buf: &mut [u8],
    place: Result<usize, Refusal>,
    line: &[u8],
    made: Result<usize, Refusal>,
) -> Result<usize, Refusal>
    requires { (n : ℕ) → told_place made ≡ place_at n → n ≤ length line.now }
    ensures { (n : ℕ) → told_place made ≡ place_at n
        → page buf.new (told_place result) ≡ piece_written (take n line.now) (page buf.old (told_place place)) }
{
    let n = made?;
    put_bytes(buf, place, &line[..n])
}

// A word and a number.
fn put_count(
    buf: &mut [u8],
    place: Result<usize, Refusal>,
    word: &[u8],
    n: u64,
) -> Result<usize, Refusal>
    ensures { page buf.new (told_place result) ≡ written_all (word.now ∷ decimal n ∷ []) (page buf.old (told_place place)) }
{
    let p = put_bytes(buf, place, word);
    put_decimal(buf, p, n)
}

fn head_pieces(line: &mut [u8], place: Result<usize, Refusal>, len: usize) -> Result<usize, Refusal>
    ensures { page line.new (told_place result) ≡ written_all (head_line len) (page line.old (told_place place)) }
{
    let p = put_count(line, place, b"c13 ", len as u64);
    put_bytes(line, p, b" bytes\n")
}

pub fn put_head(buf: &mut [u8], place: Result<usize, Refusal>, len: usize) -> Result<usize, Refusal>
    ensures { page buf.new (told_place result) ≡ piece_written (joined (head_line len)) (page buf.old (told_place place)) }
{
    let mut line = [0u8; 256];
    let made = head_pieces(&mut line, Ok(0), len);
    put_line(buf, place, &line, made)
}

fn sub_pieces(
    line: &mut [u8],
    place: Result<usize, Refusal>,
    kind: u32,
    len: usize,
) -> Result<usize, Refusal>
    ensures { page line.new (told_place result) ≡ written_all (sub_line kind len) (page line.old (told_place place)) }
{
    let a = put_bytes(line, place, b"sub ");
    let b = put_hex(line, a, kind as u64);
    let c = put_count(line, b, b" ", len as u64);
    put_bytes(line, c, b"\n")
}

pub fn put_sub(
    buf: &mut [u8],
    place: Result<usize, Refusal>,
    kind: u32,
    len: usize,
) -> Result<usize, Refusal>
    ensures { page buf.new (told_place result) ≡ piece_written (joined (sub_line kind len)) (page buf.old (told_place place)) }
{
    let mut line = [0u8; 256];
    let made = sub_pieces(&mut line, Ok(0), kind, len);
    put_line(buf, place, &line, made)
}

fn put_word(
    buf: &mut [u8],
    place: Result<usize, Refusal>,
    kind: ChecksumKind,
) -> Result<usize, Refusal>
    ensures { page buf.new (told_place result) ≡ piece_written (checksum_word (told_kind kind)) (page buf.old (told_place place)) }
{
    match kind {
        ChecksumKind::None => put_bytes(buf, place, b"none"),
        ChecksumKind::Md5 => put_bytes(buf, place, b"md5"),
        ChecksumKind::Sha1 => put_bytes(buf, place, b"sha1"),
        ChecksumKind::Sha256 => put_bytes(buf, place, b"sha256"),
    }
}

fn put_sum(buf: &mut [u8], place: Result<usize, Refusal>, bytes: &[u8]) -> Result<usize, Refusal>
    ensures { page buf.new (told_place result) ≡ piece_written (bytes_text bytes.now) (page buf.old (told_place place)) }
{
    if bytes.len() == 0 {
        return put_bytes(buf, place, b"-");
    }
    put_hex_bytes(buf, place, bytes)
}

// What stands in a file's line before its checksum.
fn file_pieces(
    line: &mut [u8],
    place: Result<usize, Refusal>,
    at: usize,
    name: u32,
    kind: ChecksumKind,
) -> Result<usize, Refusal>
    ensures { page line.new (told_place result) ≡ written_all (file_head at name (told_kind kind)) (page line.old (told_place place)) }
{
    let a = put_count(line, place, b"file ", at as u64);
    let b = put_count(line, a, b" name ", name as u64);
    let c = put_bytes(line, b, b" ");
    let d = put_word(line, c, kind);
    put_bytes(line, d, b" ")
}

// How long the text of a checksum of `size` bytes is.
#[tactic(auto, using(crate::specs::PrintedLaws::size_none, crate::specs::PrintedLaws::size_some))]
fn text_size(size: usize) -> usize
    requires { size < 9223372036854775808 }
    ensures { result ≡ text_size size }
{
    if size == 0 {
        return 1;
    }
    2 * size
}

// The place, if a head of that many bytes, a checksum of `size` bytes and a newline fit there. The first test keeps the sum small.
#[tactic(auto, using(text::specs::PageLaws::room_less))]
fn file_room(
    len: usize,
    place: Result<usize, Refusal>,
    head: usize,
    size: usize,
) -> Result<usize, Refusal>
    requires { (len < 9223372036854775808) × (head ≤ short_line) × (size < 9223372036854775808) }
    ensures { told_place result ≡ room_at len (head + (text_size size + 1)) (told_place place) }
{
    let text = text_size(size);
    if len < text {
        return room(len, place, text);
    }
    room(len, place, head + (text + 1))
}

fn put_around(
    buf: &mut [u8],
    place: Result<usize, Refusal>,
    head: &[u8],
    bytes: &[u8],
) -> Result<usize, Refusal>
    requires { length head.now ≤ short_line }
    ensures { page buf.new (told_place result)
        ≡ piece_written (joined (head.now ∷ bytes_text bytes.now ∷ ascii "\n" ∷ [])) (page buf.old (told_place place)) }
{
    match file_room(buf.len(), place, head.len(), bytes.len()) {
        Ok(at) => {
            let a = put_bytes(buf, Ok(at), head);
            let b = put_sum(buf, a, bytes);
            put_bytes(buf, b, b"\n")
        }
        Err(no_room) => Err(no_room),
    }
}

pub fn put_file(
    buf: &mut [u8],
    place: Result<usize, Refusal>,
    at: usize,
    name: u32,
    kind: ChecksumKind,
    bytes: &[u8],
) -> Result<usize, Refusal>
    ensures { page buf.new (told_place result)
        ≡ piece_written (joined (file_line at name (told_kind kind) bytes.now)) (page buf.old (told_place place)) }
{
    let mut line = [0u8; 256];
    let n = file_pieces(&mut line, Ok(0), at, name, kind)?;
    put_around(buf, place, &line[..n], bytes)
}

pub fn put_end(buf: &mut [u8], place: Result<usize, Refusal>) -> Result<usize, Refusal>
    ensures { page buf.new (told_place result) ≡ piece_written (joined end_of_text) (page buf.old (told_place place)) }
{
    put_bytes(buf, place, b"end\n")
}

fn refused_pieces(
    line: &mut [u8],
    place: Result<usize, Refusal>,
    why: Refusal,
) -> Result<usize, Refusal>
    ensures { page line.new (told_place result) ≡ written_all (refused_line (number_of (told why))) (page line.old (told_place place)) }
{
    let p = put_count(line, place, b"refused ", number(why));
    put_bytes(line, p, b"\n")
}

pub fn put_refused(
    buf: &mut [u8],
    place: Result<usize, Refusal>,
    why: Refusal,
) -> Result<usize, Refusal>
    ensures { page buf.new (told_place result)
        ≡ piece_written (joined (refused_line (number_of (told why)))) (page buf.old (told_place place)) }
{
    let mut line = [0u8; 256];
    let made = refused_pieces(&mut line, Ok(0), why);
    put_line(buf, place, &line, made)
}

// ---- the line of a line record: address and length, file and lines, columns and kind, where the body stands

fn put_length(
    buf: &mut [u8],
    place: Result<usize, Refusal>,
    length: Option<u32>,
) -> Result<usize, Refusal>
    ensures result_after { page buf.new (told_place result) ≡ piece_written (length_text (told_length length)) (page buf.old (told_place place)) }
    ensures short_length { ShortLength length }
{
    match length {
        None => put_bytes(buf, place, b"-"),
        Some(n) => put_decimal(buf, place, n as u64),
    }
}

fn put_side(
    buf: &mut [u8],
    place: Result<usize, Refusal>,
    column: Option<u32>,
) -> Result<usize, Refusal>
    ensures result_after { page buf.new (told_place result) ≡ piece_written (side_text (told_column column)) (page buf.old (told_place place)) }
    ensures short_column { ShortColumn column }
{
    match column {
        None => put_bytes(buf, place, b""),
        Some(n) => put_decimal(buf, place, n as u64),
    }
}

fn put_kind(buf: &mut [u8], place: Result<usize, Refusal>, kind: LineKind) -> Result<usize, Refusal>
    ensures { page buf.new (told_place result) ≡ piece_written (kind_text (told_line_kind kind)) (page buf.old (told_place place)) }
{
    match kind {
        LineKind::Statement => put_bytes(buf, place, b" st"),
        LineKind::Expression => put_bytes(buf, place, b" ex"),
    }
}

// Section, offset and length.
fn put_address(
    buf: &mut [u8],
    place: Result<usize, Refusal>,
    r: LineRecord,
) -> Result<usize, Refusal>
    ensures result_after { page buf.new (told_place result) ≡ written_all (address_pieces r) (page buf.old (told_place place)) }
    ensures short { Short r.section × Short r.offset × ShortLength r.length }
{
    let length = r.length;
    let a = put_count(buf, place, b"line ", r.section as u64);
    let b = put_bytes(buf, a, b":");
    let c = put_hex(buf, b, r.offset as u64);
    let d = put_bytes(buf, c, b" len ");
    put_length(buf, d, length)
}

// File and lines.
fn put_source(
    buf: &mut [u8],
    place: Result<usize, Refusal>,
    r: LineRecord,
) -> Result<usize, Refusal>
    ensures result_after { page buf.new (told_place result) ≡ written_all (source_pieces r) (page buf.old (told_place place)) }
    ensures short { Short r.file × Short r.start_line × Short r.end_line }
{
    let a = put_count(buf, place, b" file ", r.file as u64);
    let b = put_count(buf, a, b" ", r.start_line as u64);
    put_count(buf, b, b"-", r.end_line as u64)
}

// Kind, and where the body stands.
fn put_origin(
    buf: &mut [u8],
    place: Result<usize, Refusal>,
    r: LineRecord,
) -> Result<usize, Refusal>
    ensures result_after { page buf.new (told_place result) ≡ written_all (origin_pieces r) (page buf.old (told_place place)) }
    ensures short { Short r.body }
{
    let kind = r.kind;
    let k = put_kind(buf, place, kind);
    let p = put_count(buf, k, b" @", r.body as u64);
    put_bytes(buf, p, b"\n")
}

// The second promise is what every record's type keeps.
fn record_pieces(
    line: &mut [u8],
    place: Result<usize, Refusal>,
    r: LineRecord,
) -> Result<usize, Refusal>
    ensures result_after { page line.new (told_place result) ≡ written_all (record_line r) (page line.old (told_place place)) }
    ensures r_len_bound { length (joined (record_line r)) ≤ short_line }
{
    let start = r.column_start;
    let end = r.column_end;
    let a = put_address(line, place, r);
    let b = put_source(line, a, r);
    let c = put_bytes(line, b, b" ");
    let d = put_side(line, c, start);
    let e = put_bytes(line, d, b"-");
    let f = put_side(line, e, end);
    put_origin(line, f, r)
}

// The second promise is what every record's type keeps: its line fits the room that a line has.
pub fn put_record(
    buf: &mut [u8],
    place: Result<usize, Refusal>,
    r: LineRecord,
) -> Result<usize, Refusal>
    ensures result_after { page buf.new (told_place result) ≡ piece_written (joined (record_line r)) (page buf.old (told_place place)) }
    ensures r_len_bound { length (joined (record_line r)) ≤ longest_line }
{
    let mut line = [0u8; 256];
    let made = record_pieces(&mut line, Ok(0), r);
    put_line(buf, place, &line, made)
}
