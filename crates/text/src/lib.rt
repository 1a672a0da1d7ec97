// Text put into a lent buffer: bytes as they are, numbers in decimal and hexadecimal, bytes in hexadecimal.
//
// A put either fits and is written whole, or writes nothing and is refused with 10; behind a refusal nothing more is written, and it is answered again.
#![tactic(auto)]

ghost use Rattle.std.specs.Prelude.{◌≡◌, ◌+◌, ◌*◌, ◌≤◌, ◌<◌, length};
ghost use Rattle.word.specs.Word.{put};
ghost use Rattle.text.specs.Text.{glyph as glyphOf, numeral, decimal, hex, hex_bytes, page, piece_written, room_at};
ghost use Rattle.text.specs.Told.{told_place};

use refusal::Refusal;

// The place, if n bytes fit there. A place is where the next piece goes in the buffer; or there is none, since a piece before it did not fit.
#[tactic(auto, using(crate::specs::PageLaws::room_at_lem, crate::specs::PageLaws::room_none, crate::specs::PageLaws::room_stopped))]
pub fn room(len: usize, place: Result<usize, Refusal>, n: usize) -> Result<usize, Refusal>
    ensures { told_place result ≡ room_at len n (told_place place) }
{
    let at = place?;
    if len < n {
        return Err(Refusal::NoRoom);
    }
    if len - n < at {
        Err(Refusal::NoRoom)
    } else {
        Ok(at)
    }
}

fn copy(buf: &mut [u8], at: usize, bytes: &[u8])
    requires { at + length bytes.now ≤ length buf.old }
    ensures { buf.new ≡ put buf.old at bytes.now }
{
    let mut i = 0;
    while i < bytes.len() {
        buf[at + i] = bytes[i];
        i += 1;
    }
}

#[tactic(auto, using(crate::specs::PageLaws::room_in, crate::specs::PageLaws::written_none))]
pub fn put_bytes(
    buf: &mut [u8],
    place: Result<usize, Refusal>,
    bytes: &[u8],
) -> Result<usize, Refusal>
    ensures { page buf.new (told_place result) ≡ piece_written bytes.now (page buf.old (told_place place)) }
{
    let n = bytes.len();
    let at = room(buf.len(), place, n)?;
    copy(buf, at, bytes);
    Ok(at + n)
}

fn low(d: u64) -> u8
    requires { d < 10 }
    ensures { result ≡ 48 + d }
{
    48 + (d as u8)
}

fn high(d: u64) -> u8
    requires { d < 16 }
    ensures { result ≡ 87 + d }
{
    87 + (d as u8)
}

#[tactic(auto, using(crate::specs::TextLaws::glyph_low, crate::specs::TextLaws::glyph_high))]
fn glyph(d: u64) -> u8
    requires { d < 16 }
    ensures { result ≡ glyphOf d }
{
    if d < 10 { low(d) } else { high(d) }
}

// How many digits a number has.
fn digits(n: u64, base: u64) -> usize
    requires { 2 ≤ base }
    ensures { result ≡ length (numeral base n) }
{
    let mut k = 1;
    let mut m = n;
    while base <= m {
        m = m / base;
        k += 1;
    }
    k
}

// The digits of a number, the last one first.
fn spell(buf: &mut [u8], at: usize, n: u64, base: u64, count: usize)
    requires le_base { (2 ≤ base) × (base ≤ 16) }
    requires count_value { (count ≡ length (numeral base n)) × (at + count ≤ length buf.old) }
    ensures { buf.new ≡ put buf.old at (numeral base n) }
{
    let mut i = count;
    let mut m = n;
    while base <= m {
        i -= 1;
        buf[at + i] = glyph(m % base);
        m = m / base;
    }
    buf[at] = glyph(m);
}

#[tactic(auto, using(crate::specs::PageLaws::room_in, crate::specs::PageLaws::written_none))]
fn put_numeral(
    buf: &mut [u8],
    place: Result<usize, Refusal>,
    n: u64,
    base: u64,
) -> Result<usize, Refusal>
    requires { (2 ≤ base) × (base ≤ 16) }
    ensures { page buf.new (told_place result) ≡ piece_written (numeral base n) (page buf.old (told_place place)) }
{
    let count = digits(n, base);
    let at = room(buf.len(), place, count)?;
    spell(buf, at, n, base, count);
    Ok(at + count)
}

pub fn put_decimal(buf: &mut [u8], place: Result<usize, Refusal>, n: u64) -> Result<usize, Refusal>
    ensures { page buf.new (told_place result) ≡ piece_written (decimal n) (page buf.old (told_place place)) }
{
    put_numeral(buf, place, n, 10)
}

pub fn put_hex(buf: &mut [u8], place: Result<usize, Refusal>, n: u64) -> Result<usize, Refusal>
    ensures { page buf.new (told_place result) ≡ piece_written (hex n) (page buf.old (told_place place)) }
{
    put_numeral(buf, place, n, 16)
}

fn spell_bytes(buf: &mut [u8], at: usize, bytes: &[u8])
    requires { at + 2 * length bytes.now ≤ length buf.old }
    ensures { buf.new ≡ put buf.old at (hex_bytes bytes.now) }
{
    let mut i = 0;
    let mut p = at;
    while i < bytes.len() {
        let b = bytes[i];
        buf[p] = glyph((b / 16) as u64);
        buf[p + 1] = glyph((b % 16) as u64);
        p += 2;
        i += 1;
    }
}

// Bytes in hexadecimal, two digits each.
#[tactic(auto, using(crate::specs::PageLaws::room_in, crate::specs::PageLaws::written_none, crate::specs::TextLaws::hex_length))]
pub fn put_hex_bytes(
    buf: &mut [u8],
    place: Result<usize, Refusal>,
    bytes: &[u8],
) -> Result<usize, Refusal>
    ensures { page buf.new (told_place result) ≡ piece_written (hex_bytes bytes.now) (page buf.old (told_place place)) }
{
    let n = 2 * bytes.len();
    let at = room(buf.len(), place, n)?;
    spell_bytes(buf, at, bytes);
    Ok(at + n)
}
