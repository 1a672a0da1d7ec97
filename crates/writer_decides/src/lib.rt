// What a call of the writer will do, decided on the buffer as it is: go on, or refuse with 16, 17 or 10, in this order.
//
// A call takes the buffer and the place behind what is written. It trusts no caller: the bytes before the place are read each time. All calls have
// two shapes: a new subsection, or more bytes for the last one.
#![tactic(auto)]

ghost use Rattle.std.specs.Prelude.{◌≡◌, true, ◌+◌, ◌*◌, length, leb};
ghost use Rattle.kinds.specs.Kind.{LINES, FILE_CHECKSUMS, INLINEE_LINES, CROSS_SCOPE_IMPORTS, CROSS_SCOPE_EXPORTS};
ghost use Rattle.body.specs.Lines.{block_head_size};
ghost use Rattle.body.specs.Inlinees.{extended, extra_length};
ghost use Rattle.body.specs.Checksums.{up4};
ghost use Rattle.plain.specs.Told.{told_plain};
ghost use Rattle.writer_decides.specs.Calls.{block_rule, checksum_rule, extra_rule, opaque_rule, limit, place, of_kind, room, else_not_plain, open_act, grow_act};
ghost use Rattle.writer_decides.specs.Told.{told_act};

use kinds::{CROSS_SCOPE_EXPORTS, CROSS_SCOPE_IMPORTS, FILE_CHECKSUMS, INLINEE_LINES, LINES};
use lines::BLOCK_HEAD;
use plain::{Last, is_opaque, is_plain, size_of};
use refusal::{LONGEST, Refusal};

// What a call that goes on will do: write up to next, the last subsection's header and mark being these.
#[derive(Clone, Copy)]
pub struct Go {
    pub header: usize,
    pub mark: u64,
    pub next: usize,
}

fn limit_of(len: usize) -> usize
    ensures { result ≡ limit len }
{
    if len < LONGEST {
        return len;
    }
    LONGEST
}

// Number 10.
fn room_for(
    len: usize,
    written: usize,
    header: usize,
    mark: u64,
    need: usize,
) -> Result<Go, Refusal>
    ensures { told_act result ≡ room len written header mark need }
{
    let most = limit_of(len);
    if written <= most {
        if need <= most - written {
            return Ok(Go {
                header,
                mark,
                next: written + need,
            });
        }
    }
    Err(Refusal::NoRoom)
}

// Number 17, then 10.
fn plain_room(
    len: usize,
    written: usize,
    header: usize,
    mark: u64,
    fine: bool,
    need: usize,
) -> Result<Go, Refusal>
    ensures { told_act result ≡ else_not_plain fine (room len written header mark need) }
{
    if fine {
        return room_for(len, written, header, mark, need);
    }
    Err(Refusal::NotPlain)
}

// Number 16: what is last before the place.
fn last_at(buf: &[u8], written: usize) -> Option<Last>
    ensures { told_plain result ≡ place buf.now written }
{
    if limit_of(buf.len()) < written {
        return None;
    }
    is_plain(&buf[..written])
}

fn last_of(buf: &[u8], written: usize, wanted: u32) -> Option<Last>
    ensures { told_plain result ≡ of_kind wanted (place buf.now written) }
{
    let last = last_at(buf, written)?;
    if last.kind == wanted {
        return Some(last);
    }
    None
}

pub fn open_step(buf: &[u8], written: usize, fine: bool, need: usize) -> Result<Go, Refusal>
    ensures { told_act result ≡ open_act fine need buf.now written }
{
    let last = last_at(buf, written).ok_or(Refusal::WrongPlace)?;
    plain_room(buf.len(), written, last.header, last.mark, fine, need)
}

pub fn pair_step(buf: &[u8], written: usize, local: u32) -> Result<Go, Refusal>
    ensures { told_act result ≡ grow_act CROSS_SCOPE_EXPORTS (λ m. leb m local) (λ m. 8) buf.now written }
{
    let last = last_of(buf, written, CROSS_SCOPE_EXPORTS).ok_or(Refusal::WrongPlace)?;
    plain_room(
        buf.len(),
        written,
        last.header,
        last.mark,
        last.mark <= local as u64,
        8,
    )
}

pub fn module_step(buf: &[u8], written: usize, words: &[u32]) -> Result<Go, Refusal>
    ensures { told_act result ≡ grow_act CROSS_SCOPE_IMPORTS (λ m. true) (λ m. 8 + 4 * length words.now) buf.now written }
{
    let last = last_of(buf, written, CROSS_SCOPE_IMPORTS).ok_or(Refusal::WrongPlace)?;
    plain_room(
        buf.len(),
        written,
        last.header,
        last.mark,
        true,
        8 + 4 * words.len(),
    )
}

pub fn inlinee_step(buf: &[u8], written: usize, extra: &[u32]) -> Result<Go, Refusal>
    ensures { told_act result ≡ grow_act INLINEE_LINES (λ m. extra_rule m (length extra.now)) (λ m. 12 + extra_length (extended m) (length extra.now)) buf.now written }
{
    let last = last_of(buf, written, INLINEE_LINES).ok_or(Refusal::WrongPlace)?;
    if last.mark == 1 {
        return plain_room(
            buf.len(),
            written,
            last.header,
            last.mark,
            true,
            16 + 4 * extra.len(),
        );
    }
    plain_room(
        buf.len(),
        written,
        last.header,
        last.mark,
        extra.len() == 0,
        12,
    )
}

fn checksum_rule(kind: u8, n: usize) -> bool
    ensures { result ≡ checksum_rule kind n }
{
    if kind <= 3 {
        return n == size_of(kind);
    }
    false
}

pub fn checksum_step(buf: &[u8], written: usize, kind: u8, bytes: &[u8]) -> Result<Go, Refusal>
    ensures { told_act result ≡ grow_act FILE_CHECKSUMS (λ m. checksum_rule kind (length bytes.now)) (λ m. up4 (6 + length bytes.now)) buf.now written }
{
    let last = last_of(buf, written, FILE_CHECKSUMS).ok_or(Refusal::WrongPlace)?;
    plain_room(
        buf.len(),
        written,
        last.header,
        last.mark,
        checksum_rule(kind, bytes.len()),
        bytes.len() + 8,
    )
}

// n line words and k column words.
fn block_rule(mark: u64, n: usize, k: usize) -> bool
    ensures { result ≡ block_rule mark n k }
{
    if n % 2 != 0 {
        return false;
    }
    if mark % 2 == 1 {
        return k == n / 2;
    }
    k == 0
}

pub fn block_step(buf: &[u8], written: usize, lines: &[u32], columns: &[u32]) -> Result<Go, Refusal>
    ensures { told_act result ≡ grow_act LINES (λ m. block_rule m (length lines.now) (length columns.now)) (λ m. block_head_size + 4 * length lines.now + 4 * length columns.now) buf.now written }
{
    let last = last_of(buf, written, LINES).ok_or(Refusal::WrongPlace)?;
    if block_rule(last.mark, lines.len(), columns.len()) {
        return room_for(
            buf.len(),
            written,
            last.header,
            last.mark,
            BLOCK_HEAD + 4 * lines.len() + 4 * columns.len(),
        );
    }
    Err(Refusal::NotPlain)
}

// The rule of an opaque body of n bytes.
pub fn opaque_rule(kind: u32, n: usize) -> bool
    ensures { result ≡ opaque_rule kind n }
{
    if is_opaque(kind) {
        return n % 4 == 0;
    }
    false
}
