// The entries of a checksum body: name u32, size u8, kind u8, bytes, and padding to 4 from the start of the body (crate:
// `DebugFileChecksumsIterator`, `FileChecksumKind`, and the comparison of `FileChecksum`).
//
// The lent body is the whole body of one subsection, so that places and padding count from its start. A checksum is its kind, and the place and
// the length of its bytes.
#![tactic(auto)]

ghost use Rattle.std.specs.Prelude.{◌≡◌, ◌+◌, ◌≤◌, length};
ghost use Rattle.checksums.specs.Entry.{checksum_kind, kept_of, closed_as, entry_at};
ghost use Rattle.checksums.specs.Equal.{equal_sums};
ghost use Rattle.checksums.specs.Told.{told_kind, told_parsed, told_entry};

use refusal::Refusal;
use word::{u8_at, u32_at};

#[derive(Clone, Copy)]
pub enum ChecksumKind {
    None,
    Md5,
    Sha1,
    Sha256,
}

impl TryFrom<u8> for ChecksumKind {
    type Error = Refusal;

    ghost try_from_gives = { λ value kind. told_parsed kind ≡ checksum_kind value };

    #[tactic(auto, using(crate::specs::EntryLaws::kind_known, crate::specs::EntryLaws::kind_unknown))]
    fn try_from(value: u8) -> Result<ChecksumKind, Refusal> {
        match value {
            0 => Ok(ChecksumKind::None),
            1 => Ok(ChecksumKind::Md5),
            2 => Ok(ChecksumKind::Sha1),
            3 => Ok(ChecksumKind::Sha256),
            _ => Err(Refusal::UnknownChecksumKind(value)),
        }
    }
}

// The kind that a byte says (crate: `FileChecksumKind::parse`).
pub fn parse_kind(value: u8) -> Result<ChecksumKind, Refusal>
    ensures { told_parsed result ≡ checksum_kind value }
{
    ChecksumKind::try_from(value)
}

impl From<ChecksumKind> for u8 {
    ghost from_gives = { λ kind value. value ≡ told_kind kind };

    fn from(kind: ChecksumKind) -> u8 {
        match kind {
            ChecksumKind::None => 0,
            ChecksumKind::Md5 => 1,
            ChecksumKind::Sha1 => 2,
            ChecksumKind::Sha256 => 3,
        }
    }
}

// The number of a kind.
pub fn number(kind: ChecksumKind) -> u8
    ensures { result ≡ told_kind kind }
{
    u8::from(kind)
}

// How many of its bytes a checksum keeps: kind "none" drops them.
#[tactic(auto, using(crate::specs::EntryLaws::kept_none, crate::specs::EntryLaws::kept_all))]
fn kept(kind: ChecksumKind, size: usize) -> usize
    ensures { result ≡ kept_of (told_kind kind) size }
{
    if number(kind) == 0 { 0 } else { size }
}

// An entry: its checksum's bytes stand at `start`, `len` of them.
#[derive(Clone, Copy)]
pub struct Entry {
    pub name: u32,
    pub kind: ChecksumKind,
    pub start: usize,
    pub len: usize,
}

// An entry whose head and bytes are whole: its kind, and then its padding; and the place behind it.
#[tactic(auto, using(crate::specs::EntryLaws::closed_kind, crate::specs::EntryLaws::closed_cut, crate::specs::EntryLaws::closed_entry))]
fn closed(
    body: &[u8],
    name: u32,
    kind: u8,
    start: usize,
    size: usize,
) -> Result<Option<(Entry, usize)>, Refusal>
    requires { start + size ≤ length body.now }
    ensures { told_entry result ≡ closed_as (length body.now) name kind start size }
{
    let kind = parse_kind(kind)?;
    let next = (start + size + 3) / 4 * 4;
    if body.len() < next {
        return Err(Refusal::Cut);
    }
    let entry = Entry {
        name,
        kind,
        start,
        len: kept(kind, size),
    };
    Ok(Some((entry, next)))
}

// The entry at a place of the body, which need be no multiple of 4; and the place behind it.
#[tactic(auto, using(crate::specs::EntryLaws::entry_past, crate::specs::EntryLaws::entry_none, crate::specs::EntryLaws::entry_short, crate::specs::EntryLaws::entry_cut, crate::specs::EntryLaws::entry_closed))]
pub fn entry_at(body: &[u8], at: usize) -> Result<Option<(Entry, usize)>, Refusal>
    ensures { told_entry result ≡ entry_at body.now at }
{
    if body.len() < at {
        return Err(Refusal::Cut);
    }
    let left = body.len() - at;
    if left < 6 {
        if left == 0 {
            return Ok(None);
        }
        return Err(Refusal::Cut);
    }
    let name = u32_at(body, at);
    let size = u8_at(body, at + 4) as usize;
    let kind = u8_at(body, at + 5);
    if left - 6 < size {
        return Err(Refusal::Cut);
    }
    closed(body, name, kind, at + 6, size)
}

// Whether two checksums are equal, each given by its kind and its bytes (crate: `PartialEq for FileChecksum`): a "none" equals nothing, not even
// another "none".
#[tactic(auto, using(crate::specs::EqualLaws::sums_none, crate::specs::EqualLaws::sums_other, crate::specs::EqualLaws::sums_slices))]
pub fn checksums_equal(k: ChecksumKind, a: &[u8], j: ChecksumKind, b: &[u8]) -> bool
    ensures { result ≡ equal_sums (told_kind k) a.now (told_kind j) b.now }
{
    let n = number(k);
    if n == 0 {
        return false;
    }
    if n != number(j) {
        return false;
    }
    a == b
}
