// The files of an area: the entries of its last checksum subsection, after the tests over the whole area that come before every reading of lines
// (crate: `LineProgram::files`, `LineProgram::get_file_info`, `FileIterator`).
//
// A file's index is the byte offset of its entry in the body. Its checksum is a kind, and the place and the length of its bytes in the area, which
// `checksum_bytes` hands back.
#![tactic(auto)]

ghost use Rattle.std.specs.Prelude.{◌≡◌, ◌+◌, ◌≤◌, length};
ghost use Rattle.walk.specs.Listing.{gave};
ghost use Rattle.kinds.specs.Kind.{crate_rule};
ghost use Rattle.find.specs.Find.{HandsSpan};
ghost use Rattle.find.specs.Told.{told_found};
ghost use Rattle.table.specs.Table.{spot_of};
ghost use Rattle.table.specs.Told.{told_spot};
ghost use Rattle.files.specs.Files.{files_sub, file_step, file_in, file_in_part, file_at, part_of};
ghost use Rattle.files.specs.Told.{told_file, told_info};

use checksums::{Entry, entry_at};
use find::{Span, last_of};
use kinds::FILE_CHECKSUMS;
use lines::count_lines;
use refusal::{LONGEST, Refusal};
use table::{Spot, TableWalk, spot_in, spot_new};

// Where the checksum body stands.
#[tactic(auto, using(crate::proofs::FilesLaws::body_passed, crate::proofs::FilesLaws::body_refused))]
pub fn checksum_body(area: &[u8]) -> Result<Option<Span>, Refusal>
    ensures { told_found result ≡ files_sub crate_rule area.now }
{
    count_lines(area)?;
    last_of(area, FILE_CHECKSUMS)
}

#[tactic(auto, using(table::specs::TableLaws::spot_new_is, table::specs::TableLaws::spot_in_is))]
fn spot_files(area: &[u8], walk: TableWalk) -> Result<Option<Spot>, Refusal>
    ensures { told_spot result ≡ spot_of (files_sub crate_rule area.now) area.now walk }
{
    match walk {
        TableWalk::New => spot_new(checksum_body(area)),
        TableWalk::In { start, len, at } => spot_in(area, start, len, at),
    }
}

// A file of an area: the place of its checksum counts from the area's start.
#[derive(Clone, Copy)]
pub struct File {
    pub index: u32,
    pub entry: Entry,
}

// A file of an area, and the walk behind it.
pub fn next_file(area: &[u8], walk: TableWalk) -> Result<Option<(File, TableWalk)>, Refusal>
    ensures { told_file result ≡ file_step crate_rule area.now walk }
{
    let Some(spot) = spot_files(area, walk)? else {
        return Ok(None);
    };
    let body = &area[spot.start..spot.start + spot.len];
    let Some((entry, at)) = entry_at(body, spot.at)? else {
        return Ok(None); // the body has no entry more
    };
    let file = File {
        index: spot.at as u32,
        entry: Entry {
            start: spot.start + entry.start,
            ..entry
        },
    };
    let behind = TableWalk::In {
        start: spot.start,
        len: spot.len,
        at,
    };
    Ok(Some((file, behind)))
}

// What is known of a file: its name, and its checksum.
//
// The file at an index of a checksum body that is lent alone: the place of its checksum counts from the body's start. Whoever has found the body once
// (`checksum_body`) asks here for each index.
#[tactic(auto, using(crate::proofs::FilesLaws::in_long))]
pub fn file_in(body: &[u8], index: u32) -> Result<Entry, Refusal>
    ensures { told_info result ≡ file_in body.now index }
{
    if LONGEST < body.len() {
        return Err(Refusal::TooLong);
    }
    match entry_at(body, index as usize)? {
        Some((entry, _)) => Ok(entry),
        None => Err(Refusal::NoFile(index)),
    }
}

// The file at an index of the body of `len` bytes at `start`.
fn file_in_part(area: &[u8], start: usize, len: usize, index: u32) -> Result<Entry, Refusal>
    requires { start + len ≤ length area.now }
    ensures { told_info result ≡ file_in_part area.now index (gave (record { start = start; len = len })) }
{
    let entry = file_in(&area[start..start + len], index)?;
    Ok(Entry {
        start: start + entry.start,
        ..entry
    })
}

// The file at an index. Without a checksum subsection the body is empty.
pub fn file_at(area: &[u8], index: u32) -> Result<Entry, Refusal>
    ensures { told_info result ≡ file_at crate_rule area.now index }
{
    match checksum_body(area)? {
        Some(span) => file_in_part(area, span.start, span.len, index),
        None => file_in_part(area, 0, 0, index),
    }
}

// The bytes of a checksum that an answer places in the area: the part itself. What does not lie in the area is the empty part at its start.
pub fn checksum_bytes(area: &[u8], start: usize, len: usize) -> &[u8]
    ensures { HandsSpan area.entry (part_of area.now start len) result }
{
    match spot_in(area, start, len, 0) {
        Ok(Some(spot)) => &area[spot.start..spot.start + spot.len],
        Ok(None) => &area[..0],
        Err(_) => &area[..0],
    }
}
