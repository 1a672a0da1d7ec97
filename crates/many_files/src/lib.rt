// Many files of an area at once, in words of 32 bits (crate: `LineProgram::files`, a whole `FileIterator` in coarse calls): as many as the lent words have
// room for, and the walk behind the last. The first step of a new walk finds the checksum body, which the others know.
//
// The files before an end or a refusal are given first. A refusal is told by the next call, from the walk answered; an end shows in that walk, and is told
// again by the next call.
#![tactic(auto)]

ghost use Rattle.std.specs.Prelude.{◌≡◌, ◌≤◌, length};
ghost use Rattle.kinds.specs.Kind.{crate_rule};
ghost use Rattle.files.specs.Told.{told_file};
ghost use Rattle.walk.specs.Listing.{gives};
ghost use Rattle.answer_words.specs.Fill.{no_room, counted, filled};
ghost use Rattle.many_files.specs.Files.{file_size, file_words, files_of};
ghost use Rattle.many_files.specs.Told.{told_files};

use answer_words::put32;
use checksums::number;
use files::{File, next_file};
use refusal::Refusal;
use table::TableWalk;

// The words of a file.
pub const FILE_WORDS: usize = 5;

// What there is to answer where no file fits.
fn no_room(
    step: Result<Option<(File, TableWalk)>, Refusal>,
) -> Result<Option<(usize, TableWalk)>, Refusal>
    ensures { told_files result ≡ counted (no_room (told_file step)) }
{
    match step? {
        Some(_) => Err(Refusal::NoRoom),
        None => Ok(None),
    }
}

// What there is to answer where no other file comes: the files that are put, or `end` where there is none.
fn ended(
    n: usize,
    w: TableWalk,
    end: Result<Option<(usize, TableWalk)>, Refusal>,
) -> Result<Option<(usize, TableWalk)>, Refusal>
    ensures { (n ≡ 0 → told_files result ≡ told_files end) × ((n ≡ 0 → ⊥) → told_files result ≡ gives n w) }
{
    if n == 0 {
        return end;
    }
    Ok(Some((n, w)))
}

// The files from a walk on, put step after step; `w` is the walk behind the last of them.
fn fill(
    area: &[u8],
    walk: TableWalk,
    out: &mut [u32],
) -> Result<Option<(usize, TableWalk)>, Refusal>
    requires { file_size ≤ length out.old }
    ensures result_value { told_files result ≡ counted (files_of crate_rule area.now (length out.old) walk) }
    ensures out_after { out.new ≡ filled file_words out.old (files_of crate_rule area.now (length out.old) walk) }
{
    let room = out.len() / FILE_WORDS;
    let mut n: usize = 0;
    let mut w = walk;
    while n < room {
        match next_file(area, w) {
            Ok(Some((file, next))) => {
                let e = file.entry;
                let k = number(e.kind) as u32;
                let at = FILE_WORDS * n;
                put32(
                    &mut out[at..at + FILE_WORDS],
                    0,
                    &[file.index, e.name, k, e.start as u32, e.len as u32],
                );
                n += 1;
                w = next;
            }
            Ok(None) => {
                return ended(n, w, Ok(None));
            }
            Err(why) => {
                return ended(n, w, Err(why));
            }
        }
    }
    Ok(Some((n, w)))
}

// The files from a walk on, as many as `out` has room for: how many they are, and the walk behind the last.
pub fn next_files(
    area: &[u8],
    walk: TableWalk,
    out: &mut [u32],
) -> Result<Option<(usize, TableWalk)>, Refusal>
    ensures result_value { told_files result ≡ counted (files_of crate_rule area.now (length out.old) walk) }
    ensures out_after { out.new ≡ filled file_words out.old (files_of crate_rule area.now (length out.old) walk) }
{
    if out.len() < FILE_WORDS {
        return no_room(next_file(area, walk));
    }
    fill(area, walk, out)
}
