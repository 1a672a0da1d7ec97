// The calls on files, for programs in other languages: the walk one file at a time, many files in one call, the file at an index of the area, and, for
// whoever asks often, the checksum body and the file at an index of that. A call answers a status, and the words of the answer as the crate
// `answer_words` puts them. The crate `c13` gives each its C name.
#![tactic(auto)]

ghost use Rattle.std.specs.Prelude.{◌≡◌, length};
ghost use Rattle.kinds.specs.Kind.{crate_rule};
ghost use Rattle.answer_words.specs.Given.{Gives, reply_given};
ghost use Rattle.files.specs.Told.{told_info};
ghost use Rattle.many_files.specs.Files.{info_words};
ghost use Rattle.export_files.specs.Calls.{file_given, files_given, files_left, info_given, checksums_given, file_in_given};

use answer_words::{
    GIVEN, NONE, REFUSAL_WORDS, TABLE_STATE_WORDS, TOO_SHORT, answer_status, over_table, put,
    put_refusal, walk_in, walk_words,
};
use checksums::{Entry, number};
use files::checksum_body;
use many_files::next_files;
use refusal::Refusal;

// The words of `out` that a call for many files asks for: a walk's state, and those of a refusal.
const ASKED: usize = TABLE_STATE_WORDS + REFUSAL_WORDS;

// The next file. State: of a walk over a table. Words: its index, its name, its checksum's kind, and the place and the length of the bytes.
pub fn next_file(area: &[u8], out: &mut [u64]) -> u32
    ensures { Gives out.old (file_given crate_rule area.now out.old) result out.new }
{
    match files::next_file(area, walk_in(out)) {
        Ok(Some((file, next))) => {
            let w = walk_words(next);
            let k = number(file.entry.kind) as u64;
            put(
                out,
                0,
                &[
                    w.0,
                    w.1,
                    w.2,
                    w.3,
                    file.index as u64,
                    file.entry.name as u64,
                    k,
                    file.entry.start as u64,
                    file.entry.len as u64,
                ],
                GIVEN,
            )
        }
        Ok(None) => NONE, // the state stays, so that the answer repeats
        Err(why) => put_refusal(out, TABLE_STATE_WORDS, why), // behind the state, which stays
    }
}

// The files from the walk in `out` on, into `records`, in words of 32 bits. Words: the next state, and how many files there are. Where these are the last
// ones the status says so. Where there is none to give the answer is that of `next_file`; without room for one it is number 10.
pub fn files(area: &[u8], records: &mut [u32], out: &mut [u64]) -> u32
    ensures gives { Gives out.old
        (files_given crate_rule area.now (length records.old) out.old)
        result out.new }
    ensures records_after { records.new ≡ files_left crate_rule area.now records.old out.old }
{
    if out.len() < ASKED {
        return TOO_SHORT;
    }
    match next_files(area, walk_in(out), records) {
        Ok(Some((count, next))) => {
            let status = answer_status(over_table(next));
            let w = walk_words(next);
            put(out, 0, &[w.0, w.1, w.2, w.3, count as u64], status)
        }
        Ok(None) => NONE,
        Err(why) => put_refusal(out, TABLE_STATE_WORDS, why),
    }
}

// What is known of a file. Words: its name, its checksum's kind, and the place and the length of the bytes.
fn put_info(out: &mut [u64], answer: Result<Entry, Refusal>) -> u32
    ensures { Gives out.old (reply_given info_words (told_info answer)) result out.new }
{
    match answer {
        Ok(entry) => {
            let k = number(entry.kind) as u64;
            put(
                out,
                0,
                &[entry.name as u64, k, entry.start as u64, entry.len as u64],
                GIVEN,
            )
        }
        Err(why) => put_refusal(out, 0, why), // no state stands before it
    }
}

// The file at an index.
pub fn file_at(area: &[u8], index: u32, out: &mut [u64]) -> u32
    ensures { Gives out.old (info_given crate_rule area.now index) result out.new }
{
    put_info(out, files::file_at(area, index))
}

// Where the checksum body stands in the area. Words: its start and its length; without one both are 0.
pub fn checksums(area: &[u8], out: &mut [u64]) -> u32
    ensures { Gives out.old (checksums_given crate_rule area.now) result out.new }
{
    match checksum_body(area) {
        Ok(Some(body)) => put(out, 0, &[body.start as u64, body.len as u64], GIVEN),
        Ok(None) => put(out, 0, &[0, 0], GIVEN),
        Err(why) => put_refusal(out, 0, why),
    }
}

// The file at an index of a checksum body that is lent alone: the place of the bytes is one in the body. Room for a refusal is asked for first: without that
// a call waits for what the call before it read (docs/SPEED.md, 52).
pub fn file_in(body: &[u8], index: u32, out: &mut [u64]) -> u32
    ensures { Gives out.old (file_in_given body.now index) result out.new }
{
    if out.len() < REFUSAL_WORDS {
        return TOO_SHORT; // nor for a file
    }
    put_info(out, files::file_in(body, index))
}
