// The text of `c13dump`, one line at a time: a walk by value that puts each line into a lent buffer.
//
// Its stages are those of the text: the head line, the subsections, the files, the line records, and the end or a refusal. The slots are the order
// list of the area. A line has at most `LINE` bytes, so a caller that lends as many can write each line whole.
#![tactic(auto)]

ghost use Rattle.std.specs.Prelude.{◌≡◌, ◌≤◌, length};
ghost use Rattle.kinds.specs.Kind.{crate_rule};
ghost use Rattle.text.specs.Told.{told_place};
ghost use Rattle.printed.specs.Printed.{longest_line};
ghost use Rattle.listing.specs.Step.{line_answer, lines_step, files_step, subs_step, head_step, step_of, line_shown, text_step, both};
ghost use Rattle.listing.specs.Told.{told_text};

use area::sub_at;
use files::{checksum_bytes, next_file};
use line_record::EndLines;
use line_step::LineWalk;
use line_walk::next_line;
use printed::{put_end, put_file, put_head, put_record, put_refused, put_sub};
use refusal::Refusal;
use table::TableWalk;

// The room that every line has.
pub const LINE: usize = 1024;

// The longest area that is dumped, in bytes.
pub const MOST: usize = 65536;

// Where the text stands: before its head, at a subsection, at a file, at a line record, or behind its last line.
#[derive(Clone, Copy)]
pub enum TextWalk {
    Head,
    Subs(usize),
    Files(TableWalk),
    Lines(LineWalk),
    Done,
}

fn line_of(
    place: Result<usize, Refusal>,
    next: TextWalk,
) -> Result<Option<(usize, TextWalk)>, Refusal>
    ensures { told_text result ≡ line_answer (told_place place) next }
{
    let len = place?;
    Ok(Some((len, next)))
}

fn lines_step(
    area: &[u8],
    slots: &[u32],
    walk: LineWalk,
    buf: &mut [u8],
) -> Result<Option<(usize, TextWalk)>, Refusal>
    requires { longest_line ≤ length buf.old }
    ensures { both (told_text result) buf.new ≡ line_shown buf.old (lines_step crate_rule area.now slots.now walk) }
{
    match next_line(area, slots, walk) {
        Ok(Some((r, t))) => line_of(put_record(buf, Ok(0), r), TextWalk::Lines(t)),
        Ok(None) => line_of(put_end(buf, Ok(0)), TextWalk::Done),
        Err(why) => line_of(put_refused(buf, Ok(0), why), TextWalk::Done),
    }
}

fn files_step(
    area: &[u8],
    slots: &[u32],
    walk: TableWalk,
    buf: &mut [u8],
) -> Result<Option<(usize, TextWalk)>, Refusal>
    requires { longest_line ≤ length buf.old }
    ensures { both (told_text result) buf.new ≡ line_shown buf.old (files_step crate_rule area.now slots.now walk) }
{
    match next_file(area, walk) {
        Ok(Some((file, next))) => {
            let entry = file.entry;
            let bytes = checksum_bytes(area, entry.start, entry.len);
            let place = put_file(
                buf,
                Ok(0),
                file.index as usize,
                entry.name,
                entry.kind,
                bytes,
            );
            line_of(place, TextWalk::Files(next))
        }
        Ok(None) => lines_step(area, slots, LineWalk::New(EndLines::Crate), buf),
        Err(why) => line_of(put_refused(buf, Ok(0), why), TextWalk::Done),
    }
}

fn subs_step(
    area: &[u8],
    slots: &[u32],
    at: usize,
    buf: &mut [u8],
) -> Result<Option<(usize, TextWalk)>, Refusal>
    requires { longest_line ≤ length buf.old }
    ensures { both (told_text result) buf.new ≡ line_shown buf.old (subs_step crate_rule area.now slots.now at) }
{
    match sub_at(area, at) {
        Ok(Some((sub, next))) => line_of(
            put_sub(buf, Ok(0), sub.kind, sub.len),
            TextWalk::Subs(next),
        ),
        Ok(None) => files_step(area, slots, TableWalk::New, buf),
        Err(no_sub) => line_of(put_refused(buf, Ok(0), no_sub), TextWalk::Done),
    }
}

fn head_step(area: &[u8], buf: &mut [u8]) -> Result<Option<(usize, TextWalk)>, Refusal>
    requires { longest_line ≤ length buf.old }
    ensures { both (told_text result) buf.new ≡ line_shown buf.old (head_step area.now) }
{
    if MOST < area.len() {
        return line_of(put_refused(buf, Ok(0), Refusal::TooLong), TextWalk::Done);
    }
    line_of(put_head(buf, Ok(0), area.len()), TextWalk::Subs(0))
}

// The next line of the text: how many bytes it has, which stand at the start of the buffer, and where the text stands behind it; or no line. A buffer of fewer
// than `LINE` bytes is refused with 10 and stays as found.
pub fn next_text(
    area: &[u8],
    slots: &[u32],
    walk: TextWalk,
    buf: &mut [u8],
) -> Result<Option<(usize, TextWalk)>, Refusal>
    ensures { both (told_text result) buf.new ≡ text_step buf.old (step_of crate_rule area.now slots.now walk) }
{
    if buf.len() < LINE {
        return Err(Refusal::NoRoom);
    }
    match walk {
        TextWalk::Head => head_step(area, buf),
        TextWalk::Subs(at) => subs_step(area, slots, at, buf),
        TextWalk::Files(w) => files_step(area, slots, w, buf),
        TextWalk::Lines(w) => lines_step(area, slots, w, buf),
        TextWalk::Done => Ok(None),
    }
}
