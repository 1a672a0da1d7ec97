// The calls on lines, for programs in other languages: the order list, the list of bodies, the walk one record or many at a time, and the lines of a symbol.
// The crate `c13` gives each its C name.
//
// The area's list of bodies is lent beside the order list, so that each body is found soon. No answer depends on it.
#![tactic(auto)]

ghost use Rattle.std.specs.Prelude.{◌≡◌, length, [], ◌∷◌, ◌++◌, ◌≤◌};
ghost use Rattle.kinds.specs.Kind.{crate_rule};
ghost use Rattle.answer_words.specs.Given.{Gives, given, step_given};
ghost use Rattle.answer_words.specs.FillGiven.{answer_status, asked_size, fill_given, fill_left};
ghost use Rattle.export_lines.specs.Calls.{order_given, slots_left, bodies_given, bodies_left, line_given};
ghost use Rattle.export_lines.specs.Calls.{symbol_given, over_walk, lines_given, records_left};
ghost use Rattle.line_state_words.specs.LineWords.{state_size, line_walk_words, line_words, record_words};
ghost use Rattle.line_walk.specs.Next.{next_of};
ghost use Rattle.many_lines.specs.Lines.{lines_of};

use answer_words::{
    GIVEN, NO_SUCH_CHOICE, NONE, REFUSAL_WORDS, TOO_SHORT, answer_status, put, put_refusal,
};
use line_state_words::{
    RECORD_WORDS, STATE_WORDS, how_named, line_walk_in, put_line, put_line_walk,
};
use line_step::LineWalk;
use many_lines::next_lines;

// The words of `out` that a call for many records asks for: a walk's state, and those of a refusal.
const ASKED: usize = STATE_WORDS + REFUSAL_WORDS;

// The order list of the line subsections, into lent slots. Word: how many slots it takes.
pub fn order_list(area: &[u8], slots: &mut [u32], out: &mut [u64]) -> u32
    ensures gives { Gives out.old
        (order_given crate_rule area.now (length slots.old) out.old)
        result out.new }
    ensures slots_after { slots.new ≡ slots_left crate_rule area.now slots.old out.old }
{
    if out.len() < REFUSAL_WORDS {
        return TOO_SHORT;
    }
    match order::order_list(area, slots) {
        Ok(n) => put(out, 0, &[n as u64], GIVEN),
        Err(why) => put_refusal(out, 0, why),
    }
}

// The list of the line bodies in the order of the area, into lent slots. Word: how many slots it takes.
pub fn body_list(area: &[u8], bodies: &mut [u32], out: &mut [u64]) -> u32
    ensures gives { Gives out.old
        (bodies_given crate_rule area.now (length bodies.old) out.old)
        result out.new }
    ensures bodies_after { bodies.new ≡ bodies_left crate_rule area.now bodies.old out.old }
{
    if out.len() < REFUSAL_WORDS {
        return TOO_SHORT;
    }
    match body_list::body_list(area, bodies) {
        Ok(n) => put(out, 0, &[n as u64], GIVEN),
        Err(why) => put_refusal(out, 0, why),
    }
}

// The next record of a walk.
fn line_from(area: &[u8], slots: &[u32], bodies: &[u32], walk: LineWalk, out: &mut [u64]) -> u32
    ensures { Gives out.old
        (step_given state_size line_words (next_of crate_rule area.now slots.now walk))
        result out.new }
{
    let mut row = [0u32; RECORD_WORDS];
    match next_lines(area, slots, bodies, walk, &mut row) {
        Ok(Some((_, next))) => put_line(out, next, &row),
        Ok(None) => NONE,
        Err(why) => put_refusal(out, STATE_WORDS, why),
    }
}

// The next record of the line walk over a list in slots. State and words are those of the crate `line_state_words`.
pub fn next_line(area: &[u8], slots: &[u32], bodies: &[u32], out: &mut [u64]) -> u32
    ensures { Gives out.old (line_given crate_rule area.now slots.now out.old) result out.new }
{
    match line_walk_in(out) {
        Some(walk) => line_from(area, slots, bodies, walk, out),
        None => NO_SUCH_CHOICE,
    }
}

// The lines of a symbol: the state of a walk that `next_line` and `lines` step, by the reading of end lines that a number names.
pub fn lines_for_symbol(
    area: &[u8],
    slots: &[u32],
    bodies: &[u32],
    section: u16,
    offset: u32,
    end_lines: u32,
    out: &mut [u64],
) -> u32
    ensures { Gives out.old
        (symbol_given crate_rule area.now slots.now section offset end_lines)
        result out.new }
{
    let Some(how) = how_named(end_lines as u64) else {
        return NO_SUCH_CHOICE;
    };
    match symbol_lines::lines_for_symbol(area, slots, bodies, section, offset, how) {
        Ok(walk) => put_line_walk(out, walk),
        Err(why) => put_refusal(out, 0, why),
    }
}

// Does no record come behind a walk, since no subsection is left and no record held?
fn is_over(walk: LineWalk) -> bool
    ensures { result ≡ over_walk walk }
{
    match walk {
        LineWalk::Between(_, t) => t.left == 0 && t.held.is_none(),
        LineWalk::New(_) | LineWalk::Inside(_, _) => false,
    }
}

// The next state, and behind it how many records there are.
fn put_lines(out: &mut [u64], count: usize, next: LineWalk) -> u32
    requires { asked_size state_size ≤ length out.old }
    ensures { Gives out.old (given (answer_status (over_walk next)) 0 (line_walk_words next ++ (count ∷ []))) result out.new }
{
    let status = answer_status(is_over(next));
    put_line_walk(out, next);
    put(out, STATE_WORDS, &[count as u64], status)
}

// The records from a walk on.
fn lines_from(
    area: &[u8],
    slots: &[u32],
    bodies: &[u32],
    walk: LineWalk,
    records: &mut [u32],
    out: &mut [u64],
) -> u32
    ensures gives { Gives out.old
        (fill_given state_size over_walk line_walk_words out.old
        (lines_of crate_rule area.now slots.now (length records.old) walk))
        result out.new }
    ensures records_after { records.new
        ≡ fill_left state_size record_words out.old records.old
        (lines_of crate_rule area.now slots.now (length records.old) walk) }
{
    if out.len() < ASKED {
        return TOO_SHORT;
    }
    match next_lines(area, slots, bodies, walk, records) {
        Ok(Some((count, next))) => put_lines(out, count, next),
        Ok(None) => NONE,
        Err(why) => put_refusal(out, STATE_WORDS, why),
    }
}

// The records from the walk in `out` on, into `records`. Words: the next state, and how many records there are. Where there is none to give the answer
// is that of `next_line`; without room for one it is number 10. The status says whether the walk is over behind them.
pub fn lines(
    area: &[u8],
    slots: &[u32],
    bodies: &[u32],
    records: &mut [u32],
    out: &mut [u64],
) -> u32
    ensures gives { Gives out.old
        (lines_given crate_rule area.now slots.now (length records.old) out.old)
        result out.new }
    ensures records_after { records.new ≡ records_left crate_rule area.now slots.now records.old out.old }
{
    match line_walk_in(out) {
        Some(walk) => lines_from(area, slots, bodies, walk, records, out),
        None => NO_SUCH_CHOICE,
    }
}
