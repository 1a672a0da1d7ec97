// Many records of the line walk at once, in words (crate: `LineProgram::lines`, a whole `LineIterator` in coarse calls): as many as the lent words have
// room for, and the walk behind the last.
//
// The records before an end or a refusal are given first, and the next call, from the walk answered, tells it.
//
// A turn tells where there is no record, and why. Between two turns the walk goes on body after body, as far as nothing else is to be told
// (`bodies_from`). The area's list of line bodies may be lent beside the slots, so that each body is found soon; no answer depends on it.
#![tactic(auto)]

ghost use Rattle.std.specs.Prelude.{◌≡◌, ◌+◌, ◌*◌, ◌/◌, ◌<◌, ◌≤◌, false, length};
ghost use Rattle.word.specs.Word.{store};
ghost use Rattle.refusal.specs.Told.{longest};
ghost use Rattle.kinds.specs.Kind.{crate_rule};
ghost use Rattle.answer_words.specs.Fill.{no_room, counted, filled};
ghost use Rattle.line_state_words.specs.LineWords.{record_size, record_words};
ghost use Rattle.line_step.specs.declared.LineWalk.TheVariants.{New};
ghost use Rattle.many_lines.specs.Lines.{lines_of};
ghost use Rattle.many_lines.specs.Told.{told_lines};
ghost use Rattle.many_lines.specs.Bodies.{LookedIs, Knows, LocatedIs, OnwardIs, LastIs, BodyPassed, stands_at, StandsFor};
ghost use Rattle.many_lines.specs.Bodies.{BodiesPut, told_end, StopsAt, FilledBy, Answers, Refilled, without_room};

use body_lines::{InBody, body_lines};
use body_list::{Known, Located, find_body};
use find::Span;
use kinds::LINES;
use line_record::{EndLines, LineRecord};
use line_state_words::{RECORD_WORDS, put_row};
use line_step::{
    LineWalk, Place, Rest, Turn, behind_body, end_body, enter, fresh_rest, place_at, take_turn,
    with_held,
};
use lines::{count_lines, header_of};
use refusal::{LONGEST, Refusal};
use word::u32_at;

// The first look of a search: the length of the line body at `body`, if its header stands at `begin`. That is where most searches end.
fn first_look(area: &[u8], begin: usize, body: usize) -> Option<usize>
    ensures { LookedIs area.now begin body result }
{
    if LONGEST < area.len() {
        return None;
    }
    if area.len() < body {
        return None;
    }
    if body < 8 {
        return None;
    }
    if body - 8 != begin {
        return None;
    }
    let head = &area[begin..begin + 8];
    let kind = u32_at(head, 0);
    let len = u32_at(head, 4) as usize;
    if kind != LINES {
        return None;
    }
    if area.len() - body < len {
        return None;
    }
    Some(len)
}

// The line body that a slot names, and what is known behind it.
fn named_body(
    area: &[u8],
    slots: &[u32],
    bodies: &[u32],
    known: Known,
    slot: usize,
    scan: usize,
) -> Located
    requires { Knows crate_rule area.now bodies.now known scan }
    ensures { LocatedIs crate_rule area.now slots.now bodies.now slot scan result }
{
    if slots.len() <= slot {
        return Located {
            named: Err(Refusal::WrongSlot),
            known,
        };
    }
    let start = slots[slot] as usize;
    match first_look(area, scan, start) {
        Some(len) => Located {
            named: Ok(Span { start, len }),
            known,
        },
        None => find_body(area, slots, bodies, known, slot, scan),
    }
}

// From between two bodies into the one that the next slot names: the place there, what comes behind, and what is known. Without it the walk stays, and the
// turn is left to others.
fn next_body(
    area: &[u8],
    slots: &[u32],
    bodies: &[u32],
    known: Known,
    how: EndLines,
    t: Rest,
) -> Option<(Place, Rest, Known)>
    requires knows { Knows crate_rule area.now bodies.now known t.scan }
    requires area_len_bound { (length area.now ≤ longest) × (1 ≤ t.left) }
    ensures { OnwardIs crate_rule area.now slots.now bodies.now how t result }
{
    let found = named_body(area, slots, bodies, known, t.slot, t.scan);
    let Ok(span) = found.named else {
        return None;
    };
    let Ok(p) = enter(area, how, span.start, span.len) else {
        return None;
    };
    let u = behind_body(t, p.end);
    Some((p, u, found.known))
}

// How far the walk has come: the records that are put, and where it stands. `over`: that is right behind the last of them, and no other comes.
#[derive(Clone, Copy)]
struct Reached {
    n: usize,
    walk: LineWalk,
    over: bool,
}

// Where the walk goes no further at once.
fn stuck(n: usize, walk: LineWalk) -> Reached
    ensures { result ≡ record { n = n; walk = walk; over = false } }
{
    Reached {
        n,
        walk,
        over: false,
    }
}

// A record behind n others. It is put as a part of its own, of a length that is known.
#[tactic(auto, using(answer_words::specs::PiecesLaws::put_part, line_state_words::specs::LineWordsLaws::record_length))]
fn put_one(out: &mut [u32], n: usize, r: LineRecord)
    requires { record_size * n + record_size ≤ length out.old }
    ensures { out.new ≡ store out.old (record_size * n) (record_words r) }
{
    let at = RECORD_WORDS * n;
    put_row(&mut out[at..at + RECORD_WORDS], 0, r);
}

// No subsection is left: the record that is held is the last.
fn last_record(n: usize, how: EndLines, t: Rest, out: &mut [u32]) -> Reached
    requires { record_size * n + record_size ≤ length out.old }
    ensures { LastIs n how t out.old result out.new }
{
    let held = t.held;
    match held {
        None => Reached {
            n,
            walk: LineWalk::Between(how, t),
            over: false,
        },
        Some(r) => {
            let more = n + 1;
            put_one(out, n, r);
            let u = with_held(t, None);
            Reached {
                n: more,
                walk: LineWalk::Between(how, u),
                over: true,
            }
        }
    }
}

// The lines of a body from a place on, and its end where the walk comes there: the record that is held behind it. `stuck`: the walk is inside the body yet.
fn body_on(area: &[u8], place: Place, held: Option<LineRecord>, n: usize, out: &mut [u32]) -> InBody
    ensures { BodyPassed crate_rule area.now place held n out.old result out.new }
{
    let mut x = body_lines(area, place, held, n, out);
    if x.stuck {
        return x;
    }
    let p = x.place;
    let last = x.held;
    match end_body(p.head, last) {
        Ok(closing) => InBody {
            n: x.n,
            place: p,
            held: closing,
            stuck: false,
        },
        Err(_) => {
            x.stuck = true;
            x
        }
    }
}

// Where a call stands: how many records are put; inside a body at `place`, or between two; what comes behind.
#[derive(Clone, Copy)]
struct Stand {
    n: usize,
    inside: bool,
    place: Place,
    rest: Rest,
}

// Body after body, as many turns at once as can be. Where the walk is stuck inside a body the answer is made in place: by `stuck` a walk would take some
// hundred instructions more (docs/SPEED.md, 49).
fn bodies_on(area: &[u8], slots: &[u32], bodies: &[u32], from: Stand, out: &mut [u32]) -> Reached
    requires { (length area.now ≤ longest) × (from.n < length out.old / record_size) }
    ensures { BodiesPut crate_rule area.now slots.now from.n (stands_at from) out.old result out.new }
{
    let mut n = from.n;
    let mut known = Known::Nothing;
    let mut inside = from.inside;
    let mut p = from.place;
    let mut t = from.rest;
    loop {
        let how = p.how;
        if inside {
            let held = t.held;
            let x = body_on(area, p, held, n, out);
            let last = x.held;
            n = x.n;
            p = x.place;
            t = with_held(t, last);
            if x.stuck {
                return Reached {
                    n,
                    walk: LineWalk::Inside(p, t),
                    over: false,
                };
            }
            inside = false;
        } else if t.left == 0 {
            return last_record(n, how, t, out);
        } else {
            let Some((q, u, after)) = next_body(area, slots, bodies, known, how, t) else {
                return stuck(n, LineWalk::Between(how, t));
            };
            inside = true;
            p = q;
            t = u;
            known = after;
        }
    }
}

// The place of a walk that is in no body. It keeps how end lines are read.
fn nowhere(how: EndLines) -> Place
    ensures { result.how ≡ how }
{
    place_at(how, header_of(&[]), 0, 0, 0)
}

// Where a new walk stands: it counts the line subsections first.
fn stand_new(area: &[u8], n: usize, how: EndLines) -> Option<Stand>
    ensures { StandsFor crate_rule area.now n (New how) result }
{
    let Ok(left) = count_lines(area) else {
        return None;
    };
    let rest = fresh_rest(0, left);
    let place = nowhere(how);
    Some(Stand {
        n,
        inside: false,
        place,
        rest,
    })
}

// Where a walk stands, if the turn from there passes on.
fn stand_of(area: &[u8], n: usize, w: LineWalk) -> Option<Stand>
    ensures { StandsFor crate_rule area.now n w result }
{
    if LONGEST < area.len() {
        return None;
    }
    match w {
        LineWalk::New(how) => stand_new(area, n, how),
        LineWalk::Between(how, rest) => {
            let place = nowhere(how);
            Some(Stand {
                n,
                inside: false,
                place,
                rest,
            })
        }
        LineWalk::Inside(place, rest) => Some(Stand {
            n,
            inside: true,
            place,
            rest,
        }),
    }
}

// As many turns at once as can be made from a walk.
fn bodies_from(
    area: &[u8],
    slots: &[u32],
    bodies: &[u32],
    n: usize,
    w: LineWalk,
    out: &mut [u32],
) -> Reached
    requires { n < length out.old / record_size }
    ensures { BodiesPut crate_rule area.now slots.now n w out.old result out.new }
{
    match stand_of(area, n, w) {
        Some(from) => bodies_on(area, slots, bodies, from, out),
        None => stuck(n, w),
    }
}

// Where turns stopped: at an end, or where there is no more room. `exact`: that is right behind the last record. `end`: the refusal that is the end, if it
// is one.
#[derive(Clone, Copy)]
struct Stopped {
    n: usize,
    walk: LineWalk,
    exact: bool,
    end: Option<Refusal>,
}

fn stopped_at(n: usize, walk: LineWalk, exact: bool, end: Option<Refusal>) -> Stopped
    ensures { result ≡ record { n = n; walk = walk; exact = exact; end = end } }
{
    Stopped {
        n,
        walk,
        exact,
        end,
    }
}

// Turn by turn what turns made at once left. A turn that passes on may have left what stopped them, so they are tried again behind it; behind one that gave
// a record they are not, since a forged place, which stopped them, stops them again until its block is done.
fn turns(area: &[u8], slots: &[u32], bodies: &[u32], from: Reached, out: &mut [u32]) -> Stopped
    ensures { StopsAt crate_rule area.now slots.now from.n from.walk out.old result out.new }
{
    let room = out.len() / RECORD_WORDS;
    let mut n = from.n;
    let mut walk = from.walk;
    let mut exact = false;
    while n < room {
        match take_turn(area, slots, walk) {
            Ok(Some(Turn::Line(r, t))) => {
                put_one(out, n, r);
                n += 1;
                walk = t;
                exact = true;
            }
            Ok(Some(Turn::Pass(t))) => {
                let x = bodies_from(area, slots, bodies, n, t, out);
                n = x.n;
                walk = x.walk;
                exact = false;
            }
            Ok(None) => {
                return stopped_at(n, walk, exact, None);
            }
            Err(why) => {
                return stopped_at(n, walk, exact, Some(why));
            }
        }
    }
    stopped_at(n, walk, true, None)
}

// The records once more: where they fill the room, the walk behind the last.
fn refill(area: &[u8], slots: &[u32], bodies: &[u32], walk: LineWalk, out: &mut [u32]) -> LineWalk
    requires { record_size ≤ length out.old }
    ensures { Refilled crate_rule area.now slots.now walk out.old result out.new }
{
    let from = bodies_from(area, slots, bodies, 0, walk, out);
    let x = turns(area, slots, bodies, from, out);
    x.walk
}

// What is told where there is no record.
fn told(end: Option<Refusal>) -> Result<Option<(usize, LineWalk)>, Refusal>
    ensures { told_lines result ≡ counted (no_room (told_end end)) }
{
    match end {
        None => Ok(None),
        Some(why) => Err(why),
    }
}

// Turn by turn from where turns made at once came to. Where these came past the last record before an end, nobody kept the walk behind it: it is found by
// putting the same records once more, with room for just these.
fn slower(
    area: &[u8],
    slots: &[u32],
    bodies: &[u32],
    walk: LineWalk,
    from: Reached,
    out: &mut [u32],
) -> Result<Option<(usize, LineWalk)>, Refusal>
    ensures { Answers crate_rule area.now slots.now walk from.n from.walk out.old result out.new }
{
    let x = turns(area, slots, bodies, from, out);
    let n = x.n;
    if n == 0 {
        let end = x.end;
        return told(end);
    }
    if x.exact {
        let next = x.walk;
        return Ok(Some((n, next)));
    }
    let next = refill(area, slots, bodies, walk, &mut out[..RECORD_WORDS * n]);
    Ok(Some((n, next)))
}

// As many turns at once as can be, and turn by turn what they leave.
fn fill(
    area: &[u8],
    slots: &[u32],
    bodies: &[u32],
    walk: LineWalk,
    out: &mut [u32],
) -> Result<Option<(usize, LineWalk)>, Refusal>
    requires { record_size ≤ length out.old }
    ensures { FilledBy crate_rule area.now slots.now walk out.old result out.new }
{
    let room = out.len() / RECORD_WORDS;
    let x = bodies_from(area, slots, bodies, 0, walk, out);
    let count = x.n;
    if x.over {
        let next = x.walk;
        return Ok(Some((count, next)));
    }
    if room <= count {
        let next = x.walk;
        return Ok(Some((count, next)));
    }
    slower(area, slots, bodies, walk, x, out)
}

// What there is to answer where no record fits, by what there is with room for one.
fn no_room(
    one: Result<Option<(usize, LineWalk)>, Refusal>,
) -> Result<Option<(usize, LineWalk)>, Refusal>
    ensures { told_lines result ≡ without_room (told_lines one) }
{
    match one? {
        Some(_) => Err(Refusal::NoRoom),
        None => Ok(None),
    }
}

// The records from a walk on, as many as `out` has room for. `bodies` is the area's list of line bodies, or any other.
pub fn next_lines(
    area: &[u8],
    slots: &[u32],
    bodies: &[u32],
    walk: LineWalk,
    out: &mut [u32],
) -> Result<Option<(usize, LineWalk)>, Refusal>
    ensures result_value { told_lines result ≡ counted (lines_of crate_rule area.now slots.now (length out.old) walk) }
    ensures out_after { out.new
        ≡ filled record_words out.old (lines_of crate_rule area.now slots.now (length out.old) walk) }
{
    if out.len() < RECORD_WORDS {
        let mut row = [0u32; RECORD_WORDS];
        return no_room(fill(area, slots, bodies, walk, &mut row));
    }
    fill(area, slots, bodies, walk, out)
}
