// The list of an area's line bodies in the order of the area, and the search for the body that a slot of another list names, which may go by it.
//
// A walk that steps back in the area would search from its start each time. Where the lent list is just the area's, each further body is found in it
// by halving. It is held against the area once, at the first step back. A caller that starts with `Nothing`, and hands on what it is answered, finds the
// same bodies with any list.
#![tactic(auto)]

ghost use Rattle.std.specs.Prelude.{◌≡◌, ◌≤◌, ◌++◌, length, drop};
ghost use Rattle.kinds.specs.Kind.{crate_rule};
ghost use Rattle.lines.specs.Told.{told_counted};
ghost use Rattle.body_list.specs.BodyList.{starts_from, body_list, bodies_after};
ghost use Rattle.body_list.specs.Search.{halved, is_areas, begin_in, begin_held, begin_of, found_body};
ghost use Rattle.body_list.specs.Looks.{holds};
ghost use Rattle.body_list.specs.Told.{told_located};

use area::sub_at;
use find::Span;
use kinds::LINES;
use lines::{count_lines, slot_body};
use refusal::Refusal;

// The starts of the line bodies, in the order of the area.
fn fill(area: &[u8], bodies: &mut [u32])
    requires { length (starts_from crate_rule area.now 0) ≤ length bodies.old }
    ensures { bodies.new
        ≡ starts_from crate_rule area.now 0 ++ drop (length (starts_from crate_rule area.now 0)) bodies.old }
{
    let mut n: usize = 0;
    let mut p: usize = 0;
    loop {
        match sub_at(area, p) {
            Ok(Some((sub, next))) => {
                if sub.kind == LINES {
                    bodies[n] = sub.start as u32;
                    n += 1;
                }
                p = next;
            }
            Ok(None) => {
                return;
            }
            Err(_) => {
                return;
            }
        }
    }
}

// The tests over the whole area come first, then that the slots suffice. A call that is refused writes nothing.
pub fn body_list(area: &[u8], bodies: &mut [u32]) -> Result<usize, Refusal>
    ensures result_value { told_counted result ≡ body_list crate_rule area.now (length bodies.old) }
    ensures bodies_after { bodies.new ≡ bodies_after crate_rule area.now bodies.old }
{
    let n = count_lines(area)?;
    if bodies.len() < n {
        return Err(Refusal::NoRoom);
    }
    fill(area, bodies);
    Ok(n)
}

// What a call has found out so far: nothing; that the lent list is the area's, and that the subsections come to the place where a search may begin; or
// that the list is another.
#[derive(Clone, Copy)]
pub enum Known {
    Nothing,
    Bodies,
    Other,
}

// The body that a slot names, and what is known behind it.
#[derive(Clone, Copy)]
pub struct Located {
    pub named: Result<Span, Refusal>,
    pub known: Known,
}

// Does `body` stand in an ascending list? Each look at the middle leaves a shorter span. In a list that is not in order it may be missed.
fn halved(bodies: &[u32], body: usize) -> bool
    ensures { result ≡ halved body bodies.now 0 (length bodies.now) }
{
    let mut from: usize = 0;
    let mut to = bodies.len();
    while from < to {
        let mid = from + (to - from) / 2;
        let at = bodies[mid] as usize;
        if at == body {
            return true;
        }
        if at < body {
            from = mid + 1;
        } else {
            to = mid;
        }
    }
    false
}

// Does the slot at i hold `body`?
#[tactic(auto, using(crate::specs::StepLaws::holds_past, crate::specs::StepLaws::holds_is))]
fn holds(bodies: &[u32], i: usize, body: usize) -> bool
    ensures { result ≡ holds body bodies.now i }
{
    if bodies.len() <= i {
        return false;
    }
    bodies[i] as usize == body
}

// Is the list just the area's?
fn is_areas(area: &[u8], bodies: &[u32]) -> bool
    ensures { result ≡ is_areas crate_rule area.now bodies.now }
{
    let mut n: usize = 0;
    let mut p: usize = 0;
    loop {
        match sub_at(area, p) {
            Ok(Some((sub, next))) => {
                if sub.kind == LINES {
                    if !holds(bodies, n, sub.start) {
                        return false;
                    }
                    n += 1;
                }
                p = next;
            }
            Ok(None) => {
                return n == bodies.len();
            }
            Err(_) => {
                return n == bodies.len();
            }
        }
    }
}

// Where a search begins, and what is known behind the body that it finds.
#[derive(Clone, Copy)]
struct Begin {
    place: usize,
    known: Known,
}

// At the header of a body that stands in the list.
#[tactic(auto, using(crate::specs::StepLaws::in_low, crate::specs::StepLaws::in_found, crate::specs::StepLaws::in_missed))]
fn begin_in(bodies: &[u32], body: usize, scan: usize) -> usize
    ensures { result ≡ begin_in bodies.now body scan }
{
    if body < 8 {
        return scan;
    }
    if halved(bodies, body) {
        return body - 8;
    }
    scan
}

// The list is held against the area.
#[tactic(auto, using(crate::specs::StepLaws::held_areas, crate::specs::StepLaws::held_other))]
fn begin_held(area: &[u8], bodies: &[u32], body: usize, scan: usize) -> Begin
    ensures { result ≡ begin_held crate_rule area.now bodies.now body scan }
{
    if is_areas(area, bodies) {
        return Begin {
            place: begin_in(bodies, body, scan),
            known: Known::Bodies,
        };
    }
    Begin {
        place: scan,
        known: Known::Other,
    }
}

// A body that does not lie behind `scan` is a step back, which would be searched for from the area's start: it is worth a look at the list.
#[tactic(auto, using(crate::specs::StepLaws::nothing_on, crate::specs::StepLaws::nothing_back, crate::specs::StepLaws::bodies_in_lem, crate::specs::StepLaws::other_on))]
fn begin_of(area: &[u8], bodies: &[u32], known: Known, body: usize, scan: usize) -> Begin
    ensures { result ≡ begin_of crate_rule area.now bodies.now known body scan }
{
    match known {
        Known::Nothing => {
            if scan < body {
                return Begin {
                    place: scan,
                    known: Known::Nothing,
                };
            }
            begin_held(area, bodies, body, scan)
        }
        Known::Bodies => Begin {
            place: begin_in(bodies, body, scan),
            known: Known::Bodies,
        },
        Known::Other => Begin {
            place: scan,
            known: Known::Other,
        },
    }
}

// The line body that a slot names, as `slot_body` finds it. `scan` is where the search may begin: the end of the body that was named last, or 0.
// `bodies` is the area's list of bodies, or any other; `known` is what the call before answered, or `Nothing`.
#[tactic(auto, using(crate::specs::StepLaws::found_missing, crate::specs::StepLaws::found_begin))]
pub fn find_body(
    area: &[u8],
    slots: &[u32],
    bodies: &[u32],
    known: Known,
    slot: usize,
    scan: usize,
) -> Located
    ensures { told_located result ≡ found_body crate_rule area.now slots.now bodies.now known slot scan }
{
    if slots.len() <= slot {
        return Located {
            named: Err(Refusal::WrongSlot),
            known,
        };
    }
    let start = slots[slot] as usize;
    let begin = begin_of(area, bodies, known, start, scan);
    let after = begin.known;
    let named = slot_body(area, slots, slot, begin.place);
    Located {
        named,
        known: after,
    }
}
