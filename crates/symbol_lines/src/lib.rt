// The lines of a symbol (crate: `LineProgram::lines_for_symbol`): which one subsection of the order list they stand in, as a walk over that one alone.
// `line_walk::next_line` and `many_lines::next_lines` step it.
//
// The crate searches its sorted list by halves. Here the list is lent and may be wrong, so that each slot on the way is looked at; the area is
// passed over once if the bodies ascend in it as in the list, and a few times at most where the area's list of bodies is lent beside it.
#![tactic(auto)]

ghost use Rattle.std.specs.Prelude.{◌≡◌};
ghost use Rattle.kinds.specs.Kind.{crate_rule};
ghost use Rattle.lines.specs.Slots.{body_at, named};
ghost use Rattle.lines.specs.Told.{told_header};
ghost use Rattle.symbol_lines.specs.Symbol.{head_is, better, slot_in, walk_of, symbol_walk};
ghost use Rattle.symbol_lines.specs.Told.{told_best, told_symbol_slot, told_symbol};

use body_list::{Known, find_body};
use line_record::EndLines;
use line_step::{LineWalk, fresh_rest};
use lines::{LineHeader, count_lines, header_of};
use refusal::Refusal;

#[tactic(auto, using(crate::specs::SymbolLaws::is_other, crate::specs::SymbolLaws::is_same))]
fn is_at(head: LineHeader, section: u16, offset: u32) -> bool
    ensures { result ≡ head_is section offset (told_header head) }
{
    if head.section == section {
        return head.offset == offset;
    }
    false
}

// The last slot so far whose subsection begins before the symbol: a subsection of the same section with a smaller offset is better than those before it.
#[tactic(auto, using(crate::specs::SymbolLaws::better_other, crate::specs::SymbolLaws::better_new, crate::specs::SymbolLaws::better_old))]
fn better_slot(
    best: Option<usize>,
    head: LineHeader,
    section: u16,
    offset: u32,
    slot: usize,
) -> Option<usize>
    ensures { told_best result ≡ better section offset (told_header head) slot (told_best best) }
{
    if head.section == section {
        if head.offset < offset {
            return Some(slot);
        }
    }
    best
}

// The walk over the one subsection that a slot names, or over none.
fn walk_of(best: Option<usize>, how: EndLines) -> LineWalk
    ensures { result ≡ walk_of how (told_best best) }
{
    match best {
        None => LineWalk::Between(how, fresh_rest(0, 0)),
        Some(i) => LineWalk::Between(how, fresh_rest(i, 1)),
    }
}

// The slot of the symbol's subsection, if there is one; it is looked for through the first n slots.
fn find_slot(
    area: &[u8],
    slots: &[u32],
    bodies: &[u32],
    n: usize,
    section: u16,
    offset: u32,
) -> Result<Option<usize>, Refusal>
    ensures { told_symbol_slot result ≡ slot_in section offset (named (body_at crate_rule area.now) n slots.now) }
{
    let mut best = None;
    let mut known = Known::Nothing;
    let mut scan: usize = 0;
    for i in 0..n {
        let found = find_body(area, slots, bodies, known, i, scan);
        let span = found.named?;
        let end = span.start + span.len;
        let head = header_of(&area[span.start..end]);
        if is_at(head, section, offset) {
            return Ok(Some(i));
        }
        best = better_slot(best, head, section, offset, i);
        known = found.known;
        scan = end;
    }
    Ok(best)
}

// The list's first subsection at just this section and offset; else the last one in list order of the same section with a smaller offset; else none.
// Where there is none the walk is at its end. The walk reads end lines as `how` says. The answer does not depend on `bodies`, which may be the area's
// list of line bodies and makes the call faster then.
pub fn lines_for_symbol(
    area: &[u8],
    slots: &[u32],
    bodies: &[u32],
    section: u16,
    offset: u32,
    how: EndLines,
) -> Result<LineWalk, Refusal>
    ensures { told_symbol result ≡ symbol_walk how crate_rule area.now slots.now section offset }
{
    let n = count_lines(area)?;
    let found = find_slot(area, slots, bodies, n, section, offset)?;
    Ok(walk_of(found, how))
}
