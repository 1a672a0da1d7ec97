// The full reading of an area, one item at a time: every subsection in order, each typed body raw, markers kept.
//
// A body is read before the next header is: its records, as crate `reading_record` has them, and behind the last one what opens the next subsection.
#![tactic(auto)]

ghost use Rattle.std.specs.Prelude.{◌≡◌};
ghost use Rattle.walk.specs.Listing.{gives};
ghost use Rattle.kinds.specs.Kind.{crate_rule};
ghost use Rattle.reading_record.specs.Told.{told_one_item, told_item};
ghost use Rattle.reading_record.specs.declared.ItemWalk.TheVariants as walk;
ghost use Rattle.reading_walk.specs.Step.{lines_opened, inlinees_opened, exports_opened, opened, open_step, item_step};

use area::sub_at;
use kinds::{CROSS_SCOPE_EXPORTS, CROSS_SCOPE_IMPORTS, FILE_CHECKSUMS, INLINEE_LINES, LINES};
use lines::{LINE_HEAD, header_of};
use reading_record::{Item, ItemWalk, TypedBody, record_at};
use refusal::Refusal;
use word::u32_at;

// An item, and the walk at a place of the body of `len` bytes that starts at `start`.
fn enter(
    item: Item,
    body: TypedBody,
    start: usize,
    len: usize,
    at: usize,
) -> Result<Option<(Item, ItemWalk)>, Refusal>
    ensures { told_item result ≡ gives (told_one_item item) (walk.In body start len at) }
{
    let next = ItemWalk::In {
        body,
        start,
        len,
        at,
    };
    Ok(Some((item, next)))
}

#[tactic(auto, using(crate::proofs::StepLaws::lines_short, crate::proofs::StepLaws::lines_open))]
fn open_lines(body: &[u8], start: usize) -> Result<Option<(Item, ItemWalk)>, Refusal>
    ensures { told_item result ≡ lines_opened body.now start }
{
    if body.len() < LINE_HEAD {
        return Err(Refusal::Cut);
    }
    let item = Item::OpenLines {
        header: header_of(body),
    };
    enter(item, TypedBody::Lines, start, body.len(), LINE_HEAD)
}

#[tactic(auto, using(crate::proofs::StepLaws::inlinees_short, crate::proofs::StepLaws::inlinees_open))]
fn open_inlinees(body: &[u8], start: usize) -> Result<Option<(Item, ItemWalk)>, Refusal>
    ensures { told_item result ≡ inlinees_opened body.now start }
{
    if body.len() < 4 {
        return Err(Refusal::Cut);
    }
    let item = Item::OpenInlinees {
        signature: u32_at(body, 0),
    };
    enter(item, TypedBody::Inlinees, start, body.len(), 4)
}

#[tactic(auto, using(crate::proofs::StepLaws::exports_open, crate::proofs::StepLaws::exports_odd))]
fn open_exports(body: &[u8], start: usize) -> Result<Option<(Item, ItemWalk)>, Refusal>
    ensures { told_item result ≡ exports_opened body.now start }
{
    if body.len() % 8 == 0 {
        enter(Item::OpenExports, TypedBody::Exports, start, body.len(), 0)
    } else {
        Err(Refusal::ExportLength)
    }
}

// The item that opens the subsection of this kind whose body is lent, and starts at a place of the area; behind it is `end`.
#[tactic(auto, using(crate::proofs::StepLaws::opened_lines, crate::proofs::StepLaws::opened_checksums, crate::proofs::StepLaws::opened_inlinees, crate::proofs::StepLaws::opened_imports, crate::proofs::StepLaws::opened_exports, crate::proofs::StepLaws::opened_opaque))]
fn open_body(
    body: &[u8],
    kind: u32,
    start: usize,
    end: usize,
) -> Result<Option<(Item, ItemWalk)>, Refusal>
    ensures { told_item result ≡ opened body.now kind start end }
{
    let len = body.len();
    match kind {
        LINES => open_lines(body, start),
        FILE_CHECKSUMS => enter(Item::OpenChecksums, TypedBody::Checksums, start, len, 0),
        INLINEE_LINES => open_inlinees(body, start),
        CROSS_SCOPE_IMPORTS => enter(Item::OpenImports, TypedBody::Imports, start, len, 0),
        CROSS_SCOPE_EXPORTS => open_exports(body, start),
        _ => Ok(Some((
            Item::Opaque { kind, start, len },
            ItemWalk::Between { at: end },
        ))),
    }
}

// What opens the next subsection from a place on.
#[tactic(auto, using(area::specs::SubsLaws::sub_next, crate::proofs::StepLaws::open_sub_lem))]
fn open_at(area: &[u8], at: usize) -> Result<Option<(Item, ItemWalk)>, Refusal>
    ensures { told_item result ≡ open_step crate_rule area.now at }
{
    let Some((sub, next)) = sub_at(area, at)? else {
        return Ok(None);
    };
    open_body(&area[sub.start..next], sub.kind, sub.start, next)
}

// The item that comes next, and the walk behind it. Refused are, in the order of the bytes, 11, 1, 2 and what a body's records are refused for: 1, 3,
// 4 and 7. No state is trusted: its place is held against the area. At the end and where it is refused a walk stays, so that it answers the same again.
#[tactic(auto, using(crate::proofs::StepLaws::record_passes, crate::proofs::StepLaws::record_ends, crate::proofs::StepLaws::end_lies))]
pub fn next_item(area: &[u8], walk: ItemWalk) -> Result<Option<(Item, ItemWalk)>, Refusal>
    ensures { told_item result ≡ item_step crate_rule area.now walk }
{
    match walk {
        ItemWalk::Between { at } => open_at(area, at),
        ItemWalk::In {
            body,
            start,
            len,
            at,
        } => match record_at(area, body, start, len, at)? {
            Some(found) => Ok(Some(found)),
            None => open_at(area, start + len),
        },
    }
}
