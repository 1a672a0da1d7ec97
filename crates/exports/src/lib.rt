// The exports of an area: pairs of a local and a global index, in the first subsection of kind CROSS_SCOPE_EXPORTS (crate: `CrossModuleExports`,
// `CrossModuleExport`, `RawCrossScopeExport`).
//
// Listing takes any order; a lookup first tests that the local indices ascend.
#![tactic(auto)]

ghost use Rattle.std.specs.Prelude.{◌≡◌, ◌+◌, ◌/◌, ◌≤◌, length};
ghost use Rattle.word.specs.Word.{u32_at};
ghost use Rattle.walk.specs.Pick.{on_gave};
ghost use Rattle.kinds.specs.Kind.{crate_rule};
ghost use Rattle.body.specs.Exports.{pairs};
ghost use Rattle.table.specs.Collect.{collected, listing_count};
ghost use Rattle.exports.specs.Exports.{export_of, pair_at, export_step, export_count, ascends, global_of, lookup, resolve_export};
ghost use Rattle.exports.specs.ExportsLaws.{pairs_behind};
ghost use Rattle.exports.specs.InBody.{export_body, export_at, pair_halved, global_in};
ghost use Rattle.exports.specs.InBodyLaws.{tested};
ghost use Rattle.exports.specs.Told.{told_export, told_one_pair, told_pair, told_export_step, told_count, told_lookup, told_body, told_export_at};

use find::{Span, first_of};
use kinds::CROSS_SCOPE_EXPORTS;
use refusal::{LONGEST, Refusal};
use table::{TableWalk, spot_first};
use word::u32_at;

// A pair as an export: bit 31 of its local index, which stays in it, tells an id from a type.
#[derive(Clone, Copy)]
pub enum CrossModuleExport {
    Type { local: u32, global: u32 },
    Id { local: u32, global: u32 },
}

// A pair of an export body, as it stands there.
#[derive(Clone, Copy)]
pub struct Pair {
    pub local: u32,
    pub global: u32,
}

impl From<Pair> for CrossModuleExport {
    ghost from_gives = { λ pair export. told_export export ≡ export_of (told_one_pair pair) };

    #[tactic(auto, using(crate::specs::ExportsLaws::export_id, crate::specs::ExportsLaws::export_type))]
    fn from(pair: Pair) -> CrossModuleExport {
        let Pair { local, global } = pair;
        if local / 0x8000_0000 % 2 == 1 {
            CrossModuleExport::Id { local, global }
        } else {
            CrossModuleExport::Type { local, global }
        }
    }
}

// What stands at a place of an export body, and the place behind it.
#[tactic(auto, using(crate::specs::ExportsLaws::pair_odd, crate::specs::ExportsLaws::pair_past, crate::specs::ExportsLaws::pair_end, crate::specs::ExportsLaws::pair_short, crate::specs::ExportsLaws::pair_whole))]
pub fn pair_at(body: &[u8], at: usize) -> Result<Option<(Pair, usize)>, Refusal>
    ensures { told_pair result ≡ pair_at body.now at }
{
    if body.len() % 8 != 0 {
        return Err(Refusal::ExportLength);
    }
    if body.len() < at {
        return Err(Refusal::Cut);
    }
    let left = body.len() - at;
    if left == 0 {
        return Ok(None);
    }
    if left < 8 {
        return Err(Refusal::ExportLength);
    }
    let pair = Pair {
        local: u32_at(body, at),
        global: u32_at(body, at + 4),
    };
    Ok(Some((pair, at + 8)))
}

// One export of a walk over the exports, and the walk behind it.
pub fn next_export(
    area: &[u8],
    walk: TableWalk,
) -> Result<Option<(CrossModuleExport, TableWalk)>, Refusal>
    ensures { told_export_step result ≡ export_step crate_rule area.now walk }
{
    let Some(spot) = spot_first(area, CROSS_SCOPE_EXPORTS, walk)? else {
        return Ok(None);
    };
    let body = &area[spot.start..spot.start + spot.len];
    let Some((pair, at)) = pair_at(body, spot.at)? else {
        return Ok(None);
    };
    let behind = TableWalk::In {
        start: spot.start,
        len: spot.len,
        at,
    };
    Ok(Some((CrossModuleExport::from(pair), behind)))
}

#[tactic(auto, using(crate::specs::ExportsLaws::count_whole, crate::specs::ExportsLaws::count_odd))]
fn count_in(body: &[u8]) -> Result<usize, Refusal>
    ensures { told_count result ≡ listing_count (pairs body.now) }
{
    let len = body.len();
    if len % 8 == 0 {
        Ok(len / 8)
    } else {
        Err(Refusal::ExportLength)
    }
}

// How many exports there are.
pub fn export_count(area: &[u8]) -> Result<usize, Refusal>
    ensures { told_count result ≡ export_count crate_rule area.now }
{
    match first_of(area, CROSS_SCOPE_EXPORTS)? {
        Some(span) => count_in(&area[span.start..span.start + span.len]),
        None => Ok(0),
    }
}

// Each local index is above the one before it.
fn ascending(body: &[u8]) -> bool
    ensures { result ≡ ascends (pairs_behind body.now 0) }
{
    if body.len() < 8 {
        return true;
    }
    let mut last = u32_at(body, 0);
    let mut at: usize = 8;
    while 8 <= body.len() - at {
        let local = u32_at(body, at);
        if local <= last {
            return false;
        }
        last = local;
        at += 8;
    }
    true
}

fn global_of(body: &[u8], local: u32) -> Result<Option<u32>, Refusal>
    ensures { told_lookup result ≡ global_of local (pairs_behind body.now 0) }
{
    let mut at: usize = 0;
    while 8 <= body.len() - at {
        if u32_at(body, at) == local {
            return Ok(Some(u32_at(body, at + 4)));
        }
        at += 8;
    }
    Ok(None)
}

#[tactic(auto, using(crate::specs::ExportsLaws::lookup_odd, crate::specs::ExportsLaws::lookup_sorted, crate::specs::ExportsLaws::lookup_unsorted))]
fn lookup_in(body: &[u8], local: u32) -> Result<Option<u32>, Refusal>
    ensures { told_lookup result ≡ on_gave (lookup local) (collected (pairs body.now)) }
{
    if body.len() % 8 == 0 {
        if ascending(body) {
            global_of(body, local)
        } else {
            Err(Refusal::UnsortedExports)
        }
    } else {
        Err(Refusal::ExportLength)
    }
}

// The global index of a local one.
pub fn resolve_export(area: &[u8], local: u32) -> Result<Option<u32>, Refusal>
    ensures { told_lookup result ≡ resolve_export crate_rule area.now local }
{
    match first_of(area, CROSS_SCOPE_EXPORTS)? {
        Some(span) => lookup_in(&area[span.start..span.start + span.len], local),
        None => Ok(None),
    }
}

// The body that stands at `start`, after the tests of a lookup.
#[tactic(auto, using(crate::specs::InBodyLaws::tested_odd, crate::specs::InBodyLaws::tested_sorted, crate::specs::InBodyLaws::tested_unsorted))]
fn tested_body(body: &[u8], start: usize) -> Result<Span, Refusal>
    ensures { told_body result ≡ tested start body.now }
{
    let len = body.len();
    if len % 8 != 0 {
        return Err(Refusal::ExportLength);
    }
    if !ascending(body) {
        return Err(Refusal::UnsortedExports);
    }
    Ok(Span { start, len })
}

// Where the body for lookups stands that pass over no area again, with all their tests; the empty body where there are no exports.
pub fn export_body(area: &[u8]) -> Result<Span, Refusal>
    ensures { told_body result ≡ export_body crate_rule area.now }
{
    match first_of(area, CROSS_SCOPE_EXPORTS)? {
        Some(span) => tested_body(&area[span.start..span.start + span.len], span.start),
        None => Ok(Span { start: 0, len: 0 }),
    }
}

// A word that lies in the bytes. It is read out of a part of four bytes, so that the compiled code tests nothing.
#[tactic(auto, using(crate::specs::InBodyLaws::word_part))]
fn word_at(s: &[u8], at: usize) -> u32
    requires { at + 4 ≤ length s.now }
    ensures { result ≡ u32_at s.now at }
{
    u32_at(&s[at..at + 4], 0)
}

// The export at an index.
#[tactic(auto, using(crate::specs::InBodyLaws::export_long, crate::specs::InBodyLaws::export_odd, crate::specs::InBodyLaws::export_past, crate::specs::InBodyLaws::export_there))]
pub fn export_at(body: &[u8], i: usize) -> Result<Option<CrossModuleExport>, Refusal>
    ensures { told_export_at result ≡ export_at body.now i }
{
    let len = body.len();
    if LONGEST < len {
        return Err(Refusal::TooLong);
    }
    if len % 8 != 0 {
        return Err(Refusal::ExportLength);
    }
    if len / 8 <= i {
        return Ok(None);
    }
    let at = 8 * i;
    let pair = Pair {
        local: word_at(body, at),
        global: word_at(body, at + 4),
    };
    Ok(Some(CrossModuleExport::from(pair)))
}

// Each look at the middle leaves a shorter span.
fn halved(body: &[u8], local: u32) -> Result<Option<u32>, Refusal>
    ensures { told_lookup result ≡ pair_halved body.now local 0 (length body.now / 8) }
{
    let mut from: usize = 0;
    let mut to = body.len() / 8;
    while from < to {
        let mid = (from + to) / 2;
        let at = 8 * mid;
        let found = word_at(body, at);
        if found == local {
            return Ok(Some(word_at(body, at + 4)));
        }
        if found < local {
            from = mid + 1;
        } else {
            to = mid;
        }
    }
    Ok(None)
}

// The global index of a local one in a body that is lent alone. Whether its local indices ascend is not tested again.
#[tactic(auto, using(crate::specs::InBodyLaws::in_long, crate::specs::InBodyLaws::in_odd, crate::specs::InBodyLaws::in_halves))]
pub fn export_in(body: &[u8], local: u32) -> Result<Option<u32>, Refusal>
    ensures { told_lookup result ≡ global_in body.now local }
{
    let len = body.len();
    if LONGEST < len {
        return Err(Refusal::TooLong);
    }
    if len % 8 != 0 {
        return Err(Refusal::ExportLength);
    }
    halved(body, local)
}
