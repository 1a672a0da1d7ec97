// The imports of an area: modules, each a name and the words that are imported from it, in the first subsection of kind CROSS_SCOPE_IMPORTS (crate:
// `CrossModuleImports`, `CrossScopeImportModule`).
//
// A module's words are answered by their place in the lent area and their number, from which `table::word_in` reads each; nothing is copied.
#![tactic(auto)]

ghost use Rattle.std.specs.Prelude.{◌≡◌, ◌++◌, ◌+◌, ◌*◌, ◌≤◌, length, drop};
ghost use Rattle.refusal.specs.Told.{longest};
ghost use Rattle.word.specs.Word.{u32_at};
ghost use Rattle.walk.specs.Pick.{on_gave};
ghost use Rattle.kinds.specs.Kind.{crate_rule};
ghost use Rattle.body.specs.Imports.{modules};
ghost use Rattle.table.specs.Collect.{collected, listing_count};
ghost use Rattle.imports.specs.Imports.{module_at, module_of, import_step, if_ref, ref_in, ref_of, resolve_import};
ghost use Rattle.imports.specs.Listed.{if_slots, slots_used, import_list, slots_with, places_after, ref_at, resolve_listed};
ghost use Rattle.imports.specs.ListedLaws.{places_in, places_from};
ghost use Rattle.imports.specs.Told.{told_row, told_module, told_import_step, told_resolved, told_list};

use find::first_of;
use kinds::CROSS_SCOPE_IMPORTS;
use refusal::{LONGEST, Refusal};
use table::{TableWalk, spot_first};
use word::u32_at;

// A module of the imports: its name, the place of its words in the lent bytes, and their number.
#[derive(Clone, Copy)]
pub struct Module {
    pub name: u32,
    pub words: usize,
    pub count: usize,
}

// What stands at a place of an import body, and the place behind it; places count from the body's start.
#[tactic(auto, using(crate::specs::ImportsLaws::module_past, crate::specs::ImportsLaws::module_end, crate::specs::ImportsLaws::module_short, crate::specs::ImportsLaws::module_cut, crate::specs::ImportsLaws::module_whole))]
pub fn module_at(body: &[u8], at: usize) -> Result<Option<(Module, usize)>, Refusal>
    ensures { told_module result ≡ module_at body.now at }
{
    if body.len() < at {
        return Err(Refusal::Cut);
    }
    let left = body.len() - at;
    if left == 0 {
        return Ok(None);
    }
    if left < 8 {
        return Err(Refusal::Cut);
    }
    let name = u32_at(body, at);
    let count = u32_at(body, at + 4) as usize;
    if left - 8 < 4 * count {
        return Err(Refusal::Cut);
    }
    let module = Module {
        name,
        words: at + 8,
        count,
    };
    Ok(Some((module, at + 8 + 4 * count)))
}

// One module of a walk over the imports, its words by their place in the area, and the walk behind it.
pub fn next_import(area: &[u8], walk: TableWalk) -> Result<Option<(Module, TableWalk)>, Refusal>
    ensures { told_import_step result ≡ import_step crate_rule area.now walk }
{
    match spot_first(area, CROSS_SCOPE_IMPORTS, walk)? {
        Some(spot) => match module_at(&area[spot.start..spot.start + spot.len], spot.at)? {
            Some((module, next)) => Ok(Some((
                Module {
                    words: spot.start + module.words,
                    ..module
                },
                TableWalk::In {
                    start: spot.start,
                    len: spot.len,
                    at: next,
                },
            ))),
            None => Ok(None),
        },
        None => Ok(None),
    }
}

// A reference resolved: the name of its module, and its word there (crate: `CrossModuleRef`).
#[derive(Clone, Copy)]
pub struct CrossModuleRef {
    pub name: u32,
    pub word: u32,
}

// The word that an index picks in a m.
fn word_of(body: &[u8], m: Module, index: u32) -> Result<CrossModuleRef, Refusal>
    requires { m.words + 4 * m.count ≤ length body.now }
    ensures { told_resolved result ≡ ref_in index (module_of body.now (told_row m)) }
{
    let id = (index % 0x10_0000) as usize;
    if id < m.count {
        Ok(CrossModuleRef {
            name: m.name,
            word: u32_at(body, m.words + 4 * id),
        })
    } else {
        Err(Refusal::CrossModuleRefNotFound(index))
    }
}

// The answer, if the index is a reference at all.
#[tactic(auto, using(crate::specs::ImportsLaws::ref_is, crate::specs::ImportsLaws::ref_not))]
fn checked(index: u32, best: Result<CrossModuleRef, Refusal>) -> Result<CrossModuleRef, Refusal>
    ensures { told_resolved result ≡ if_ref index (told_resolved best) }
{
    if index / 0x8000_0000 % 2 == 1 {
        best
    } else {
        Err(Refusal::NotACrossModuleRef(index))
    }
}

// The whole body comes first, so the walk goes on behind the module that was looked for.
fn resolve_in(body: &[u8], index: u32) -> Result<CrossModuleRef, Refusal>
    ensures { told_resolved result ≡ on_gave (ref_of index) (collected (modules body.now)) }
{
    let scope = (index / 0x10_0000 % 0x800) as usize;
    let mut best = Err(Refusal::CrossModuleRefNotFound(index));
    let mut n: usize = 0;
    let mut at: usize = 0;
    while let Some((module, next)) = module_at(body, at)? {
        if n == scope {
            best = word_of(body, module, index);
        }
        n += 1;
        at = next;
    }
    checked(index, best)
}

pub fn resolve_import(area: &[u8], index: u32) -> Result<CrossModuleRef, Refusal>
    ensures { told_resolved result ≡ resolve_import crate_rule area.now index }
{
    match first_of(area, CROSS_SCOPE_IMPORTS)? {
        Some(span) => resolve_in(&area[span.start..span.start + span.len], index),
        None => checked(index, Err(Refusal::CrossModuleRefNotFound(index))),
    }
}

// How many slots a list of the modules takes: one for each.
fn count_modules(body: &[u8]) -> Result<usize, Refusal>
    ensures { told_list result ≡ listing_count (modules body.now) }
{
    let mut n: usize = 0;
    let mut at: usize = 0;
    while let Some((_, next)) = module_at(body, at)? {
        n += 1;
        at = next;
    }
    Ok(n)
}

// The places of the modules of a body, which starts at `start` of the area.
fn put_places(body: &[u8], start: usize, places: &mut [u32])
    requires body_bound { start + length body.now ≤ longest }
    requires body_in_bounds { length (places_from start body.now 0) ≤ length places.old }
    ensures { places.new
        ≡ places_from start body.now 0 ++ drop (length (places_from start body.now 0)) places.old }
{
    let mut n: usize = 0;
    let mut at: usize = 0;
    while let Ok(Some((_, next))) = module_at(body, at) {
        places[n] = (start + at) as u32;
        n += 1;
        at = next;
    }
}

// The whole body comes first, then that the slots suffice. A call that is refused writes nothing.
fn list_in(body: &[u8], start: usize, places: &mut [u32]) -> Result<usize, Refusal>
    requires { start + length body.now ≤ longest }
    ensures result_value { told_list result ≡ slots_used (if_slots (length places.old) (collected (places_in start body.now))) }
    ensures places_after { places.new
        ≡ slots_with places.old (if_slots (length places.old) (collected (places_in start body.now))) }
{
    let n = count_modules(body)?;
    if places.len() < n {
        return Err(Refusal::NoRoom);
    }
    put_places(body, start, places);
    Ok(n)
}

// A list of the modules, for lookups that read no table again: the place of each module in the area.
pub fn import_list(area: &[u8], places: &mut [u32]) -> Result<usize, Refusal>
    ensures result_value { told_list result ≡ import_list crate_rule area.now (length places.old) }
    ensures places_after { places.new ≡ places_after crate_rule area.now places.old }
{
    match first_of(area, CROSS_SCOPE_IMPORTS)? {
        Some(span) => list_in(&area[span.start..span.start + span.len], span.start, places),
        None => Ok(0),
    }
}

// A word that lies in the bytes. It is read out of a part of four bytes, so that the compiled code tests nothing.
#[tactic(auto, using(crate::specs::ListedLaws::word_part))]
fn word_at(s: &[u8], at: usize) -> u32
    requires { at + 4 ≤ length s.now }
    ensures { result ≡ u32_at s.now at }
{
    u32_at(&s[at..at + 4], 0)
}

// The word that an index picks in the module at a place.
#[tactic(auto, using(crate::specs::ListedLaws::at_short, crate::specs::ListedLaws::at_cut, crate::specs::ListedLaws::at_none, crate::specs::ListedLaws::at_word))]
fn ref_at(area: &[u8], at: u32, index: u32) -> Result<CrossModuleRef, Refusal>
    ensures { told_resolved result ≡ ref_at area.now index at }
{
    let words = at as usize + 8;
    if area.len() < words {
        return Err(Refusal::Cut);
    }
    let count = word_at(area, words - 4) as usize;
    if (area.len() - words) / 4 < count {
        return Err(Refusal::Cut);
    }
    let id = (index % 0x10_0000) as usize;
    if count <= id {
        return Err(Refusal::CrossModuleRefNotFound(index));
    }
    Ok(CrossModuleRef {
        name: word_at(area, words - 8),
        word: word_at(area, words + 4 * id),
    })
}

// A reference resolved by a list of places. Its work does not depend on the area's size; the list is lent and may be wrong, so that the module is held
// against the area.
#[tactic(auto, using(crate::specs::ListedLaws::listed_long, crate::specs::ListedLaws::listed_not, crate::specs::ListedLaws::listed_none, crate::specs::ListedLaws::listed_at))]
pub fn resolve_listed(area: &[u8], places: &[u32], index: u32) -> Result<CrossModuleRef, Refusal>
    ensures { told_resolved result ≡ resolve_listed area.now places.now index }
{
    if LONGEST < area.len() {
        return Err(Refusal::TooLong);
    }
    if index / 0x8000_0000 % 2 == 0 {
        return Err(Refusal::NotACrossModuleRef(index));
    }
    let slot = (index / 0x10_0000 % 0x800) as usize;
    if places.len() <= slot {
        return Err(Refusal::CrossModuleRefNotFound(index));
    }
    ref_at(area, places[slot], index)
}
