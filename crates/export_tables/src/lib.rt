// The calls on inlinees, imports and exports, for programs in other languages: a status, and the words of the answer as the crate `answer_words` puts them. The
// crate `c13` gives each its C name.
#![tactic(auto)]

ghost use Rattle.std.specs.Prelude.{◌≡◌, [], ◌∷◌, length};
ghost use Rattle.imports.specs.Told.{told_resolved};
ghost use Rattle.exports.specs.Told.{told_export, told_lookup};
ghost use Rattle.kinds.specs.Kind.{crate_rule};
ghost use Rattle.answer_words.specs.Given.{Gives, one, reply_given};
ghost use Rattle.export_tables.specs.Calls.{ref_words, export_words};
ghost use Rattle.export_tables.specs.Calls.{word_given, inlinee_given, module_given, ref_given, export_given, count_given, global_given};
ghost use Rattle.export_tables.specs.Calls.{list_given, places_left, listed_given, body_given, export_at_given, global_in_given};

use answer_words::{
    GIVEN, NONE, REFUSAL_WORDS, TABLE_STATE_WORDS, TOO_SHORT, put, put_refusal, walk_in, walk_words,
};
use exports::CrossModuleExport;
use imports::CrossModuleRef;
use refusal::Refusal;
use table::word_in;

// One of the words that a record says by their place and their number.
pub fn word(area: &[u8], words: usize, count: usize, i: usize, out: &mut [u64]) -> u32
    ensures { Gives out.old (word_given area.now words count i) result out.new }
{
    match word_in(area, words, count, i) {
        Ok(Some(word)) => put(out, 0, &[word as u64], GIVEN),
        Ok(None) => NONE,
        Err(why) => put_refusal(out, 0, why),
    }
}

// The next inlinee. State: of a walk over a table. Words: the inlinee, its file and line, the place of its extra files, their number.
pub fn next_inlinee(area: &[u8], out: &mut [u64]) -> u32
    ensures { Gives out.old (inlinee_given crate_rule area.now out.old) result out.new }
{
    match inlinees::next_inlinee(area, walk_in(out)) {
        Ok(Some((line, next))) => {
            let w = walk_words(next);
            put(
                out,
                0,
                &[
                    w.0,
                    w.1,
                    w.2,
                    w.3,
                    line.inlinee as u64,
                    line.file as u64,
                    line.line as u64,
                    line.extra as u64,
                    line.count as u64,
                ],
                GIVEN,
            )
        }
        Ok(None) => NONE,
        Err(why) => put_refusal(out, TABLE_STATE_WORDS, why), // behind the state, which stays
    }
}

// The next module of the imports. State: of a walk over a table. Words: its name, the place of its words, their number.
pub fn next_import(area: &[u8], out: &mut [u64]) -> u32
    ensures { Gives out.old (module_given crate_rule area.now out.old) result out.new }
{
    match imports::next_import(area, walk_in(out)) {
        Ok(Some((module, next))) => {
            let w = walk_words(next);
            put(
                out,
                0,
                &[
                    w.0,
                    w.1,
                    w.2,
                    w.3,
                    module.name as u64,
                    module.words as u64,
                    module.count as u64,
                ],
                GIVEN,
            )
        }
        Ok(None) => NONE,
        Err(why) => put_refusal(out, TABLE_STATE_WORDS, why),
    }
}

// A reference: the name of its module, and its word there.
fn put_ref(out: &mut [u64], found: Result<CrossModuleRef, Refusal>) -> u32
    ensures { Gives out.old (reply_given ref_words (told_resolved found)) result out.new }
{
    match found {
        Ok(found) => put(out, 0, &[found.name as u64, found.word as u64], GIVEN),
        Err(why) => put_refusal(out, 0, why),
    }
}

// A reference resolved. Words: the name of its module, and its word there.
pub fn resolve_import(area: &[u8], index: u32, out: &mut [u64]) -> u32
    ensures { Gives out.old (ref_given crate_rule area.now index) result out.new }
{
    put_ref(out, imports::resolve_import(area, index))
}

// A list of the modules' places, into lent slots. Word: how many slots it takes.
pub fn import_list(area: &[u8], places: &mut [u32], out: &mut [u64]) -> u32
    ensures gives { Gives out.old
        (list_given crate_rule area.now (length places.old) out.old)
        result out.new }
    ensures places_after { places.new ≡ places_left crate_rule area.now places.old out.old }
{
    if out.len() < REFUSAL_WORDS {
        return TOO_SHORT;
    }
    match imports::import_list(area, places) {
        Ok(slots) => put(out, 0, &[slots as u64], GIVEN),
        Err(why) => put_refusal(out, 0, why),
    }
}

// The words of a reference, and as many are those of a refusal.
const REF_WORDS: usize = 2;

// A reference resolved by a list of places. Words: the name of its module, and its word there. The room for either answer is tested first, so that the
// compiled code need not keep the length of `out`.
pub fn resolve_listed(area: &[u8], places: &[u32], index: u32, out: &mut [u64]) -> u32
    ensures { Gives out.old (listed_given area.now places.now index) result out.new }
{
    if out.len() < REF_WORDS {
        return TOO_SHORT;
    }
    put_ref(out, imports::resolve_listed(area, places, index))
}

// Three words of a record.
#[derive(Clone, Copy)]
struct Three(u64, u64, u64);

// An export in words: 0 for a type or 1 for an id, the local and the global index.
fn export_words(export: CrossModuleExport) -> Three
    ensures { export_words (told_export export) ≡ result.0 ∷ result.1 ∷ result.2 ∷ [] }
{
    match export {
        CrossModuleExport::Type { local, global } => Three(0, local as u64, global as u64),
        CrossModuleExport::Id { local, global } => Three(1, local as u64, global as u64),
    }
}

// The next export. State: of a walk over a table. Words: 0 for a type or 1 for an id, the local and the global index.
pub fn next_export(area: &[u8], out: &mut [u64]) -> u32
    ensures { Gives out.old (export_given crate_rule area.now out.old) result out.new }
{
    match exports::next_export(area, walk_in(out)) {
        Ok(Some((export, next))) => {
            let w = walk_words(next);
            let e = export_words(export);
            put(out, 0, &[w.0, w.1, w.2, w.3, e.0, e.1, e.2], GIVEN)
        }
        Ok(None) => NONE,
        Err(why) => put_refusal(out, TABLE_STATE_WORDS, why),
    }
}

// The number of exports.
pub fn export_count(area: &[u8], out: &mut [u64]) -> u32
    ensures { Gives out.old (count_given crate_rule area.now) result out.new }
{
    match exports::export_count(area) {
        Ok(count) => put(out, 0, &[count as u64], GIVEN),
        Err(why) => put_refusal(out, 0, why),
    }
}

fn put_lookup(out: &mut [u64], lookup: Result<Option<u32>, Refusal>) -> u32
    ensures { Gives out.old (reply_given one (told_lookup lookup)) result out.new }
{
    match lookup {
        Ok(Some(global)) => put(out, 0, &[global as u64], GIVEN),
        Ok(None) => NONE, // no export has the index
        Err(why) => put_refusal(out, 0, why),
    }
}

// The global index of a local one.
pub fn resolve_export(area: &[u8], local: u32, out: &mut [u64]) -> u32
    ensures { Gives out.old (global_given crate_rule area.now local) result out.new }
{
    put_lookup(out, exports::resolve_export(area, local))
}

// The body for lookups. Words: where it starts in the area, and its length.
pub fn export_body(area: &[u8], out: &mut [u64]) -> u32
    ensures { Gives out.old (body_given crate_rule area.now) result out.new }
{
    match exports::export_body(area) {
        Ok(body) => put(out, 0, &[body.start as u64, body.len as u64], GIVEN),
        Err(why) => put_refusal(out, 0, why),
    }
}

// The export at an index of a body. Words: 0 for a type or 1 for an id, the local and the global index.
pub fn export_at(body: &[u8], i: usize, out: &mut [u64]) -> u32
    ensures { Gives out.old (export_at_given body.now i) result out.new }
{
    match exports::export_at(body, i) {
        Ok(Some(export)) => {
            let x = export_words(export);
            put(out, 0, &[x.0, x.1, x.2], GIVEN)
        }
        Ok(None) => NONE, // behind the last export
        Err(why) => put_refusal(out, 0, why),
    }
}

// The global index of a local one in a body.
pub fn export_in(body: &[u8], local: u32, out: &mut [u64]) -> u32
    ensures { Gives out.old (global_in_given body.now local) result out.new }
{
    put_lookup(out, exports::export_in(body, local))
}
