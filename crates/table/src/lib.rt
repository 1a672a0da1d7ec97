// A walk over the records of a table, which is the body of one subsection of an area: where it stands, and where its next record is.
//
// A new walk looks for the body first; behind its first record it knows the body's place, so that the area is searched once. What records with their
// places are, and all records of a listing in a list, is said in specs/ for every table.
#![tactic(auto)]

ghost use Rattle.std.specs.Prelude.{◌≡◌};
ghost use Rattle.kinds.specs.Kind.{crate_rule};
ghost use Rattle.find.specs.Find.{first_sub};
ghost use Rattle.find.specs.Told.{told_found};
ghost use Rattle.table.specs.Table.{spot_in, spot_new, spot_of, word_in};
ghost use Rattle.table.specs.Told.{told_spot, told_word};

use find::{Span, first_of};
use refusal::{LONGEST, Refusal};
use word::u32_at;

// A state of a walk over a table: new, or at a place of the body of `len` bytes that starts at `start`.
#[derive(Clone, Copy)]
pub enum TableWalk {
    New,
    In { start: usize, len: usize, at: usize },
}

// Where the next record of a table is looked for: at a place of the body of `len` bytes that starts at `start` and lies in the area.
#[derive(Clone, Copy)]
pub struct Spot {
    pub start: usize,
    pub len: usize,
    pub at: usize,
}

// The spot of a walk that goes on: it trusts no state, so the body is held against the area again.
#[tactic(auto, using(crate::specs::TableLaws::spot_long, crate::specs::TableLaws::spot_past, crate::specs::TableLaws::spot_inside))]
pub fn spot_in(area: &[u8], start: usize, len: usize, at: usize) -> Result<Option<Spot>, Refusal>
    ensures { told_spot result ≡ spot_in area.now start len at }
{
    if LONGEST < area.len() {
        return Err(Refusal::TooLong);
    }
    if area.len() < start {
        return Err(Refusal::Cut);
    }
    if area.len() - start < len {
        return Err(Refusal::Cut);
    }
    Ok(Some(Spot { start, len, at }))
}

// The spot of a walk over the table that is the first subsection of a kind.
#[tactic(auto, using(crate::specs::TableLaws::spot_new_is, crate::specs::TableLaws::spot_in_is))]
pub fn spot_first(area: &[u8], kind: u32, walk: TableWalk) -> Result<Option<Spot>, Refusal>
    ensures { told_spot result ≡ spot_of (first_sub crate_rule kind area.now) area.now walk }
{
    match walk {
        TableWalk::New => spot_new(first_of(area, kind)),
        TableWalk::In { start, len, at } => spot_in(area, start, len, at),
    }
}

// The spot of a new walk: the start of the table that was found.
pub fn spot_new(found: Result<Option<Span>, Refusal>) -> Result<Option<Spot>, Refusal>
    ensures { told_spot result ≡ spot_new (told_found found) }
{
    match found? {
        Some(span) => Ok(Some(Spot {
            start: span.start,
            len: span.len,
            at: 0,
        })),
        None => Ok(None),
    }
}

// A word of a record that answers its words by place and number, as the modules of imports (crate: `CrossScopeImportModule::get`) and the inlinees
// with their extra files do.
//
// The i-th of `count` words that stand from the place `words` of the area on. It trusts no caller, so they are held against the area again. The
// sum of their place and their bytes may not fit: hence the quotient.
#[tactic(auto, using(crate::specs::WordsLaws::word_long, crate::specs::WordsLaws::word_past, crate::specs::WordsLaws::word_none, crate::specs::WordsLaws::word_at))]
pub fn word_in(area: &[u8], words: usize, count: usize, i: usize) -> Result<Option<u32>, Refusal>
    ensures { told_word result ≡ word_in area.now words count i }
{
    let len = area.len();
    if LONGEST < len {
        return Err(Refusal::TooLong); // before any place is held against it
    }
    if len < words {
        return Err(Refusal::Cut);
    }
    if (len - words) / 4 < count {
        return Err(Refusal::Cut);
    }
    if count <= i {
        return Ok(None);
    }
    Ok(Some(u32_at(area, words + 4 * i)))
}
