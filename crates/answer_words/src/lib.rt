// An answer for a program in another language: a status, and words put into lent ones. What each word is, is said once for every type of
// answer, in specs/. A walk's state is the first of the lent words.
#![tactic(auto)]

ghost use Rattle.std.specs.Prelude.{◌≡◌, [], ◌∷◌, get_or};
ghost use Rattle.word.specs.Word.{store};
ghost use Rattle.refusal.specs.Told.{told};
ghost use Rattle.answer_words.specs.Given.{given, Gives, refusal_given};
ghost use Rattle.answer_words.specs.FillGiven.{answer_status};
ghost use Rattle.answer_words.specs.TableWords.{walk_in, walk_words, over_table};

use refusal::{Refusal, numbers};
use table::TableWalk;

// The statuses.
pub const NONE: u32 = 0;

pub const GIVEN: u32 = 1;

pub const REFUSED: u32 = 2;

pub const TOO_SHORT: u32 = 3;

// An answer as `GIVEN`, and nothing comes behind it.
pub const LAST: u32 = 4;

// A number that should name a choice of the caller's names none. It is never taken for one.
pub const NO_SUCH_CHOICE: u32 = 5;

// The words that a refusal takes. A call that changes other lent memory too asks for as many before it does anything.
pub const REFUSAL_WORDS: usize = 2;

// The words of a walk over a table.
pub const TABLE_STATE_WORDS: usize = 4;

// Puts the words of an answer, and answers its status. By a loop, since std's copy of a slice would have the library call memmove, and of the C library
// it calls memcpy alone; so do the next two.
#[tactic(auto, using(crate::specs::GivenLaws::copied_turn))]
pub fn put(out: &mut [u64], at: usize, words: &[u64], status: u32) -> u32
    ensures { Gives out.old (given status at words.now) result out.new }
{
    if out.len() < at || out.len() - at < words.len() {
        return TOO_SHORT;
    }
    for (i, &w) in words.iter().enumerate() {
        out[at + i] = w;
    }
    status
}

// Puts the words of a record, of 32 bits each. Where they do not fit nothing is put.
#[tactic(auto, using(crate::specs::GivenLaws::copied_turn, word::specs::WordLaws::store_none))]
pub fn put32(records: &mut [u32], at: usize, words: &[u32])
    ensures { records.new ≡ store records.old at words.now }
{
    if records.len() < at || records.len() - at < words.len() {
        return;
    }
    for (i, &w) in words.iter().enumerate() {
        records[at + i] = w;
    }
}

// Puts words of 32 bits into words of 64. Where they do not fit nothing is put.
#[tactic(auto, using(crate::specs::GivenLaws::copied_turn, word::specs::WordLaws::store_none))]
pub fn put_wide(out: &mut [u64], at: usize, words: &[u32])
    ensures { out.new ≡ store out.old at words.now }
{
    if out.len() < at || out.len() - at < words.len() {
        return;
    }
    for (i, &w) in words.iter().enumerate() {
        out[at + i] = w as u64;
    }
}

// The status of an answer, by whether nothing comes behind it.
pub fn answer_status(last: bool) -> u32
    ensures { result ≡ answer_status last }
{
    if last { LAST } else { GIVEN }
}

// A refusal, put behind the state of a walk, which stays.
pub fn put_refusal(out: &mut [u64], state: usize, why: Refusal) -> u32
    ensures { Gives out.old (refusal_given state (told why)) result out.new }
{
    let (number, carried) = numbers(why);
    put(out, state, &[number, carried], REFUSED)
}

// A word of a walk's state; a word that was not lent is 0.
pub fn state_word(out: &[u64], i: usize) -> u64
    ensures { result ≡ get_or out.now i 0 }
{
    out.get(i).copied().unwrap_or(0)
}

// The walk over a table that the first `TABLE_STATE_WORDS` words say.
#[tactic(auto, using(crate::specs::TableWordsLaws::walk_new, crate::specs::TableWordsLaws::walk_goes))]
pub fn walk_in(out: &[u64]) -> TableWalk
    ensures { result ≡ walk_in out.now }
{
    if state_word(out, 0) == 0 {
        return TableWalk::New;
    }
    TableWalk::In {
        start: state_word(out, 1) as usize,
        len: state_word(out, 2) as usize,
        at: state_word(out, 3) as usize,
    }
}

// The words of a walk over a table.
#[derive(Clone, Copy)]
pub struct Four(pub u64, pub u64, pub u64, pub u64);

#[tactic(auto, using(crate::specs::TableWordsLaws::walk_is))]
pub fn walk_words(walk: TableWalk) -> Four
    ensures { walk_words walk ≡ result.0 ∷ result.1 ∷ result.2 ∷ result.3 ∷ [] }
{
    match walk {
        TableWalk::New => Four(0, 0, 0, 0),
        TableWalk::In { start, len, at } => Four(1, start as u64, len as u64, at as u64),
    }
}

// Whether a walk over a table stands at the end of its body.
pub fn over_table(walk: TableWalk) -> bool
    ensures { result ≡ over_table walk }
{
    matches!(walk, TableWalk::In { len, at, .. } if at == len)
}
