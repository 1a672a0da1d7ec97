// Where the parts of areas and streams stand, for programs in other languages: the subsections of an area, the names of a string table, and the parts of a
// module's stream. A call answers a status, and the words of the answer as the crate `answer_words` puts them. The crate `c13` gives each its C name.
#![tactic(auto)]

ghost use Rattle.kinds.specs.Kind.{crate_rule};
ghost use Rattle.answer_words.specs.Given.{Gives};
ghost use Rattle.export_parts.specs.Calls.{sub_given, names_given, name_given, symbols_given, lines_part_given, tables_part_given};

use answer_words::{GIVEN, NONE, put, put_refusal, state_word};
use area::sub_at;
use modi::ModuleSizes;
use strings::name_at;

// The words of a walk over subsections: its place.
const SUB_STATE_WORDS: usize = 1;

// The next subsection of an area. State: the place. Words: the place behind it, its kind, and where its body starts and how long it is.
pub fn next_sub(area: &[u8], out: &mut [u64]) -> u32
    ensures { Gives out.old (sub_given crate_rule area.now out.old) result out.new }
{
    match sub_at(area, state_word(out, 0) as usize) {
        Ok(Some((sub, next))) => put(
            out,
            0,
            &[
                next as u64,
                sub.kind as u64,
                sub.start as u64,
                sub.len as u64,
            ],
            GIVEN,
        ),
        Ok(None) => NONE,
        Err(why) => put_refusal(out, SUB_STATE_WORDS, why),
    }
}

// The names of a string table. Words: their start and their length.
pub fn string_table(stream: &[u8], out: &mut [u64]) -> u32
    ensures { Gives out.old (names_given stream.now) result out.new }
{
    match strings::string_table(stream) {
        Ok(names) => put(out, 0, &[names.start as u64, names.len as u64], GIVEN),
        Err(why) => put_refusal(out, 0, why),
    }
}

// A name. Words: its start and its length.
pub fn name(stream: &[u8], offset: u32, out: &mut [u64]) -> u32
    ensures { Gives out.old (name_given stream.now offset) result out.new }
{
    match name_at(stream, offset) {
        Ok(name) => put(out, 0, &[name.start as u64, name.len as u64], GIVEN),
        Err(why) => put_refusal(out, 0, why),
    }
}

// Whether a module's symbols can be read. No words.
pub fn module_symbols(stream: &[u8], symbols: u32, c11: u32, c13: u32, out: &mut [u64]) -> u32
    ensures { Gives out.old (symbols_given stream.now symbols c11 c13) result out.new }
{
    match modi::module_symbols(stream, ModuleSizes { symbols, c11, c13 }) {
        Ok(()) => GIVEN,
        Err(why) => put_refusal(out, 0, why),
    }
}

// The part of a module's stream that calls on lines and files read. Words: its start and its length.
pub fn lines_part(stream: &[u8], symbols: u32, c11: u32, c13: u32, out: &mut [u64]) -> u32
    ensures { Gives out.old (lines_part_given stream.now symbols c11 c13) result out.new }
{
    match modi::lines_part(stream, ModuleSizes { symbols, c11, c13 }) {
        Ok(part) => put(out, 0, &[part.start as u64, part.len as u64], GIVEN),
        Err(why) => put_refusal(out, 0, why),
    }
}

// The part of a module's stream that calls on the other tables read. Words: its start and its length.
pub fn tables_part(stream: &[u8], symbols: u32, c11: u32, c13: u32, out: &mut [u64]) -> u32
    ensures { Gives out.old (tables_part_given stream.now symbols c11 c13) result out.new }
{
    match modi::tables_part(stream, ModuleSizes { symbols, c11, c13 }) {
        Ok(part) => put(out, 0, &[part.start as u64, part.len as u64], GIVEN),
        Err(why) => put_refusal(out, 0, why),
    }
}
