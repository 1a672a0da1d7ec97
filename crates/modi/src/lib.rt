// A module's stream and its three sizes: symbols, then C11 lines or a C13 area (crate: `ModuleInfo`).
//
// The C13 area is the part of the stream behind the symbols; places in the answers of calls on it count from the area's start. A module with C11
// lines has no area: its tables are empty and its lines are refused. So a call on a module is the area's own call on the part that `tables_part` or
// `lines_part` names. Every call tests number 11 first, of the stream.
#![tactic(auto)]

ghost use Rattle.std.specs.Prelude.{◌≡◌};
ghost use Rattle.walk.specs.Pick.{or_else};
ghost use Rattle.find.specs.Find.{held_span, HandsSpan};
ghost use Rattle.find.specs.Told.{told_found};
ghost use Rattle.modi.specs.Modi.{module_span, module_symbols, tables_span, lines_span};
ghost use Rattle.modi.specs.Told.{told_part, told_symbols};

use find::Span;
use refusal::{LONGEST, Refusal};
use word::u32_at;

// What stands in front of symbols (crate: `CV_SIGNATURE_C13`).
const CV_SIGNATURE_C13: u32 = 4;

// The sizes of a module's parts in its stream, in bytes.
#[derive(Clone, Copy)]
pub struct ModuleSizes {
    pub symbols: u32,
    pub c11: u32,
    pub c13: u32,
}

// Whether a module's symbols can be read.
#[tactic(auto, using(crate::specs::ModiLaws::symbols_long, crate::specs::ModiLaws::symbols_past, crate::specs::ModiLaws::symbols_none, crate::specs::ModiLaws::symbols_short, crate::specs::ModiLaws::symbols_yes, crate::specs::ModiLaws::symbols_other))]
pub fn module_symbols(stream: &[u8], sizes: ModuleSizes) -> Result<(), Refusal>
    ensures { told_symbols result ≡ module_symbols sizes stream.now }
{
    let len = stream.len();
    let symbols = sizes.symbols as usize;
    if LONGEST < len {
        return Err(Refusal::TooLong);
    }
    if len < symbols {
        return Err(Refusal::Cut);
    }
    if symbols == 0 {
        return Ok(());
    }
    if symbols < 4 {
        return Err(Refusal::Cut);
    }
    if u32_at(stream, 0) == CV_SIGNATURE_C13 {
        Ok(())
    } else {
        Err(Refusal::OldFormat)
    }
}

// Where a module's area stands in its stream; `None` with C11 lines.
#[tactic(auto, using(crate::specs::ModiLaws::span_long, crate::specs::ModiLaws::span_c11, crate::specs::ModiLaws::span_past, crate::specs::ModiLaws::span_inside))]
pub fn module_area(stream: &[u8], sizes: ModuleSizes) -> Result<Option<Span>, Refusal>
    ensures { told_found result ≡ module_span sizes stream.now }
{
    let symbols = sizes.symbols as usize;
    let c13 = sizes.c13 as usize;
    if LONGEST < stream.len() {
        return Err(Refusal::TooLong);
    }
    if 0 < sizes.c11 {
        return Ok(None);
    }
    if stream.len() < symbols + c13 {
        return Err(Refusal::ModuleSizes);
    }
    Ok(Some(Span {
        start: symbols,
        len: c13,
    }))
}

// A module's area itself, as a part of the lent stream; the empty part at the stream's start where there is none.
pub fn area_of(stream: &[u8], sizes: ModuleSizes) -> &[u8]
    ensures { HandsSpan stream.entry (held_span (module_span sizes stream.now)) result }
{
    match module_area(stream, sizes) {
        Ok(Some(area)) => &stream[area.start..area.start + area.len],
        Ok(None) => &stream[..0],
        Err(_) => &stream[..0],
    }
}

// The part of the stream that a call on a table or on lines reads: the area; the given one with C11 lines, where there is no area.
fn part_of(
    area: Result<Option<Span>, Refusal>,
    otherwise: Result<Span, Refusal>,
) -> Result<Span, Refusal>
    ensures { told_part result ≡ or_else (told_found area) (told_part otherwise) }
{
    match area? {
        Some(span) => Ok(span),
        None => otherwise,
    }
}

// The part of the stream that a call on a table reads: with C11 lines, the empty one.
pub fn tables_part(stream: &[u8], sizes: ModuleSizes) -> Result<Span, Refusal>
    ensures { told_part result ≡ tables_span sizes stream.now }
{
    part_of(module_area(stream, sizes), Ok(Span { start: 0, len: 0 }))
}

// The part of the stream that a call on lines or files reads: C11 lines are refused.
pub fn lines_part(stream: &[u8], sizes: ModuleSizes) -> Result<Span, Refusal>
    ensures { told_part result ≡ lines_span sizes stream.now }
{
    part_of(module_area(stream, sizes), Err(Refusal::OldFormat))
}
