// The area: subsections of kind u32, length u32 and body, one after the other (crate: `DebugSubsectionIterator`).
//
// An answer's kind, place and length say where a body stands in the lent area; nothing is copied. Every call tests number 11 first, since each
// goes through `head_at`.
#![tactic(auto)]

ghost use Rattle.std.specs.Prelude.{◌≡◌, ◌+◌, ◌<◌, ◌^◌};
ghost use Rattle.kinds.specs.Kind.{crate_rule};
ghost use Rattle.area.specs.Subs.{step_at, crate_step};
ghost use Rattle.area.specs.SubsLaws.{whole_as, head_at};
ghost use Rattle.area.specs.Told.{told_head, told_step, told_stepped};

use kinds::{
    COFF_SYMBOL_RVA, CROSS_SCOPE_EXPORTS, CROSS_SCOPE_IMPORTS, FILE_CHECKSUMS, FRAME_DATA,
    FUNC_MDTOKEN_MAP, IGNORE, IL_LINES, INLINEE_LINES, LINES, MERGED_ASSEMBLY_INPUT, STRING_TABLE,
    SYMBOLS, TYPE_MDTOKEN_MAP,
};
use refusal::{LONGEST, Refusal};
use word::u32_at;

// A subsection: its kind, and where its body stands in the area.
#[derive(Clone, Copy)]
pub struct Sub {
    pub kind: u32,
    pub start: usize,
    pub len: usize,
}

// What stands at a place of the area: a known subsection, or one that is skipped with its body; each with the place behind it.
#[derive(Clone, Copy)]
enum Head {
    Sub(Sub, usize),
    Skip(usize),
}

// A subsection whose header and body are whole: the one decision over its kind.
#[tactic(auto, using(crate::specs::SubsLaws::whole_skipped, crate::specs::SubsLaws::whole_known, crate::specs::SubsLaws::whole_low, crate::specs::SubsLaws::whole_high))]
fn whole(kind: u32, at: usize, len: usize) -> Result<Option<Head>, Refusal>
    requires { at + 8 + len < 2 ^ 64 }
    ensures { told_head result ≡ whole_as crate_rule kind at len }
{
    match kind {
        SYMBOLS
        | LINES
        | STRING_TABLE
        | FILE_CHECKSUMS
        | FRAME_DATA
        | INLINEE_LINES
        | CROSS_SCOPE_IMPORTS
        | CROSS_SCOPE_EXPORTS
        | IL_LINES
        | FUNC_MDTOKEN_MAP
        | TYPE_MDTOKEN_MAP
        | MERGED_ASSEMBLY_INPUT
        | COFF_SYMBOL_RVA => {
            let sub = Sub {
                kind,
                start: at + 8,
                len,
            };
            Ok(Some(Head::Sub(sub, at + 8 + len)))
        }
        IGNORE => Ok(Some(Head::Skip(at + 8 + len))),
        _ => Err(Refusal::UnknownKind(kind)),
    }
}

#[tactic(auto, using(crate::specs::SubsLaws::head_long, crate::specs::SubsLaws::head_past, crate::specs::SubsLaws::head_end, crate::specs::SubsLaws::head_short, crate::specs::SubsLaws::head_cut, crate::specs::SubsLaws::head_whole))]
fn head_at(area: &[u8], at: usize) -> Result<Option<Head>, Refusal>
    ensures { told_head result ≡ head_at crate_rule area.now at }
{
    if LONGEST < area.len() {
        return Err(Refusal::TooLong);
    }
    if area.len() < at {
        return Err(Refusal::Cut);
    }
    let left = area.len() - at;
    if left == 0 {
        return Ok(None);
    }
    if left < 8 {
        return Err(Refusal::Cut);
    }
    let kind = u32_at(area, at);
    let len = u32_at(area, at + 4) as usize;
    if left - 8 < len {
        return Err(Refusal::Cut);
    }
    whole(kind, at, len)
}

// The subsection at a place, or behind what is skipped there, and the place behind it.
pub fn sub_at(area: &[u8], at: usize) -> Result<Option<(Sub, usize)>, Refusal>
    ensures { told_step result ≡ step_at crate_rule area.now at }
{
    let mut p = at;
    loop {
        match head_at(area, p)? {
            Some(Head::Sub(sub, next)) => {
                return Ok(Some((sub, next)));
            }
            Some(Head::Skip(next)) => {
                p = next;
            }
            None => {
                return Ok(None);
            }
        }
    }
}

// A walk over the subsections: its place. It stays where it ended or was refused, so that it answers the same again.
#[derive(Clone, Copy)]
pub struct SubWalk {
    pub at: usize,
}

// A step of a walk over the subsections: the answer, and the walk behind it.
#[derive(Clone, Copy)]
pub struct Stepped {
    pub step: Result<Option<(Sub, usize)>, Refusal>,
    pub walk: SubWalk,
}

impl SubWalk {
    pub fn new() -> SubWalk
        ensures { result.at ≡ 0 }
    {
        SubWalk { at: 0 }
    }

    pub fn step(self, area: &[u8]) -> Stepped
        ensures { told_stepped result ≡ crate_step area.now self.at }
    {
        match sub_at(area, self.at) {
            Ok(Some((sub, next))) => Stepped {
                step: Ok(Some((sub, next))),
                walk: SubWalk { at: next },
            },
            Ok(None) => Stepped {
                step: Ok(None),
                walk: self,
            },
            Err(why) => Stepped {
                step: Err(why),
                walk: self,
            },
        }
    }
}
