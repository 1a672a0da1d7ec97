// The first and the last subsection of a kind, by their place in the lent area.
#![tactic(auto)]

ghost use Rattle.std.specs.Prelude.{◌≡◌};
ghost use Rattle.kinds.specs.Kind.{crate_rule};
ghost use Rattle.area.specs.Told.{told_sub};
ghost use Rattle.find.specs.Find.{span_of, first_sub, last_sub};
ghost use Rattle.find.specs.Told.{told_span, told_found};

use area::{Sub, sub_at};
use refusal::Refusal;

// Where a body stands in the lent bytes.
#[derive(Clone, Copy)]
pub struct Span {
    pub start: usize,
    pub len: usize,
}

fn span_of(sub: Sub) -> Span
    ensures { told_span result ≡ span_of (told_sub sub) }
{
    Span {
        start: sub.start,
        len: sub.len,
    }
}

// The first subsection of a kind: nothing behind it is read, all before it must pass.
pub fn first_of(area: &[u8], wanted: u32) -> Result<Option<Span>, Refusal>
    ensures { told_found result ≡ first_sub crate_rule wanted area.now }
{
    let mut p: usize = 0;
    while let Some((sub, next)) = sub_at(area, p)? {
        if sub.kind == wanted {
            return Ok(Some(span_of(sub)));
        }
        p = next;
    }
    Ok(None)
}

// The last subsection of a kind: the whole area must pass.
pub fn last_of(area: &[u8], wanted: u32) -> Result<Option<Span>, Refusal>
    ensures { told_found result ≡ last_sub crate_rule wanted area.now }
{
    let mut best = None;
    let mut p: usize = 0;
    while let Some((sub, next)) = sub_at(area, p)? {
        if sub.kind == wanted {
            best = Some(span_of(sub));
        }
        p = next;
    }
    Ok(best)
}
