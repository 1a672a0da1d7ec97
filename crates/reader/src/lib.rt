// A walker that holds the area and its place, and answers one subsection at a time (crate: `DebugSubsectionIterator`).
//
// Each function takes the struct apart; the work is that of the walk on the slice. `second_sub` stands above them with plain parameters.
#![tactic(auto)]

ghost use Rattle.std.specs.Prelude.{◌≡◌, ◌-◌, length};
ghost use Rattle.area.specs.Told.{told_step, told_stepped};
ghost use Rattle.area.specs.Subs.{crate_step};
ghost use Rattle.reader.specs.Second.{second};

use area::{Sub, SubWalk};
use refusal::Refusal;

// The walk over the subsections, and the area that it goes over.
#[derive(Clone, Copy)]
pub struct Reader<'a> {
    pub walk: SubWalk,
    pub area: &'a [u8],
}

// What a step leaves: the step that the walk took, and the area beside it.
#[derive(Clone, Copy)]
pub struct Stepped<'a> {
    pub taken: area::Stepped,
    pub area: &'a [u8],
}

pub fn new<'a>(area: &'a [u8]) -> Reader<'a>
    ensures { (result.area ≡ area.entry) × (result.walk.at ≡ 0) }
{
    Reader {
        walk: SubWalk::new(),
        area,
    }
}

// What is left, in bytes.
pub fn left<'a>(r: Reader<'a>) -> usize
    ensures { result ≡ length r.entry.area.now - r.entry.walk.at }
{
    r.area.len().saturating_sub(r.walk.at)
}

// The step: what stands here, and the reader moved on.
pub fn step<'a>(r: Reader<'a>) -> Stepped<'a>
    ensures { (result.area ≡ r.entry.area) × (told_stepped result.taken ≡ crate_step r.entry.area.now r.entry.walk.at) }
{
    Stepped {
        taken: r.walk.step(r.area),
        area: r.area,
    }
}

// The reader that a step leaves.
pub fn rest<'a>(q: Stepped<'a>) -> Reader<'a>
    ensures { (result.area ≡ q.entry.area) × (result.walk ≡ q.entry.taken.walk) }
{
    Reader {
        walk: q.taken.walk,
        area: q.area,
    }
}

// The answer of a step.
pub fn answer<'a>(q: Stepped<'a>) -> Result<Option<(Sub, usize)>, Refusal>
    ensures { result ≡ q.entry.taken.step }
{
    q.taken.step
}

// From a slice to a reader and back.
pub fn second_sub(area: &[u8]) -> Result<Option<(Sub, usize)>, Refusal>
    ensures { told_step result ≡ second area.now }
{
    answer(step(rest(step(new(area)))))
}
