// The line walk over an area and its order list (crate: `LineProgram::lines`, `LineIterator`): the next record, and the walk behind it.
//
// `LineWalk::New` starts it, and names the reading of end lines. Where there is no record, and where it is refused, the caller keeps its walk, so that the
// answer repeats.
#![tactic(auto)]

ghost use Rattle.std.specs.Prelude.{◌≡◌};
ghost use Rattle.kinds.specs.Kind.{crate_rule};
ghost use Rattle.line_walk.specs.Next.{next_of};
ghost use Rattle.line_walk.specs.Told.{told_line};

use line_record::LineRecord;
use line_step::{LineWalk, Turn, take_turn};
use refusal::Refusal;

#[tactic(auto, using(crate::proofs::NextLaws::next_falls))]
pub fn next_line(
    area: &[u8],
    slots: &[u32],
    walk: LineWalk,
) -> Result<Option<(LineRecord, LineWalk)>, Refusal>
    ensures { told_line result ≡ next_of crate_rule area.now slots.now walk }
{
    let mut w = walk;
    while let Some(turn) = take_turn(area, slots, w)? {
        match turn {
            Turn::Line(r, t) => return Ok(Some((r, t))),
            Turn::Pass(t) => w = t,
        }
    }
    Ok(None)
}
