// The order list: the positions of an area's line bodies in ascending (section, offset), in lent slots (crate: `LineProgram::parse`, whose
// `Vec` is the slots here).
#![tactic(auto)]

ghost use Rattle.std.specs.Prelude.{◌≡◌, length};
ghost use Rattle.kinds.specs.Kind.{crate_rule};
ghost use Rattle.order.specs.Order.{ordered, slots_after};
ghost use Rattle.order.specs.Told.{told_ordered};

use body_list::body_list;
use refusal::Refusal;
use sort::sort_first;

// The area's list of line bodies, sorted, and how many slots it takes: one for each line subsection. A call that is refused writes nothing.
pub fn order_list(area: &[u8], slots: &mut [u32]) -> Result<usize, Refusal>
    ensures result_value { told_ordered result ≡ ordered crate_rule area.now (length slots.old) }
    ensures slots_after { slots.new ≡ slots_after crate_rule area.now slots.old }
{
    let n = body_list(area, slots)?;
    sort_first(area, slots, n);
    Ok(n)
}
