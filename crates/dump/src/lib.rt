// The text of an area on standard output: the lines of crate `listing`, one after the other. Every program that prints an area prints it here.
//
// No contract can say what is written. What is answered, how many lines the text has and whether it ends in a refusal, is what the definition of the
// text says; whether all of it was written is what the operating system said. That it failed to be is no error of the call, which still tells the text.
#![tactic(auto)]

ghost use Rattle.std.specs.Prelude.{◌≡◌, ◌+◌, ◌≤◌, length, ltb};
ghost use Rattle.kinds.specs.Kind.{crate_rule};
ghost use Rattle.printed.specs.Printed.{longest_line};
ghost use Rattle.listing.specs.Dump.{sheet_lines, sheet_size, sheet_refused};
ghost use Rattle.listing.specs.DumpLaws.{lines_from};
ghost use Rattle.listing.specs.declared.TextWalk.TheVariants.{Head};
ghost use Rattle.dump.specs.LineLaws.{last_size};

use listing::{LINE, TextWalk, next_text};
use order::order_list;
use std::io;

// The bytes of the line `end`. A refusal's line has more.
const END: usize = 4;

// What became of a text: how many lines it has, whether the last is a refusal, and whether all were written, or why not.
#[derive(Clone, Copy)]
pub struct Printed {
    pub lines: usize,
    pub refused: bool,
    pub written: io::Result<()>,
}

// Behind a write that failed none is tried, so that what stands on standard output is the start of the text.
fn write_on(rt: &impl Print, written: io::Result<()>, lines: &[u8]) -> io::Result<()> {
    written?;
    rt.write_all(lines)
}

// How much of a block holds lines that are yet to be written, and whether all before them were written.
#[derive(Clone, Copy)]
struct Held {
    used: usize,
    written: io::Result<()>,
}

// A block that has the room for one more line: where it may lack that, the lines that it holds are written.
fn with_room(rt: &impl Print, block: &[u8], used: usize, written: io::Result<()>) -> Held
    requires used { used ≤ length block.now }
    requires line { longest_line ≤ length block.now }
    ensures { result.used + longest_line ≤ length block.now }
{
    if block.len() - used < LINE {
        return Held {
            used: 0,
            written: write_on(rt, written, &block[..used]),
        };
    }
    Held { used, written }
}

fn print_lines(rt: &impl Print, area: &[u8], slots: &[u32], block: &mut [u8]) -> Printed
    requires { longest_line ≤ length block.old }
    ensures lines { result.lines ≡ sheet_size (lines_from crate_rule area.now slots.now Head) }
    ensures refused { result.refused ≡ ltb 4 (last_size 0 (lines_from crate_rule area.now slots.now Head)) }
{
    let mut walk = TextWalk::Head;
    let mut lines: usize = 0;
    let mut last: usize = 0;
    let mut used: usize = 0;
    let mut written = Ok(());
    loop {
        let held = with_room(rt, block, used, written);
        used = held.used;
        written = held.written;
        let step = next_text(area, slots, walk, &mut block[used..]);
        let Ok(Some((len, next))) = step else {
            return Printed {
                lines,
                refused: END < last,
                written: write_on(rt, written, &block[..used]),
            };
        };
        lines += 1;
        last = len;
        used += len;
        walk = next;
    }
}

// A line subsection takes 20 bytes or more, so the slots suffice for every area whose text has a head. Where the order list is refused the text is,
// too, before its first line record.
pub fn print(rt: &impl Print, area: &[u8]) -> Printed
    ensures lines { result.lines ≡ sheet_size (sheet_lines crate_rule area.now) }
    ensures refused { result.refused ≡ sheet_refused crate_rule area.now }
{
    let mut slots = [0u32; 3277];
    let _ = order_list(area, &mut slots);
    let mut block = [0u8; 65536];
    print_lines(rt, area, &slots, &mut block)
}
