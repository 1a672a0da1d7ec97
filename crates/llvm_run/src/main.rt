// Prints the text of one area after the other, to be held against LLVM's reading of them. On standard input each area stands behind its length, a
// word. An area that is cut is not printed, nor what is behind it.
//
// The input is made of real areas and the file stdout of LLVM's reading of them, both by `compare/llvm --fix`: no line of stdout is this program's own.
#![tactic(auto)]

use std::io;
use std::io::Read;

// No input is longer: what is behind so many bytes is not read.
const INPUT: u64 = 4096;

fn print_all(rt: &impl Print, input: &[u8]) -> io::Result<()> {
    let mut left = input;
    while let Some((len, behind)) = left.split_first_chunk::<4>() {
        let Some((area, next)) = behind.split_at_checked(u32::from_le_bytes(*len) as usize) else {
            return Ok(());
        };
        dump::print(rt, area).written?;
        left = next;
    }
    Ok(())
}

fn main(rt: HostRuntime) -> io::Result<()> {
    let mut input = Vec::new(rt.alloc());
    rt.reader().take(INPUT).read_to_end(&mut input)?;
    print_all(&rt, &input)
}
