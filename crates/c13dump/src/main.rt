// The sheet of an area of at most 65,536 bytes: its subsections, files and lines (document 01, "Sheet lines to try"). The area is read from a file or
// from standard input, one byte more than the longest, so that a longer one shows; crate `dump` prints the sheet.
//
// The exit status is 0, 1 or 2, as WHOLE, REFUSED and FAULT say (docs/DECISIONS.md, 40).
#![tactic(auto)]

ghost use Rattle.std.specs.Prelude.{◌≤◌, length, IfOk};

use listing::MOST;
use std::env::{Env, FillError};
use std::fs::{File, OpenOptions};
use std::io::{ErrorKind, IsTerminal, Read};
use std::process::ExitCode;
use std::{fs, io};

// The sheet ends in `end`, or help or the version was asked for, and all was written.
const WHOLE: u8 = 0;

// The sheet ends in a refusal.
const REFUSED: u8 = 1;

// Input was not read, output not written, or the call is wrong.
const FAULT: u8 = 2;

// The longest argument, and the system's number for a longer one.
const WORD: usize = 4096;

const NAME_TOO_LONG: i32 = 36;

// Standard output, as a file to open once more.
const OUTPUT: &str = "/proc/self/fd/1";

// Reads an input to its end or as far as there is room: how many bytes there are.
fn read_all<R: Read>(file: &mut R, area: &mut [u8]) -> io::Result<usize>
    ensures { IfOk result (λ len. len ≤ length area.new) }
{
    let mut len: usize = 0;
    while len < area.len() {
        let more = file.read(&mut area[len..])?;
        if more == 0 {
            return Ok(len);
        }
        len += more;
    }
    Ok(len)
}

// A line on standard error, of parts. What cannot be said there cannot be said.
fn tell(rt: &HostRuntime, parts: &[&[u8]]) {
    let to = rt.stderr();
    let _ = to.write_all(b"c13dump: ");
    for part in parts {
        let _ = to.write_all(part);
    }
    let _ = to.write_all(b"\n");
}

// The words of an error of the system, whose number stands behind them.
fn words_of(text: &str) -> &str {
    match text.split_once(" (os error ") {
        Some((words, _)) => words,
        None => text,
    }
}

// A line on standard error: what failed, and why.
fn failed(rt: &HostRuntime, what: &[u8], why: io::Error) -> u8 {
    match format!(in rt.alloc(); "{why}") {
        Ok(text) => tell(rt, &[what, b": ", words_of(text.as_str()).as_bytes()]),
        Err(_) => tell(rt, &[what]),
    }
    FAULT
}

// A line on standard error: what is wrong with the call.
fn misused(rt: &HostRuntime, what: &[u8], word: &[u8]) -> u8 {
    tell(rt, &[what, word, b"; c13dump --help says how it is called"]);
    FAULT
}

// A line on standard error: the sheet says `refused 11` by its own limit, and another program has none.
fn too_long(rt: &HostRuntime, name: &[u8]) {
    let limit =
        b": more than 65,536 bytes, the limit of this sheet; scripts/c13 sheet has no such limit";
    tell(rt, &[name, limit]);
}

// Whether standard output has all that it took: some file systems tell only at the end that they had no room. A file is opened once more and asked, where
// it can be, since std has no close that answers. No other output keeps back what it took.
fn stored(rt: &HostRuntime) -> io::Result<()> {
    match fs::metadata(rt, OUTPUT) {
        Ok(output) if output.is_file() => {}
        _ => return Ok(()),
    }
    match OpenOptions::new().write(true).open(rt, OUTPUT) {
        Ok(output) => output.sync_data(),
        Err(_) => Ok(()),
    }
}

// The status, if standard output took all that was written.
fn taken(rt: &HostRuntime, written: io::Result<()>, status: u8) -> u8 {
    match written.and_then(|_| stored(rt)) {
        Ok(()) => status,
        Err(why) => failed(rt, b"standard output", why),
    }
}

fn sheet<R: Read>(rt: &HostRuntime, file: &mut R, name: &[u8]) -> u8 {
    let mut area = [0u8; 65537];
    let len = match read_all(file, &mut area) {
        Ok(len) => len,
        Err(why) => return failed(rt, name, why),
    };
    let printed = dump::print(rt, &area[..len]);
    if !printed.refused {
        return taken(rt, printed.written, WHOLE);
    }
    let status = taken(rt, printed.written, REFUSED);
    if MOST < len && status == REFUSED {
        too_long(rt, name);
    }
    status
}

fn help(to: &impl Print) -> io::Result<()> {
    to.write_all(
        b"c13dump [FILE]
    The sheet of a C13 area: its subsections, files and lines, up to 'end' or 'refused N'. FILE is a file with the area, of at
    most 65,536 bytes (scripts/c13 sheet has no such limit); - or nothing is standard input.
c13dump --help, c13dump --version

The status is 0 where the sheet ends in 'end' and all was written; 1 where it ends in 'refused N'; 2 where input could not be
read, output not written, or the call is wrong, and standard error says which. scripts/run-program c13dump ends with it, too.
",
    )
}

// A path is text in UTF-8 to std, so that no other name can be opened.
fn sheet_of(rt: &HostRuntime, name: &[u8]) -> u8 {
    let Ok(path) = std::str::from_utf8(name) else {
        let why = io::Error::new(ErrorKind::InvalidInput, "not a name in UTF-8");
        return failed(rt, name, why);
    };
    match File::open(rt, path) {
        Ok(mut file) => sheet(rt, &mut file, name),
        Err(why) => failed(rt, name, why),
    }
}

fn sheet_of_input(rt: &HostRuntime) -> u8 {
    let mut input = rt.stdin();
    sheet(rt, &mut input, b"standard input")
}

fn answer_to(rt: &HostRuntime, word: &[u8]) -> u8 {
    match word {
        b"-" => sheet_of_input(rt),
        b"--help" => taken(rt, help(rt), WHOLE),
        b"--version" => taken(rt, rt.write_all(b"c13dump 0.1.0\n"), WHOLE),
        [b'-', ..] => misused(rt, b"no option ", word),
        _ => sheet_of(rt, word),
    }
}

// Whether the call has an argument of that number, however long.
fn has_argument(rt: &impl Env, i: usize) -> bool {
    let mut word = [0u8; 1];
    !matches!(rt.arg(i, &mut word), Err(FillError::NotPresent))
}

fn answer(rt: &HostRuntime) -> u8 {
    if has_argument(rt, 2) {
        return misused(rt, b"more than one file", b"");
    }
    let mut word = [0u8; WORD];
    match rt.arg(1, &mut word) {
        Ok(len) => answer_to(rt, &word[..len]),
        Err(FillError::TooLong) => {
            let why = io::Error::from_raw_os_error(NAME_TOO_LONG);
            failed(rt, b"the argument", why)
        }
        Err(FillError::NotPresent) => {
            if rt.stdin().is_terminal() {
                let _ = help(&rt.stderr());
                return FAULT;
            }
            sheet_of_input(rt)
        }
    }
}

fn main(rt: HostRuntime) -> ExitCode {
    ExitCode::from(answer(&rt))
}
