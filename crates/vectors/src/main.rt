// Lists TAP files that an independent tool made. The arguments are their names; the output is compared with the listings expected.
// docs/TESTING.md says what is known of the tool.
#![tactic(auto)]

use std::fs::File;
use std::io::Write;
use std::{env, io};

// The length of '.tap', with which every name has to end and which is not printed.
const SUFFIX_BYTES: usize = 4;

// The longest path that there is. A longer argument is passed over.
const MOST_PATH: usize = 4096;

fn main(rt: HostRuntime) -> io::Result<()> {
    for path in env::args(&rt)?.skip(1) {
        list_argument(&rt, path.as_str())?;
    }
    Ok(())
}

// Prints the name of the file that an argument names, and its listing.
fn list_argument(rt: &HostRuntime, path: &str) -> io::Result<()> {
    if MOST_PATH < path.len() {
        return Ok(());
    }
    let Some((name, _)) = path.as_bytes().split_last_chunk::<SUFFIX_BYTES>() else {
        return Ok(());
    };
    let mut out = rt.stdout();
    out.write_all(b"== ")?;
    out.write_all(name)?;
    out.write_all(b"\n")?;
    match File::open(rt, path) {
        Ok(file) => list_file(rt, file),
        Err(e) => eprintln!(rt; "{path}: {e}"),
    }
}

fn list_file(rt: &HostRuntime, mut file: File) -> io::Result<()> {
    let mut bytes = [0u8; listing::INPUT_ROOM];
    let mut text = [0u8; listing::MOST_TEXT];
    let n = listing::read_input(&mut file, &mut bytes);
    let count = listing::list_tape(&bytes[..n], &mut text);
    rt.stdout().write_all(&text[..count])
}
