// Lists the program file that a TAP file holds: tape_list < FILE
#![tactic(auto)]

use std::io;
use std::io::Write;

fn main(rt: HostRuntime) -> io::Result<()> {
    let mut file = [0u8; listing::INPUT_ROOM];
    let mut text = [0u8; listing::MOST_TEXT];
    let n = listing::read_input(&mut rt.stdin(), &mut file);
    let count = listing::list_tape(&file[..n], &mut text);
    rt.stdout().write_all(&text[..count])
}
