// What the gate's programs write to standard output.
#![tactic(auto)]

use std::io;

// Bytes in hexadecimal, and a line feed.
pub fn print_bytes(rt: &impl Print, bytes: &[u8]) -> io::Result<()> {
    for byte in bytes {
        print!(rt; "{byte:02x}")?;
    }
    print(rt, b"\n")
}

pub fn print(rt: &impl Print, text: &[u8]) -> io::Result<()> {
    rt.write_all(text)
}

pub fn print_number(rt: &impl Print, number: u64) -> io::Result<()> {
    rt.print(number)
}
