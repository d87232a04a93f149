// Prints where two recordings differ: compare FIRST SECOND. A missing argument and a file that cannot be read are refused as one
// that is too long.
#![tactic(auto)]

ghost use Rattle.std.specs.Prelude.{◌≤◌, length, IfOk, IfSome};

use std::io::{Read, Write};
use std::rt::{Env, Files};
use std::{fs, io, str};

// Reads until the buffer is full or the file ends, and returns how many bytes it read.
fn read_all(file: &mut impl Read, buf: &mut [u8]) -> io::Result<usize>
    ensures { IfOk result (λ count. count ≤ length buf.new) }
{
    // A lent buffer and no heap: std's `read_to_end` fills a Vec, and `read_exact` refuses a file that ends sooner.
    let mut at: usize = 0;
    while at < buf.len() {
        let n = file.read(&mut buf[at..])?;
        if n == 0 {
            break;
        }
        at += n;
    }
    Ok(at)
}

// Reads the file that an argument names, and returns how many bytes it read. An argument that is missing or too long names no file
// that can be read, nor does one that is not UTF-8.
fn load(rt: &(impl Env + Files), which: usize, buf: &mut [u8]) -> Option<usize>
    ensures { IfSome result (λ count. count ≤ length buf.new) }
{
    let mut path = [0u8; 4096];
    let length = rt.arg(which, &mut path).ok()?;
    let path = str::from_utf8(&path[..length]).ok()?;
    let mut file = fs::open(rt, path).ok()?;
    read_all(&mut file, buf).ok()
}

// A buffer has one byte more than a file may have, so that one too many shows.
fn main(rt: HostRuntime) -> io::Result<()> {
    let mut first = [0u8; 32769];
    let mut second = [0u8; 32769];
    let mut out = [0u8; 65536];
    let printed = match (load(&rt, 1, &mut first), load(&rt, 2, &mut second)) {
        (Some(m), Some(n)) => comparison_text::print(true, &first[..m], &second[..n], &mut out),
        _ => comparison_text::print(false, &[], &[], &mut out),
    };
    io::writer(&rt).write_all(&out[..printed])
}
