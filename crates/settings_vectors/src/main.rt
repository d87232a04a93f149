// Runs the vectors of settings files: of BLAKE3's hash, the official ones and lengths of the independent reference; and of files that
// are read and written. tools/settings_vectors.py describes the data. For each group, and for each of both, it prints how many cases
// there are, and how many differ.
#![tactic(auto)]

mod case;
mod files;
mod hashes;
mod reading;
mod tally;

use reading::read_full;
use std::io::Read;
use std::rt::Files;
use std::{fs, io};
use tally::{Tally, sum};

// A group's head: how many cases it has, and the field of its title.
const HEAD: usize = 64;

const COUNT: usize = 0;

const TITLE: usize = 4;

// A number of the data (4).
fn length(file: &mut impl Read) -> io::Result<usize> {
    let mut bytes = [0u8; 4];
    read_full(file, &mut bytes)?;
    Ok(case::size(&bytes, 0))
}

// A group whose cases are hashes of an input, or without one of files.
fn group(rt: &impl Print, file: &mut impl Read, input: &[u8]) -> io::Result<Tally> {
    let mut head = [0u8; HEAD];
    read_full(file, &mut head)?;
    let t = cases(file, case::size(&head, COUNT), input)?;
    tally::print(rt, case::field(&head, TITLE), t)?;
    Ok(t)
}

fn cases(file: &mut impl Read, count: usize, input: &[u8]) -> io::Result<Tally> {
    if input.is_empty() {
        return files::cases(file, count);
    }
    hashes::cases(file, count, input)
}

fn groups(rt: &impl Print, file: &mut impl Read, count: usize, input: &[u8]) -> io::Result<Tally> {
    let mut all = [0u64; 2];
    for _ in 0..count {
        all = sum(all, group(rt, file, input)?);
    }
    Ok(all)
}

// A file of data: how many groups it has (4), and the groups.
fn file(rt: &(impl Files + Print), path: &str, title: &[u8], input: &[u8]) -> io::Result<()> {
    let mut file = fs::open(rt, path)?;
    let count = length(&mut file)?;
    let all = groups(rt, &mut file, count, input)?;
    tally::print(rt, title, all)
}

fn main(rt: HostRuntime) -> io::Result<()> {
    let mut input = [0u8; hashes::LONGEST];
    hashes::fill(&mut input);
    file(&rt, "hashes.bin", b"BLAKE3's hash, total: ", &input)?;
    file(&rt, "files.bin", b"settings files, total: ", b"")
}
