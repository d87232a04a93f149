// Runs the vectors: published ones and those of the independent reference. tools/vectors.py describes the files. After each call the
// whole lent output, every lent word and the answer are compared. For each group, and for each file, it prints how many cases came
// to what, and how many differ.
#![tactic(auto)]

mod case;
mod chacha_ciphers;
mod ciphers;
mod datagrams;
mod edition_2017;
mod hashes;
mod memory;
mod reading;
mod streams;
mod tally;

ghost use Rattle.std.specs.Prelude.{◌≡◌, length};

use case::{COUNT, COUNTER, KIND, LENT, OUTPUT, ROOM, STREAM, field, number, size};
use reading::read_full;
use std::io::Read;
use std::rt::Files;
use std::{fs, io};
use tally::Tally;

// What a buffer is filled with, to show what was written to it.
const FILL: u8 = 165;

// The longest output.
const BUFFER: usize = 66000;

// The words of a group: a table or a pool, streams of eight words, the nine values of an answer, and its number.
const WORDS: usize = 1600;

const ANSWER: usize = 1590;

const NUMBER: usize = 1599;

// The kind of a case that sets words, and the last ones of each module's calls.
const SETTING: u64 = 0;

const CIPHERS: u64 = 7;

const HASHES: u64 = 15;

const DATAGRAMS: u64 = 31;

const STREAMS: u64 = 47;

const EDITION_2017: u64 = 63;

// The longest group.
const GROUP: usize = 350000;

// The field of a group's title, or a file's.
const TITLE: usize = 8;

// Makes a call of a kind on the words, the output and the stream lent, and tells its answer.
fn answer_to(
    c: &[u8],
    kind: u64,
    words: &mut [u64],
    out: &mut [u8],
    stream: &mut [u64],
    answer: &mut [u64],
) -> u64
    requires stream_len { length stream.old ≡ 8 }
    requires answer_len { length answer.old ≡ 9 }
{
    if kind <= CIPHERS {
        return ciphers::call(c, kind, out);
    }
    if kind <= HASHES {
        return hashes::call(c, kind, out);
    }
    if kind <= DATAGRAMS {
        return datagrams::call(c, kind, words, out, answer);
    }
    if kind <= STREAMS {
        return streams::call(c, kind, words, out, stream, answer);
    }
    if kind <= EDITION_2017 {
        return edition_2017::call(c, kind, out, stream, answer);
    }
    chacha_ciphers::call(c, kind, out)
}

// The same with as many of the words as the call is lent.
fn lend(c: &[u8], words: &mut [u64], out: &mut [u8], stream: &mut [u64], answer: &mut [u64]) -> u64
    requires stream_len { length stream.old ≡ 8 }
    requires answer_len { length answer.old ≡ 9 }
{
    let n = size(c, LENT).min(words.len());
    answer_to(c, number(c, KIND), &mut words[..n], out, stream, answer)
}

// Writes what a call leaves beside the words lent.
fn keep(words: &mut [u64], at: usize, stream: &[u64], answer: &[u64], number: u64) {
    memory::put(words, at, stream);
    memory::put(words, ANSWER, answer);
    memory::set(words, NUMBER, number);
}

// Makes the call of a case. Its stream and its answer are among the words before it and after.
fn call(c: &[u8], words: &mut [u64], out: &mut [u8]) {
    let mut stream = [0u64; 8];
    let mut answer = [0u64; 9];
    let at = size(c, STREAM);
    memory::put(&mut stream, 0, memory::rest(words, at));
    let n = lend(c, words, out, &mut stream, &mut answer);
    keep(words, at, &stream, &answer, n);
}

// Makes a call, or sets words.
fn run(c: &[u8], words: &mut [u64], out: &mut [u8]) {
    if number(c, KIND) == SETTING {
        memory::expect(words, c);
        return;
    }
    call(c, words, out);
}

// Whether a case leaves its output as it must. The buffer is as long as its room.
fn leaves(c: &[u8], words: &mut [u64], out: &mut [u8]) -> bool {
    run(c, words, out);
    memory::holds(out, field(c, OUTPUT))
}

// The same in the front of a longer buffer.
fn leaves_in(c: &[u8], words: &mut [u64], out: &mut [u8]) -> bool {
    let room = size(c, ROOM).min(out.len());
    leaves(c, words, &mut out[..room])
}

// Whether a case leaves its output and the words as it must.
fn agrees(c: &[u8], words: &mut [u64], expected: &mut [u64]) -> bool {
    let mut out = [FILL; BUFFER];
    memory::expect(expected, c);
    leaves_in(c, words, &mut out) && *words == *expected
}

// The cases of a group, on the same words.
fn cases(s: &[u8], count: usize, words: &mut [u64], expected: &mut [u64]) -> Tally {
    let mut t = [0u64; 5];
    for i in 1..count {
        let c = case::record(s, i);
        let same = agrees(c, words, expected);
        let sum = tally::counted(t, size(c, COUNTER), number(c, COUNT), same);
        t = sum;
    }
    t
}

// How many records a group has, its head among them, or groups a file.
fn count(s: &[u8]) -> usize {
    octets::read_u32_be(s, 4) as usize
}

// A group: how many cases it has, its title, and a record for each.
fn group(rt: &impl Print, head: &[u8], s: &[u8]) -> io::Result<Tally> {
    let mut words = [0u64; WORDS];
    let mut expected = [0u64; WORDS];
    let t = cases(s, count(s), &mut words, &mut expected);
    tally::print(rt, head, field(s, TITLE), t)?;
    Ok(t)
}

// Reads a group of a known length.
fn read_group(
    rt: &impl Print,
    file: &mut impl Read,
    head: &[u8],
    s: &mut [u8],
) -> io::Result<Tally> {
    read_full(file, s)?;
    group(rt, head, s)
}

// The length that stands before a group (4).
fn group_length(file: &mut impl Read) -> io::Result<usize> {
    let mut length = [0u8; 4];
    read_full(file, &mut length)?;
    Ok(octets::read_u32_be(&length, 0) as usize)
}

fn next_group(
    rt: &impl Print,
    file: &mut impl Read,
    head: &[u8],
    buf: &mut [u8],
) -> io::Result<Tally> {
    let n = group_length(file)?.min(buf.len());
    read_group(rt, file, head, &mut buf[..n])
}

// The groups of a file.
fn groups(rt: &impl Print, file: &mut impl Read, head: &[u8], buf: &mut [u8]) -> io::Result<Tally> {
    let mut all = [0u64; 5];
    for _ in 0..count(head) {
        all = tally::sum(all, next_group(rt, file, head, buf)?);
    }
    Ok(all)
}

// The groups behind a head, and their total.
fn total(rt: &impl Print, file: &mut impl Read, head: &[u8]) -> io::Result<()> {
    let mut buf = [0u8; GROUP];
    let all = groups(rt, file, head, &mut buf)?;
    tally::print(rt, head, field(head, TITLE), all)
}

// A file: a head of 256 bytes, with how many groups there are, the title of the total and the names of what cases come to; then
// the groups.
fn file(rt: &(impl Files + Print), path: &str) -> io::Result<()> {
    let mut head = [0u8; 256];
    let mut file = fs::open(rt, path)?;
    read_full(&mut file, &mut head)?;
    total(rt, &mut file, &head)
}

fn main(rt: HostRuntime) -> io::Result<()> {
    file(&rt, "aes.bin")?;
    file(&rt, "blake3.bin")?;
    file(&rt, "gcm.bin")?;
    file(&rt, "hashes.bin")?;
    file(&rt, "chacha.bin")?;
    file(&rt, "chacha_poly.bin")?;
    file(&rt, "datagram.bin")?;
    file(&rt, "sessions.bin")?;
    file(&rt, "streams.bin")?;
    file(&rt, "sip004.bin")
}
