// Cases of settings files: a call that reads or writes one, and all that it must leave.
use crate::case::{field, number, size};
use crate::reading::read_full;
use crate::tally::{Tally, counted};
use std::io;
use std::io::Read;

// What is lent is filled with this, to show what was written to it.
const FILL: u8 = 165;

const FILLING: u64 = 0xa5a5a5a5a5a5a5a5;

// The longest case, the longest output, and the most words of settings and of an answer.
const CASE: usize = 140000;

const BUFFER: usize = 65600;

const WORDS: usize = 64;

const ANSWER_WORDS: usize = 10;

// The numbers and fields of a case.
const KIND: usize = 0;

const EXPECTED: usize = 4;

const EDITION: usize = 8;

const ROOM: usize = 12;

const COUNT: usize = 16;

const LENT: usize = 20;

const SETTINGS: usize = 24;

const BODIES: usize = 32;

const OUT: usize = 40;

const ANSWER: usize = 48;

// The kind of a case that reads its bodies as a file; the other one writes.
const READ: u32 = 0;

fn call(c: &[u8], settings: &[u64], out: &mut [u8], answer: &mut [u64]) -> u64 {
    if number(c, KIND) == READ {
        return settings_answers::read(field(c, BODIES), answer);
    }
    let edition = (number(c, EDITION) % 65536) as u16;
    settings_answers::write(edition, settings, field(c, BODIES), out, answer)
}

fn read_words(words: &mut [u64], s: &[u8]) {
    for (word, bytes) in words.iter_mut().zip(s.chunks(8)) {
        *word = octets::read_u64_be(bytes, 0);
    }
}

fn call_with_words(c: &[u8], out: &mut [u8], answer: &mut [u64]) -> u64 {
    let mut words = [0u64; WORDS];
    read_words(&mut words, field(c, SETTINGS));
    let n = size(c, COUNT).min(WORDS);
    call(c, &words[..n], out, answer)
}

// Whether the words are those of a string.
fn are(words: &[u64], s: &[u8]) -> bool {
    let mut words = words.iter().enumerate();
    words.all(|(i, word)| *word == octets::read_u64_be(s, i.wrapping_mul(8)))
}

// Makes a call that is lent the front of an answer.
fn call_with_answer(c: &[u8], out: &mut [u8], answer: &mut [u64]) -> u64 {
    let n = size(c, LENT).min(answer.len());
    call_with_words(c, out, &mut answer[..n])
}

// Whether a call returns its number and leaves its answer.
fn answers(c: &[u8], out: &mut [u8]) -> bool {
    let mut answer = [FILLING; ANSWER_WORDS];
    let number_told = call_with_answer(c, out, &mut answer);
    number_told == number(c, EXPECTED) as u64 && are(&answer, field(c, ANSWER))
}

// Whether bytes are as they were filled. They are compared eight at a time.
fn is_filling(s: &[u8]) -> bool {
    let (eights, rest) = s.as_chunks::<8>();
    eights.iter().all(|eight| *eight == [FILL; 8]) && rest.iter().all(|byte| *byte == FILL)
}

// Whether a buffer holds a string, as far as there is room, and is as it was filled behind that.
fn holds(out: &[u8], s: &[u8]) -> bool {
    let n = s.len().min(out.len());
    let (front, behind) = out.split_at(n);
    front == &s[..n] && is_filling(behind)
}

fn answers_in_room(c: &[u8], out: &mut [u8]) -> bool {
    let room = size(c, ROOM).min(out.len());
    answers(c, &mut out[..room])
}

// Whether a call leaves all that it is lent as it must, and the bytes behind its room.
fn agrees(c: &[u8]) -> bool {
    let mut out = [FILL; BUFFER];
    answers_in_room(c, &mut out) && holds(&out, field(c, OUT))
}

fn read_case(file: &mut impl Read, case: &mut [u8]) -> io::Result<bool> {
    read_full(file, case)?;
    Ok(agrees(case))
}

// A case, behind its length (4).
fn next(file: &mut impl Read, buf: &mut [u8]) -> io::Result<bool> {
    let most = crate::length(file)?.min(buf.len());
    read_case(file, &mut buf[..most])
}

// The cases of a group.
fn cases_in(file: &mut impl Read, count: usize, buf: &mut [u8]) -> io::Result<Tally> {
    let mut t = [0u64; 2];
    for _ in 0..count {
        t = counted(t, next(file, buf)?);
    }
    Ok(t)
}

pub(crate) fn cases(file: &mut impl Read, count: usize) -> io::Result<Tally> {
    let mut buf = [0u8; CASE];
    cases_in(file, count, &mut buf)
}
