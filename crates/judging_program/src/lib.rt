// The judging program, as functions that programs call.
#![tactic(auto)]

ghost use Rattle.judging_program.specs.Prefix.{IsPrefixLen};

use limits::STATES;
use sentence::LONGEST;
use std::io::Read;
use std::rt::Files;
use std::{fs, io};

// Of the model file the first 16,384 bytes are read, more than any model has; of the certificate file up to 49,152.
pub const MODEL: usize = 16384;

pub const CERTIFICATE: usize = 49152;

// So many bytes, or all that a buffer has.
pub fn at_most(n: usize, buffer: &[u8]) -> usize
    ensures { IsPrefixLen result buffer.now }
{
    n.min(buffer.len())
}

pub fn print(rt: &impl Print, text: &[u8]) -> io::Result<()> {
    rt.write_all(text)
}

pub fn print_number(rt: &impl Print, n: usize) -> io::Result<()> {
    print!(rt; "{n}")
}

// A line of a state and its block.
fn print_block(rt: &impl Print, state: usize, block: u8) -> io::Result<()> {
    println!(rt; "{state} {block}")
}

// Each state with its block.
pub fn print_blocks(rt: &impl Print, blocks: &[u8]) -> io::Result<()> {
    for (state, block) in blocks.iter().enumerate() {
        print_block(rt, state, *block)?;
    }
    Ok(())
}

// Number, file and place.
pub fn print_result(rt: &impl Print, number: u32, file: u32, place: usize) -> io::Result<()> {
    println!(rt; "result {number} {file} {place}")
}

// The sentence of a refusal, for people: a line on standard error. It is plain text, of which nothing is escaped.
fn say(
    rt: &impl Eprint,
    number: u32,
    file: u32,
    place: usize,
    state: u32,
    remainder: i64,
) -> io::Result<()> {
    let mut text = [0u8; LONGEST];
    let answer = sentence::sentence_answer(number, file, place, state, remainder, &mut text);
    let end = at_most(answer.written, &text);
    rt.eprintln(text[..end].escape_ascii())
}

// Judges a pair and prints the answer: number, file and place, and on acceptance each state with its block. A refusal is also said in words.
fn judge_and_print(rt: &(impl Print + Eprint), model: &[u8], certificate: &[u8]) -> io::Result<()> {
    let mut blocks = [0u8; STATES];
    let mut number = 0;
    let mut file = 0;
    let mut place = 0;
    let mut state = 0;
    let mut remainder = 0;
    let mut written = 0;
    judge::judge(
        model,
        certificate,
        &mut blocks,
        &mut number,
        &mut file,
        &mut place,
        &mut state,
        &mut remainder,
        &mut written,
    );
    print_result(rt, number, file, place)?;
    if number == 0 {
        let end = at_most(written, &blocks);
        return print_blocks(rt, &blocks[..end]);
    }
    say(rt, number, file, place, state, remainder)
}

// Reads a file as far as it goes or a buffer has room, and says how far that is. A missing file reads as empty, and a failed read ends the file.
pub fn read_full<F: Read + Drop>(file: Option<F>, buffer: &mut [u8]) -> usize
    ensures { IsPrefixLen result buffer.new }
{
    let Some(mut file) = file else {
        return 0;
    };
    let mut done = 0;
    while done < buffer.len() {
        match file.read(&mut buffer[done..]) {
            Ok(got) if got > 0 => done += got,
            _ => break,
        }
    }
    done
}

// Reads the two files, each as far as its slice has room, and judges them.
fn read_and_judge<F: Read + Drop>(
    rt: &(impl Print + Eprint),
    pa: Option<F>,
    model: &mut [u8],
    ct: Option<F>,
    certificate: &mut [u8],
) -> io::Result<()> {
    let m = read_full(pa, model);
    let c = read_full(ct, certificate);
    if CERTIFICATE < c {
        return print(rt, b"certificate too long\n");
    }
    judge_and_print(rt, &model[..m], &certificate[..c])
}

// Judges two files, of which at most so many bytes are theirs. A missing file reads as empty.
pub fn judge_streams<F: Read + Drop>(
    rt: &(impl Print + Eprint),
    pa: Option<F>,
    pa_bytes: usize,
    ct: Option<F>,
    ct_bytes: usize,
) -> io::Result<()> {
    let mut model = [0u8; MODEL];
    let mut certificate = [0u8; CERTIFICATE + 1];
    let m = at_most(pa_bytes, &model);
    let c = at_most(ct_bytes, &certificate);
    read_and_judge(rt, pa, &mut model[..m], ct, &mut certificate[..c])
}

// The judging program: pa.bin and ct.bin of the current folder. A file that cannot be opened reads as empty.
pub fn judge_files(rt: &(impl Files + Print + Eprint)) -> io::Result<()> {
    let pa = fs::open(rt, "pa.bin").ok();
    let ct = fs::open(rt, "ct.bin").ok();
    judge_streams(rt, pa, usize::MAX, ct, usize::MAX)
}
