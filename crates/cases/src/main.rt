// Sends every case of data/cases through the judging program or one of the other calls, and prints the answers. A case is a tag of one byte, three
// numbers (the state to fetch; or the first's count and the two states) and the lengths of the two files, in four bytes each, most significant
// first, and then the files.
#![tactic(auto)]

use answer::Answer;
use field::Cursor;
use judging_program::{CERTIFICATE, MODEL};
use std::fs::File;
use std::{fs, io};

const HEAD: usize = 21;

// The calls of two files that write into a lent buffer.
#[derive(Clone, Copy)]
enum Writing {
    Reduce,
    Join,
    Sheet,
    JudgeCosts,
}

// The calls other than the judging program.
#[derive(Clone, Copy)]
enum Call {
    Fetch,
    Alike,
    Write(Writing),
}

// What a case asks for, by its tag.
#[derive(Clone, Copy)]
enum Asked {
    Judge,
    Call(Call),
}

impl TryFrom<usize> for Asked {
    type Error = usize;

    fn try_from(tag: usize) -> Result<Self, usize> {
        match tag {
            0 => Ok(Asked::Judge),
            1 => Ok(Asked::Call(Call::Write(Writing::Reduce))),
            2 => Ok(Asked::Call(Call::Fetch)),
            3 => Ok(Asked::Call(Call::Write(Writing::Join))),
            4 => Ok(Asked::Call(Call::Alike)),
            5 => Ok(Asked::Call(Call::Write(Writing::Sheet))),
            6 => Ok(Asked::Call(Call::Write(Writing::JudgeCosts))),
            _ => Err(tag),
        }
    }
}

fn print_byte(rt: &impl Print, b: u8) -> io::Result<()> {
    print!(rt; "{b:02x}")
}

// Two hexadecimal digits for each of the bytes, in one line.
fn print_bytes(rt: &impl Print, bytes: &[u8]) -> io::Result<()> {
    for byte in bytes {
        print_byte(rt, *byte)?;
    }
    judging_program::print(rt, b"\n")
}

fn print_answer(rt: &impl Print, answer: Answer) -> io::Result<()> {
    judging_program::print_result(rt, answer.number, answer.file, answer.place)
}

// What was written into a buffer, in hexadecimal, or a sheet as it is, or blocks by their states.
fn print_written(rt: &impl Print, call: Writing, out: &[u8], written: usize) -> io::Result<()> {
    let end = judging_program::at_most(written, out);
    match call {
        Writing::Sheet => judging_program::print(rt, &out[..end]),
        Writing::JudgeCosts => judging_program::print_blocks(rt, &out[..end]),
        Writing::Reduce | Writing::Join => print_bytes(rt, &out[..end]),
    }
}

// The call of two files that writes into a lent buffer.
fn write(call: Writing, first: &[u8], second: &[u8], out: &mut [u8]) -> Answer {
    match call {
        Writing::Reduce => reduce::reduce_answer(first, second, out),
        Writing::Sheet => sheet::sheet_answer(first, second, out),
        Writing::Join => join::join_answer(first, second, out),
        Writing::JudgeCosts => judge::judge_costs_answer(first, second, out),
    }
}

fn write_and_print(rt: &impl Print, call: Writing, first: &[u8], second: &[u8]) -> io::Result<()> {
    // long enough: blocks and merged models are no longer than their model, a joined one is a model, a sheet has at most 73 bytes a state
    let mut out = [0u8; MODEL];
    let answer = write(call, first, second, &mut out);
    print_answer(rt, answer)?;
    if answer.number == 0 {
        print_written(rt, call, &out, answer.written)?;
    }
    Ok(())
}

// Prints the run or the stretch too: its length, a colon, its bytes.
fn fetch_and_print(rt: &impl Print, model: &[u8], fetched: u32) -> io::Result<()> {
    let mut number = 0;
    let mut file = 0;
    let mut place = 0;
    let mut state = 0;
    let mut remainder = 0;
    let part = fetch::fetch(
        model,
        fetched,
        &mut number,
        &mut file,
        &mut place,
        &mut state,
        &mut remainder,
    );
    judging_program::print_result(rt, number, file, place)?;
    judging_program::print_number(rt, part.len())?;
    judging_program::print(rt, b":")?;
    print_bytes(rt, part)
}

// Prints yes or no too.
fn alike_and_print(
    rt: &impl Print,
    model: &[u8],
    first_count: u32,
    certificate: &[u8],
    first_state: u32,
    second_state: u32,
) -> io::Result<()> {
    let found = alike::alike_answer(model, first_count, certificate, first_state, second_state);
    print_answer(rt, found.answer)?;
    if found.alike == 1 {
        judging_program::print(rt, b"yes\n")
    } else {
        judging_program::print(rt, b"no\n")
    }
}

// The numbers of a case, as its call is given them.
#[derive(Clone, Copy)]
struct Numbers {
    first: u32,
    second: u32,
    third: u32,
}

fn answer_case(
    rt: &impl Print,
    call: Call,
    numbers: Numbers,
    first: &[u8],
    second: &[u8],
) -> io::Result<()> {
    match call {
        Call::Fetch => fetch_and_print(rt, first, numbers.first),
        Call::Alike => alike_and_print(
            rt,
            first,
            numbers.first,
            second,
            numbers.second,
            numbers.third,
        ),
        Call::Write(writing) => write_and_print(rt, writing, first, second),
    }
}

// Reads two files, each as far as its slice has room, and answers.
fn read_and_answer(
    rt: &impl Print,
    call: Call,
    numbers: Numbers,
    file: &File,
    first: &mut [u8],
    second: &mut [u8],
) -> io::Result<()> {
    let m = judging_program::read_full(Some(file), first);
    let c = judging_program::read_full(Some(file), second);
    answer_case(rt, call, numbers, &first[..m], &second[..c])
}

// A call other than the judging program, for two files of so many bytes.
fn answer_streams(
    rt: &impl Print,
    call: Call,
    numbers: Numbers,
    file: &File,
    first_bytes: usize,
    second_bytes: usize,
) -> io::Result<()> {
    let mut first = [0u8; MODEL];
    let mut second = [0u8; CERTIFICATE];
    let m = judging_program::at_most(first_bytes, &first);
    let c = judging_program::at_most(second_bytes, &second);
    read_and_answer(rt, call, numbers, file, &mut first[..m], &mut second[..c])
}

// Answers the next case, and whether there was one. A tag that is none of these ends the cases.
fn one_case(rt: &(impl Print + Eprint), file: &File) -> io::Result<bool> {
    let mut head = [0u8; HEAD];
    let got = judging_program::read_full(Some(file), &mut head);
    if got < HEAD {
        return Ok(false);
    }
    let tag = Cursor::new(0).byte(&head);
    let number = tag.next.quad(&head);
    let first = number.next.quad(&head);
    let second = first.next.quad(&head);
    let model = second.next.quad(&head);
    let certificate = model.next.quad(&head);
    let Ok(asked) = Asked::try_from(tag.value) else {
        return Ok(false);
    };
    let numbers = Numbers {
        first: number.value as u32,
        second: first.value as u32,
        third: second.value as u32,
    };
    match asked {
        Asked::Judge => {
            judging_program::judge_streams(
                rt,
                Some(file),
                model.value,
                Some(file),
                certificate.value,
            )?
        }
        Asked::Call(call) => {
            answer_streams(rt, call, numbers, file, model.value, certificate.value)?
        }
    }
    Ok(true)
}

// A loop has to end, and nothing says that a file does: the turns are more than any run uses up.
fn all_cases(rt: &(impl Print + Eprint), file: &File) -> io::Result<()> {
    for _ in 0..u64::MAX {
        if !one_case(rt, file)? {
            break;
        }
    }
    Ok(())
}

fn main(rt: HostRuntime) -> io::Result<()> {
    match fs::open(&rt, "cases") {
        Ok(file) => all_cases(&rt, &file),
        Err(error) => eprintln!(rt; "cases: {error}"),
    }
}
