// Makes the calls of standard input on a bank and on a block file of three nodes, two places and three slots, and says what
// both answer. At the end the block file's image is checked as a stranger's.
#![tactic(auto)]

mod call;

use bank::Bank;
use bank::cell::BLANK;
use block_file::BlockFile;
use call::Call;
use image_reader::reader::ImageReader;
use refusal::kind::Refusal;
use std::io;
use store::kinds::Shape;
use words::{read_number, words_of};

const SHAPE: Shape = Shape {
    nodes: 3,
    places: 2,
    slots: 3,
};

// Makes the call on both, and says what they answer.
fn answer(
    rt: &HostRuntime,
    bank: &mut Bank,
    file: &mut BlockFile,
    line: &str,
    call: Call,
) -> io::Result<()> {
    let mut bytes = [0; 64];
    let mut others = [0; 64];
    let said = call.make(bank, &mut bytes);
    if said != call.make(file, &mut others) || bytes != others {
        return println!(rt; "{line}: bank and block file differ");
    }
    match said {
        Ok(()) if call.reads() => {
            let byte = bytes[0];
            println!(rt; "{line}: {byte}")
        }
        Ok(()) => println!(rt; "{line}: done"),
        Err(refusal) => println!(rt; "{line}: {refusal}"),
    }
}

// The call that a line asks for.
fn read(rt: &HostRuntime, line: &str) -> io::Result<Option<Call>> {
    let words = words_of(rt.alloc(), line)?;
    let [name, rest @ ..] = words.as_slice() else {
        return Ok(None);
    };
    let numbers: Option<Vec<usize>> = rest
        .iter()
        .map(|word| read_number(*word))
        .collect(rt.alloc())?;
    Ok(numbers.and_then(|numbers| Call::named(*name, numbers.as_slice())))
}

// Makes the call of a line.
fn obey(rt: &HostRuntime, bank: &mut Bank, file: &mut BlockFile, line: &str) -> io::Result<()> {
    match read(rt, line)? {
        Some(call) => answer(rt, bank, file, line, call),
        None => println!(rt; "{line}: no such call"),
    }
}

fn main(rt: HostRuntime) -> io::Result<()> {
    let mut cells = [BLANK; 18];
    let mut image = [255; 1320];
    if Bank::check(SHAPE, &cells).is_err() || BlockFile::check(SHAPE, &image).is_err() {
        return println!(rt; "sizes");
    }
    let mut bank = Bank::new(SHAPE, &mut cells);
    let mut file = BlockFile::new(SHAPE, &mut image);
    for line in rt.lines(rt.alloc()) {
        obey(&rt, &mut bank, &mut file, line?.as_str())?;
    }
    match ImageReader::check(SHAPE, file.image()) {
        Ok(()) => println!(rt; "the image is sound"),
        Err(refusal) => println!(rt; "{refusal}"),
    }
}
