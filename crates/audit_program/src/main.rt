//! The auditor: hands the words of its command line, the files of the machine, its standard streams and a crew of
//! threads to the commands, and ends with the status that they give.
#![tactic(auto)]

use audit_commands::refuse_for_memory;
use audit_ports::{OpenGate, RealShelf, RealSink, ThreadCrew};
use audit_words::Word;
use bench_commands::run;
use stale_model::{List, Memory};
use std::env;
use std::io::ErrorKind;
use std::process::ExitCode;
use std::rt::Env;

// How many jobs the crew has places for.
const PLACES: u32 = 32;

// The words after the program's name. Where one of them is no UTF-8 text there are none, which is refused as any
// wrong words are.
fn words_of<R: Env + AllocGlobal>(rt: &R) -> Result<Vec<Word>, Memory> {
    let mut words = Vec::new(rt.alloc());
    let texts = match env::args(rt) {
        Ok(texts) => texts,
        Err(error) if error.kind() == ErrorKind::OutOfMemory => return Err(Memory),
        Err(_) => return Ok(words),
    };
    for text in texts.skip(1) {
        let word = Word::of(rt.alloc(), &text)?;
        if words.push(word).is_err() {
            return Err(Memory);
        }
    }
    Ok(words)
}

fn main(rt: HostRuntime) -> ExitCode {
    let mut shelf = RealShelf::over(rt);
    let mut out = RealSink::output(rt);
    let mut err = RealSink::error(rt);
    let Ok(words) = words_of(&rt) else {
        return ExitCode::from(refuse_for_memory(&mut err));
    };
    let no_fails = List::from_vec(Vec::new(rt.alloc()));
    let Ok(mut crew) = ThreadCrew::prepare(rt, rt.alloc(), PLACES, no_fails) else {
        return ExitCode::from(refuse_for_memory(&mut err));
    };
    ExitCode::from(run(
        &rt,
        rt.alloc(),
        &words,
        &mut shelf,
        &mut out,
        &mut err,
        &mut crew,
        &OpenGate,
    ))
}
