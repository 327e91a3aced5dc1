//! A driver of cases: it reads lines from the standard input, does what each asks with rigs in memory, and answers it
//! with one line. What the answers should be is told by plain models outside of it, so that a case costs a line and no
//! proof (docs/ARCHITECTURE.md).
#![tactic(auto)]

mod areas;
mod bitmaps;
mod blocks;
mod fault;
mod formats;
mod rigs;
mod runs;
mod setting;
mod words;

use fault::Fault;
use setting::Setting;
use std::alloc::{AllocError, Global};
use std::io::{self, BufRead, BufReader, BufWriter, Write};

fn main(rt: HostRuntime) -> io::Result<()> {
    let alloc = rt.alloc();
    let mut setting = Setting::new(alloc)?;
    let mut output = BufWriter::new(alloc, io::writer(&rt))?;
    for line in BufReader::new(alloc, rt.reader())?.lines(alloc) {
        let line = line?;
        if !line.is_empty() && !line.starts_with("#") {
            let answer = answer(alloc, &mut setting, &line)?;
            output.write_all(answer.as_bytes())?;
            output.write_all(b"\n")?;
        }
    }
    output.flush()
}

/// The answer to a line, without its end: `?` where the line is refused.
fn answer(alloc: Global, setting: &mut Setting, line: &str) -> Result<String, AllocError> {
    let words: Vec<&str> = line.split(' ').collect(alloc)?;
    match answer_words(setting, &words) {
        Ok(answer) => Ok(answer),
        Err(Fault::Refused) => String::from_str(alloc, "?"),
        Err(Fault::Memory) => Err(AllocError),
    }
}

/// The answer to the words of a line, by the first of them.
fn answer_words(setting: &mut Setting, words: &[&str]) -> Result<String, Fault> {
    let (name, operands) = words.split_first().ok_or(Fault::Refused)?;
    if let Some(answer) = setting.set(name, operands)? {
        return Ok(answer);
    }
    if let Some(answer) = setting.run(name, operands)? {
        return Ok(answer);
    }
    if let Some(answer) = setting.call_rig(name, operands)? {
        return Ok(answer);
    }
    if let Some(answer) = setting.call_area(name, operands)? {
        return Ok(answer);
    }
    formats::answer(setting.alloc, name, operands)
}
