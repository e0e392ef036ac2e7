//! The calls of a book case.
use crate::words::Words;
use anyhow::anyhow;
use meaning::{Answer, BookFault, Call};
use refusals::Refusal;
use std::alloc::Global;
use std::fmt;

/// A call: its name, a run and a line, with 0 for what it has not, and these codes.
fn parse_call<'a>(words: &mut Words<'_>, codes: &'a [u8]) -> anyhow::Result<Call<'a>> {
    let name = words.next();
    // before the numbers, so that a word that names no call is what is told of the line
    if !["start", "report", "preview", "close", "verdict", "truth"].contains(&name) {
        return Err(anyhow!("no call"));
    }
    let run = words.number()?;
    let line = words.number()?;
    Ok(match name {
        "start" => Call::Start(codes),
        "report" => Call::Report(run, codes),
        "preview" => Call::Preview(run, codes),
        "close" => Call::Close(run),
        "verdict" => Call::Verdict,
        _ => Call::Truth(run, line),
    })
}

/// The codes of each call of a case, which stand behind its head; none where a call has none.
pub(crate) fn parse_codes(heap: Global, line: &str) -> anyhow::Result<Vec<Vec<u8>>> {
    let mut codes = Vec::new(heap);
    for text in line.split(';').skip(1) {
        let mut words = Words::new(text);
        // what is wrong is told of the first call with a fault, and there from the left
        let _call = parse_call(&mut words, &[])?;
        codes.push(words.bytes(heap)?)?;
    }
    Ok(codes)
}

/// The calls of a case, with these codes.
pub(crate) fn parse_calls<'a>(
    heap: Global,
    line: &str,
    codes: &'a [Vec<u8>],
) -> anyhow::Result<Vec<Call<'a>>> {
    let mut calls = Vec::new(heap);
    for (text, codes) in line.split(';').skip(1).zip(codes) {
        calls.push(parse_call(&mut Words::new(text), codes.as_slice())?)?;
    }
    Ok(calls)
}

/// What a book answers, as it is printed.
#[derive(Clone, Copy)]
pub(crate) struct Answered(pub(crate) Result<Answer, BookFault>);

impl fmt::Display for Answered {
    fn fmt<W: fmt::Write>(&self, f: &mut fmt::Formatter<W>) -> fmt::Result {
        match self.0 {
            Ok(Answer::Started(run)) => write!(f, "started {run}"),
            Ok(Answer::Changed(count, verdict)) => write!(f, "changed {count} verdict {verdict}"),
            Ok(Answer::Would(verdict)) => write!(f, "would {verdict}"),
            Ok(Answer::Closed(gone)) => write!(f, "gone {gone}"),
            Ok(Answer::Verdict(verdict)) => write!(f, "verdict {verdict}"),
            Ok(Answer::Truth(truth)) => write!(f, "truth {truth}"),
            Err(fault) => write!(f, "{}", Refusal::from(fault)),
        }
    }
}
