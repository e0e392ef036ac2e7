//! Lines with their numbers, what they spell, and answers as text.
use answers::Answer;
use calls::{Call, CodeDigits, CodeRoom, Lines, MOST_CODES, ProgramFault, parse_call};
use refusals::Refusal;
use std::test::Fail;

/// A call with its run and its first code.
#[derive(Clone, Copy, PartialEq, Eq, Debug)]
enum Heard {
    Start(Option<u8>),
    Report(u32, Option<u8>),
    Preview(u32, Option<u8>),
    Close(u32),
    Verdict,
}

/// The call that a line spells.
fn read(line: &[u8]) -> Option<Heard> {
    parse_call(line).map(|call| match call {
        Call::Start(digits) => Heard::Start(first(digits)),
        Call::Report(run, digits) => Heard::Report(run, first(digits)),
        Call::Preview(run, digits) => Heard::Preview(run, first(digits)),
        Call::Close(run) => Heard::Close(run),
        Call::Verdict => Heard::Verdict,
    })
}

fn first(digits: CodeDigits<'_>) -> Option<u8> {
    let mut room: CodeRoom = [0; MOST_CODES];
    digits.codes(&mut room).first().copied()
}

#[test]
fn calls_with_values(rt: HostRuntime) {
    assert_eq!(rt; read(b"N 90"), Some(Heard::Start(Some(9))));
    assert_eq!(rt; read(b"U 000012 1"), Some(Heard::Report(12, Some(1))));
    assert_eq!(rt; read(b"P 999999 0"), Some(Heard::Preview(999_999, Some(0))));
    assert_eq!(rt; read(b"E 0"), Some(Heard::Close(0)));
    assert_eq!(rt; read(b"V"), Some(Heard::Verdict));
}

#[test]
fn lines_that_are_no_call(rt: HostRuntime) {
    assert_eq!(rt; read(b"E 1234567"), None);
    assert_eq!(rt; read(b"U  1 0"), None);
    assert_eq!(rt; read(b"N "), None);
    assert_eq!(rt; read(b"V\r"), None);
    assert_eq!(rt; read(b" "), None);
}

#[test]
fn empty_lines_only_count(rt: HostRuntime) {
    let mut heard = Lines::new(b"\n\nV\n\nE 1").map(|(number, line)| (number, read(line)));
    assert_eq!(rt; heard.next(), Some((3, Some(Heard::Verdict))));
    assert_eq!(rt; heard.next(), Some((5, Some(Heard::Close(1)))));
    assert_eq!(rt; heard.next(), None);
}

#[test]
fn answers_as_text(rt: HostRuntime) -> Result<(), Fail> {
    let policy = format!(in rt.alloc();
        "{}",
        Answer::Policy {
            atoms: 2,
            lines: 11
        }
    )?;
    assert_eq!(rt; policy.as_str(), "policy atoms 2 lines 11");
    let changed = format!(in rt.alloc();
        "{}",
        Answer::Changed {
            count: 2,
            verdict: 0
        }
    )?;
    assert_eq!(rt; changed.as_str(), "changed 2 verdict 0");
    let refused = format!(in rt.alloc();
        "{}",
        Answer::Refused(Refusal::from(ProgramFault::NoCall(7)))
    )?;
    assert_eq!(rt; refused.as_str(), "refused 41 layer 6 place 7");
    Ok(())
}
