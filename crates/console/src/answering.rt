//! The lines of an input, answered by a book.
ghost use Rattle.std.specs.Prelude.{◌≡◌, ◌+◌, ◌≤◌, length, take, vec_len, vec_capacity};
ghost use Rattle.calls.specs.Lines.{lines_left};
ghost use Rattle.calls.specs.Spelling.{said, codes_in};
ghost use Rattle.console.specs.Output.{said_by};
ghost use Rattle.console.specs.Answering.{CallDone, LineDone, LinesDone, or_refused};

use answers::Answer;
use book::Book;
use calls::{Call, CodeRoom, Lines, MOST_CODES, ProgramFault, parse_call};
use meaning::BookFault;
use refusals::Refusal;
use scales::Scale;
use stores::Store;

/// Performs a call whose codes all have room.
fn answer_call<K: Scale, S: Store>(
    book: &mut Book<K, S>,
    call: Call<'_>,
) -> Result<Answer, BookFault>
    requires { take 64 (codes_in (said call)) ≡ codes_in (said call) }
    ensures value { CallDone K.Scale.algebra book.old.policy (S.Store.meaning book.old.store) (said call.entry) (said_by (λ a. a) result) (S.Store.meaning book.new.store) }
    ensures same { book.new.policy ≡ book.old.policy }
{
    let mut room: CodeRoom = [0; MOST_CODES];
    match call {
        Call::Start(digits) => book.start(digits.codes(&mut room)).map(Answer::Run),
        Call::Report(run, digits) => book
            .report(run, digits.codes(&mut room))
            .map(|(count, verdict)| Answer::Changed { count, verdict }),
        Call::Preview(run, digits) => {
            book.preview(run, digits.codes(&mut room))
                .map(Answer::Would)
        }
        Call::Close(run) => book.close(run).map(|gone| Answer::Closed { run, gone }),
        Call::Verdict => book.verdict().map(Answer::Verdict),
    }
}

/// Answers a line: performs the call that it spells, or refuses it by 41.
fn answer_line<K: Scale, S: Store>(
    book: &mut Book<K, S>,
    number: usize,
    line: &[u8],
) -> Result<Answer, Refusal>
    ensures value { LineDone K.Scale.algebra book.old.policy (S.Store.meaning book.old.store) number line.now (or_refused result) (S.Store.meaning book.new.store) }
    ensures same { book.new.policy ≡ book.old.policy }
{
    let call = parse_call(line).ok_or(ProgramFault::NoCall(number))?;
    Ok(answer_call(book, call)?)
}

/// Answers line by line; the answers go to `out`, which has room for them.
pub(crate) fn answer_lines<K: Scale, S: Store>(
    book: &mut Book<K, S>,
    lines: Lines<'_>,
    out: &mut Vec<Answer>,
)
    requires { vec_len out.old + length (lines_left lines) ≤ vec_capacity out.old }
    ensures { LinesDone K.Scale.algebra book.old.policy (S.Store.meaning book.old.store) (lines_left lines.entry) out.old.items out.new.items }
{
    for (number, line) in lines {
        let answer = answer_line(book, number, line).unwrap_or_else(Answer::Refused);
        out.push_reserved(answer);
    }
}
