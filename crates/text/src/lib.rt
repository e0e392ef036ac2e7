//! A policy text is read into a table of lines, or refused at the right byte. Nothing is allocated, and for every byte
//! string there is one answer.
//!
//! `read` equates its answer with what the text means, and states the law of texts (specs/Texts.antt): accepted exactly
//! when the grammar and the limits read it, refused at the first thing that is wrong. `policy_refusal` is the call that
//! `text_c` offers to a program in C. Rests on `signs`, `lines`, `grammar`, `names` and `rules`.
#![tactic(auto)]

ghost use Rattle.std.specs.Prelude.{◌≡◌, Bool};
ghost use Rattle.signs.specs.Signs.{Kind};
ghost use Rattle.text.specs.Heads.{Tells, SignRead, NamesRead, Fresh, Parsed};
ghost use Rattle.text.specs.Texts.{meant, told, Right, grammar_refusal, refusal_of, number_of};

use grammar::GrammarFault;
use lines::{Policy, Table};
use names::{Names, Span};
use refusals::{Layer, Refusal};
use rules::{Depth, Parser, is_mark};
use signs::{Mark, Placed, Reader, Sign, check_length};

mod fault;
mod reading;

pub use fault::TextFault;
pub use reading::Reading;

/// The names of the atoms, from the first up to the semicolon behind the last.
fn read_names(parser: &mut Parser<'_>) -> Result<(), GrammarFault>
    ensures { NamesRead parser.old parser.new result }
{
    loop {
        let placed = parser.reader.next()?;
        let Sign::Name(_) = placed.sign else {
            return Err(GrammarFault::Misfit(placed.from));
        };
        let Placed { from, to, .. } = placed;
        parser
            .names
            .declare(parser.reader.text(), Span { from, to })?;
        let behind = parser.reader.next()?;
        if is_mark(behind.sign, Mark::Semicolon) {
            return Ok(());
        }
        if !is_mark(behind.sign, Mark::Comma) {
            return Err(GrammarFault::Misfit(behind.from));
        }
    }
}

/// The sign that has to come next: one that passes the test.
fn expect<F: Fn(Sign<'_>) -> bool>(parser: &mut Parser<'_>, fits: F) -> Result<(), GrammarFault>
    requires { F.IsAlwaysCallable fits }
    ensures { (test : Kind → Bool) → Tells (F.post fits) test → SignRead test parser.old parser.new result }
{
    let placed = parser.reader.next()?;
    if fits(placed.sign) {
        Ok(())
    } else {
        Err(GrammarFault::Misfit(placed.from))
    }
}

/// The whole text: names, rule, full stop.
fn parse(parser: &mut Parser<'_>) -> Result<(), GrammarFault>
    requires { Fresh parser.old }
    ensures { Parsed parser.old parser.new result }
{
    check_length(parser.reader.text())?;
    expect(parser, |sign| is_mark(sign, Mark::Atoms))?;
    read_names(parser)?;
    expect(parser, |sign| is_mark(sign, Mark::Rule))?;
    let _last = parser.form(Depth::new(0))?;
    expect(parser, |sign| is_mark(sign, Mark::Stop))?;
    expect(parser, |sign| matches!(sign, Sign::End))?;
    Ok(())
}

/// The policy that the text is.
///
/// Refuses by 1 before all else; then at the lowest place by 2, 4, 3, 5, 7, 6, 8, in this order; then by 9.
pub fn read(text: &[u8]) -> Result<Reading, TextFault>
    ensures value { told text.now result ≡ meant text.now }
    ensures right { Right text.now result }
{
    let mut parser = Parser {
        reader: Reader::new(text),
        names: Names::new(),
        table: Table::new(),
    };
    parse(&mut parser)?;
    let policy = Policy::new(parser.names.count(), parser.table, text.len())?;
    Ok(Reading {
        names: parser.names,
        policy,
    })
}

/// The fault's row in the refusal table.
impl From<TextFault> for Refusal {
    ghost from_gives = { λ f r. r ≡ refusal_of f };

    fn from(fault: TextFault) -> Refusal {
        match fault {
            TextFault::Grammar(fault) => grammar_refusal(fault),
            TextFault::Lines(fault) => fault.into(),
        }
    }
}

fn grammar_refusal(fault: GrammarFault) -> Refusal
    ensures { result ≡ grammar_refusal fault }
{
    let (number, place) = match fault {
        GrammarFault::Sign(fault) => return fault.into(),
        GrammarFault::Misfit(place) => (3, place),
        GrammarFault::Repeated(place) => (5, place),
        GrammarFault::ManyAtoms(place) => (7, place),
        GrammarFault::Undeclared(place) => (6, place),
        GrammarFault::TooDeep(place) => (8, place),
    };
    Refusal {
        number,
        layer: Layer::Grammar,
        place,
    }
}

/// What a program in C is told (the crate `text_c`): 0 if the text is a policy, else the number of its refusal.
// A number, and no Result: the call for C hands it on as it is.
pub fn policy_refusal(text: &[u8]) -> u8
    ensures { result ≡ number_of (meant text.now) }
{
    match read(text) {
        Ok(_) => 0,
        Err(fault) => Refusal::from(fault).number,
    }
}
