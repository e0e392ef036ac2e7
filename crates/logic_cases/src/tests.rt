//! One atom p on the plain scale, where nothing else is said. A row of three bytes begins as 9, which no line gives.
use judge::judge_row;
use lines::Line;
use scales::{Open, Plain, Scale};

const NONE: [u8; 3] = [0, 0, 0];

fn row<S: Scale>(scale: &S, table: &[Line], p: u8, past: &[u8], previous: &[u8]) -> [u8; 3] {
    let mut out = [9, 9, 9];
    judge_row(scale, table, &[p], past, previous, &mut out);
    out
}

// YL YG p: starts 0 and 0, a report 1 of run 1, a report 0 of run 2
#[test]
fn global_truths_move_after_the_own_report(rt: HostRuntime) {
    let table = [Line::Atom(0), Line::YG(0), Line::YL(1)];
    let first = row(&Plain, &table, 0, &NONE, &NONE);
    let second = row(&Plain, &table, 0, &NONE, &first);
    assert!(rt; second == [0, 0, 0]);
    let first = row(&Plain, &table, 1, &first, &NONE);
    assert!(rt; first == [1, 0, 0]);
    let second = row(&Plain, &table, 0, &NONE, &first);
    assert!(rt; second == [0, 1, 0]);
    let second = row(&Plain, &table, 0, &second, &first);
    assert!(rt; second == [0, 1, 1]);
}

// true SG p: starts 0, 1 and 0
#[test]
fn a_global_since_reads_its_own_truth_in_the_run_before(rt: HostRuntime) {
    let table = [Line::Yes, Line::Atom(0), Line::SG(0, 1)];
    let first = row(&Plain, &table, 0, &NONE, &NONE);
    assert!(rt; first == [1, 0, 0]);
    let second = row(&Plain, &table, 1, &NONE, &first);
    assert!(rt; second == [1, 1, 1]);
    let third = row(&Plain, &table, 0, &NONE, &second);
    assert!(rt; third == [1, 0, 1]);
}

// true SL p: a start 1 and a report 0; and with a codes unknown
#[test]
fn a_local_since_reads_its_own_truth_in_the_earlier_state(rt: HostRuntime) {
    let table = [Line::Yes, Line::Atom(0), Line::SL(0, 1)];
    let first = row(&Plain, &table, 1, &NONE, &NONE);
    assert!(rt; row(&Plain, &table, 0, &first, &NONE) == [1, 0, 1]);
    let unknown = row(&Open, &table, 2, &NONE, &NONE);
    assert!(rt; unknown == [1, 2, 2]);
    assert!(rt; row(&Open, &table, 0, &unknown, &NONE) == [1, 0, 2]);
}

// ~p | p
#[test]
fn lines_read_the_lines_above(rt: HostRuntime) {
    let table = [Line::Atom(0), Line::Not(0), Line::Or(1, 0)];
    assert!(rt; row(&Plain, &table, 1, &NONE, &NONE) == [1, 0, 1]);
    assert!(rt; row(&Open, &table, 2, &NONE, &NONE) == [2, 2, 2]);
}

#[test]
fn what_has_no_line_or_no_room_stays(rt: HostRuntime) {
    assert!(rt; row(&Plain, &[Line::Yes], 0, &NONE, &NONE) == [1, 9, 9]);
    let four = [Line::No, Line::Yes, Line::Yes, Line::Yes];
    assert!(rt; row(&Plain, &four, 0, &NONE, &NONE) == [0, 1, 1]);
}
