//! What each scale answers: for not byte by byte, for or and clear as tables, a row for each left side.
use crate::sided::Sided;
use scales::{Open, Plain, Scale};
use std::process::Abort;

/// The codes below `table.len()` are denied as `table` says, and every other byte gives no.
fn check_not<S: Scale>(rt: &impl Abort, scale: &S, table: &[u8]) {
    for a in 0..=255u8 {
        let expected = table.get(a as usize).copied().unwrap_or(0);
        assert_eq!(rt; scale.is_code(a), (a as usize) < table.len());
        assert_eq!(rt; scale.not(a), expected);
    }
}

/// `table[a][b]` is `a or b`, for the bytes 0 to 4.
fn check_or<S: Scale>(rt: &impl Abort, scale: &S, table: &[[u8; 5]; 5]) {
    for (a, row) in table.iter().enumerate() {
        for (b, expected) in row.iter().enumerate() {
            assert_eq!(rt; scale.or(a as u8, b as u8), *expected);
        }
    }
}

/// `table[b][a]` says whether b is as clear as a, for the bytes 0 to 4.
fn check_clear<S: Scale>(rt: &impl Abort, scale: &S, table: &[[bool; 5]; 5]) {
    for (b, row) in table.iter().enumerate() {
        for (a, expected) in row.iter().enumerate() {
            assert_eq!(rt; scale.is_as_clear(b as u8, a as u8), *expected);
        }
    }
}

const Y: bool = true;

const N: bool = false;

#[test]
fn plain_not(rt: HostRuntime) {
    check_not(&rt, &Plain, &[1, 0]);
}

#[test]
fn open_not(rt: HostRuntime) {
    check_not(&rt, &Open, &[1, 0, 2]);
}

#[test]
fn sided_not(rt: HostRuntime) {
    check_not(&rt, &Sided, &[1, 0, 3, 2]);
}

#[test]
fn plain_or(rt: HostRuntime) {
    check_or(
        &rt,
        &Plain,
        &[
            [0, 1, 0, 0, 0],
            [1, 1, 0, 0, 0],
            [0, 0, 0, 0, 0],
            [0, 0, 0, 0, 0],
            [0, 0, 0, 0, 0],
        ],
    );
}

#[test]
fn open_or(rt: HostRuntime) {
    check_or(
        &rt,
        &Open,
        &[
            [0, 1, 2, 0, 0],
            [1, 1, 1, 0, 0],
            [2, 1, 2, 0, 0],
            [0, 0, 0, 0, 0],
            [0, 0, 0, 0, 0],
        ],
    );
}

#[test]
fn sided_or_minds_the_order(rt: HostRuntime) {
    check_or(
        &rt,
        &Sided,
        &[
            [0, 1, 2, 3, 0],
            [1, 1, 1, 1, 0],
            [2, 1, 2, 2, 0],
            [3, 1, 3, 3, 0],
            [0, 0, 0, 0, 0],
        ],
    );
}

#[test]
fn plain_clear(rt: HostRuntime) {
    check_clear(
        &rt,
        &Plain,
        &[
            [Y, N, N, N, N],
            [N, Y, N, N, N],
            [N, N, N, N, N],
            [N, N, N, N, N],
            [N, N, N, N, N],
        ],
    );
}

#[test]
fn open_clear(rt: HostRuntime) {
    check_clear(
        &rt,
        &Open,
        &[
            [Y, N, Y, N, N],
            [N, Y, Y, N, N],
            [N, N, Y, N, N],
            [N, N, N, N, N],
            [N, N, N, N, N],
        ],
    );
}

#[test]
fn and_is_no_where_a_side_is_no(rt: HostRuntime) {
    assert_eq!(rt; Open.and(0, 2), 0);
    assert_eq!(rt; Open.and(2, 0), 0);
    assert_eq!(rt; Open.and(1, 2), 2);
    assert_eq!(rt; Open.and(1, 1), 1);
}
