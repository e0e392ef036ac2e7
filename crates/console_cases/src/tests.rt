//! Whole inputs and what is printed for them.
use console::{Room, respond};
use std::alloc::Global;
use std::fmt::Write;
use std::test::Fail;

/// What is printed for the input.
fn printed(heap: Global, input: &[u8]) -> Result<String, Fail> {
    let mut out = String::new(heap);
    for answer in respond(Room::new(heap)?, input) {
        writeln!(out, "{answer}")?;
    }
    Ok(out)
}

/// A policy of 16 bytes, this many empty lines and a call.
fn padded(heap: Global, empty: usize) -> Result<Vec<u8>, Fail> {
    let mut input = Vec::from_slice(heap, b"atoms a; rule a.")?;
    let ends = vec![in heap; b'\n'; empty]?;
    input.extend_from_slice(ends.as_slice())?;
    input.push(b'V')?;
    Ok(input)
}

#[test]
fn refused_whole(rt: HostRuntime) -> Result<(), Fail> {
    let no_stop = printed(rt.alloc(), b"atoms a; rule a")?;
    assert_eq!(rt; no_stop.as_str(), "refused 40 layer 6 place 0\n");
    let no_policy = printed(rt.alloc(), b"atoms a; rule b.\nV\n")?;
    assert_eq!(rt; no_policy.as_str(), "refused 6 layer 2 place 14\n");
    Ok(())
}

#[test]
fn longest_input(rt: HostRuntime) -> Result<(), Fail> {
    let longest = padded(rt.alloc(), 65_519)?;
    assert_eq!(rt; longest.len(), 65_536);
    let heard = printed(rt.alloc(), longest.as_slice())?;
    assert_eq!(rt;
        heard.as_str(),
        "policy atoms 1 lines 1\nrefused 26 layer 4 place 0\n"
    );
    let longer = padded(rt.alloc(), 65_520)?;
    let refused = printed(rt.alloc(), longer.as_slice())?;
    assert_eq!(rt; refused.as_str(), "refused 40 layer 6 place 0\n");
    Ok(())
}

#[test]
fn call_right_behind_the_stop(rt: HostRuntime) -> Result<(), Fail> {
    let out = printed(rt.alloc(), b"atoms a; rule a.V")?;
    assert_eq!(rt;
        out.as_str(),
        "policy atoms 1 lines 1\nrefused 26 layer 4 place 0\n"
    );
    Ok(())
}

#[test]
fn lines_behind_a_refused_one(rt: HostRuntime) -> Result<(), Fail> {
    let out = printed(
        rt.alloc(),
        b"atoms p; rule YG p.\nN 1\nN 2\nU 0 1\nQ\nE 1\n\nV\nU 1 0\n",
    )?;
    assert_eq!(rt;
        out.as_str(),
        "policy atoms 1 lines 2\nrun 1\nrefused 21 layer 4 place 0\nrefused 22 layer 4 place 0\nrefused 41 layer 6 place 5\nclosed 1 gone 0\nverdict 0\nrefused 23 layer 4 place 1\n"
    );
    Ok(())
}

#[test]
fn one_run_too_many(rt: HostRuntime) -> Result<(), Fail> {
    let mut input = Vec::from_slice(rt.alloc(), b"atoms a; rule a.")?;
    for _ in 0..65 {
        input.extend_from_slice(b"\nN 1")?;
    }
    let out = printed(rt.alloc(), input.as_slice())?;
    assert!(rt;
        out.as_str()
            .ends_with("\nrun 64\nrefused 24 layer 5 place 64\n")
    );
    Ok(())
}
