// What is refused, what is accepted, and the traces of small shadows.
use crate::input::read_shadow;
use crate::trace::thinning;
use std::alloc::{AllocError, Global};
use std::process::Abort;
use std::test::Fail;

// The trace of a text, or the line that tells what is wrong with it.
fn told(heap: Global, text: &str) -> Result<String, AllocError> {
    match read_shadow(text.as_bytes()) {
        Ok(shadow) => thinning(heap, shadow),
        Err(fault) => fault.to_string(heap),
    }
}

// Each pair is a text and what is told of it.
fn tells(rt: &impl Abort, heap: Global, cases: &[(&str, &str)]) -> Result<(), Fail> {
    for case in cases {
        let found = told(heap, case.0)?;
        assert_eq!(rt; found.as_str(), case.1);
    }
    Ok(())
}

#[test]
fn refuses(rt: HostRuntime) -> Result<(), Fail> {
    let cases = [
        ("", "line 1: the side of the torus is missing"),
        (" \t\r\n4\n", "line 1: the side of the torus is missing"),
        ("1\n", "line 1: the side is not from 2 to 64"),
        ("65\n", "line 1: the side is not from 2 to 64"),
        (
            "18446744073709551618\n",
            "line 1: the side is not from 2 to 64",
        ),
        ("4 4\n", "line 1: the number of words is wrong"),
        ("+4\n", "line 1: a word is not a decimal number"),
        ("4\n0 0\n1\n", "line 3: the number of words is wrong"),
        ("4\n\n0 0 0\n", "line 3: the number of words is wrong"),
        ("4\n0 x\n9 9\n", "line 2: a word is not a decimal number"),
        ("4\n0 0\n4 3\n", "line 3: the place is not on the torus"),
        ("4\n3 4", "line 2: the place is not on the torus"),
        (
            "4\n0 18446744073709551616\n",
            "line 2: the place is not on the torus",
        ),
    ];
    tells(&rt, rt.alloc(), &cases)
}

#[test]
fn accepts(rt: HostRuntime) {
    for text in ["2", "64\n63 63\n", " 4\r\n\r\n\t3 003 \r\n3 3\n"] {
        assert!(rt; read_shadow(text.as_bytes()).is_ok());
    }
}

#[test]
fn traces(rt: HostRuntime) -> Result<(), Fail> {
    let one = ".s\ns.\ncount 2\n";
    let other = "s.\n.s\ncount 2\n";
    let round = format!(in rt.alloc();
        "{one}{other}{one}{other}{one}still changing after 4 votes\n"
    )?;
    let cases = [
        ("2\n", "..\n..\ncount 0\nempty after 0 votes\n"),
        (
            "2\n1 0\n1 1\n",
            "..\nss\ncount 2\nunchanged after 0 votes\n",
        ),
        ("2\n0 1\n1 0\n", round.as_str()),
        (
            "4\n0 0\n0 1\n1 0\n",
            "ss..\ns...\n....\n....\ncount 3\ns...\n....\n....\n....\ncount 1\n....\n....\n....\n....\ncount 0\nempty after 2 votes\n",
        ),
    ];
    tells(&rt, rt.alloc(), &cases)
}
