//! Words that are requests, and words that are none.

use command_words::{Request, WordsFault, request};
use graph_model::Refused;
use std::alloc::{AllocError, Global};
use std::test::Fail;

/// What stands for words that are no request.
const NONE: &str = "none";

/// What stands for words of `demo` with a number out of range.
const OUT_OF_RANGE: &str = "out of range";

/// The words of a line, with one space between them.
fn words(alloc: Global, line: &str) -> Result<Vec<String>, AllocError> {
    let mut words = Vec::new(alloc);
    for word in line.split(' ') {
        words.push(String::from_str(alloc, word)?)?;
    }
    Ok(words)
}

/// A request as one line: its mode and its values.
fn shown(alloc: Global, request: &Request) -> Result<String, AllocError> {
    match request {
        Request::Render(r) => {
            let cutting = r.cutting.as_slice();
            format!(in alloc;
                "render {} {} {} {cutting:?} {} {:?} {} {}",
                r.graph, r.input, r.output, r.tail, r.bits, r.compensate, r.waves
            )
        }
        Request::Compile(r) => format!(in alloc; "compile {} {}", r.graph, r.waves),
        Request::Check(r) => format!(in alloc; "check {} {}", r.graph, r.plan),
        Request::Demo(r) => format!(in alloc; "demo {} {}", r.seed, r.nodes),
    }
}

/// What the words of a line ask for, as one line.
fn answer(alloc: Global, line: &str) -> Result<String, AllocError> {
    let words = words(alloc, line)?;
    match request(alloc, words.as_slice()) {
        Ok(request) => shown(alloc, &request),
        Err(Refused::Fault(WordsFault::NoRequest)) => String::from_str(alloc, NONE),
        Err(Refused::Fault(WordsFault::OutOfRange)) => String::from_str(alloc, OUT_OF_RANGE),
        Err(Refused::Memory) => Err(AllocError),
    }
}

/// The first line whose words ask for something else than what stands beside it.
fn first_other<'a>(alloc: Global, rows: &[(&'a str, &str)]) -> Result<Option<&'a str>, AllocError> {
    for (line, wanted) in rows {
        if answer(alloc, line)?.as_str() != *wanted {
            return Ok(Some(*line));
        }
    }
    Ok(None)
}

#[test]
fn words_of_compile_and_check(rt: HostRuntime) -> Result<(), Fail> {
    let rows = [
        ("compile g", "compile g false"),
        ("compile g --waves", "compile g true"),
        ("compile --waves g", "compile g true"),
        ("compile -- --waves", "compile --waves false"),
        ("compile -", "compile - false"),
        ("compile ", "compile  false"),
        ("check g p", "check g p"),
        ("check  -", "check  -"),
        ("check -- -g --", "check -g --"),
        ("compile", NONE),
        ("compile g h", NONE),
        ("compile -g", NONE),
        ("compile g --waves --waves", NONE),
        ("compile g --waves=true", NONE),
        ("compile g --wav", NONE),
        ("compile g -h", NONE),
        ("compile g --help", NONE),
        ("compile g -V", NONE),
        ("compile g --version", NONE),
        ("check g", NONE),
        ("check g p q", NONE),
        ("check g p --waves", NONE),
        ("", NONE),
        ("g", NONE),
        ("Compile g", NONE),
        ("--help", NONE),
    ];
    assert_eq!(rt; first_other(rt.alloc(), &rows)?, None);
    Ok(())
}

#[test]
fn words_of_render(rt: HostRuntime) -> Result<(), Fail> {
    let rows = [
        ("render g i o", "render g i o [512] 0 None false false"),
        (
            "render g i o --tail 3",
            "render g i o [512] 3 None false false",
        ),
        (
            "render g i o --tail=3",
            "render g i o [512] 3 None false false",
        ),
        (
            "render --bits 016 g --waves i --compensate o",
            "render g i o [512] 0 Some(16) true true",
        ),
        (
            "render g i --tail 4294967295 -- --bits",
            "render g i --bits [512] 4294967295 None false false",
        ),
        (
            "render g i o --tail 00000000000000000003",
            "render g i o [512] 3 None false false",
        ),
        ("render g - ", "render g -  [512] 0 None false false"),
        (
            "render g i o --block 8192",
            "render g i o [8192] 0 None false false",
        ),
        (
            "render g i o --cuts 2,01,8192",
            "render g i o [2, 1, 8192] 0 None false false",
        ),
        (
            "render g i o --cuts=7",
            "render g i o [7] 0 None false false",
        ),
        ("render g i", NONE),
        ("render g i o p", NONE),
        ("render g i o -h", NONE),
        ("render g i o --tail", NONE),
        ("render g i o --tail 4294967296", NONE),
        ("render g i o --tail 000000000000000000003", NONE),
        ("render g i o --tail 3 --tail 3", NONE),
        ("render g i --tail -- 3", NONE),
        ("render g i o --tail -3", NONE),
        ("render g i o --tail=-3", NONE),
        ("render g i o --tail=+3", NONE),
        ("render g i o --tail=", NONE),
        ("render g i o --bits 12", NONE),
        ("render g i o --compensate --compensate", NONE),
        ("render g i o --block 0", NONE),
        ("render g i o --block 8193", NONE),
        ("render g i o --block 1 --cuts 1", NONE),
        ("render g i o --cuts 1,", NONE),
        ("render g i o --cuts ,1", NONE),
        ("render g i o --cuts 1,,2", NONE),
        ("render g i o --cuts 1,0", NONE),
        ("render g i o --cuts=", NONE),
    ];
    assert_eq!(rt; first_other(rt.alloc(), &rows)?, None);
    Ok(())
}

#[test]
fn up_to_64_cuts(rt: HostRuntime) -> Result<(), Fail> {
    let alloc = rt.alloc();
    let half = "1,1,1,1,1,1,1,1,1,1,1,1,1,1,1,1,1,1,1,1,1,1,1,1,1,1,1,1,1,1,1,1";
    let most = format!(in alloc; "render g i o --cuts {half},{half}")?;
    let over = format!(in alloc; "render g i o --cuts {half},{half},1")?;
    assert!(rt; answer(alloc, most.as_str())?.starts_with("render g i o [1, 1, "));
    assert_eq!(rt; answer(alloc, over.as_str())?.as_str(), NONE);
    Ok(())
}

#[test]
fn words_of_demo(rt: HostRuntime) -> Result<(), Fail> {
    let rows = [
        ("demo 0 3", "demo 0 3"),
        ("demo 007 0512", "demo 7 512"),
        ("demo 18446744073709551615 3", "demo 18446744073709551615 3"),
        ("demo 18446744073709551616 3", OUT_OF_RANGE),
        ("demo 99999999999999999999 3", OUT_OF_RANGE),
        ("demo 0 18446744073709551616", OUT_OF_RANGE),
        ("demo 0 2", OUT_OF_RANGE),
        ("demo 0 513", OUT_OF_RANGE),
        ("demo 100000000000000000000 3", NONE),
        ("demo 000000000000000000000 3", NONE),
        ("demo 18446744073709551616 x", NONE),
        ("demo x 2", NONE),
        ("demo  3", NONE),
        ("demo +1 3", NONE),
        ("demo 1", NONE),
        ("demo 1 3 4", NONE),
    ];
    assert_eq!(rt; first_other(rt.alloc(), &rows)?, None);
    Ok(())
}

#[test]
fn no_words_are_no_request(rt: HostRuntime) {
    let answer = request(rt.alloc(), &[]);
    assert!(rt; matches!(answer, Err(Refused::Fault(WordsFault::NoRequest))));
}
