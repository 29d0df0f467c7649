//! What no clause says: what worked examples leave where each call of the outside fails in turn, in their bytes and
//! their texts.

use crate::{End, Run, run};
use gh_outside::{MemoryFolder, MemorySink};
use graph_model::List;
use std::alloc::{AllocError, Global};
use std::process::Abort;
use std::test::Fail;
use std::thread::Threads;

/// A run over files in memory, and row by row what fails and what is left.
struct Table {
    /// The words of the command line.
    line: &'static str,
    /// What `g.json` holds.
    graph: &'static [u8],
    /// What `in.wav` holds, the input or a plan.
    beside: &'static [u8],
    /// How many bytes `out.wav` has room for.
    room: u64,
    /// The output whole.
    output: &'static [u8],
    /// The report whole.
    report: &'static [u8],
    /// In each row the numbers of the calls that fail, those of the folder, or `put` for that of the report; the
    /// status and the end; the faults of reading, writing and reporting; whether a plan is handed back, and the
    /// frames of the engine; and how many first bytes there are of the report and of the output.
    rows: &'static str,
}

/// The words of a command line.
fn words(alloc: Global, line: &str) -> Result<Vec<String>, AllocError> {
    let mut words = Vec::new(alloc);
    for word in line.split(' ') {
        words.push(String::from_str(alloc, word)?)?;
    }
    Ok(words)
}

/// The numbers of a text; other words in it are none.
fn numbers(alloc: Global, text: &str) -> Result<List<u64>, AllocError> {
    let mut numbers = List::new(alloc);
    for word in text.split(' ') {
        if let Ok(number) = word.parse::<u64>() {
            numbers.push(number)?;
        }
    }
    Ok(numbers)
}

/// The files of a table, in a folder where these calls fail.
fn folder_of(alloc: Global, table: &Table, failing: &str) -> Result<MemoryFolder, AllocError> {
    let mut folder = MemoryFolder::new(alloc, numbers(alloc, failing)?)?;
    folder.put_file("g.json", table.graph)?;
    folder.put_file("in.wav", table.beside)?;
    folder.make_room("out.wav", table.room)?;
    Ok(folder)
}

/// An empty report, whose one call may fail.
fn report_of(alloc: Global, failing: &str) -> Result<MemorySink, AllocError> {
    let fails: &[u64] = if failing == "put" { &[0] } else { &[] };
    MemorySink::new(alloc, List::from_slice(alloc, fails)?, 1000)
}

/// What a run hands back, as the tests ask for it.
#[derive(Drop)]
struct Told {
    status: u8,
    end: End,
    is_planned: bool,
    frames: Option<u64>,
}

/// What a run hands back, in short.
fn in_short(run: Run) -> Told {
    let Run {
        status,
        end,
        plan,
        engine,
    } = run;
    let frames = match &engine {
        Some(engine) => Some(engine.frames()),
        None => None,
    };
    Told {
        status,
        end,
        is_planned: plan.is_some(),
        frames,
    }
}

/// Runs a command line over a folder and a report.
fn run_line<R: Threads + Sync + AllocGlobal>(
    rt: &R,
    line: &str,
    folder: &mut MemoryFolder,
    report: &mut MemorySink,
) -> Result<Told, AllocError> {
    let alloc = rt.alloc();
    let words = words(alloc, line)?;
    Ok(in_short(run(rt, alloc, words, folder, report)))
}

/// A number, or that there is none.
fn number_or_none(alloc: Global, number: Option<u64>) -> Result<String, AllocError> {
    match number {
        Some(number) => format!(in alloc; "{number}"),
        None => String::from_str(alloc, "none"),
    }
}

/// How many first bytes of the whole there are.
fn part_of(alloc: Global, bytes: Option<&[u8]>, whole: &[u8]) -> Result<String, AllocError> {
    match bytes {
        Some(bytes) if whole.starts_with(bytes) => number_or_none(alloc, Some(bytes.len() as u64)),
        Some(_) => String::from_str(alloc, "other bytes"),
        None => number_or_none(alloc, None),
    }
}

/// How a run ended, and what it hands back.
fn told_in_words(alloc: Global, told: &Told) -> Result<String, AllocError> {
    let frames = number_or_none(alloc, told.frames)?;
    let plan = if told.is_planned { "a plan" } else { "no plan" };
    format!(in alloc; "{} {}, {plan}, frames {frames}", told.status, told.end)
}

/// What is outside after a run.
fn left_in_words(
    alloc: Global,
    table: &Table,
    folder: &MemoryFolder,
    report: &MemorySink,
) -> Result<String, AllocError> {
    let reported = part_of(alloc, Some(report.bytes()), table.report)?;
    let output = part_of(alloc, folder.file("out.wav"), table.output)?;
    let (reads, writes, reports) = (folder.read_faults(), folder.write_faults(), report.faults());
    format!(in alloc; "faults {reads} {writes} {reports}, report {reported}, output {output}")
}

/// The files that are read hold what they held.
fn is_kept(table: &Table, folder: &MemoryFolder) -> bool {
    folder.file("g.json") == Some(table.graph) && folder.file("in.wav") == Some(table.beside)
}

/// What is left of a run in which these calls fail.
fn outcome_of<R: Abort + Threads + Sync + AllocGlobal>(
    rt: &R,
    table: &Table,
    failing: &str,
) -> Result<String, AllocError> {
    let alloc = rt.alloc();
    let mut folder = folder_of(alloc, table, failing)?;
    let mut report = report_of(alloc, failing)?;
    let told = run_line(rt, table.line, &mut folder, &mut report)?;
    assert!(rt; is_kept(table, &folder), "{failing}");
    let told = told_in_words(alloc, &told)?;
    let left = left_in_words(alloc, table, &folder, &report)?;
    format!(in alloc; "{told}, {left}")
}

/// Runs each row of a table.
fn each_row<R: Abort + Threads + Sync + AllocGlobal>(
    rt: &R,
    table: &Table,
) -> Result<(), AllocError> {
    for row in table.rows.lines() {
        let mut parts = row.split(" > ");
        let failing = parts.next().unwrap_or("");
        let wanted = parts.next().unwrap_or("");
        let outcome = outcome_of(rt, table, failing)?;
        assert_eq!(rt; outcome.as_str(), wanted, "{failing}");
    }
    Ok(())
}

/// A straight connection from the input to the output.
const STRAIGHT: &[u8] =
    b"{\"FILTERGRAPH\":{\"CONNECTION\":[{\"dstChannel\":0,\"dstFilter\":2,\"srcChannel\":0,\"srcFilter\":1}],\"FILTER\":[{\"channels\":1,\"kind\":\"input\",\"uid\":1},{\"channels\":1,\"kind\":\"output\",\"uid\":2}]}}";

const STRAIGHT_PLAN: &[u8] =
    b"plan 1\nlatency 0\npath 1 2\nat 1 0\nat 2 0\nline 0 0\ntotal 0\narc 1 2 1\nbound 0\nwave 1\nwave 2\nhome 1 0 0\nchannels 1\npeak 0\nend\n";

/// The same with a channel too many.
const TWO_CHANNELS_PLAN: &[u8] =
    b"plan 1\nlatency 0\npath 1 2\nat 1 0\nat 2 0\nline 0 0\ntotal 0\narc 1 2 1\nbound 0\nwave 1\nwave 2\nhome 1 0 0\nchannels 2\npeak 0\nend\n";

/// The samples 100, -200, 300 of 16 bits, mono, 48,000 frames a second.
const THREE_FRAMES: &[u8] =
    b"RIFF\x2A\0\0\0WAVEfmt \x10\0\0\0\x01\0\x01\0\x80\xBB\0\0\0\x77\x01\0\x02\0\x10\0data\x06\0\0\0\x64\0\x38\xFF\x2C\x01";

/// A finite impulse response of the taps 1, 2, 1 and of a latency of 1.
const FIR: &[u8] =
    b"{\"FILTERGRAPH\":{\"FILTER\":[{\"uid\":1,\"kind\":\"input\",\"channels\":1},{\"uid\":2,\"kind\":\"output\",\"channels\":1},{\"uid\":3,\"kind\":\"fir\",\"channels\":1,\"taps\":[1,2,1],\"shift\":0,\"latency\":1}],\"CONNECTION\":[{\"srcFilter\":1,\"srcChannel\":0,\"dstFilter\":3,\"dstChannel\":0},{\"srcFilter\":3,\"srcChannel\":0,\"dstFilter\":2,\"dstChannel\":0}]}}";

const FIR_PLAN: &[u8] =
    b"plan 1\nlatency 1\npath 1 3 2\nat 1 0\nat 2 1\nat 3 0\nline 0 0\nline 1 0\ntotal 0\narc 1 3 1\narc 3 2 1\nbound 0\nwave 1\nwave 3\nwave 2\nhome 1 0 0\nhome 3 0 0\nchannels 1\npeak 0\nend\n";

/// The samples 100, -3, 5, and what it makes of them: 100, 197, 99, 7.
const SMALL: &[u8] =
    b"RIFF\x2A\0\0\0WAVEfmt \x10\0\0\0\x01\0\x01\0\x80\xBB\0\0\0\x77\x01\0\x02\0\x10\0data\x06\0\0\0\x64\0\xFD\xFF\x05\0";

const FILTERED: &[u8] =
    b"RIFF\x2C\0\0\0WAVEfmt \x10\0\0\0\x01\0\x01\0\x80\xBB\0\0\0\x77\x01\0\x02\0\x10\0data\x08\0\0\0\x64\0\xC5\0\x63\0\x07\0";

/// Four frames in blocks of 2, 1 and 1, the last of which is silence and so not read.
const RENDER: Table = Table {
    line: "render g.json in.wav out.wav --cuts 2,1",
    graph: FIR,
    beside: SMALL,
    room: 100,
    output: FILTERED,
    report: FIR_PLAN,
    rows: "\
0 > 5 a read failed, no plan, frames none, faults 1 0 0, report 0, output none
1 > 5 a read failed, no plan, frames none, faults 1 0 0, report 0, output none
2 > 5 a read failed, no plan, frames none, faults 1 0 0, report 0, output none
3 > 5 a read failed, no plan, frames none, faults 1 0 0, report 0, output none
4 > 5 a read failed, no plan, frames none, faults 1 0 0, report 0, output none
5 > 5 a read failed, no plan, frames none, faults 1 0 0, report 0, output none
6 > 5 a read failed, no plan, frames none, faults 1 0 0, report 0, output none
put > 7 the report failed, a plan, frames 0, faults 0 0 1, report 84, output none
7 > 6 a write failed, a plan, frames 0, faults 0 1 0, report 168, output none
8 > 6 a write failed, a plan, frames 0, faults 0 1 0, report 168, output 22
9 > 5 a read failed, a plan, frames 0, faults 1 0 0, report 168, output 44
10 > 6 a write failed, a plan, frames 2, faults 0 1 0, report 168, output 46
11 > 5 a read failed, a plan, frames 2, faults 1 0 0, report 168, output 48
12 > 6 a write failed, a plan, frames 3, faults 0 1 0, report 168, output 49
13 > 6 a write failed, a plan, frames 4, faults 0 1 0, report 168, output 51
14 > 0 done, a plan, frames 4, faults 0 0 0, report 168, output 52
0 1 2 3 4 5 6 7 8 9 10 11 12 13 put > 5 a read failed, no plan, frames none, faults 1 0 0, report 0, output none",
};

#[test]
fn render_where_each_call_fails(rt: HostRuntime) -> Result<(), Fail> {
    each_row(&rt, &RENDER)?;
    Ok(())
}

const COMPILE: Table = Table {
    line: "compile g.json",
    graph: FIR,
    beside: SMALL,
    room: 100,
    output: b"",
    report: FIR_PLAN,
    rows: "\
0 > 5 a read failed, no plan, frames none, faults 1 0 0, report 0, output none
1 > 5 a read failed, no plan, frames none, faults 1 0 0, report 0, output none
put > 7 the report failed, a plan, frames none, faults 0 0 1, report 84, output none
2 > 0 done, a plan, frames none, faults 0 0 0, report 168, output none",
};

const CHECK: Table = Table {
    line: "check g.json in.wav",
    graph: STRAIGHT,
    beside: STRAIGHT_PLAN,
    room: 100,
    output: b"",
    report: b"yes\n",
    rows: "\
0 > 5 a read failed, no plan, frames none, faults 1 0 0, report 0, output none
1 > 5 a read failed, no plan, frames none, faults 1 0 0, report 0, output none
2 > 5 a read failed, no plan, frames none, faults 1 0 0, report 0, output none
3 > 5 a read failed, no plan, frames none, faults 1 0 0, report 0, output none
put > 7 the report failed, a plan, frames none, faults 0 0 1, report 2, output none
4 > 0 done, a plan, frames none, faults 0 0 0, report 4, output none",
};

const CHECK_OF_ANOTHER: Table = Table {
    line: "check g.json in.wav",
    graph: STRAIGHT,
    beside: TWO_CHANNELS_PLAN,
    room: 100,
    output: b"",
    report: b"no peak 0\n",
    rows: "\
put > 7 the report failed, a plan, frames none, faults 0 0 1, report 5, output none
4 > 1 the plan is not certified, a plan, frames none, faults 0 0 0, report 10, output none",
};

const DEMO: Table = Table {
    line: "demo 0 3",
    graph: STRAIGHT,
    beside: SMALL,
    room: 100,
    output: b"",
    report: b"nodes 3\nconnections 2\nlatency 0\ntotal 0\nchannels 1\nframes 4800 sum 1213100\n",
    rows: "\
put > 7 the report failed, a plan, frames 4800, faults 0 0 1, report 37, output none
0 > 0 done, a plan, frames 4800, faults 0 0 0, report 75, output none",
};

#[test]
fn the_other_modes_where_each_call_fails(rt: HostRuntime) -> Result<(), Fail> {
    each_row(&rt, &COMPILE)?;
    each_row(&rt, &CHECK)?;
    each_row(&rt, &CHECK_OF_ANOTHER)?;
    each_row(&rt, &DEMO)?;
    Ok(())
}

/// One frame of 8 bits, the greatest sample, and its pad byte.
const ONE_BYTE: &[u8] =
    b"RIFF\x26\0\0\0WAVEfmt \x10\0\0\0\x01\0\x01\0\x80\xBB\0\0\x80\xBB\0\0\x01\0\x08\0data\x01\0\0\0\xFF\0";

/// A frame, and then a pad byte.
const PADDED: Table = Table {
    line: "render g.json in.wav out.wav",
    graph: STRAIGHT,
    beside: ONE_BYTE,
    room: 100,
    output: ONE_BYTE,
    report: STRAIGHT_PLAN,
    rows: "\
10 > 6 a write failed, a plan, frames 1, faults 0 1 0, report 122, output 44
11 > 6 a write failed, a plan, frames 1, faults 0 1 0, report 122, output 45
12 > 0 done, a plan, frames 1, faults 0 0 0, report 122, output 46",
};

/// The room takes the head alone.
const NO_ROOM: Table = Table {
    line: "render g.json in.wav out.wav --cuts 2,1",
    graph: STRAIGHT,
    beside: THREE_FRAMES,
    room: 44,
    output: THREE_FRAMES,
    report: STRAIGHT_PLAN,
    rows: "none > 6 a write failed, a plan, frames 2, faults 0 1 0, report 122, output 44",
};

/// An insert of 5 samples beside a straight connection, a sample of 1000, and its answer without the latency: 2000.
const INSERT: &[u8] =
    b"{\"FILTERGRAPH\":{\"FILTER\":[{\"uid\":1,\"kind\":\"input\",\"channels\":1},{\"uid\":2,\"kind\":\"output\",\"channels\":1},{\"uid\":3,\"kind\":\"insert\",\"channels\":1,\"samples\":5}],\"CONNECTION\":[{\"srcFilter\":1,\"srcChannel\":0,\"dstFilter\":3,\"dstChannel\":0},{\"srcFilter\":3,\"srcChannel\":0,\"dstFilter\":2,\"dstChannel\":0},{\"srcFilter\":1,\"srcChannel\":0,\"dstFilter\":2,\"dstChannel\":0}]}}";

const INSERT_PLAN: &[u8] =
    b"plan 1\nlatency 5\npath 1 3 2\nat 1 0\nat 2 5\nat 3 0\nline 0 0\nline 1 0\nline 2 5\ntotal 5\narc 1 3 2\narc 3 2 2\nbound 5\nwave 1\nwave 3\nwave 2\nhome 1 0 0\nhome 3 0 1\nchannels 2\npeak 1\nend\n";

const ONE_SAMPLE: &[u8] =
    b"RIFF\x26\0\0\0WAVEfmt \x10\0\0\0\x01\0\x01\0\x80\xBB\0\0\0\x77\x01\0\x02\0\x10\0data\x02\0\0\0\xE8\x03";

const COMPENSATED: &[u8] =
    b"RIFF\x26\0\0\0WAVEfmt \x10\0\0\0\x01\0\x01\0\x80\xBB\0\0\0\x77\x01\0\x02\0\x10\0data\x02\0\0\0\xD0\x07";

/// The latency is longer than the file and left out: six frames are rendered, each a block, and the last is written.
const LATE: Table = Table {
    line: "render g.json in.wav out.wav --compensate --block 1",
    graph: INSERT,
    beside: ONE_SAMPLE,
    room: 100,
    output: COMPENSATED,
    report: INSERT_PLAN,
    rows: "\
9 > 5 a read failed, a plan, frames 0, faults 1 0 0, report 177, output 44
10 > 6 a write failed, a plan, frames 6, faults 0 1 0, report 177, output 45
11 > 0 done, a plan, frames 6, faults 0 0 0, report 177, output 46",
};

/// Two nodes and no connection: whatever comes in, silence goes out, and only the output node is live.
const OPEN: &[u8] =
    b"{\"FILTERGRAPH\":{\"CONNECTION\":[],\"FILTER\":[{\"channels\":1,\"kind\":\"input\",\"uid\":1},{\"channels\":1,\"kind\":\"output\",\"uid\":2}]}}";

const OPEN_PLAN: &[u8] =
    b"plan 1\nlatency 0\npath 2\nat 2 0\ntotal 0\nbound 0\nwave 2\nchannels 0\npeak 0\nend\n";

const THREE_ZEROS: &[u8] =
    b"RIFF\x2A\0\0\0WAVEfmt \x10\0\0\0\x01\0\x01\0\x80\xBB\0\0\0\x77\x01\0\x02\0\x10\0data\x06\0\0\0\0\0\0\0\0\0";

/// A live node, but no live input.
const SILENT: Table = Table {
    line: "render g.json in.wav out.wav --cuts 2,1 --waves",
    graph: OPEN,
    beside: THREE_FRAMES,
    room: 100,
    output: THREE_ZEROS,
    report: OPEN_PLAN,
    rows: "\
11 > 5 a read failed, a plan, frames 2, faults 1 0 0, report 76, output 48
12 > 6 a write failed, a plan, frames 3, faults 0 1 0, report 76, output 49
13 > 0 done, a plan, frames 3, faults 0 0 0, report 76, output 50",
};

#[test]
fn files_that_break_off(rt: HostRuntime) -> Result<(), Fail> {
    each_row(&rt, &PADDED)?;
    each_row(&rt, &NO_ROOM)?;
    each_row(&rt, &LATE)?;
    each_row(&rt, &SILENT)?;
    Ok(())
}

/// Nothing more is read of a graph that is no JSON.
const NO_JSON: Table = Table {
    line: "render g.json in.wav out.wav",
    graph: b"{",
    beside: THREE_FRAMES,
    room: 100,
    output: b"",
    report: b"",
    rows: "2 3 4 5 6 7 8 > 3 graph: no JSON text, no plan, frames none, faults 0 0 0, report 0, output none",
};

/// A file that is not there is no fault.
const NO_INPUT: Table = Table {
    line: "render g.json none.wav out.wav",
    graph: STRAIGHT,
    beside: THREE_FRAMES,
    room: 100,
    output: b"",
    report: b"",
    rows: "none > 5 a read failed, no plan, frames none, faults 0 0 0, report 0, output none",
};

#[test]
fn refusals_that_come_first(rt: HostRuntime) -> Result<(), Fail> {
    each_row(&rt, &NO_JSON)?;
    each_row(&rt, &NO_INPUT)?;
    Ok(())
}
