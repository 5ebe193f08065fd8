// Commands over sources and sinks that fail, which no file of cases can say.
use flash_io::{Word, WordList};
use flash_list::Items;
use flash_mem::{MemSink, MemSource};
use replay_tool::replay;
use std::alloc::Global;
use std::process::Abort;
use std::test::*;

// The header of a log of table 1 with columns 1 (signed) and 2 (bytes), and no entry.
const HEADER: [u8; 30] = *b"FLASHLOG\0\x01\0\0\0\0\0\0\0\x01\0\x02\0\0\0\x01\x01\0\0\0\x02\x03";

#[derive(Clone, Copy)]
struct Case {
    name: &'static str,
    words: &'static [&'static str],
    log_len: usize,
    script: &'static str,
    failing_log: Option<u64>,
    failing_script: Option<u64>,
    failing_write: Option<u64>,
    room: usize,
    status: u8,
    text: &'static str,
}

// The script fails where it is read.
const SHOW: Case = Case {
    name: "a script that isn't read",
    words: &["show", "10"],
    log_len: 30,
    script: "{}",
    failing_log: None,
    failing_script: Some(1),
    failing_write: None,
    room: 1000,
    status: 0,
    text: "rows 0\n",
};

const CHECK: Case = Case {
    name: "nothing fails",
    words: &["check"],
    failing_script: None,
    text: "ok 0 entries 0 reads\n",
    ..SHOW
};

fn words(alloc: Global, texts: &[&str]) -> Result<WordList, Fail> {
    let mut list = Items::new(alloc);
    for text in texts {
        let word = Word::from_slice(alloc, text.as_bytes())?;
        list.push(word).ok().ok_or("room for a word")?;
    }
    Ok(list)
}

fn source(alloc: Global, bytes: &[u8], failing: Option<u64>) -> Result<MemSource, Fail> {
    let mut source = MemSource::new(alloc, Vec::from_slice(alloc, bytes)?);
    if let Some(call) = failing {
        source.set_failing(vec![in alloc; call]?);
    }
    Ok(source)
}

fn run<R: AllocGlobal + Abort>(rt: &R, case: &Case) -> Result<(), Fail> {
    let words = words(rt.alloc(), case.words)?;
    let log = HEADER.get(..case.log_len).ok_or("a part of the log")?;
    let mut log = source(rt.alloc(), log, case.failing_log)?;
    let mut script = source(rt.alloc(), case.script.as_bytes(), case.failing_script)?;
    let mut out = MemSink::new(rt.alloc(), case.room).ok().ok_or("room")?;
    if let Some(call) = case.failing_write {
        out.set_failing(vec![in rt.alloc(); call]?);
    }
    let status = replay(rt, &words, &mut log, &mut script, &mut out);
    assert_eq!(rt; out.as_slice(), case.text.as_bytes(), "{}", case.name);
    assert_eq!(rt; status, case.status, "{}", case.name);
    Ok(())
}

#[test]
fn a_log_that_fails(rt: HostRuntime) -> Result<(), Fail> {
    run(&rt, &SHOW)?;
    let first = Case {
        name: "the first read of the log fails",
        failing_log: Some(1),
        status: 5,
        text: "fault log\n",
        ..SHOW
    };
    run(&rt, &first)?;
    let second = Case {
        name: "the second read of the log fails",
        failing_log: Some(2),
        ..first
    };
    run(&rt, &second)
}

#[test]
fn a_script_that_fails(rt: HostRuntime) -> Result<(), Fail> {
    run(&rt, &CHECK)?;
    let script = Case {
        name: "the script fails",
        failing_script: Some(1),
        status: 6,
        text: "fault script\n",
        ..CHECK
    };
    run(&rt, &script)?;
    let both = Case {
        name: "log and script fail",
        failing_log: Some(1),
        status: 5,
        text: "fault log\n",
        ..script
    };
    run(&rt, &both)?;
    let refused = Case {
        name: "a log that is refused before a script that fails",
        log_len: 29,
        status: 3,
        text: "refused log frame 0 short 29\n",
        ..script
    };
    run(&rt, &refused)
}

#[test]
fn an_output_that_fails(rt: HostRuntime) -> Result<(), Fail> {
    let first = Case {
        name: "the first write fails",
        failing_write: Some(1),
        status: 8,
        text: "",
        ..SHOW
    };
    run(&rt, &first)?;
    let full = Case {
        name: "a full sink gets a front of the rows",
        room: 4,
        status: 8,
        text: "rows",
        ..SHOW
    };
    run(&rt, &full)?;
    let counts = Case {
        name: "a full sink gets a front of the counts",
        text: "ok 0",
        words: &["check"],
        failing_script: None,
        ..full
    };
    run(&rt, &counts)?;
    let refused = Case {
        name: "a full sink gets a front of what is refused",
        script: "[]",
        room: 7,
        status: 4,
        text: "refused",
        ..CHECK
    };
    run(&rt, &refused)
}
