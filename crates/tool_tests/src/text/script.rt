// Scripts, and what is told of those that are refused.
use flash_types::{AskRegion, Epoch, HandleRange, Settings};
use std::test::*;
use tool_text::{Action, Event, Script, ScriptRead, print_script_error, read_script};

fn read(rt: &HostRuntime, text: &str) -> Result<Script, Fail> {
    match read_script(rt.alloc(), text.as_bytes()) {
        Ok(script) => Ok(script),
        Err(error) => Err(Fail::from(error)),
    }
}

// The line of a text that is refused, and `accepted` for one that isn't.
fn line_of(rt: &HostRuntime, bytes: &[u8]) -> Result<Vec<u8>, Fail> {
    let mut line = Vec::new(rt.alloc());
    match read_script(rt.alloc(), bytes) {
        Ok(_script) => line.extend_from_slice(b"accepted")?,
        Err(error) => print_script_error(&error, &mut line)?,
    }
    Ok(line)
}

// The line of a text is this one.
fn gives(rt: &HostRuntime, bytes: &[u8], wanted: &[u8]) -> Result<(), Fail> {
    let line = line_of(rt, bytes)?;
    if line.as_slice() == wanted {
        return Ok(());
    }
    Err(Fail::from(line))
}

fn is_no_text(rt: &HostRuntime, bytes: &[u8]) -> Result<(), Fail> {
    gives(rt, bytes, b"refused script text\n")
}

fn joined(rt: &HostRuntime, front: &str, part: &str, back: &str) -> Result<String, Fail> {
    Ok(format!(in rt.alloc(); "{front}{part}{back}")?)
}

const DEFAULTS: Settings = Settings {
    mem_rows: 512,
    tiny_files: 8,
    delta_rows: 4096,
    split_rows: 8192,
    join_rows: 1024,
    pack_rows: 1024,
};

fn has_the_defaults(script: &Script) -> bool {
    script.appliers == 3
        && script.background == 2
        && script.scanners == 3
        && script.settings == DEFAULTS
        && script.stop_after == None
        && script.events.is_empty()
        && script.reads.is_empty()
}

#[test]
fn an_empty_script_has_the_defaults(rt: HostRuntime) -> Result<(), Fail> {
    let script = read(&rt, " {}\r\n\t")?;
    if has_the_defaults(&script) {
        return Ok(());
    }
    Err(Fail::from(script))
}

const EVENTS: [Event; 2] = [
    Event {
        at: 4,
        action: Action::Checkpoint,
    },
    Event {
        at: 0,
        action: Action::SafePoint { ts: u64::MAX },
    },
];

const REGION: AskRegion = AskRegion {
    region: 1,
    epoch: Epoch {
        conf_ver: 1,
        version: 2,
    },
    index: 5,
};

const CLIP: HandleRange = HandleRange {
    low: i64::MIN,
    high: Some(i64::MAX),
};

fn is_the_read(read: &ScriptRead) -> bool {
    read.after == 10
        && read.ask.ts() == 10
        && read.ask.clip() == CLIP
        && read.ask.regions() == [REGION].as_slice()
}

fn is_the_only_read(reads: &[ScriptRead]) -> bool {
    match reads {
        [read] => is_the_read(read),
        _ => false,
    }
}

fn has_the_events_and_reads(script: &Script) -> bool {
    script.stop_after == Some(9)
        && script.settings.join_rows == 7
        && script.events.as_slice() == EVENTS.as_slice()
        && is_the_only_read(script.reads.as_slice())
}

#[test]
fn events_and_reads_are_read_in_order(rt: HostRuntime) -> Result<(), Fail> {
    let text =
        "{\"events\":[{\"at\":4,\"do\":\"checkpoint\"},{\"do\":\"safe_point\",\"ts\":18446744073709551615,\"at\":0}],\
        \"reads\":[{\"ts\":10,\"regions\":[{\"id\":1,\"conf_ver\":1,\"version\":2,\"index\":5}],\"after\":10,\
        \"low\":-9223372036854775808,\"high\":9223372036854775807}],\"stop_after\":9,\"split_rows\":7}";
    let script = read(&rt, text)?;
    if has_the_events_and_reads(&script) {
        return Ok(());
    }
    Err(Fail::from(script))
}

fn is_alone(script: &Script, action: Action) -> bool {
    match script.events.as_slice() {
        [event] => event.action == action,
        _ => false,
    }
}

fn has_the_word(rt: &HostRuntime, word: &str, action: Action) -> Result<(), Fail> {
    let text = joined(rt, "{\"events\":[{\"at\":1048576,\"do\":\"", word, "\"}]}")?;
    let script = read(rt, text.as_str())?;
    if is_alone(&script, action) {
        return Ok(());
    }
    Err(Fail::from(script))
}

#[test]
fn each_action_has_its_word(rt: HostRuntime) -> Result<(), Fail> {
    has_the_word(&rt, "flush", Action::Flush)?;
    has_the_word(&rt, "compact", Action::Compact)?;
    has_the_word(&rt, "merge_delta", Action::MergeDelta)?;
    has_the_word(&rt, "split", Action::Split)?;
    has_the_word(&rt, "merge", Action::Merge)?;
    has_the_word(&rt, "checkpoint", Action::Checkpoint)
}

fn add(text: &mut Vec<u8>, byte: u8, count: usize) -> Result<(), Fail> {
    let len = text.len().saturating_add(count);
    text.resize(len, byte)?;
    Ok(())
}

fn nested(rt: &HostRuntime, levels: usize) -> Result<Vec<u8>, Fail> {
    let mut text = Vec::new(rt.alloc());
    add(&mut text, b'[', levels)?;
    add(&mut text, b']', levels)?;
    Ok(text)
}

// An object behind so many spaces.
fn spaced(rt: &HostRuntime, spaces: usize) -> Result<Vec<u8>, Fail> {
    let mut text = Vec::new(rt.alloc());
    add(&mut text, b' ', spaces)?;
    text.extend_from_slice(b"{}")?;
    Ok(text)
}

fn nesting_has_a_limit(rt: &HostRuntime) -> Result<(), Fail> {
    let most = nested(rt, 127)?;
    gives(rt, most.as_slice(), b"refused script field .\n")?;
    let more = nested(rt, 128)?;
    is_no_text(rt, more.as_slice())
}

fn length_has_a_limit(rt: &HostRuntime) -> Result<(), Fail> {
    let mut text = spaced(rt, 16_777_214)?;
    gives(rt, text.as_slice(), b"accepted")?;
    add(&mut text, b' ', 1)?;
    gives(rt, text.as_slice(), b"refused script limit\n")
}

#[test]
fn nesting_and_length_have_limits(rt: HostRuntime) -> Result<(), Fail> {
    nesting_has_a_limit(&rt)?;
    length_has_a_limit(&rt)
}

fn add_item(text: &mut Vec<u8>, place: usize, item: &str) -> Result<(), Fail> {
    if place > 0 {
        text.extend_from_slice(b",")?;
    }
    text.extend_from_slice(item.as_bytes())?;
    Ok(())
}

// So many copies of an item, with commas between them.
fn list_of(
    rt: &HostRuntime,
    front: &str,
    item: &str,
    count: usize,
    back: &str,
) -> Result<Vec<u8>, Fail> {
    let mut text = Vec::from_slice(rt.alloc(), front.as_bytes())?;
    for place in 0..count {
        add_item(&mut text, place, item)?;
    }
    text.extend_from_slice(back.as_bytes())?;
    Ok(text)
}

// What is said of a read of so many regions, none of which is one.
fn regions_give(rt: &HostRuntime, count: usize, line: &[u8]) -> Result<(), Fail> {
    let front = "{\"reads\":[{\"ts\":1,\"regions\":[";
    let text = list_of(rt, front, "0", count, "]}]}")?;
    gives(rt, text.as_slice(), line)
}

// What is said of so many events.
fn events_give(rt: &HostRuntime, count: usize, back: &str, line: &[u8]) -> Result<(), Fail> {
    let event = "{\"at\":1,\"do\":\"flush\"}";
    let text = list_of(rt, "{\"events\":[", event, count, back)?;
    gives(rt, text.as_slice(), line)
}

#[test]
fn lists_that_are_too_long_before_their_items(rt: HostRuntime) -> Result<(), Fail> {
    regions_give(&rt, 65, b"refused script field reads.0.regions\n")?;
    regions_give(&rt, 64, b"refused script field reads.0.regions.0\n")?;
    events_give(&rt, 10_000, "]}", b"accepted")?;
    events_give(&rt, 10_001, "]}", b"refused script field events\n")?;
    events_give(&rt, 9_999, ",1]}", b"refused script field events.9999\n")?;
    let reads = list_of(&rt, "{\"reads\":[", "0", 10_001, "]}")?;
    gives(&rt, reads.as_slice(), b"refused script field reads\n")
}
