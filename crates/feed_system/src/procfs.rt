//! What the system counts of this process, as Linux tells it below `/proc/self` (proc(5)).

use feed_status::Process;
use std::fs;
use std::time::{SystemTime, UNIX_EPOCH};

/// How many ticks of its clock the kernel counts in a second: 100 on every machine that Linux runs
/// on today.
const TICKS: u64 = 100;

/// How many bytes a kibibyte has.
const KIBIBYTE: u64 = 1_024;

/// Which of the fields of `stat` behind the name are the time in the program and that in the
/// kernel, counted from 0.
const IN_PROGRAM: usize = 11;

const IN_KERNEL: usize = 12;

/// The time, in milliseconds after 1970; zero where the clock can't be read.
pub fn since_1970(rt: &HostRuntime) -> u64 {
    let Ok(now) = SystemTime::now(rt) else {
        return 0;
    };
    match now.duration_since(UNIX_EPOCH) {
        Ok(since) => u64::try_from(since.as_millis()).unwrap_or(u64::MAX),
        Err(_) => 0,
    }
}

/// For how long it had a processor, in milliseconds. The name in `stat` may have spaces and
/// parentheses: what counts comes behind the last one.
fn processor_time(stat: &str) -> Option<u64> {
    let (_, rest) = stat.rsplit_once(')')?;
    let mut time: u64 = 0;
    for (at, field) in rest.split_whitespace().enumerate() {
        if at == IN_PROGRAM || at == IN_KERNEL {
            time = time.saturating_add(field.parse::<u64>().ok()?);
        }
    }
    Some(time.saturating_mul(1_000 / TICKS))
}

/// How many bytes of memory it has that are not swapped out.
fn resident(status: &str) -> Option<u64> {
    for line in status.lines() {
        if let Some(rest) = line.strip_prefix("VmRSS:") {
            let count = rest.split_whitespace().next()?;
            return Some(count.parse::<u64>().ok()?.saturating_mul(KIBIBYTE));
        }
    }
    None
}

/// How many files it has open. That of the list itself is one of those listed, and is not counted.
fn open_files(rt: &HostRuntime) -> Option<u64> {
    let mut count: u64 = 0;
    for entry in fs::read_dir(rt, "/proc/self/fd").ok()? {
        if entry.is_err() {
            return None;
        }
        count = count.saturating_add(1);
    }
    Some(count.saturating_sub(1))
}

/// What the system counts of this process, which began at a time; none where that can't be read.
pub fn process(rt: &HostRuntime, began_ms: u64) -> Option<Process> {
    let stat = fs::read_to_string(rt, "/proc/self/stat").ok()?;
    let status = fs::read_to_string(rt, "/proc/self/status").ok()?;
    Some(Process {
        began_ms,
        processor_ms: processor_time(stat.as_str())?,
        resident_bytes: resident(status.as_str())?,
        open_files: open_files(rt)?,
    })
}
