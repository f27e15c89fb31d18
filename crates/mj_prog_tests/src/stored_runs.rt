//! The worked runs over a file. A session begins with an empty file, and its steps follow each other on it: `>` has the words
//! of a call, and behind `!` the numbers of the calls of the disk that fail; then its script with what must be printed, as in the
//! other runs. `<` is a file that is put in place, `=` one that must be there, and `?` the status where it isn't 0.
use super::runs::{add_line, digits_of};
use super::tests::owned;
use mj_base::{MemorySink, MemorySource, Octets};
use mj_disk::MemoryDisk;
use mj_prog::tool;
use std::alloc::{AllocError, Global};
use std::test::Fail;

/// Bytes that the disk has room for.
const ROOM: u64 = 4096;

/// A request that is kept, served and closed, in one run and in three, the last of them on a file of the old format.
const TICKET: &str = "\
> store replay
open 0
  put 0 GREETING
bytes 0 HELLO
  put 0 READY
bytes 0 ASK_TICKET
  put 0 TICKET_1
bytes 0 ASK_REPLY_1
  put 0 REPLY_PENDS
open 1
  put 1 GREETING
bytes 1 HELLO
  put 1 READY
bytes 1 READY_ECHO
  put 1 HI_OF_TICKET_1
bytes 1 HI_TO_TICKET_1
bytes 0 ASK_REPLY_1
  put 0 REPLY_IS_HI
bytes 0 CLOSE_1
  put 0 CLOSED
bytes 0 CLOSE_1
  put 0 CLOSED
bytes 0 ASK_REPLY_1
  put 0 REPLY_UNKNOWN
  done 12
= ACCEPT_TO_CLOSE
> store tickets
  done 0
= ACCEPT_TO_CLOSE

> store replay
open 0
  put 0 GREETING
bytes 0 HELLO
  put 0 READY
bytes 0 ASK_TICKET
  put 0 TICKET_1
  done 3
= ONE_ACCEPT
> store tickets
  ticket 1 e56a5d40-28bd-8653-8000-000000000001 pending echo
  done 1
= ONE_ACCEPT
> store replay
open 0
  put 0 GREETING
bytes 0 HELLO
  put 0 READY
bytes 0 READY_ECHO
  put 0 HI_OF_TICKET_1
bytes 0 HI_TO_TICKET_1
  done 4
= ACCEPT_AND_REPLY
> store tickets
  ticket 1 e56a5d40-28bd-8653-8000-000000000001 stored echo
  done 1
> store replay
open 0
  put 0 GREETING
bytes 0 HELLO
  put 0 READY
bytes 0 CLOSE_1
  put 0 CLOSED
  done 3
= ACCEPT_TO_CLOSE

< OLD_ACCEPT
> store tickets
  ticket 1 e56a5d40-28bd-8653-8000-000000000001 pending echo
  done 1
= OLD_ACCEPT
";

#[test]
fn a_ticket_is_kept(rt: HostRuntime) -> Result<(), Fail> {
    assert!(rt; first_wrong_session(rt.alloc(), TICKET)? == None);
    Ok(())
}

/// A session with both versions, heartbeats and two tickets, and a second one on its file.
const LONG: &str = "\
> store replay
open 0
  put 0 GREETING
bytes 0 HELLO
  put 0 READY
open 1
  put 1 GREETING
bytes 1 HELLO
  put 1 READY
open 2
  put 2 GREETING
bytes 2 HELLO_OF_REQ
  put 2 READY
open 3
  put 3 GREETING
bytes 3 HELLO
  put 3 READY
bytes 0 READY_ECHO
bytes 1 READY_SUM_TWO
bytes 2 ASK_A
  put 0 REQUEST_A_OF_3
bytes 0 REPLY_A_TO_3
  put 2 ANSWER_A
bytes 3 ASK_SUM_TWO
  put 1 REQUEST_SUM_OF_4_TWO
bytes 1 PART_HALF_TO_4_TWO
  put 3 PART_HALF_TWO
bytes 1 FINAL_SUM_TO_4_TWO
  put 3 ANSWER_SUM_TWO
tick 2500
  put 0 HEARTBEAT
  put 1 HEARTBEAT_TWO
bytes 0 HEARTBEAT
bytes 1 HEARTBEAT_TWO
tick 5000
  put 0 HEARTBEAT
  put 1 HEARTBEAT_TWO
bytes 0 HEARTBEAT
bytes 1 HEARTBEAT_TWO
tick 7500
  put 0 HEARTBEAT
  put 1 HEARTBEAT_TWO
bytes 0 HEARTBEAT
bytes 1 HEARTBEAT_TWO
tick 10000
  put 0 HEARTBEAT
  put 1 HEARTBEAT_TWO
bytes 0 HEARTBEAT
bytes 1 HEARTBEAT_TWO
bytes 2 ASK_LATER_P
  put 2 TICKET_1
bytes 2 ASK_LATER_Q
  put 2 TICKET_2
stop
  done 29
> store replay
open 0
  put 0 GREETING
bytes 0 HELLO
  put 0 READY
bytes 0 READY_LATER
  put 0 P_OF_TICKET_1
bytes 0 P_TO_TICKET_1
  put 0 Q_OF_TICKET_2
open 1
  put 1 GREETING
bytes 1 HELLO
  put 1 READY
bytes 1 ASK_REPLY_1
  put 1 REPLY_IS_P
bytes 1 ASK_REPLY_2
  put 1 REPLY_PENDS
  done 8
> store tickets
  ticket 1 e56a5d40-28bd-8653-8000-000000000001 stored later
  ticket 2 b819d2bd-1aed-8da0-8000-000000000002 pending later
  done 2
";

#[test]
fn tickets_outlive_a_run(rt: HostRuntime) -> Result<(), Fail> {
    assert!(rt; first_wrong_session(rt.alloc(), LONG)? == None);
    Ok(())
}

const FILES: &str = "\
< SEVENTEEN_BYTES
> store replay
  done 0
= NO_TICKETS

> store tickets
  done 0
= NO_TICKETS

< EIGHTEEN_ZEROS
> store replay
  fault store not-a-store
? 3
= EIGHTEEN_ZEROS
> store tickets
  fault store not-a-store
? 3
= EIGHTEEN_ZEROS

< STORE_OF_FORMAT_3
> store replay
  fault store version 3
? 3
= STORE_OF_FORMAT_3

< STORE_OF_BASE_0
> store replay
  fault store not-a-store
? 3
= STORE_OF_BASE_0

< A_TORN_RECORD
> store replay
open 0
  fault store damaged 16
? 3
= A_TORN_RECORD
> store tickets
  fault store damaged 16
? 3
= A_TORN_RECORD

> store replay ! 0
open 0
  fault disk
? 5

> store tickets ! 0
  fault disk
? 5

> - tickets
  fault words
? 1
> store tickets --lanes 2
  fault words
? 1
> --store replay
  fault words
? 1
> '' replay
  fault words
? 1
> -store replay --lanes 1
open 0
  put 0 GREETING
open 1
  fault line 2
? 2
= NO_TICKETS
";

#[test]
fn files_are_opened_or_named(rt: HostRuntime) -> Result<(), Fail> {
    assert!(rt; first_wrong_session(rt.alloc(), FILES)? == None);
    Ok(())
}

/// What is asked of the ticket services that they refuse, and a worker's lease that ends with a ticket in its hands.
const SERVICES: &str = "\
> store replay
open 0
  put 0 GREETING
bytes 0 HELLO
  put 0 READY
bytes 0 ASK_TICKET_OF_NOTHING
  put 0 REFUSED_TICKET
bytes 0 ASK_TICKET_OF_MMI
  put 0 REFUSED_TICKET
bytes 0 ASK_REPLY_X
  put 0 REPLY_UNKNOWN
bytes 0 CLOSE_1
  put 0 CLOSED
bytes 0 ASK_OTHER
  put 0 OTHER_UNSERVED
bytes 0 WHO_SERVES_CLOSE
  put 0 SERVED
  done 8
= NO_TICKETS

> store replay
open 0
  put 0 GREETING
bytes 0 HELLO
  put 0 READY
bytes 0 READY_ECHO
open 1
  put 1 GREETING
bytes 1 HELLO
  put 1 READY
bytes 1 ASK_TICKET
  put 1 TICKET_1
  put 0 HI_OF_TICKET_1
tick 59000
  put 0 HEARTBEAT
open 2
  put 2 GREETING
bytes 2 HELLO
  put 2 READY
bytes 2 READY_ECHO
tick 60000
  put 2 HI_OF_TICKET_1
  done 11
= ONE_ACCEPT
";

#[test]
fn ticket_services_answer_by_their_rules(rt: HostRuntime) -> Result<(), Fail> {
    assert!(rt; first_wrong_session(rt.alloc(), SERVICES)? == None);
    Ok(())
}

/// A call of the disk that fails once the file is open costs what was asked, and the run goes on.
const FAULTS: &str = "\
> store replay ! 6
open 0
  put 0 GREETING
bytes 0 HELLO
  put 0 READY
bytes 0 ASK_TICKET
  store shut 0
  put 0 FAILED_TICKET
bytes 0 ASK_TICKET
  store open 0 plain
  put 0 TICKET_1
  done 4

> store replay ! 9
open 0
  put 0 GREETING
bytes 0 HELLO
  put 0 READY
bytes 0 ASK_TICKET
  store shut 0
  put 0 FAILED_TICKET
bytes 0 ASK_TICKET
  store open 0 kept
  put 0 TICKET_2
  done 4

> store replay ! 11
open 0
  put 0 GREETING
bytes 0 HELLO
  put 0 READY
bytes 0 READY_ECHO
open 1
  put 1 GREETING
bytes 1 HELLO
  put 1 READY
bytes 1 ASK_TICKET
  put 1 TICKET_1
  put 0 HI_OF_TICKET_1
bytes 0 HI_TO_TICKET_1
  store shut 0
bytes 1 WHO_SERVES_ECHO
  put 1 SERVED
bytes 1 ASK_REPLY_1
  store open 0 plain
  put 1 REPLY_PENDS
  put 0 HI_OF_TICKET_1
  done 9
";

#[test]
fn a_failing_disk_costs_a_ticket_call(rt: HostRuntime) -> Result<(), Fail> {
    assert!(rt; first_wrong_session(rt.alloc(), FAULTS)? == None);
    Ok(())
}

/// A step of a session: its words, the calls of the disk that fail, and then lines.
#[derive(Clone, Copy)]
struct Step<'a> {
    words: &'a str,
    failing: &'a str,
    lines: &'a str,
}

/// What a step has to leave.
#[derive(Drop)]
struct Wanted {
    script: Vec<u8>,
    printed: Vec<u8>,
    status: u8,
}

/// The first of these sessions, which stand apart by an empty line, that doesn't go as it stands there.
fn first_wrong_session(alloc: Global, sessions: &str) -> Result<Option<&str>, Fail> {
    for session in sessions.split("\n\n") {
        if !goes_so(alloc, session)? {
            return Ok(Some(session));
        }
    }
    Ok(None)
}

fn goes_so(alloc: Global, session: &str) -> Result<bool, Fail> {
    let (start, steps) = session.split_once("> ").unwrap_or(("", session));
    let mut file = file_in(alloc, start, "< ")?.unwrap_or(Vec::new(alloc));
    for step in steps.split("\n> ") {
        if !step_goes_so(alloc, step_of(step), &mut file)? {
            return Ok(false);
        }
    }
    Ok(true)
}

fn step_of(step: &str) -> Step<'_> {
    let (head, lines) = step.split_once('\n').unwrap_or((step, ""));
    let (words, failing) = head.split_once(" ! ").unwrap_or((head, ""));
    Step {
        words,
        failing,
        lines,
    }
}

/// Takes the step, and tells whether its text, its status and its file are those that are wanted.
fn step_goes_so(alloc: Global, step: Step<'_>, file: &mut Vec<u8>) -> Result<bool, Fail> {
    let wanted = wanted_of(alloc, step.lines)?;
    let mut source = MemorySource::new(Octets::from_vec(wanted.script), Vec::new(alloc));
    let mut sink = MemorySink::new(alloc, Vec::new(alloc));
    if file.len() as u64 > ROOM {
        return Err("a long file".into());
    }
    let held = Octets::copy_of(alloc, file)?;
    let mut disk = MemoryDisk::new(alloc, held, ROOM, numbers_of(alloc, step.failing)?, None)?;
    let status = tool(
        alloc,
        &words_of(alloc, step.words)?,
        &mut source,
        &mut disk,
        &mut sink,
    );
    *file = disk.as_slice().to_vec(alloc)?;
    let kept = match file_in(alloc, step.lines, "= ")? {
        Some(kept) => kept.as_slice() == file.as_slice(),
        None => true,
    };
    Ok(kept && status == wanted.status && sink.written() == wanted.printed.as_slice())
}

fn wanted_of(alloc: Global, lines: &str) -> Result<Wanted, AllocError> {
    let mut wanted = Wanted {
        script: Vec::new(alloc),
        printed: Vec::new(alloc),
        status: 0,
    };
    for line in lines.lines() {
        if let Some(text) = line.strip_prefix("  ") {
            add_line(&mut wanted.printed, text)?;
        } else if let Some(status) = line.strip_prefix("? ") {
            wanted.status = status.parse().unwrap_or(255);
        } else if !line.starts_with("= ") {
            add_line(&mut wanted.script, line)?;
        }
    }
    Ok(wanted)
}

/// The bytes of the file that a line with this mark names.
fn file_in(alloc: Global, lines: &str, mark: &str) -> Result<Option<Vec<u8>>, Fail> {
    for line in lines.lines() {
        if let Some(name) = line.strip_prefix(mark) {
            return Ok(Some(hex::decode(alloc, digits_of(name))?));
        }
    }
    Ok(None)
}

fn words_of(alloc: Global, line: &str) -> Result<Vec<String>, AllocError> {
    let mut words = Vec::new(alloc);
    for word in line.split_whitespace() {
        words.push(if word == "''" { "" } else { word })?;
    }
    owned(alloc, &words)
}

fn numbers_of(alloc: Global, line: &str) -> Result<Vec<u64>, AllocError> {
    let mut numbers = Vec::new(alloc);
    for word in line.split_whitespace() {
        numbers.push(word.parse().unwrap_or(0))?;
    }
    Ok(numbers)
}
