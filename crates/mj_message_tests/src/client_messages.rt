use super::text::{are_same, form_of, frames_of};
use mj_base::{Frames, NoMemory};
use mj_client_cmd::{
    ClientCmd, ClientReply, read_client, read_reply, replies_are_one_to_one,
    requests_are_one_to_one, write_client, write_reply,
};
use std::alloc::{AllocError, Global};
use std::test::Fail;

/// Each request behind its form and the number of its body's frames.
const REQUESTS: &str = "\
0.1 led, 1: |MDPC01|mmi.service|echo
0.1 led, 0: |MDPC01|mmi.service
0.2 led, 2: |MDPC02|\x01|mmi.service||
0.2 led, 0: |MDPC02|\x01|mmi.service
0.2, 1: MDPC02|\x01|mmi.service|\x7f
0.2, 0: MDPC02|\x01|mmi.service
";

fn request_form(alloc: Global, cmd: &ClientCmd) -> Result<String, AllocError> {
    format!(in alloc; "{}, {}", form_of(cmd.version, cmd.lead), cmd.body.len())
}

fn is_request(alloc: Global, cmd: &ClientCmd, message: &Frames) -> Result<bool, NoMemory> {
    if !cmd.is_writable() || cmd.service.as_slice() != b"mmi.service".as_slice() {
        return Ok(false);
    }
    Ok(are_same(&write_client(alloc, cmd)?, message))
}

fn is_request_again(alloc: Global, row: &str) -> Result<bool, NoMemory> {
    let (wanted, text) = row.split_once(": ").unwrap_or((row, ""));
    let message = frames_of(alloc, text)?;
    match read_client(alloc, &message)? {
        Some(cmd) => {
            Ok(request_form(alloc, &cmd)?.as_str() == wanted && is_request(alloc, &cmd, &message)?)
        }
        None => Ok(false),
    }
}

#[test]
fn each_request_is_read_and_written_again(rt: HostRuntime) -> Result<(), Fail> {
    for row in REQUESTS.lines() {
        assert!(rt; is_request_again(rt.alloc(), row)?, "{row}");
    }
    Ok(())
}

/// Each reply behind its form, whether it is the last, and the number of its body's frames.
const REPLIES: &str = "\
0.1 led, true, 1: |MDPC01|mmi.service|404
0.2 led, false, 2: |MDPC02|\x02|mmi.service||a
0.2 led, true, 0: |MDPC02|\x03|mmi.service
0.2, false, 0: MDPC02|\x02|mmi.service
0.2, true, 1: MDPC02|\x03|mmi.service|404
";

fn reply_form(alloc: Global, reply: &ClientReply) -> Result<String, AllocError> {
    let form = form_of(reply.version, reply.lead);
    format!(in alloc; "{form}, {}, {}", reply.last, reply.body.len())
}

fn is_reply(alloc: Global, reply: &ClientReply, message: &Frames) -> Result<bool, NoMemory> {
    Ok(reply.is_writable() && are_same(&write_reply(alloc, reply)?, message))
}

fn is_reply_again(alloc: Global, row: &str) -> Result<bool, NoMemory> {
    let (wanted, text) = row.split_once(": ").unwrap_or((row, ""));
    let message = frames_of(alloc, text)?;
    match read_reply(alloc, &message)? {
        Some(reply) => {
            Ok(reply_form(alloc, &reply)?.as_str() == wanted && is_reply(alloc, &reply, &message)?)
        }
        None => Ok(false),
    }
}

#[test]
fn each_reply_is_read_and_written_again(rt: HostRuntime) -> Result<(), Fail> {
    for row in REPLIES.lines() {
        assert!(rt; is_reply_again(rt.alloc(), row)?, "{row}");
    }
    Ok(())
}

/// The first is one empty frame.
const NO_COMMANDS: &str = "\

|MDPC01
|MDPC01|
|MDPC01|\x7f|echo
MDPC01|mmi.service|echo
||MDPC01|mmi.service|echo
|MDPW01|mmi.service|echo
|MDPC02|\x01
MDPC02|\x01
MDPC02|\x04|mmi.service
MDPC02|\x02\x00|mmi.service
";

fn is_refused(alloc: Global, message: &Frames) -> Result<bool, NoMemory> {
    Ok(read_client(alloc, message)?.is_none() && read_reply(alloc, message)?.is_none())
}

#[test]
fn lists_of_no_row_are_refused(rt: HostRuntime) -> Result<(), Fail> {
    assert!(rt; is_refused(rt.alloc(), &Frames::new(rt.alloc()))?);
    for row in NO_COMMANDS.lines() {
        assert!(rt;
            is_refused(rt.alloc(), &frames_of(rt.alloc(), row)?)?,
            "{row}"
        );
    }
    Ok(())
}

#[test]
fn laws_can_be_called() {
    requests_are_one_to_one();
    replies_are_one_to_one();
}
