//! The worked runs of clients and workers, from script to printed lines.
use super::runs::{add_line, first_wrong_run};
use super::tests::printed;
use std::alloc::Global;
use std::test::Fail;

const ROUTED: &str = "\
# Two workers and three requests, the third of which waits.
open 0
  put 0 GREETING
bytes 0 HELLO
  put 0 READY
open 1
  put 1 GREETING
bytes 1 HELLO
  put 1 READY
open 2
  put 2 GREETING
bytes 2 HELLO
  put 2 READY
bytes 0 READY_ECHO
bytes 1 READY_ECHO
bytes 2 ASK_A
  put 0 REQUEST_A_OF_3
bytes 2 ASK_B
  put 1 REQUEST_B_OF_3
bytes 2 ASK_C
bytes 1 REPLY_B_TO_3
  put 2 ANSWER_B
  put 1 REQUEST_C_OF_3
  done 12

# A reply to another than the asker.
open 0
  put 0 GREETING
bytes 0 HELLO
  put 0 READY
open 1
  put 1 GREETING
bytes 1 HELLO
  put 1 READY
open 2
  put 2 GREETING
bytes 2 HELLO
  put 2 READY
bytes 0 READY_ECHO
bytes 1 READY_ECHO
bytes 2 ASK_A
  put 0 REQUEST_A_OF_3
bytes 2 ASK_B
  put 1 REQUEST_B_OF_3
bytes 2 ASK_C
bytes 0 REPLY_Z_TO_9
  put 0 DISCONNECT
bytes 0 REPLY_A_TO_3
  done 13

# READY twice.
open 0
  put 0 GREETING
bytes 0 HELLO
  put 0 READY
bytes 0 READY_ECHO
bytes 0 READY_ECHO
  put 0 DISCONNECT
bytes 0 READY_ECHO
  done 5

# HEARTBEAT and DISCONNECT of one that never registered.
open 0
  put 0 GREETING
bytes 0 HELLO
  put 0 READY
open 1
  put 1 GREETING
bytes 1 HELLO
  put 1 READY
bytes 0 HEARTBEAT
  put 0 DISCONNECT
bytes 1 DISCONNECT
  done 6

# The asker goes while its request is held, and another one comes on its lane.
open 0
  put 0 GREETING
bytes 0 HELLO
  put 0 READY
open 1
  put 1 GREETING
bytes 1 HELLO
  put 1 READY
bytes 0 READY_ECHO
bytes 1 ASK_A
  put 0 REQUEST_A_OF_2
close 1
open 1
  put 1 GREETING
bytes 1 HELLO
  put 1 READY
bytes 1 WHO_SERVES_ECHO
  put 1 SERVED
bytes 0 REPLY_A_TO_2
bytes 1 WHO_SERVES_ECHO
  put 1 SERVED
  done 12

# A client goes while its request is queued.
open 0
  put 0 GREETING
bytes 0 HELLO
  put 0 READY
bytes 0 ASK_A
close 0
open 1
  put 1 GREETING
bytes 1 HELLO
  put 1 READY
bytes 1 READY_ECHO
  done 7

# A worker's lane opens again: the old worker is gone, and the new peer may register.
open 0
  put 0 GREETING
bytes 0 HELLO
  put 0 READY
bytes 0 READY_ECHO
open 1
  put 1 GREETING
bytes 1 HELLO
  put 1 READY
open 0
  put 0 GREETING
bytes 0 HELLO
  put 0 READY
bytes 1 WHO_SERVES_ECHO
  put 1 NOT_SERVED
bytes 0 READY_ECHO
bytes 1 ASK_A
  put 0 REQUEST_A_OF_2
  done 10

# READY for a name of the broker's own, and for one of Titanic's.
open 0
  put 0 GREETING
bytes 0 HELLO
  put 0 READY
open 1
  put 1 GREETING
bytes 1 HELLO
  put 1 READY
open 2
  put 2 GREETING
bytes 2 HELLO
  put 2 READY
bytes 0 READY_MMI
  put 0 DISCONNECT
bytes 1 READY_TITANIC
bytes 2 WHO_SERVES_TITANIC
  put 2 SERVED
  done 9

# A request is handed out before the fault behind it ends its asker.
open 0
  put 0 GREETING
bytes 0 HELLO
  put 0 READY
open 1
  put 1 GREETING
bytes 1 HELLO
  put 1 READY
bytes 0 READY_ECHO
bytes 1 ASK_A_AND_A_FAULT
  put 0 REQUEST_A_OF_2
  end 1 bad-flags 113
bytes 0 REPLY_A_TO_2
  done 7

# The asker is still connected, but is passed over.
open 0
  put 0 GREETING
bytes 0 HELLO
  put 0 READY
open 1
  put 1 GREETING
bytes 1 HELLO
  put 1 READY
bytes 0 READY_ECHO
bytes 1 ASK_A
  put 0 REQUEST_A_OF_2
bytes 1 NO_COMMAND
bytes 0 REPLY_A_TO_2
  done 8
";

#[test]
fn clients_and_workers_are_routed_or_refused(rt: HostRuntime) -> Result<(), Fail> {
    assert!(rt; first_wrong_run(rt.alloc(), ROUTED)? == None);
    Ok(())
}

const LEASES: &str = "\
# A waiting worker's lease of 7,500 ms.
open 0
  put 0 GREETING
bytes 0 HELLO
  put 0 READY
bytes 0 READY_ECHO
open 1
  put 1 GREETING
bytes 1 HELLO
  put 1 READY
tick 7499
  put 0 HEARTBEAT
bytes 1 WHO_SERVES_ECHO
  put 1 SERVED
tick 7500
bytes 1 WHO_SERVES_ECHO
  put 1 NOT_SERVED
bytes 0 HEARTBEAT
  put 0 DISCONNECT
  done 10

# A busy worker's lease of 60,000 ms.
open 0
  put 0 GREETING
bytes 0 HELLO
  put 0 READY
bytes 0 READY_ECHO
open 1
  put 1 GREETING
bytes 1 HELLO
  put 1 READY
bytes 1 ASK_A
  put 0 REQUEST_A_OF_2
tick 59999
  put 0 HEARTBEAT
bytes 0 REPLY_A_TO_2
  put 1 ANSWER_A
  done 8

# It has ended.
open 0
  put 0 GREETING
bytes 0 HELLO
  put 0 READY
bytes 0 READY_ECHO
open 1
  put 1 GREETING
bytes 1 HELLO
  put 1 READY
bytes 1 ASK_A
  put 0 REQUEST_A_OF_2
tick 60000
bytes 0 REPLY_A_TO_2
  put 0 DISCONNECT
  done 8

# A heartbeat after 2,500 ms; time doesn't go back.
open 0
  put 0 GREETING
bytes 0 HELLO
  put 0 READY
bytes 0 READY_ECHO
tick 2499
tick 2500
  put 0 HEARTBEAT
tick 100
  done 6

# A request puts the heartbeat off.
open 0
  put 0 GREETING
bytes 0 HELLO
  put 0 READY
bytes 0 READY_ECHO
open 1
  put 1 GREETING
bytes 1 HELLO
  put 1 READY
tick 2000
bytes 1 ASK_A
  put 0 REQUEST_A_OF_2
tick 4499
tick 4500
  put 0 HEARTBEAT
  done 9

# A worker that registers at 5,000 ms, behind an earlier moment.
open 0
  put 0 GREETING
bytes 0 HELLO
  put 0 READY
open 1
  put 1 GREETING
bytes 1 HELLO
  put 1 READY
tick 5000
tick 100
bytes 0 READY_ECHO
tick 7499
tick 7500
  put 0 HEARTBEAT
tick 12499
  put 0 HEARTBEAT
bytes 1 WHO_SERVES_ECHO
  put 1 SERVED
tick 12500
bytes 1 WHO_SERVES_ECHO
  put 1 NOT_SERVED
  done 13

# A busy worker's lease begins at the request.
open 0
  put 0 GREETING
bytes 0 HELLO
  put 0 READY
bytes 0 READY_ECHO
open 1
  put 1 GREETING
bytes 1 HELLO
  put 1 READY
tick 7000
  put 0 HEARTBEAT
bytes 1 ASK_A
  put 0 REQUEST_A_OF_2
tick 66999
  put 0 HEARTBEAT
tick 67000
bytes 0 REPLY_A_TO_2
  put 0 DISCONNECT
  done 10
";

#[test]
fn leases_end_and_heartbeats_are_sent(rt: HostRuntime) -> Result<(), Fail> {
    assert!(rt; first_wrong_run(rt.alloc(), LEASES)? == None);
    Ok(())
}

const VERSIONS: &str = "\
# Partial replies go to a client of 0.2 alone.
open 0
  put 0 GREETING
bytes 0 HELLO
  put 0 READY
open 1
  put 1 GREETING
bytes 1 HELLO
  put 1 READY
open 2
  put 2 GREETING
bytes 2 HELLO
  put 2 READY
bytes 0 READY_ECHO_TWO
bytes 1 ASK_A
  put 0 REQUEST_A_OF_2_TWO
bytes 0 PART_P_TO_2_TWO
bytes 0 PART_Q_TO_2_TWO
bytes 0 FINAL_F_TO_2_TWO
  put 1 ANSWER_F
bytes 2 ASK_B_TWO
  put 0 REQUEST_B_OF_3_TWO
bytes 0 PART_P_TO_3_TWO
  put 2 PART_P_TWO
bytes 0 PART_Q_TO_3_TWO
  put 2 PART_Q_TWO
bytes 0 FINAL_F_TO_3_TWO
  put 2 ANSWER_F_TWO
  done 15

# Each is answered with the empty frame or without it, as it began.
open 0
  put 0 GREETING
bytes 0 HELLO
  put 0 READY
open 1
  put 1 GREETING
bytes 1 HELLO
  put 1 READY
bytes 0 READY_ECHO_TWO_LED
bytes 1 ASK_A_TWO
  put 0 REQUEST_A_OF_2_TWO_LED
bytes 0 FINAL_A_TO_2_TWO
  put 1 ANSWER_A_TWO
  done 7

# DISCONNECT in the worker's version, or in that of the refused word.
open 0
  put 0 GREETING
bytes 0 HELLO
  put 0 READY
open 1
  put 1 GREETING
bytes 1 HELLO
  put 1 READY
open 2
  put 2 GREETING
bytes 2 HELLO
  put 2 READY
bytes 0 READY_ECHO_TWO
bytes 0 HEARTBEAT
  put 0 DISCONNECT_TWO
bytes 1 READY_ECHO
bytes 1 HEARTBEAT_TWO
  put 1 DISCONNECT
bytes 2 HEARTBEAT_TWO
  put 2 DISCONNECT_TWO
  done 11

# Both versions in one run, over four heartbeats.
open 0
  put 0 GREETING
bytes 0 HELLO
  put 0 READY
open 1
  put 1 GREETING
bytes 1 HELLO
  put 1 READY
open 2
  put 2 GREETING
bytes 2 HELLO_OF_REQ
  put 2 READY
open 3
  put 3 GREETING
bytes 3 HELLO
  put 3 READY
bytes 0 READY_ECHO
bytes 1 READY_SUM_TWO
bytes 2 ASK_A
  put 0 REQUEST_A_OF_3
bytes 0 REPLY_A_TO_3
  put 2 ANSWER_A
bytes 3 ASK_SUM_TWO
  put 1 REQUEST_SUM_OF_4_TWO
bytes 1 PART_HALF_TO_4_TWO
  put 3 PART_HALF_TWO
bytes 1 FINAL_SUM_TO_4_TWO
  put 3 ANSWER_SUM_TWO
tick 2500
  put 0 HEARTBEAT
  put 1 HEARTBEAT_TWO
bytes 0 HEARTBEAT
bytes 1 HEARTBEAT_TWO
tick 5000
  put 0 HEARTBEAT
  put 1 HEARTBEAT_TWO
bytes 0 HEARTBEAT
bytes 1 HEARTBEAT_TWO
tick 7500
  put 0 HEARTBEAT
  put 1 HEARTBEAT_TWO
bytes 0 HEARTBEAT
bytes 1 HEARTBEAT_TWO
tick 10000
  put 0 HEARTBEAT
  put 1 HEARTBEAT_TWO
bytes 0 HEARTBEAT
bytes 1 HEARTBEAT_TWO
  done 27
";

#[test]
fn both_versions_are_spoken(rt: HostRuntime) -> Result<(), Fail> {
    assert!(rt; first_wrong_run(rt.alloc(), VERSIONS)? == None);
    Ok(())
}

/// Majordomo's frames of a request for `echo`, and the head of its last frame but for the size's last digit.
const LONG_ASK: &str = "010001064d445043303101046563686f0200000000000ffff";

/// A request for `echo` with a last frame of the size that ends with this digit, 1,048,566 bytes of which come in pieces
/// of 65,536, and then a question.
fn long_script(alloc: Global, digit: u8) -> Result<Vec<u8>, Fail> {
    let mut piece = Vec::new(alloc);
    piece.resize(131_072, b'6')?;
    let mut script = Vec::from_slice(alloc, b"open 0\n")?;
    add_line(&mut script, "bytes 0 HELLO")?;
    script.extend_from_slice(b"bytes 0 ")?;
    script.extend_from_slice(LONG_ASK.as_bytes())?;
    script.push(digit)?;
    for _ in 0..15 {
        script.extend_from_slice(b"\nbytes 0 ")?;
        script.extend_from_slice(piece.as_slice())?;
    }
    piece.truncate(131_052);
    script.extend_from_slice(b"\nbytes 0 ")?;
    script.extend_from_slice(piece.as_slice())?;
    script.push(b'\n')?;
    add_line(&mut script, "bytes 0 WHO_SERVES_ECHO")?;
    Ok(script)
}

#[test]
fn a_request_of_the_greatest_size_is_queued(rt: HostRuntime) -> Result<(), Fail> {
    for (digit, last) in [(b'6', "put 0 NOT_SERVED"), (b'7', "end 0 too-long 110")] {
        let script = long_script(rt.alloc(), digit)?;
        let (text, status) = printed(rt.alloc(), &["-", "replay"], script.as_slice(), &[], &[])?;
        let mut wanted = Vec::new(rt.alloc());
        add_line(&mut wanted, "put 0 GREETING")?;
        add_line(&mut wanted, "put 0 READY")?;
        add_line(&mut wanted, last)?;
        add_line(&mut wanted, "done 20")?;
        assert!(rt; text.as_slice() == wanted.as_slice());
        assert!(rt; status == 0);
    }
    Ok(())
}

#[test]
fn a_peer_that_takes_nothing_is_cut_off(rt: HostRuntime) -> Result<(), Fail> {
    // 4,096 pieces may be on their way: greeting and READY, 94 bytes, and 4,094 answers of 28 bytes.
    let mut script = Vec::from_slice(rt.alloc(), b"open 0\n")?;
    add_line(&mut script, "bytes 0 HELLO")?;
    let mut wanted = Vec::new(rt.alloc());
    add_line(&mut wanted, "put 0 GREETING")?;
    add_line(&mut wanted, "put 0 READY")?;
    for _ in 0..4_094 {
        add_line(&mut script, "bytes 0 WHO_SERVES_ECHO")?;
        add_line(&mut wanted, "put 0 NOT_SERVED")?;
    }
    add_line(&mut script, "sent 0")?;
    add_line(&mut script, "bytes 0 WHO_SERVES_ECHO")?;
    add_line(&mut script, "bytes 0 WHO_SERVES_ECHO")?;
    add_line(&mut wanted, "put 0 NOT_SERVED")?;
    add_line(&mut wanted, "end 0 slow 114690")?;
    add_line(&mut wanted, "done 4099")?;
    let (text, status) = printed(rt.alloc(), &["-", "replay"], script.as_slice(), &[], &[])?;
    assert!(rt; text.as_slice() == wanted.as_slice());
    assert!(rt; status == 0);
    Ok(())
}
