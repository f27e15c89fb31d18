//! The worked runs of one connection, from script to printed lines.
use super::runs::{add_line, digits_of, first_wrong_run};
use super::tests::printed;
use std::test::Fail;

const ONE_CONNECTION: &str = "\
open 0
  put 0 GREETING
bytes 0 HELLO
  put 0 READY
bytes 0 WHO_SERVES_ECHO
  put 0 NOT_SERVED
  done 3

open 0
  put 0 GREETING
bytes 0 PADDED_HELLO
  put 0 READY
bytes 0 WHO_SERVES_ECHO
  put 0 NOT_SERVED
  done 3

open 0
  put 0 GREETING
bytes 0 HELLO
  put 0 READY
bytes 0 LONG_QUESTION
  put 0 NOT_SERVED
  done 3

open 0
  put 0 GREETING
bytes 0 GREETING
  put 0 READY
bytes 0 READY_WITH_IDENTITY
bytes 0 WHO_SERVES_ECHO
  put 0 NOT_SERVED
  done 4

open 0
  put 0 GREETING
bytes 0 HELLO
  put 0 READY
bytes 0 QUESTION_AND_MORE
  put 0 NOT_SERVED
  end 0 bad-flags 123
bytes 0 00
  done 4

open 0
  put 0 GREETING
bytes 0 HELLO
  put 0 READY
bytes 0 ECHO_REQUEST
  done 3

open 0
  put 0 GREETING
bytes 0 PLAIN_GREETING
  end 0 bad-mechanism 12
  done 2

open 0
  put 0 GREETING
bytes 0 ff00000000000000007f0200
  end 0 bad-version 10
  done 2

open 0
  put 0 GREETING
bytes 0 GREETING
  put 0 READY
bytes 0 READY_OF_PUB
  end 0 bad-socket-type 64
  done 3

open 0
  put 0 GREETING
bytes 0 GREETING
  put 0 READY
bytes 0 00
  end 0 bad-handshake 64
  done 3

open 0
  put 0 GREETING
bytes 0 fe
  end 0 bad-signature 0
  done 2
";

#[test]
fn one_connection_asks_and_is_answered_or_ended(rt: HostRuntime) -> Result<(), Fail> {
    assert!(rt; first_wrong_run(rt.alloc(), ONE_CONNECTION)? == None);
    Ok(())
}

#[test]
fn a_question_cut_into_single_bytes_is_answered(rt: HostRuntime) -> Result<(), Fail> {
    let mut script = Vec::from_slice(rt.alloc(), b"open 0\n")?;
    for name in ["HELLO", "WHO_SERVES_ECHO"] {
        for digits in digits_of(name).as_bytes().chunks(2) {
            script.extend_from_slice(b"bytes 0 ")?;
            script.extend_from_slice(digits)?;
            script.push(b'\n')?;
        }
    }
    let mut wanted = Vec::new(rt.alloc());
    for line in [
        "put 0 GREETING",
        "put 0 READY",
        "put 0 NOT_SERVED",
        "done 124",
    ] {
        add_line(&mut wanted, line)?;
    }
    let (text, status) = printed(rt.alloc(), &["-", "replay"], &script, &[], &[])?;
    assert!(rt; text.as_slice() == wanted.as_slice());
    assert!(rt; status == 0);
    Ok(())
}

const SECOND_OPEN: &str = "\
open 0
  put 0 GREETING
open 0
  put 0 GREETING
stop
  done 2
no line
";

#[test]
fn a_second_open_replaces_the_connection(rt: HostRuntime) -> Result<(), Fail> {
    assert!(rt; first_wrong_run(rt.alloc(), SECOND_OPEN)? == None);
    Ok(())
}

#[test]
fn what_was_acted_on_is_printed_before_a_fault(rt: HostRuntime) -> Result<(), Fail> {
    for (script, failing, fault, wanted_status) in [
        ("open 0\nopne 1\nopen 2\n", [9], "fault line 2", 2),
        ("open 0\nope", [1], "fault read", 6),
    ] {
        let (text, status) = printed(
            rt.alloc(),
            &["-", "replay"],
            script.as_bytes(),
            &failing,
            &[],
        )?;
        let mut wanted = Vec::new(rt.alloc());
        add_line(&mut wanted, "put 0 GREETING")?;
        add_line(&mut wanted, fault)?;
        assert!(rt; text.as_slice() == wanted.as_slice());
        assert!(rt; status == wanted_status);
    }
    Ok(())
}
