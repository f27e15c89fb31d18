use super::runs::{nothing, run};
use std::alloc::Global;
use std::test::Fail;

/// Greeting and READY of a DEALER, and a question to the broker itself: 64, 30 and 29 bytes.
const QUESTION: &[u8] = b"\xff\0\0\0\0\0\0\0\0\x7f\x03\0NULL\0\0\0\0\0\0\0\0\0\0\0\0\0\0\0\0\
\0\0\0\0\0\0\0\0\0\0\0\0\0\0\0\0\0\0\0\0\0\0\0\0\0\0\0\0\0\0\0\0\
\x04\x1c\x05READY\x0bSocket-Type\0\0\0\x06DEALER\
\x01\0\x01\x06MDPC01\x01\x0bmmi.service\0\x04echo";

const GREETED: &[u8] =
    b"put 0 ff00000000000000007f03004e554c4c000000000000000000000000000000000000000000000000000000000000000000000000000000000000000000000000\n";

const READIED: &[u8] = b"put 0 041c0552454144590b536f636b65742d5479706500000006524f55544552\n";

/// Nobody serves `echo`.
const ANSWERED: &[u8] = b"put 0 010001064d4450433031010b6d6d692e736572766963650003343034\n";

/// What the connection is ended with where the byte at this offset is `ff`.
fn fault_at(at: usize) -> Option<&'static [u8]> {
    match at {
        9 => Some(b"end 0 bad-signature 9\n"),
        12..=31 => Some(b"end 0 bad-mechanism "),
        64 => Some(b"end 0 bad-flags 64\n"),
        93 => Some(b"end 0 bad-socket-type 64\n"),
        94 => Some(b"end 0 bad-flags 94\n"),
        96 => Some(b"end 0 bad-flags 96\n"),
        104 => Some(b"end 0 bad-flags 104\n"),
        117 => Some(b"end 0 bad-flags 117\n"),
        123 => Some(b"end 0 bad-flags 123\n"),
        _ => None,
    }
}

/// What has to be printed where so many bytes of the question came, and `ff` behind them or not.
fn wanted(alloc: Global, count: usize, spoiled: bool) -> Result<Vec<u8>, Fail> {
    let mut text = Vec::from_slice(alloc, GREETED)?;
    let came = if spoiled {
        count.saturating_add(1)
    } else {
        count
    };
    if came >= 64 {
        text.extend_from_slice(READIED)?;
    }
    if count == 123 || came == 123 {
        text.extend_from_slice(ANSWERED)?;
    }
    if spoiled {
        if let Some(end) = fault_at(count) {
            text.extend_from_slice(end)?;
            if count >= 12 && count <= 31 {
                text.extend_from_slice(format!(in alloc; "{count}\n")?.as_bytes())?;
            }
        }
    }
    let last = if came == 0 { "done 1\n" } else { "done 2\n" };
    text.extend_from_slice(last.as_bytes())?;
    Ok(text)
}

/// The script in which a peer connects and sends these bytes.
fn script_of(alloc: Global, octets: &[u8]) -> Result<Vec<u8>, Fail> {
    let mut script = Vec::from_slice(alloc, b"open 0\n")?;
    if !octets.is_empty() {
        script.extend_from_slice(b"bytes 0 ")?;
        script.extend_from_slice(hex::encode(alloc, octets)?.as_bytes())?;
        script.push(b'\n')?;
    }
    Ok(script)
}

/// Whether these bytes give what has to come.
fn goes_so(alloc: Global, count: usize, spoiled: bool) -> Result<bool, Fail> {
    let mut octets = QUESTION.get(..count).unwrap_or(b"").to_vec(alloc)?;
    if spoiled {
        octets.push(0xff)?;
    }
    let script = script_of(alloc, octets.as_slice())?;
    let ended = run(
        alloc,
        &["-", "replay"],
        script.as_slice(),
        b"",
        nothing(alloc),
    )?;
    let text = wanted(alloc, count, spoiled)?;
    Ok(ended.status == 0 && ended.printed.as_slice() == text.as_slice())
}

#[test]
fn every_prefix_of_a_question_and_each_with_ff_behind_it(rt: HostRuntime) -> Result<(), Fail> {
    for count in 0..124_usize {
        assert!(rt; goes_so(rt.alloc(), count, false)?, "{count}");
        assert!(rt; goes_so(rt.alloc(), count, true)?, "{count} and ff");
    }
    Ok(())
}
