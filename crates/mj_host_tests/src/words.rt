//! Words that are the broker's, and words that aren't.
use mj_host::broker_words;
use std::alloc::Global;
use std::test::Fail;

/// The number of lanes and of milliseconds that each is read as.
const READ: [(&str, u32, u64); 6] = [
    ("- broker 127.0.0.1:5555", 64, 0),
    ("a broker tcp://*:5555", 64, 0),
    ("- broker b --lanes 1", 1, 0),
    ("- broker b --lanes 64 --for 1", 64, 1),
    (
        "- broker b --for 1000000000000 --lanes 2",
        2,
        1_000_000_000_000,
    ),
    ("-a broker -b", 64, 0),
];

const REFUSED: [&str; 14] = [
    "",
    "-",
    "- broker",
    "- broker --lanes",
    "--a broker b",
    "- brokers b",
    "- broker b --lanes 0",
    "- broker b --lanes 65",
    "- broker b --lanes 01",
    "- broker b --for 0",
    "- broker b --for 1000000000001",
    "- broker b --for 1 --for 1",
    "- broker b --lanes 1 --lanes 2",
    "- broker b --seed 1",
];

pub fn words_of(alloc: Global, text: &str) -> Result<Vec<String>, Fail> {
    let mut words = Vec::new(alloc);
    for word in text.split(' ') {
        words.push(String::from_str(alloc, word)?)?;
    }
    Ok(words)
}

#[test]
fn words_of_the_broker_are_read(rt: HostRuntime) -> Result<(), Fail> {
    for (text, lanes, millis) in READ {
        let words = words_of(rt.alloc(), text)?;
        assert!(rt;
            broker_words(words.as_slice()) == Some((lanes, millis)),
            "{text}"
        );
    }
    Ok(())
}

#[test]
fn other_words_are_refused(rt: HostRuntime) -> Result<(), Fail> {
    for text in REFUSED {
        let words = words_of(rt.alloc(), text)?;
        assert!(rt; broker_words(words.as_slice()).is_none(), "{text}");
    }
    Ok(())
}
