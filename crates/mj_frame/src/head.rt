ghost use Rattle.std.specs.Prelude.{◌≡◌, ◌≤◌, ◌↔◌, length, take};
ghost use Rattle.mj_frame.specs.FrameSpelling.{IsHead, StartsHead, StartsWrong};
ghost use Rattle.mj_frame.specs.HeadReading;
ghost use Rattle.mj_frame.specs.HeadReading.{IfHead, head_at, head_behind, head_from};

/// What stands before a frame's body.
#[derive(Clone, Copy, Debug, PartialEq, Eq)]
pub struct Head {
    /// More frames of the same message follow.
    pub more: bool,
    /// The frame is a command and no part of a message.
    pub command: bool,
    /// The body's size in bytes.
    pub size: u64,
}

/// What a frame's first bytes say.
#[derive(Clone, Copy, Debug, PartialEq, Eq)]
pub enum HeadAnswer {
    /// A head, and how many bytes it takes, 2 or 9.
    Head(Head, usize),
    /// The head isn't whole yet.
    Short,
    /// The first byte is the flags byte of no frame.
    BadFlags,
}

/// What a flags byte says.
#[derive(Clone, Copy)]
struct Kind {
    more: bool,
    /// The size has eight bytes.
    long: bool,
    command: bool,
}

/// Reads the head of the frame that these bytes begin with (ZeroMQ RFC 23, framing).
pub fn read_head(octets: &[u8]) -> HeadAnswer
    ensures found { IfHead result (λ h n. (n ≤ length octets.now) × IsHead h (take n octets.now)) }
    ensures short { (result ≡ HeadAnswer.Short) ↔ StartsHead octets.now }
    ensures bad_flags { (result ≡ HeadAnswer.BadFlags) ↔ StartsWrong octets.now }
    ensures exact { result ≡ head_at octets.now }
{
    answer_of(octets)
}

#[tactic(auto, unfolding(crate::specs::HeadReading::head_at))]
fn answer_of(octets: &[u8]) -> HeadAnswer
    ensures { result ≡ head_at octets.now }
{
    match octets.split_first() {
        None => HeadAnswer::Short,
        Some((flags, rest)) => head_behind(kind_of(*flags), rest),
    }
}

fn kind_of(flags: u8) -> Option<Kind>
    ensures { result ≡ HeadReading.kind_of flags }
{
    match flags {
        0 => Some(Kind {
            more: false,
            long: false,
            command: false,
        }),
        1 => Some(Kind {
            more: true,
            long: false,
            command: false,
        }),
        2 => Some(Kind {
            more: false,
            long: true,
            command: false,
        }),
        3 => Some(Kind {
            more: true,
            long: true,
            command: false,
        }),
        4 => Some(Kind {
            more: false,
            long: false,
            command: true,
        }),
        6 => Some(Kind {
            more: false,
            long: true,
            command: true,
        }),
        _ => None,
    }
}

fn head_behind(kind: Option<Kind>, rest: &[u8]) -> HeadAnswer
    ensures { result ≡ HeadReading.head_behind kind rest.now }
{
    match kind {
        None => HeadAnswer::BadFlags,
        Some(kind) => head_from(kind, size_of(kind.long, rest)),
    }
}

fn head_from(kind: Kind, size: Option<u64>) -> HeadAnswer
    ensures { result ≡ HeadReading.head_from kind size }
{
    match size {
        None => HeadAnswer::Short,
        Some(size) => {
            let head = Head {
                more: kind.more,
                command: kind.command,
                size,
            };
            HeadAnswer::Head(head, if kind.long { 9 } else { 2 })
        }
    }
}

fn size_of(long: bool, rest: &[u8]) -> Option<u64>
    ensures { result ≡ HeadReading.size_of long rest.now }
{
    if long {
        long_size(rest)
    } else {
        short_size(rest)
    }
}

fn short_size(rest: &[u8]) -> Option<u64>
    ensures { result ≡ HeadReading.short_size rest.now }
{
    match rest.split_first() {
        None => None,
        Some((size, _)) => Some(u64::from(*size)),
    }
}

fn long_size(rest: &[u8]) -> Option<u64>
    ensures { result ≡ HeadReading.long_size rest.now }
{
    match rest.first_chunk::<8>() {
        None => None,
        Some(size) => Some(u64::from_be_bytes(*size)),
    }
}
