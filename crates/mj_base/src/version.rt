/// A version of the Majordomo protocol: 0.1 (ZeroMQ RFC 7) or 0.2 (a profile after ZeroMQ RFC 18).
#[derive(Clone, Copy, Debug, PartialEq, Eq)]
pub enum Version {
    One,
    Two,
}
