ghost use Rattle.std.specs.Prelude.{◌+◌, ◌≤◌, ◌^◌, length};

/// How far a script was read and acted on.
#[derive(Drop)]
pub struct Progress {
    /// Lanes that its lines may name.
    pub lanes: u32,
    /// Bytes that were read and not acted on.
    pub pending: Vec<u8>,
    /// Bytes that may still be read: none, where the source has ended.
    pub room: u64,
    /// Lines that were acted on.
    pub lines: u64,
    ghost within: { lines + length pending.items + room ≤ 2 ^ 40 },
}
