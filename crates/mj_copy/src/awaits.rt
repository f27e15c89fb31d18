use mj_base::Octets;

/// What follow waits for.
#[derive(Drop)]
pub enum Awaits {
    /// What its link gives next.
    Link,
    /// The opening of its file, with this base where the file is made anew.
    File(u64),
    /// The appending of this payload.
    Append(Octets),
}
