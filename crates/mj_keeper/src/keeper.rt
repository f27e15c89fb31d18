ghost use Rattle.std.specs.Prelude.{◌≡◌};
ghost use Rattle.mj_keeper.specs.Standing.{told_on};

use mj_base::Limits;
use mj_store::Store;

/// Where the tickets are.
#[derive(Drop)]
pub enum Shelf {
    /// There is no store.
    Absent,
    /// The file is open.
    Open(Store),
    /// A call of the disk failed. The closed gate of the file stood at this offset before, in bytes, or stands there still.
    Shut(u64),
}

/// What keeps tickets.
#[derive(Drop)]
pub struct Keeper {
    pub limits: Limits,
    /// What the ids of tickets are drawn from.
    pub seed: [u8; 32],
    pub shelf: Shelf,
}

impl Keeper {
    /// Whether there is a store, open or shut.
    pub fn is_stored(&self) -> bool
        ensures { result ≡ (told_on self.now.shelf).stored }
    {
        match &self.shelf {
            Shelf::Absent => false,
            Shelf::Open(_store) => true,
            Shelf::Shut(_end) => true,
        }
    }

    /// Whether the ticket of this number is open and has no reply yet; of a store that is shut, none is known.
    pub fn pends(&self, number: u64) -> bool
        ensures { result ≡ (told_on self.now.shelf).pends number }
    {
        match &self.shelf {
            Shelf::Absent => false,
            Shelf::Open(store) => store.is_pending(number),
            Shelf::Shut(_end) => false,
        }
    }
}
