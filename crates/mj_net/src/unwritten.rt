/// The most lanes.
const LANES: usize = 64;

/// So many puts are written out at the latest, even while entries come.
const DUE: u32 = 32;

/// The lanes to which something was put since it was last written out.
#[derive(Drop)]
pub struct Unwritten {
    lanes: [bool; LANES],
    puts: u32,
}

impl Unwritten {
    pub fn new() -> Unwritten {
        Unwritten {
            lanes: [false; LANES],
            puts: 0,
        }
    }

    /// Something was put to this lane.
    pub fn note(&mut self, lane: u32) {
        if let Some(noted) = self.lanes.get_mut(lane as usize) {
            *noted = true;
        }
        self.puts = self.puts.saturating_add(1);
    }

    /// Whether something was put to this lane.
    pub fn has(&self, lane: usize) -> bool {
        match self.lanes.get(lane) {
            Some(noted) => *noted,
            None => false,
        }
    }

    /// Whether enough was put to write it out.
    pub fn is_due(&self) -> bool {
        self.puts >= DUE
    }

    /// All was written out.
    pub fn clear(&mut self) {
        self.lanes = [false; LANES];
        self.puts = 0;
    }
}
