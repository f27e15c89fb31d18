ghost use Rattle.std.specs.Prelude.{◌≡◌, ◌≤◌, ◌∷◌, [], IfOk, IfErr, MatchOption};
ghost use Rattle.mj_peering.specs.Feeding.{ahead};
ghost use Rattle.mj_peering.specs.Requests.{IsOver, ReadCause, Uses};

use super::feed::Feed;
use super::stop::Stop;
use mj_base::{Octets, Source};
use std::alloc::Global;
use std::sync::Wait;

impl Feed {
    /// The next request, or None behind the last one.
    pub(crate) fn next_request<R: Wait, S: Source>(
        &mut self,
        rt: &R,
        alloc: Global,
        src: &mut S,
    ) -> Result<Option<Octets>, Stop>
        ensures requests { IfOk result (λ found. MatchOption found (IsOver (ahead self.new (S.left src.new)) × Uses (ahead self.old (S.left src.old)) (ahead self.new (S.left src.new)) []) (λ request. Uses (ahead self.old (S.left src.old)) (ahead self.new (S.left src.new)) (request ∷ []))) }
        ensures cause { IfErr result (λ stop. ReadCause stop (S.faults src.old) (S.faults src.new)) }
        ensures later { S.faults src.old ≤ S.faults src.new }
    {
        let mut piece = Octets::new(alloc);
        for _ in rt.forever() {
            let Some(c) = self.next_byte(src)? else {
                if piece.is_empty() {
                    return Ok(None);
                }
                return Ok(Some(piece));
            };
            if self.take(c, &mut piece)? {
                return Ok(Some(piece));
            }
        }
        unreachable!()
    }
}
