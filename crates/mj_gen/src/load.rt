//! Where the generated load stands.
ghost use Rattle.std.specs.Prelude.{◌≡◌, ◌∷◌, ◌≤◌, ◌<◌, false, true, IfOk};
ghost use Rattle.mj_gen.specs.Generated;
ghost use Rattle.mj_gen.specs.Generated.{generated};
ghost use Rattle.mj_gen.specs.ToCome;
ghost use Rattle.mj_gen.specs.ToCome.{IsPlace, event_of, next_of, to_come};

/// What comes next of the generated load.
#[derive(Clone, Copy, Debug, PartialEq, Eq)]
pub enum Turn {
    /// A peer connects on the lane of this number, 0 to 7.
    Open,
    /// It sends its greeting and READY.
    Hello,
    /// It has taken the greeting.
    Greeted,
    /// It has taken READY.
    Shaken,
    /// The request of this number, from 0, is asked.
    Ask,
    /// The worker of this number, 0 to 3, says what it serves.
    Serve,
    /// The worker has taken the request of this number.
    Taken,
    /// It answers the request.
    Reply,
    /// Who asked has taken the answer.
    Answered,
    /// The ticket of this number, from 1, is asked for.
    File,
    /// Who asked for it has taken the answer.
    Filed,
    /// Nothing comes.
    Over,
}

/// A place in a load of so many requests, 1 to 60,000, with tickets or without.
#[derive(Drop)]
pub struct Place {
    pub n: u64,
    pub stored: bool,
    pub turn: Turn,
    pub number: u64,
    pub ghost is: { IsPlace n stored turn number },
}

/// Whether nothing comes.
pub fn is_over(turn: Turn) -> bool
    ensures over { result ≡ true → turn ≡ Turn.Over }
    ensures going { result ≡ false → ¬ (turn ≡ Turn.Over) }
{
    turn == Turn::Over
}

/// Where a load begins.
pub fn first_place(n: u64, stored: bool) -> Place
    requires some { 1 ≤ n }
    requires few { n ≤ 60000 }
    ensures n { result.n ≡ n }
    ensures stored { result.stored ≡ stored }
    ensures begins { to_come n stored result.turn result.number ≡ generated n stored }
{
    Place {
        n,
        stored,
        turn: Turn::Open,
        number: 0,
    }
}

/// The place behind the next event.
#[tactic(auto, using(crate::proofs::Places::place_behind, crate::proofs::Places::goes_on))]
pub fn place_behind(place: &Place) -> Place
    ensures n { result.n ≡ place.now.n }
    ensures stored { result.stored ≡ place.now.stored }
    ensures goes_on { ¬ (place.now.turn ≡ Turn.Over) → to_come place.now.n place.now.stored place.now.turn place.now.number ≡ event_of place.now.turn place.now.number ∷ to_come result.n result.stored result.turn result.number }
{
    let (turn, number) = turn_behind(place.n, place.stored, place.turn, place.number);
    Place {
        n: place.n,
        stored: place.stored,
        turn,
        number,
    }
}

#[tactic(auto, using(crate::proofs::Places::place_small))]
fn turn_behind(n: u64, stored: bool, turn: Turn, number: u64) -> (Turn, u64)
    requires { IsPlace n stored turn number }
    ensures { result ≡ ToCome.turn_behind n stored turn number }
{
    match turn {
        Turn::Open => (Turn::Hello, number),
        Turn::Hello => (Turn::Greeted, number),
        Turn::Greeted => (Turn::Shaken, number),
        Turn::Shaken => up_to(number, 8, Turn::Open, Turn::Ask),
        Turn::Ask => up_to(number, n, Turn::Ask, Turn::Serve),
        Turn::Serve => up_to(number, 4, Turn::Serve, Turn::Taken),
        Turn::Taken => (Turn::Reply, number),
        Turn::Reply => (Turn::Answered, number),
        Turn::Answered => behind_answer(n, stored, number),
        Turn::File => (Turn::Filed, number),
        Turn::Filed => behind_ticket(n, stored, number),
        Turn::Over => (Turn::Over, 0),
    }
}

/// The same turn of the next number, or another turn of the first.
fn up_to(number: u64, end: u64, same: Turn, other: Turn) -> (Turn, u64)
    requires { number ≤ 60000 }
    ensures { result ≡ next_of end same other number }
{
    if number + 1 < end {
        (same, number + 1)
    } else {
        (other, 0)
    }
}

fn behind_answer(n: u64, stored: bool, number: u64) -> (Turn, u64)
    requires { number ≤ 60000 }
    ensures { result ≡ ToCome.turn_behind n stored Turn.Answered number }
{
    if number + 1 < n {
        (Turn::Taken, number + 1)
    } else if stored {
        (Turn::File, 1)
    } else {
        (Turn::Over, 0)
    }
}

fn behind_ticket(n: u64, stored: bool, number: u64) -> (Turn, u64)
    requires { number ≤ 60000 }
    ensures { result ≡ ToCome.turn_behind n stored Turn.Filed number }
{
    if number < tickets(n, stored) {
        (Turn::File, number + 1)
    } else {
        (Turn::Over, 0)
    }
}

/// How many tickets are asked for.
fn tickets(n: u64, stored: bool) -> u64
    ensures { result ≡ Generated.tickets n stored }
{
    if stored { n.min(1000) } else { 0 }
}
