//! What the events so far make of a connection as a worker.
ghost use Rattle.std.specs.Prelude.{◌≡◌, false, None};
ghost use Rattle.mj_ledger.specs.Hands.{fresh, hand_by, when_given, when_lapsed, when_left, when_ready, when_replied};
ghost use Rattle.mj_ledger.specs.Workers.{is_some_of};

use super::same::is_same;
use mj_base::Octets;

/// A connection: whether it is gone, whether a READY of it counts, the service that it named, the address of the
/// request that it holds, and whether it waits.
#[derive(Drop)]
pub struct Hand {
    pub gone: bool,
    pub readied: bool,
    pub service: Option<Octets>,
    pub held: Option<Octets>,
    pub waiting: bool,
}

/// What happens to a connection.
#[derive(Drop)]
pub(crate) enum Change {
    /// It says that it serves.
    Ready(Octets),
    /// It answers the request with this address; the answer may be the last.
    Reply(bool, Octets),
    /// It is sent the request with this address.
    Give(Octets),
    Lapse,
    Leave,
}

impl Hand {
    /// A connection that said nothing.
    pub(crate) fn fresh() -> Hand
        ensures { result ≡ fresh }
    {
        Hand {
            gone: false,
            readied: false,
            service: None,
            held: None,
            waiting: false,
        }
    }

    pub(crate) fn change(&mut self, change: Change)
        ensures { self.new ≡ hand_by change self.old }
    {
        match change {
            Change::Ready(service) => self.ready(service),
            Change::Reply(last, to) => self.reply(last, &to),
            Change::Give(to) => self.give(to),
            Change::Lapse => self.lapse(),
            Change::Leave => self.leave(),
        }
    }

    fn ready(&mut self, service: Octets)
        ensures { self.new ≡ when_ready service self.old }
    {
        if !self.readied {
            self.readied = true;
            self.service = Some(service);
            self.waiting = !self.gone && self.held.is_none();
        }
    }

    fn reply(&mut self, last: bool, to: &Octets)
        ensures { self.new ≡ when_replied last to.now self.old }
    {
        if last && self.holds(to.as_slice()) {
            self.held = None;
            self.waiting = !self.gone;
        }
    }

    fn give(&mut self, to: Octets)
        ensures { self.new ≡ when_given to self.old }
    {
        self.held = if self.gone { None } else { Some(to) };
        self.waiting = false;
    }

    fn lapse(&mut self)
        ensures { self.new ≡ when_lapsed self.old }
    {
        self.readied = false;
        self.held = None;
        self.waiting = false;
    }

    fn leave(&mut self)
        ensures { self.new ≡ when_left self.old }
    {
        self.gone = true;
        self.held = None;
        self.waiting = false;
    }

    /// Whether it holds the request with this address.
    pub(crate) fn holds(&self, address: &[u8]) -> bool
        ensures { result ≡ is_some_of address.now self.now.held }
    {
        match &self.held {
            Some(held) => is_same(address, held.as_slice()),
            None => false,
        }
    }

    /// Whether it serves this.
    pub(crate) fn serves(&self, service: &[u8]) -> bool
        ensures { result ≡ is_some_of service.now self.now.service }
    {
        match &self.service {
            Some(name) => is_same(service, name.as_slice()),
            None => false,
        }
    }
}
