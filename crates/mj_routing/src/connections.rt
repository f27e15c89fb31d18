//! The connections by rising number, found by halves, and a table of the number on each lane.
ghost use Rattle.std.specs.Prelude.{◌≡◌, ◌==◌, ◌++◌, ◌∷◌, [], ◌+◌, ◌<◌, ◌^◌, false, is_some, length, sum, None, IfSome, OnOk, OnErr};
ghost use Rattle.std.specs.List.{list_any};
ghost use Rattle.mj_machine.specs.Connections as machine;
ghost use Rattle.mj_machine.specs.Connections.{changed, connection_of, with_role};
ghost use Rattle.mj_machine.specs.EventStep.{delivered};
ghost use Rattle.mj_machine.specs.Leaving.{connections_without};
ghost use Rattle.mj_machine.specs.Pairing.{mark_set};
ghost use Rattle.mj_machine.specs.Sending;
ghost use Rattle.mj_machine.specs.Sending.{sent};
ghost use Rattle.mj_machine.specs.TickStep.{is_unspoken};
ghost use Rattle.mj_routing.specs.Lanes.{AreBelow, IsSplit, Rise, fresh};
ghost use Rattle.mj_routing.specs.Places.{IsPlace, IsRoomFor, IsSending, mark_in, silent_in, standing_of, verdict_if, verdict_of};

use indexmap::IndexMap;
use mj_base::{Limits, NoMemory, Version};
use mj_machine::{Connection, Lengths, Registration, Role, Voice};
use std::alloc::Global;
use std::marker::Model;

/// The connections that are there.
#[derive(Drop)]
pub struct Connections {
    /// By rising number.
    list: Vec<Connection>,
    /// The number of the connection on each lane.
    lanes: IndexMap<u32, u64>,
}

impl Model for Connections {
    ghost use Rattle.std.specs.Prelude.{List};
    ghost use Rattle.mj_machine.specs.declared.connection.Connection.{Connection as AConnection};
    ghost use Rattle.mj_routing.specs.Lanes.{AreIndexed};

    ghost Value = { List AConnection };

    ghost view = { λ c. c.list.items };

    ghost invariant = { λ c. AreIndexed c.list.items c.lanes };
}

/// A connection's lane, and a copy of its role.
#[derive(Drop)]
pub struct Standing {
    pub lane: u32,
    pub role: Role,
}

/// Whether a piece may be sent to a connection.
#[derive(Clone, Copy)]
pub enum Verdict {
    /// The connection isn't there.
    Nobody,
    /// It may be sent on this lane.
    Sends(u32),
    /// The peer on this lane is too slow: so many bytes are on their way to it.
    Slow(u32, u64),
}

impl Connections {
    pub fn new(alloc: Global) -> Connections
        ensures { result ≡ [] }
    {
        Connections {
            list: Vec::new(alloc),
            lanes: IndexMap::new(alloc),
        }
    }

    /// Adds a fresh connection, whose number is above all others, on a lane where there is none.
    pub fn add(&mut self, alloc: Global, lane: u32, number: u64) -> Result<(), NoMemory>
        requires above { AreBelow number self.old }
        requires free { machine.number_on lane self.old ≡ None }
        ensures ok { OnOk result (self.new ≡ self.old ++ fresh lane number ∷ []) }
        ensures err { OnErr result (self.new ≡ self.old) }
    {
        self.list.reserve(1)?;
        self.lanes.insert(lane, number)?;
        self.list
            .push(Connection {
                lane,
                number,
                role: Role::Fresh,
                outstanding: Lengths::new(alloc),
            })
            .unwrap();
        Ok(())
    }

    /// The number of connections.
    pub fn len(&self) -> usize {
        self.list.len()
    }

    /// The place of the connection of this number.
    fn place_of(&self, number: u64) -> Option<usize>
        ensures { IsPlace number self.now result }
    {
        place_in(&self.list, number)
    }

    /// Whether the connection of this number is there.
    pub fn has(&self, number: u64) -> bool
        ensures { result ≡ is_some (connection_of number self.now) }
    {
        self.place_of(number).is_some()
    }

    /// The same, at once where the connection stands at this place.
    pub fn has_near(&self, place: usize, number: u64) -> bool
        ensures { result ≡ is_some (connection_of number self.now) }
    {
        match self.list.get(place) {
            Some(connection) if connection.number == number => true,
            _ => self.has(number),
        }
    }

    /// The number of the connection on this lane.
    pub fn number_on(&self, lane: u32) -> Option<u64>
        ensures number { result ≡ machine.number_on lane self.now }
        ensures alone { IfSome result (λ number. machine.number_on lane (connections_without number self.now) ≡ None) }
    {
        self.lanes.get(&lane).copied()
    }

    /// The lane and the role of the connection of this number.
    pub fn look_up(&self, number: u64) -> Option<Standing>
        ensures { result ≡ standing_of (connection_of number self.now) }
    {
        let at = self.place_of(number)?;
        let connection = &self.list[at];
        Some(Standing {
            lane: connection.lane,
            role: copy_role(&connection.role),
        })
    }

    /// Whether the connection of this number is there and has asked.
    pub fn is_asking(&self, number: u64) -> bool
        ensures { result ≡ machine.is_asking (connection_of number self.now) }
    {
        match self.place_of(number) {
            None => false,
            Some(at) => is_client(&self.list[at].role),
        }
    }

    /// How the connection of this number is spoken to, where it is a worker's.
    pub fn voice_of(&self, number: u64) -> Voice
        ensures { result ≡ machine.voice_of (connection_of number self.now) }
    {
        match self.place_of(number) {
            None => Voice {
                version: Version::One,
                lead: true,
            },
            Some(at) => role_voice(&self.list[at].role),
        }
    }

    /// Gives the connection of this number this role.
    pub fn set_role(&mut self, number: u64, role: Role)
        ensures { self.new ≡ changed number (with_role role) self.old }
    {
        if let Some(at) = self.place_of(number) {
            self.list[at].role = role;
        }
    }

    /// The worker of this number was heard at this moment.
    pub fn hear(&mut self, number: u64, now: u64)
        ensures { self.new ≡ changed number (mark_set now) self.old }
    {
        if let Some(at) = self.place_of(number) {
            set_mark(&mut self.list[at].role, now);
        }
    }

    /// A piece of so many bytes is on its way to the connection of this number.
    pub fn note_sent(&mut self, number: u64, now: u64, octets: u64) -> Result<(), NoMemory>
        requires { IsRoomFor octets (connection_of number self.old) }
        ensures ok { OnOk result (self.new ≡ changed number (sent now octets) self.old) }
        ensures err { OnErr result (self.new ≡ self.old) }
    {
        if let Some(at) = self.place_of(number) {
            let connection = &mut self.list[at];
            connection.outstanding.push(octets)?;
            set_spoken(&mut connection.role, now);
        }
        Ok(())
    }

    /// The oldest piece on its way to the connection of this number was sent.
    pub fn note_delivered(&mut self, number: u64)
        ensures { self.new ≡ changed number delivered self.old }
    {
        if let Some(at) = self.place_of(number) {
            self.list[at].outstanding.pop();
        }
    }

    /// Takes the connection of this number out.
    pub fn cut_off(&mut self, number: u64)
        ensures { self.new ≡ connections_without number self.old }
    {
        if let Some(at) = self.place_of(number) {
            let connection = self.list.remove(at);
            self.lanes.swap_remove(&connection.lane);
        }
    }

    /// Whether a piece of so many bytes may be sent to the connection of this number.
    pub fn judge(&self, limits: &Limits, number: u64, octets: u64) -> Verdict
        ensures verdict { result ≡ verdict_of limits.now octets (connection_of number self.now) }
        ensures fits { IsSending result → IsRoomFor octets (connection_of number self.now) }
    {
        match self.place_of(number) {
            None => Verdict::Nobody,
            Some(at) => judge_at(limits, &self.list[at], octets),
        }
    }

    /// The mark of the worker of this number.
    pub fn mark_of(&self, number: u64) -> Option<u64>
        ensures { result ≡ mark_in (connection_of number self.now) }
    {
        let at = self.place_of(number)?;
        match &self.list[at].role {
            Role::Worker(registration) => Some(registration.mark),
            Role::Fresh | Role::Client | Role::Gone => None,
        }
    }

    /// Appends the numbers of the workers to which nothing was sent for an interval.
    pub fn silent(&self, limits: &Limits, now: u64, silent: &mut Vec<u64>) -> Result<(), NoMemory>
        ensures { OnOk result (silent.new.items ≡ silent.old.items ++ silent_in limits.now now self.now) }
    {
        silent_among(&self.list, limits, now, silent)
    }

    /// Whether there is such a worker.
    pub fn has_silent(&self, limits: &Limits, now: u64) -> bool
        ensures { result ≡ list_any (λ c. is_unspoken limits.now now c.role) self.now }
    {
        any_silent(&self.list, limits, now)
    }
}

/// The place of the connection of this number, by halves.
fn place_in(connections: &[Connection], number: u64) -> Option<usize>
    requires { Rise connections.now }
    ensures { IsPlace number connections.now result }
{
    let at = first_from(connections, number);
    match connections.get(at) {
        Some(connection) if connection.number == number => Some(at),
        _ => None,
    }
}

/// The first place whose number isn't below this one, or the length.
fn first_from(connections: &[Connection], number: u64) -> usize
    requires { Rise connections.now }
    ensures { IsSplit number connections.now result }
{
    connections.partition_point(|connection| connection.number < number)
}

fn copy_role(role: &Role) -> Role
    ensures { result ≡ role.now }
{
    match role {
        Role::Fresh => Role::Fresh,
        Role::Client => Role::Client,
        Role::Worker(registration) => Role::Worker(Registration {
            version: registration.version,
            lead: registration.lead,
            service: registration.service.copy(),
            mark: registration.mark,
            spoken: registration.spoken,
        }),
        Role::Gone => Role::Gone,
    }
}

fn is_client(role: &Role) -> bool
    ensures { result ≡ machine.is_client_role role.now }
{
    match role {
        Role::Client => true,
        Role::Fresh | Role::Worker(_) | Role::Gone => false,
    }
}

fn role_voice(role: &Role) -> Voice
    ensures { result ≡ machine.role_voice role.now }
{
    match role {
        Role::Worker(registration) => Voice {
            version: registration.version,
            lead: registration.lead,
        },
        Role::Fresh | Role::Client | Role::Gone => Voice {
            version: Version::One,
            lead: true,
        },
    }
}

fn set_mark(role: &mut Role, now: u64)
    ensures { role.new ≡ machine.heard now role.old }
{
    match role {
        Role::Worker(registration) => registration.mark = now,
        Role::Fresh | Role::Client | Role::Gone => {}
    }
}

fn set_spoken(role: &mut Role, now: u64)
    ensures { role.new ≡ machine.spoken_to now role.old }
{
    match role {
        Role::Worker(registration) => registration.spoken = now,
        Role::Fresh | Role::Client | Role::Gone => {}
    }
}

fn judge_at(limits: &Limits, connection: &Connection, octets: u64) -> Verdict
    ensures verdict { result ≡ verdict_if (Sending.is_slow limits.now connection.now octets) connection.now }
    ensures fits { IsSending result → sum connection.now.outstanding + octets < 2 ^ 64 }
{
    if is_slow(limits, connection, octets) {
        Verdict::Slow(connection.lane, connection.outstanding.total())
    } else {
        Verdict::Sends(connection.lane)
    }
}

fn is_slow(limits: &Limits, connection: &Connection, octets: u64) -> bool
    ensures slow { result ≡ Sending.is_slow limits.now connection.now octets }
    ensures fits { result ≡ false → sum connection.now.outstanding + octets < 2 ^ 64 }
{
    let most = limits.out_octets;
    let total = connection.outstanding.total();
    connection.outstanding.len() as u64 >= limits.out_pieces
        || total > most
        || octets > most - total
}

fn silent_among(
    connections: &[Connection],
    limits: &Limits,
    now: u64,
    silent: &mut Vec<u64>,
) -> Result<(), NoMemory>
    ensures { OnOk result (silent.new.items ≡ silent.old.items ++ silent_in limits.now now connections.now) }
{
    for connection in connections {
        if is_silent(limits, now, &connection.role) {
            silent.push(connection.number)?;
        }
    }
    Ok(())
}

fn any_silent(connections: &[Connection], limits: &Limits, now: u64) -> bool
    ensures { result ≡ list_any (λ c. is_unspoken limits.now now c.role) connections.now }
{
    connections
        .iter()
        .any(|connection| is_silent(limits, now, &connection.role))
}

fn is_silent(limits: &Limits, now: u64, role: &Role) -> bool
    ensures { result ≡ is_unspoken limits.now now role.now }
{
    match role {
        Role::Worker(registration) => {
            limits.interval <= now && registration.spoken <= now - limits.interval
        }
        Role::Fresh | Role::Client | Role::Gone => false,
    }
}
