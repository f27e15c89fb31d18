//! What holds of payloads, and of the tickets of each lawful list of commands, proved once and for all. The functions do
//! nothing.
ghost use Rattle.mj_tickets.specs.Laws.{OneCommand, OneBody, AcceptsByTheBase, TicketsAreNumbered, NoTwoShareANumber, NumbersAreFew, OneTicketOfANumber, PlacesAndBodies};
ghost use Rattle.mj_tickets.specs.Worked.{AcceptIsWritten, StoreIsWritten, CloseIsWritten, TicketsComeAndGo, KeptNumbersAreTaken, OtherNumbersAreRefused};

/// Bytes are one command at most, and one body at most.
pub fn payloads_are_of_one_command()
    ensures commands { OneCommand }
    ensures bodies { OneBody }
{}

/// Which accepts are lawful: one with the next number, which is the base and one more for each accept from the base on;
/// or, as long as there was none of these, one below the base and above all before.
pub fn accepts_follow_the_base()
    ensures { AcceptsByTheBase }
{}

/// The numbers of the open tickets rise, so no two share one, and each is that of its ticket's id.
pub fn open_tickets_are_numbered()
    ensures numbered { TicketsAreNumbered }
    ensures apart { NoTwoShareANumber }
    ensures few { NumbersAreFew }
    ensures one { OneTicketOfANumber }
{}

/// The tickets with the places of their bodies and those with the bodies differ in nothing else.
pub fn places_are_of_bodies()
    ensures { PlacesAndBodies }
{}

/// An accept, a store and a close, byte for byte, and what they and others leave, computed from the definitions.
pub fn the_worked_commands()
    ensures accept { AcceptIsWritten }
    ensures store { StoreIsWritten }
    ensures close { CloseIsWritten }
    ensures tickets { TicketsComeAndGo }
    ensures kept { KeptNumbersAreTaken }
    ensures refused { OtherNumbersAreRefused }
{}
