ghost use Rattle.std.specs.Prelude.{◌≡◌, All};
ghost use Rattle.std.specs.List.{AllZip};
ghost use Rattle.mj_lanes.specs.Rule.{of, Begins};
ghost use Rattle.mj_lanes.specs.Senders.{sender_of, ticker, reader, writer};
ghost use Rattle.mj_lanes.specs.Passes.{AreOfOne};

use super::ends::TakeEnd;
use super::entry::{BySender, Entry};
use super::outlet::Outlet;
use super::{HubPass, LanePass, TickPass, WriterPass};

/// Takes back all passes of one `lanes_new`, once their threads have ended: what the hub took of each sender is a
/// front of what that sent, and what each writer took is a front of what was put and marked in its outlet.
pub fn gather<R: Drop>(
    hub: HubPass<R>,
    lanes: Vec<LanePass<R>>,
    writers: Vec<WriterPass<R>>,
    ticks: TickPass<R>,
)
    requires { AreOfOne hub lanes.items writers.items ticks }
    ensures ticker { Begins (of sender_of ticker hub.taken) ticks.sent }
    ensures readers { All (λ p. Begins (of sender_of (reader p.lane) hub.taken) p.sent) lanes.items }
    ensures writers { All (λ w. Begins (of sender_of (writer w.lane) hub.taken) w.sent) writers.items }
    ensures outlets { AllZip (λ w o. Begins w.taken o.put) writers.items hub.outlets }
{
    let (mut inbox, outlets) = hub.into_parts();
    inbox.gather(ticks.into_end());
    gather_readers(&mut inbox, lanes);
    gather_writers(&mut inbox, writers, outlets);
}

fn gather_readers<R: Drop>(inbox: &mut TakeEnd<Entry, BySender>, mut lanes: Vec<LanePass<R>>)
    requires { All (λ p. p.inbox ≡ inbox.old.name) lanes.items }
    ensures same { inbox.new ≡ inbox.old }
    ensures begins { All (λ p. Begins (of sender_of (reader p.lane) inbox.old.taken) p.sent) lanes.items }
{
    while let Some(pass) = lanes.pop() {
        gather_reader(inbox, pass);
    }
}

fn gather_reader<R: Drop>(inbox: &mut TakeEnd<Entry, BySender>, pass: LanePass<R>)
    requires { pass.inbox ≡ inbox.old.name }
    ensures same { inbox.new ≡ inbox.old }
    ensures begins { Begins (of sender_of (reader pass.lane) inbox.old.taken) pass.sent }
{
    inbox.gather(pass.into_end());
}

fn gather_writers<R: Drop>(
    inbox: &mut TakeEnd<Entry, BySender>,
    mut writers: Vec<WriterPass<R>>,
    mut outlets: Vec<Outlet>,
)
    requires inbox { All (λ w. w.inbox ≡ inbox.old.name) writers.items }
    requires outlets { AllZip (λ w o. w.outlet ≡ o.name) writers.items outlets.items }
    ensures sent { All (λ w. Begins (of sender_of (writer w.lane) inbox.old.taken) w.sent) writers.items }
    ensures taken { AllZip (λ w o. Begins w.taken o.put) writers.items outlets.items }
{
    while let Some(pass) = writers.pop() {
        let Some(outlet) = outlets.pop() else {
            unreachable!();
        };
        gather_writer(inbox, pass, outlet);
    }
}

fn gather_writer<R: Drop>(inbox: &mut TakeEnd<Entry, BySender>, pass: WriterPass<R>, outlet: Outlet)
    requires inbox { pass.inbox ≡ inbox.old.name }
    requires outlet { pass.outlet ≡ outlet.name }
    ensures same { inbox.new ≡ inbox.old }
    ensures sent { Begins (of sender_of (writer pass.lane) inbox.old.taken) pass.sent }
    ensures taken { Begins pass.taken outlet.put }
{
    let (end, mut taker) = pass.into_ends();
    inbox.gather(end);
    taker.gather(outlet.into_end());
}
