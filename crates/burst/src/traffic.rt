// The lists that are taken, and what is answered for one.
ghost use Rattle.std.specs.Prelude.{◌≡◌, ◌<◌, ◌≤◌, ◌↔◌, IsTrue, length, All, Some, None};
ghost use Rattle.std.specs.List.Sorted.{IsNonDecreasingBy};
ghost use Rattle.std.proofs.Props.{props};
ghost use Rattle.model.specs.Model.{frame};
ghost use Rattle.model.specs.Bursts.{windows, burst, brought};
ghost use Rattle.burst.specs.Tool.{most_packets, most_bytes, bad_packet, arrival_at, list_refusal};

use super::window::Window;
use model::calls::{Parcel, Refusal};
use model::limits::{LONGEST, advance, bad_interval};

const MOST_PACKETS: usize = 4_096;

// The time is the arrival of the packet in front.
fn is_bad_packet(time: u64, packet: Parcel) -> bool
    ensures { result ≡ bad_packet time packet }
{
    packet.bytes == 0 || packet.bytes > LONGEST || packet.arrival < time
}

// Each packet has bytes, and no more than one can have, and none arrives before the one in front of it; the first has
// none in front, and may come at any time. One walk, which stops at the first bad packet.
fn are_sound(packets: &[Parcel]) -> bool
    ensures { IsTrue result ↔ (All (λ p. (0 < p.bytes) × (p.bytes ≤ most_bytes)) packets.now × IsNonDecreasingBy (λ p. p.arrival) packets.now) }
{
    let mut time = 0;
    for packet in packets {
        if is_bad_packet(time, *packet) {
            return false;
        }
        time = packet.arrival;
    }
    true
}

// A list that is taken, or what is left of one behind some of its packets.
#[derive(Clone, Copy)]
pub(crate) struct Traffic<'a> {
    interval: u64,
    packets: &'a [Parcel],
    ghost rate: { interval ≤ frame },
    ghost few: { length packets.now ≤ most_packets },
    ghost sized: { All (λ p. (0 < p.bytes) × (p.bytes ≤ most_bytes)) packets.now } by { Prim.hlevel props },
    ghost rising: { IsNonDecreasingBy (λ p. p.arrival) packets.now } by { Prim.hlevel props },
}

impl<'a> Traffic<'a> {
    // An empty list needs a good interval too.
    #[tactic(auto, using(crate::proofs::Lists::list_checks))]
    pub(crate) fn new(interval: u64, packets: &'a [Parcel]) -> Result<Traffic<'a>, Refusal>
        ensures { elim result [ Ok t ↦ (list_refusal interval packets.now ≡ None) × (t.interval ≡ interval) × (t.packets.now ≡ packets.now) | Err e ↦ list_refusal interval packets.now ≡ Some e ] }
    {
        if bad_interval(interval) || packets.len() > MOST_PACKETS || !are_sound(packets) {
            return Err(Refusal::List);
        }
        Ok(Traffic { interval, packets })
    }

    // The most from the first packet on, over every last.
    #[tactic(auto, using(std::proofs::lemmas::List::drop_more), unfolding(model::specs::Model::advance))]
    fn from_first(&self) -> u64
        ensures { result ≡ windows (arrival_at self.now.packets.now 0) 0 (brought self.now.interval self.now.packets.now) }
    {
        let [first, ..] = self.packets else {
            return 0;
        };
        // A fold is no plainer: its closure would need the bound on the sum so far, which the loop's invariant states.
        let mut window = Window::at(first.arrival);
        for packet in self.packets {
            window = window.add(advance(packet.bytes, self.interval), packet.arrival);
        }
        window.most
    }

    // The most over every first packet.
    pub(crate) fn greatest(&self) -> u64
        ensures { result ≡ burst (brought self.now.interval self.now.packets.now) }
    {
        let mut most = 0;
        let mut left = self.packets;
        while let [_, behind @ ..] = left {
            let here = Traffic {
                interval: self.interval,
                packets: left,
            };
            most = most.max(here.from_first());
            left = behind;
        }
        most
    }
}
