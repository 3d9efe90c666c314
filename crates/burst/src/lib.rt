// The burst tool: the burst figure of a list of packets at an interval.
#![tactic(auto)]

ghost use Rattle.std.specs.Prelude.{◌≡◌};
ghost use Rattle.burst.specs.Laws.{BurstGreatest, FigureGreatest, SoundTaken};
ghost use Rattle.burst.specs.Tool.{figure_of};

use model::calls::{Parcel, Refusal};
use traffic::Traffic;

#[cfg(test)]
mod tests;
mod traffic;
mod window;

// The greatest, over every first and last packet, of interval * bytes from first to last, both counted, less the time
// between their arrivals; 0 for no packets.
pub fn figure(interval: u64, packets: &[Parcel]) -> Result<u64, Refusal>
    ensures { result ≡ figure_of interval packets.now }
{
    Ok(Traffic::new(interval, packets)?.greatest())
}

// The laws: the burst figure is the greatest over every first and last, so is what is answered, and just the sound lists are taken.
#[tactic(auto, using(crate::proofs::Windows::burst_greatest))]
pub fn burst_greatest_holds()
    ensures { BurstGreatest }
{}

#[tactic(auto, using(crate::proofs::Packets::figure_greatest))]
pub fn figure_greatest_holds()
    ensures { FigureGreatest }
{}

#[tactic(auto, using(crate::proofs::Lists::sound_taken))]
pub fn sound_taken_holds()
    ensures { SoundTaken }
{}
