// What packets bring from a first to a last, and the most of it.
ghost use Rattle.std.specs.Prelude.{◌≡◌, ◌+◌, ◌-◌, ◌*◌, ◌≤◌, max};
ghost use Rattle.model.specs.Model.{frame};
ghost use Rattle.burst.specs.Tool.{most_packets, most_bytes};

// The packets from a first on: its arrival, what they bring in all, and the most so far over every last.
#[derive(Clone, Copy)]
pub(crate) struct Window {
    first: u64,
    sum: u64,
    pub(crate) most: u64,
}

impl Window {
    // Before any packet, where the first one came at this time.
    pub(crate) fn at(first: u64) -> Window
        ensures { result ≡ record { first = first; sum = 0; most = 0 } }
    {
        Window {
            first,
            sum: 0,
            most: 0,
        }
    }

    // One packet more, which is counted before it is tried as the last. No sum can wrap: there are at most 4,096 packets.
    pub(crate) fn add(self, gain: u64, arrival: u64) -> Window
        requires room { self.sum + gain ≤ most_packets * (most_bytes * frame) }
        requires order { self.first ≤ arrival }
        ensures first { result.first ≡ self.first }
        ensures sum { result.sum ≡ self.sum + gain }
        ensures most { result.most ≡ max self.most ((self.sum + gain) - (arrival - self.first)) }
    {
        let sum = self.sum + gain;
        let gap = arrival - self.first;
        let most = self.most.max(sum.saturating_sub(gap));
        Window { sum, most, ..self }
    }
}
