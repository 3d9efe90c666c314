// The numbers that digits write.
ghost use Rattle.std.specs.Prelude.{◌≡◌, ◌^◌, ◌<◌, ◌≤◌, length};
ghost use Rattle.std.specs.List.{AllByRecursion, AllByRecursion-prop};
ghost use Rattle.std.specs.Coded.{×_prop, le_prop};
ghost use Rattle.grammar.specs.Bytes.{Within, number_from};

// The digits of a number: so few that it fits.
#[derive(Clone, Copy)]
pub(crate) struct Digits<'a> {
    pub(crate) bytes: &'a [u8],
    ghost few: { length bytes.now ≤ 13 },
    ghost digits: { AllByRecursion (Within 48 57) bytes.now } by { AllByRecursion-prop (Within 48 57) (λ _. ×_prop le_prop le_prop) bytes.now },
}

impl Digits<'_> {
    // The number that they write.
    pub(crate) fn value(self) -> u64
        ensures value { result ≡ number_from 0 self.entry.bytes.now }
        ensures small { result < 10 ^ 13 }
    {
        self.bytes
            .iter()
            .fold(0, |n, d| n * 10 + u64::from(*d - b'0'))
    }
}
