// What a recalibration rule is.
ghost use Rattle.std.specs.Prelude.{◌≡◌, ℕ, ◌<◌, ◌≤◌, if◌then◌else◌, nat_lt};
ghost use Rattle.rules.specs.Bases.{Lawful};
ghost use Rattle.rules.specs.Acts.{Acts};

// The ticks of a frame: a head's finish is never further than this past its start.
pub const FRAME: u64 = 55_440;

// A rule means a function from the least start and the least finish to a base, and the base is never
// above the least start. It has a fixed number of choices. A pick of a number below that is taken and
// may change the function; any other pick alters nothing.
pub trait Rule: Sized {
    // what a rule means, how many choices it has, and what a taken pick makes of it
    ghost acts: { Acts Self };

    // The number of choices.
    fn count(&self) -> u32
        ensures { result ≡ acts.choices self.now };

    // The base at these two figures.
    fn base(&self, least_start: u64, least_finish: u64) -> u64
        ensures { result ≡ acts.means self.now least_start least_finish };

    // Picks a choice, and says whether it was taken. A planner may write any number.
    fn pick(&mut self, number: u64) -> bool
        ensures taken { result ≡ nat_lt number (acts.choices self.old) }
        ensures after { self.new ≡ (if nat_lt number (acts.choices self.old) then acts.after self.old number else self.old) };

    ghost lawful: { (x : Self) → Lawful (acts.means x) };

    ghost some: { (x : Self) → 1 ≤ acts.choices x };

    ghost few: { (x : Self) → acts.choices x ≤ 65536 };

    ghost fixed: { (x : Self) (n : ℕ) → n < acts.choices x → acts.choices (acts.after x n) ≡ acts.choices x };
}
