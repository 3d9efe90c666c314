// Laws of a line and worked runs: what each part of the rules is for.
#![tactic(auto)]

ghost use Rattle.examples.specs.Late.{LongestNeeded};
ghost use Rattle.examples.specs.Half.{AnotherLawfulRule};
ghost use Rattle.examples.specs.Next.{NextPacketLaw};
ghost use Rattle.examples.specs.Unheld.{HeldShareNeeded};

// A packet may leave past its due time, so the longest packet belongs to the bound.
pub fn longest_needed()
    ensures { LongestNeeded }
{}

// The law of rules leaves room for more than the four plain ones.
pub fn another_lawful_rule()
    ensures { AnotherLawfulRule }
{}

// The wire takes the head with the least finish, for every kind X of rule: a session that waits is not passed over.
pub fn next_packet_law<X>()
    ensures { NextPacketLaw X }
{}

// A line that books without held shares lets a packet leave too late.
pub fn held_share_needed()
    ensures { HeldShareNeeded }
{}
