// The ranges of the sizes of a plan.
#![tactic(auto)]

ghost use Rattle.std.specs.Prelude.{◌≡◌};
ghost use Rattle.spec_format.specs.Faults.{in_range};

use spec_format::Sizes;

// Whether P, N, B, S and C are each in their range.
pub fn in_range(s: Sizes) -> bool
    ensures { result ≡ in_range s }
{
    (1..=8).contains(&s.cards)
        && (1..=16).contains(&s.jobs)
        && (1..=16).contains(&s.blocks)
        && (1..=16).contains(&s.words)
        && (1..=8).contains(&s.copies)
}
