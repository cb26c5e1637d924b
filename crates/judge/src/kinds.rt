// Tests of kinds by their numbers.
ghost use Rattle.std.specs.Prelude.{◌≡◌};
ghost use Rattle.rules.specs.Rules.{one_of};
ghost use Rattle.judge.specs.Arrays.{numbers};

use gdl::kinds::Kind;

// Whether the number is that of one of these kinds. By number, as the arrays hold kinds: see `gdl::kinds::Kind`.
#[inline(always)]
pub(super) fn one_of(these: &[Kind], kind: u16) -> bool
    ensures { result ≡ one_of (numbers these.now) kind }
{
    these.iter().any(|k| kind == k.number())
}
