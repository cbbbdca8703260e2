// The rules across blocks (document 02, P2).
ghost use Rattle.std.specs.Prelude.{◌≡◌, ◌+◌, ◌*◌, ◌<◌, ◌≤◌, Bool, nat_eq, slice_index};
ghost use Rattle.masks.specs.Fields.{every};
ghost use Rattle.image.specs.Rules.{same_shared, same_marked, agreed, apart, sound};
ghost use Rattle.image.specs.Pairs.{Answers, AnswersOfTwo, each_with_those_before};

use crate::block::Block;
use chip::system::System;
use descriptors::descriptor::Descriptor;
use registers::unit::Unit;

fn same_table(a: &Block, b: &Block) -> bool
    ensures { result ≡ every 16 (λ i. nat_eq (slice_index a.now (2 + i)) (slice_index b.now (2 + i))) }
{
    a[2..18] == b[2..18]
}

// Equal table, GSR and IVR.
#[tactic(auto, unfolding(crate::specs::Rules::same_shared))]
pub(crate) fn same_shared(a: &Block, b: &Block) -> bool
    ensures { result ≡ same_shared a.now b.now }
{
    same_table(a, b) & (a[31] == b[31]) & (a[30] == b[30])
}

// Each byte that is marked in both has one value.
fn same_marked(u: Unit, v: Unit) -> bool
    ensures { result ≡ same_marked u v }
{
    u.accumulator
        .iter()
        .zip(&v.accumulator)
        .all(|(a, b)| !(a.global & b.global) | (a.value == b.value))
}

// Whether each item that is asked about passes with each of those before it; of the others no pair is looked at.
fn each_with_those_before<T, A: Fn(&T) -> bool, P: Fn(&T, &T) -> bool>(
    items: &[T],
    asked: A,
    passes: P,
) -> bool
    requires asked { (f : A) (x : _) → A.pre f x }
    requires passes { (f : P) (x y : _) → P.pre f x y }
    ensures { (d : T) (a : T → Bool) (p : T → T → Bool) → Answers A.Fn asked a → AnswersOfTwo P.Fn passes p → result ≡ each_with_those_before d a p items.now }
{
    for (i, item) in items.iter().enumerate() {
        if asked(item) && !items[..i].iter().all(|before| passes(item, before)) {
            return false;
        }
    }
    true
}

// The units present agree in the bytes that two of them mark.
fn agreed(system: System) -> bool
    ensures { result ≡ agreed system }
{
    let units = &system.units[..system.present()];
    each_with_those_before(units, |_| true, |unit, other| same_marked(*unit, *other))
}

// No two descriptors clash. One that is not enabled is not asked about.
fn apart(system: System) -> bool
    ensures { result ≡ apart system }
{
    let descriptors = &system.descriptors[..32 * system.present()];
    each_with_those_before(descriptors, |d| d.enabled(), |d, other| !d.collides(other))
}

// What a system in its written form can break of the rules.
pub(crate) fn sound(system: System) -> bool
    ensures { result ≡ sound system }
{
    agreed(system) && apart(system)
}
