ghost use Rattle.std.specs.Prelude.{◌≡◌, ◌+◌, ◌-◌, if◌then◌else◌};
ghost use Rattle.catalog.specs.declared.classes.TheConstants.{UNIT_KINDS};
ghost use Rattle.spoils.specs.Defences.{rebuilt};
ghost use Rattle.tick_model.specs.Battles.{is_defence, units_after};

use catalog::{Kind, UNIT_KINDS};
use spoils::rebuilt;

/// The units of a planet after a battle that left so many of them.
pub(crate) fn units_after(before: &[u32; 22], left: &[u32; 22]) -> [u32; 22]
    ensures { result ≡ units_after UNIT_KINDS before.now left.now }
{
    let mut units = *left;
    'kinds: for (place, kind) in UNIT_KINDS.iter().enumerate() {
        units[place] = count_after(*kind, before[place], left[place]);
    }
    units
}

/// How many of a kind there are after a battle: of the defences that were lost some stand again.
fn count_after(kind: Kind, before: u32, left: u32) -> u32
    ensures { result ≡ (if is_defence kind then left + rebuilt (before - left) else left) }
{
    if is_defence(kind) {
        left + rebuilt(before.saturating_sub(left))
    } else {
        left
    }
}

/// Whether a kind is a defence.
fn is_defence(kind: Kind) -> bool
    ensures { result ≡ is_defence kind }
{
    let number = kind.number();
    Kind::Launcher.number() <= number && number <= Kind::LargeDome.number()
}
