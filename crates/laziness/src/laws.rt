ghost use Rattle.laziness.specs.Laws.{ModelLaws};
ghost use Rattle.laziness.specs.Lazy.{lazy, lazy_reply};
ghost use Rattle.laziness.specs.Parcels.{parcel_model, start, story, look_later};
ghost use Rattle.std.specs.Prelude.{◌≡◌, true, false};
ghost use Rattle.laziness.specs.Theorems.{CellsDecide, ClosuresAreLeast, EntriesTouchTheirClosure, LazyEqualsTicking, PartsComeFirst, SecondsEnd, TicksLocally};

use crate::ticks::Ticking;
use std::marker::Brand;

/// The closure of what a request asks for, found by rounds over the directory, is the least closed set that has it.
/// It does nothing: the law is its contract, as it is of each function here.
pub fn closures_are_least<T: Ticking>()
    ensures { (setting : T.Setting) → ClosuresAreLeast (T.model setting) }
{}

/// A second of the ticking universe ends, with nothing due in it.
pub fn seconds_end<T: Ticking>()
    ensures { (setting : T.Setting) → SecondsEnd (T.model setting) }
{}

/// Two universes that show the same of a closed set tick to the same of it, and answer alike what the set covers.
pub fn ticks_locally<T: Ticking>()
    ensures { (setting : T.Setting) → TicksLocally (T.model setting) }
{}

/// After every history the lazy universe stands for the ticking one, and has answered as it does.
pub fn lazy_equals_ticking<T: Ticking>()
    ensures { (setting : T.Setting) → LazyEqualsTicking (T.model setting) }
{}

/// An entry stamps the cells of its closure with its moment, and leaves all others as they are.
pub fn entries_touch_their_closure<T: Ticking>()
    ensures { (setting : T.Setting) → EntriesTouchTheirClosure (T.model setting) }
{}

/// What becomes of a closed set of cells depends on these cells alone.
pub fn cells_decide<T: Ticking>()
    ensures { (setting : T.Setting) → CellsDecide (T.model setting) }
{}

/// Before a closed set is brought to a second, its events up to an earlier one can act, and then some of its cells can be
/// brought there.
pub fn parts_come_first<T: Ticking>()
    ensures { (setting : T.Setting) → PartsComeFirst (T.model setting) }
{}

/// The laws don't contradict each other: two cells and a parcel between them meet them.
pub fn parcels_tick()
    ensures laws { ModelLaws parcel_model }
    ensures closures { ClosuresAreLeast parcel_model }
    ensures ends { SecondsEnd parcel_model }
    ensures local { TicksLocally parcel_model }
    ensures lazy { LazyEqualsTicking parcel_model }
    ensures touches { EntriesTouchTheirClosure parcel_model }
    ensures cells { CellsDecide parcel_model }
    ensures parts { PartsComeFirst parcel_model }
    // The receiver has ten, gets three, and gains for twenty seconds.
    ensures reply { lazy_reply parcel_model start story look_later ≡ 33 }
    // Until then it stands at the second at which the parcel was sent.
    ensures stamps { ((lazy parcel_model start story).at false ≡ 3) × ((lazy parcel_model start story).at true ≡ 0) }
{
    closures_are_least::<Brand>();
    seconds_end::<Brand>();
    ticks_locally::<Brand>();
    lazy_equals_ticking::<Brand>();
    entries_touch_their_closure::<Brand>();
    cells_decide::<Brand>();
    parts_come_first::<Brand>();
}
