ghost use Rattle.std.specs.Prelude.{◌≡◌, ℕ, ◌≤◌, ◌<◌, ◌^◌, List, [], ◌∷◌, ◌++◌, Bool};
ghost use Rattle.laziness.specs.Laws.{ModelLaws};
ghost use Rattle.request_text.specs.declared.entry.Entry.{Entry};
ghost use Rattle.tick_model.specs.Game.{game};
ghost use Rattle.tick_model.specs.History.{IsLegal, MayFollow};
ghost use Rattle.tick_model.specs.Keeping.{AnswersEntry, IsFounded, KeepsHistory};
ghost use Rattle.tick_model.specs.Limits.{KeepsLimits};
ghost use Rattle.tick_model.specs.Moments.{KeepsTime};
ghost use Rattle.tick_model.specs.Standing.{Stands, last_moment, last_number};
ghost use Rattle.tick_model.specs.Talk.{Talk};
ghost use Rattle.tick_model.specs.Universe.{Setting, Universe};
ghost use Rattle.tick_model.specs.World.{reply, world};

/// For the readings that the clock told, and for the lines whose requests found no memory, a script has one history from a base,
/// and one text of answers. It does nothing: the law is its contract.
pub fn answer_once()
    ensures { (base : Universe) (script : List (List ℕ)) (history other : List Entry) (lacking : List Bool) (readings bytes others : List ℕ)
        → IsLegal base history → IsLegal base other
        → Talk base [] history script lacking readings bytes → Talk base [] other script lacking readings others
        → (history ≡ other) × (bytes ≡ others) }
{}

/// The game meets the laws by which its cells can stand at seconds of their own, whatever its rules and its directory are.
pub fn game_is_lawful()
    ensures { (setting : Setting) → ModelLaws (game setting) }
{}

/// After every legal history the universe whose cells stand at seconds of their own has each cell as the universe that ticks had
/// it at that second, the cell's last touch.
pub fn histories_are_kept()
    ensures { (base : Universe) (history : List Entry) → IsFounded base → IsLegal base history → KeepsHistory base history }
{}

/// An entry that may follow has the reply that it has in the universe that ticks, though only the cells that it touches are
/// brought to its moment; and it leaves all other cells as they are.
pub fn entries_are_answered()
    ensures { (base : Universe) (history : List Entry) (entry : Entry) → IsFounded base → IsLegal base history
        → MayFollow (last_number base.state.number history) (last_moment base.moment history) entry → AnswersEntry base history entry }
{}

/// The universe that ticks stands for its history at the moment of the last entry, and from then on histories can start anew from
/// it.
pub fn worlds_are_founded()
    ensures stands { (base : Universe) (history : List Entry) → IsLegal base history → Stands base history (world base history (last_moment base.moment history)) }
    ensures founded { (base : Universe) (history : List Entry) (moment : ℕ) → IsFounded base → IsLegal base history
        → last_moment base.moment history ≤ moment → IsFounded (world base history moment) }
{}

/// If the base of a history keeps the limits on queues, units, levels, fields, domes and fleets, so does the universe that ticks, at
/// every moment from the last entry's on. Queues stay as requests and events make them, and fleets keep their loads and errands.
pub fn worlds_keep_limits()
    ensures { (base : Universe) (history : List Entry) (moment : ℕ) → IsFounded base → KeepsLimits base.setting base.state → IsLegal base history
        → last_moment base.moment history ≤ moment → KeepsLimits base.setting (world base history moment).state }
{}

/// If besides each item and each fleet of the base has its time, so it is in the universe that ticks, at every such moment before
/// second 2^40: what runs ends before second 2^42, and each fleet was sent by the moment and lands before second 2^42.
pub fn worlds_keep_time()
    ensures { (base : Universe) (history : List Entry) (moment : ℕ) → IsFounded base → KeepsLimits base.setting base.state → KeepsTime base.moment base.state
        → IsLegal base history → last_moment base.moment history ≤ moment → moment < 2 ^ 40 → KeepsTime moment (world base history moment).state }
{}

/// A reply bears the number and the moment of its entry.
pub fn replies_are_numbered()
    ensures { (base : Universe) (history : List Entry) (entry : Entry) → IsLegal base (history ++ entry ∷ [])
        → ((reply base history entry).number ≡ entry.number) × ((reply base history entry).moment ≡ entry.moment) }
{}
