ghost use Rattle.base_ids.specs.Order.{IsOrder, cell_before, coord_before, event_key, key_before, player_before};

/// The orders of players, places, cells and events are strict and total, and so is that of keys. It does nothing: the
/// laws are its contract.
pub fn orders()
    ensures players { IsOrder player_before }
    ensures coordinates { IsOrder coord_before }
    ensures cells { IsOrder cell_before }
    ensures events { IsOrder key_before }
    ensures keys { IsOrder (λ a b. key_before (event_key a) (event_key b)) }
{}
