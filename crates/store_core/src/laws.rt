//! Laws of opening. Each is the contract of a function that does nothing.

ghost use Rattle.store_core.specs.Verdicts.{HaveOneDamage, HeldStatesAreUndamaged, HoldOneState, NoStoreIsNotOpened, NoStoreIsUndamaged, OpenAsOne, OpenUndamaged};

/// Opening has at most one verdict: files hold no store, or they have one first damage, or they open
/// as one store.
pub fn opening_has_one_verdict()
    ensures opened { OpenAsOne }
    ensures damaged { HaveOneDamage }
    ensures undamaged { OpenUndamaged }
    ensures not_opened { NoStoreIsNotOpened }
    ensures no_damage { NoStoreIsUndamaged }
{}

/// Files that hold a lawful state have no damage.
pub fn held_states_are_undamaged()
    ensures { HeldStatesAreUndamaged }
{}

/// Files hold at most one lawful state.
pub fn files_hold_one_state()
    ensures { HoldOneState }
{}
