ghost use Rattle.std.specs.Prelude.{◌≤◌};
ghost use Rattle.catalog.specs.declared.settings.TheConstants.{TOP_SPEED};

/// What holds of a universe from its founding on: the seed of all draws, and the speed of its economy, 1 to
/// `catalog::TOP_SPEED`.
#[derive(Clone, Copy, Debug, PartialEq, Eq)]
pub struct Rules {
    pub seed: u64,
    pub speed: u32,
    pub ghost speed_from: { 1 ≤ speed },
    pub ghost speed_to: { speed ≤ TOP_SPEED },
}
