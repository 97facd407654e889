// A pack and the thresholds of its flags.

ghost use Rattle.std.specs.Prelude.{◌≡◌};
ghost use Rattle.relay_batt.specs.Config.{default_of, for_pack_of, for_opening_volts_of, capacity_of, cells_of, per_cell_of};

use crate::curve::sanitize;

// Capacity in mAh, cells in series, ohms of the whole pack; thresholds of charge, of volts a cell, and of seconds.
#[derive(Clone, Copy, Debug)]
pub struct BattConfig {
    pub capacity_mah: f32,
    pub cells: u32,
    pub r_internal: f32,
    pub low_soc: f32,
    pub crit_soc: f32,
    pub low_v_cell_fallback: f32,
    pub crit_v_cell_fallback: f32,
    pub debounce_s: f32,
}

// The built-in pack.
impl Default for BattConfig {
    ghost is_default = { λ c. c ≡ default_of };

    #[tactic(auto, unfolding(crate::specs::Config::default_of))]
    fn default() -> BattConfig {
        BattConfig {
            capacity_mah: BattConfig::CAPACITY_MAH,
            cells: BattConfig::CELLS,
            r_internal: BattConfig::R_INTERNAL,
            low_soc: BattConfig::LOW_SOC,
            crit_soc: BattConfig::CRIT_SOC,
            low_v_cell_fallback: BattConfig::LOW_V_CELL_FALLBACK,
            crit_v_cell_fallback: BattConfig::CRIT_V_CELL_FALLBACK,
            debounce_s: BattConfig::DEBOUNCE_S,
        }
    }
}

impl BattConfig {
    pub const CAPACITY_MAH: f32 = 5000.0;

    pub const CELLS: u32 = 6;

    pub const R_INTERNAL: f32 = 0.024;

    pub const LOW_SOC: f32 = 0.25;

    pub const CRIT_SOC: f32 = 0.10;

    pub const LOW_V_CELL_FALLBACK: f32 = 3.70;

    pub const CRIT_V_CELL_FALLBACK: f32 = 3.55;

    pub const DEBOUNCE_S: f32 = 2.0;

    // `update`'s literal where the capacity is not finite.
    pub const FALLBACK_CAPACITY_MAH: f32 = 5000.0;
    // The literal of `new` and `update` where the resistance is not finite.
    pub const FALLBACK_R_INTERNAL: f32 = 0.024;

    pub const CAPACITY_MIN: f32 = 1.0;

    pub const CAPACITY_MAX: f32 = 1.0e6;

    pub const CRIT_BELOW_LOW_V: f32 = 0.15;

    // The built-in pack with so many cells, and the thresholds that an opening's volts give it.
    #[tactic(auto, unfolding(crate::specs::Config::for_pack_of, crate::specs::Config::default_of))]
    pub fn for_pack(cells: u32, low_batt_v: f32) -> BattConfig
        ensures { result ≡ for_pack_of cells low_batt_v }
    {
        let cfg = BattConfig {
            cells,
            ..Self::default()
        };
        let low = cfg.per_cell(low_batt_v);
        BattConfig {
            low_v_cell_fallback: low,
            crit_v_cell_fallback: low - Self::CRIT_BELOW_LOW_V,
            ..cfg
        }
    }

    // The built-in pack with the thresholds that an opening's volts give.
    pub fn for_opening_volts(low_batt_v: f32) -> BattConfig
        ensures { result ≡ for_opening_volts_of low_batt_v }
    {
        Self::for_pack(Self::CELLS, low_batt_v)
    }

    // The capacity that is counted with.
    #[tactic(auto, unfolding(crate::specs::Config::capacity_of))]
    pub fn capacity(self) -> f32
        ensures { result ≡ capacity_of self }
    {
        sanitize(
            self.capacity_mah,
            Self::CAPACITY_MIN,
            Self::CAPACITY_MAX,
            Self::FALLBACK_CAPACITY_MAH,
        )
    }

    // The number of cells, at least one.
    #[tactic(auto, unfolding(crate::specs::Config::cells_of))]
    fn cell_count(self) -> f32
        ensures { result ≡ cells_of self.cells }
    {
        if self.cells == 0 {
            return 1.0;
        }
        std::num::nearest_u32_to_f32(self.cells)
    }

    // Volts of the pack as volts a cell.
    #[tactic(auto, unfolding(crate::specs::Config::per_cell_of))]
    pub fn per_cell(self, volts: f32) -> f32
        ensures { result ≡ per_cell_of self.cells volts }
    {
        volts / self.cell_count()
    }
}
