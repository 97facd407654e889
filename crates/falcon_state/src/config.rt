// Where the supervisor was opened, and by which opening.
ghost use Rattle.std.specs.Prelude.{◌≡◌};
ghost use Rattle.falcon_state.specs.Config.{opening_number};

use crate::point::Point;

// Which opening was used, and so what heights are measured from.
#[derive(Clone, Copy, Debug, PartialEq, Eq, Hash)]
pub enum OpeningKind {
    // The pad is taken to be at height zero, wherever home is.
    Ground,
    // The pad is raised: it is as high as home.
    Raised,
}

// The opening's number on the sheet and in the record.
impl From<OpeningKind> for u32 {
    ghost from_gives = { λ kind n. n ≡ opening_number kind };

    fn from(kind: OpeningKind) -> u32 {
        match kind {
            OpeningKind::Ground => 1,
            OpeningKind::Raised => 10,
        }
    }
}

// What an opening sets and no other call changes.
#[derive(Clone, Copy)]
pub struct Config {
    pub home: Point,
    pub fence_radius: f32,
    pub cruise_alt: f32,
    pub low_batt_v: f32,
    pub calibration_configured: bool,
    pub opening_kind: OpeningKind,
}
