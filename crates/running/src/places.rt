// The tables that a cycle works on.
ghost use Rattle.std.specs.Prelude.{◌≤◌, vec_len};

use rules::{Device, Place, Trail};

// What each place holds, by its number.
#[derive(Drop)]
pub struct Places {
    pub(crate) items: Vec<Place>,
}

// Places, at most 128, and devices; and of the latest cycle the steps, the drives refused, and the first of these.
#[derive(Drop)]
pub struct Work {
    pub places: Places,
    pub devices: Vec<Device>,
    pub steps: u32,
    pub refused: u32,
    pub trail: Option<Trail>,
    ghost few: { vec_len places.items ≤ 128 },
}
