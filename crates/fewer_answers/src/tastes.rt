//! How takings choose their paths.

/// Scores count times the weight to a power, where that is 0 only the width of the widest path is a weight; an edge scores so many
/// eighths of the bits of what is left to it, up to a number; equally good edges may be chosen by lot.
#[derive(Clone, Copy)]
pub struct Taste {
    pub power: u32,
    pub trust: u32,
    pub most: u32,
    pub noise: bool,
}

/// So many tastes are tried, one after another, and then by lot with noise.
pub const TASTES: u32 = 6;

impl Taste {
    const fn of(power: u32, trust: u32, most: u32) -> Taste {
        Taste {
            power,
            trust,
            most,
            noise: false,
        }
    }

    /// A taste by its number.
    pub fn numbered(i: u32) -> Taste {
        match i {
            0 => Taste::of(0, 0, 0),
            1 => Taste::of(0, 2, 4),
            2 => Taste::of(1, 3, 4),
            3 => Taste::of(1, 8, 7),
            4 => Taste::of(2, 3, 4),
            _ => Taste::of(4, 2, 4),
        }
    }

    /// The same, with lots for equally good edges.
    pub fn by_lot(i: u32) -> Taste {
        Taste {
            noise: true,
            ..Taste::numbered(i)
        }
    }
}
