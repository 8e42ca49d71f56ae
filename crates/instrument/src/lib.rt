// What the instrument has: channels, positions and thermometers, the two sides of a channel's calibration counts, the two warm targets, the
// four receiver shelves.

#![tactic(auto)]

ghost use Rattle.std.specs.Prelude.{◌≡◌};
ghost use Rattle.instrument.specs.Instrument.{first_of, size_of, target_of, shelf_of, side_place, target_place, shelf_place};

// An index is a plain number whose bound is asked: a type for it would be built at each call and taken apart at once.
pub const CHANNELS: usize = 22;

// The scenes of a channel in one scan.
pub const POSITIONS: usize = 96;

pub const THERMOMETERS: usize = 15;

// KAV has the first eight thermometers and serves the first 15 channels; WG has the others and serves the others.
pub const KAV_THERMOMETERS: usize = 8;

pub const WG_THERMOMETERS: usize = THERMOMETERS - KAV_THERMOMETERS;

pub const KAV_CHANNELS: usize = 15;

// The first channel on the V shelf, on W and on G, counted from 0; those before are on KKA.
const FIRST_V: usize = 2;

const FIRST_W: usize = 15;

const FIRST_G: usize = 16;

// Warm counts or cold counts. Where both have a value, warm stands before cold.
#[derive(Clone, Copy, Debug, PartialEq, Eq)]
pub enum Side {
    Warm,
    Cold,
}

// The warm targets, in the order of their values.
#[derive(Clone, Copy, Debug, PartialEq, Eq)]
pub enum Target {
    Kav,
    Wg,
}

// The receiver shelves, in the order of their values.
#[derive(Clone, Copy, Debug, PartialEq, Eq)]
pub enum Shelf {
    KkaShelf,
    VShelf,
    WShelf,
    GShelf,
}

// A target's first thermometer, how many it has, and the target that serves channel c.
pub fn first_of(target: Target) -> usize
    ensures { result ≡ first_of target }
{
    match target {
        Target::Kav => 0,
        Target::Wg => KAV_THERMOMETERS,
    }
}

pub fn size_of(target: Target) -> usize
    ensures { result ≡ size_of target }
{
    match target {
        Target::Kav => KAV_THERMOMETERS,
        Target::Wg => WG_THERMOMETERS,
    }
}

pub fn target_of(c: usize) -> Target
    ensures { result ≡ target_of c }
{
    if c < KAV_CHANNELS {
        return Target::Kav;
    }
    Target::Wg
}

// The shelf of channel c.
pub fn shelf_of(c: usize) -> Shelf
    ensures { result ≡ shelf_of c }
{
    if c < FIRST_V {
        return Shelf::KkaShelf;
    }
    if c < FIRST_W {
        return Shelf::VShelf;
    }
    if c < FIRST_G {
        return Shelf::WShelf;
    }
    Shelf::GShelf
}

// Where warm and cold, the two targets or the four shelves have a value each, the place of one is its discriminant.
pub fn side_place(side: Side) -> usize
    ensures { result ≡ side_place side }
{
    side as usize
}

pub fn target_place(target: Target) -> usize
    ensures { result ≡ target_place target }
{
    target as usize
}

pub fn shelf_place(shelf: Shelf) -> usize
    ensures { result ≡ shelf_place shelf }
{
    shelf as usize
}
