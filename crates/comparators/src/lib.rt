// The data comparators of a level (01, "Events and firing", amended by [1] of 02). They work side by side, so none waits for another.
#![tactic(auto)]

ghost use Rattle.std.specs.Prelude.{◌≡◌, ◌&&◌};
ghost use Rattle.comparators.specs.Comparators.{comparator, some_comparator, data_enabled, data_holds};

pub mod lanes;
pub mod mask;

// The attribute is laid out as AATR's low byte.
#[derive(Clone, Copy, Debug, PartialEq, Eq)]
pub struct BusAccess {
    pub address: u32,
    pub attribute: u8,
    pub lanes: u32,
}

// One level of TDR: its T, and its fourteen bits in the order of Table 5-14.
#[derive(Clone, Copy, Debug, PartialEq, Eq)]
pub struct Level {
    pub t: bool,
    pub ebl: bool,
    pub edlw: bool,
    pub edwl: bool,
    pub edwu: bool,
    pub edll: bool,
    pub edlm: bool,
    pub edum: bool,
    pub eduu: bool,
    pub di: bool,
    pub eai: bool,
    pub ear: bool,
    pub eal: bool,
    pub epc: bool,
    pub pci: bool,
}

#[tactic(auto, unfolding(crate::specs::Comparators::comparator))]
fn compares(lanes: u32, di: bool, debug: board::Debug, access: BusAccess) -> bool
    ensures { result ≡ comparator lanes di debug access }
{
    let agreed = mask::agrees(debug.dbmr | !lanes, access.lanes, debug.dbr);
    lanes::carries_all(lanes, access) & mask::turn(di, agreed)
}

#[tactic(auto, unfolding(crate::specs::Comparators::some_set))]
fn some_compares(level: Level, di: bool, debug: board::Debug, access: BusAccess) -> bool
    ensures { result ≡ some_comparator level di debug access }
{
    (level.edlw & compares(0xFFFFFFFF, di, debug, access))
        | (level.edwl & compares(0x0000FFFF, di, debug, access))
        | (level.edwu & compares(0xFFFF0000, di, debug, access))
        | (level.edll & compares(0x000000FF, di, debug, access))
        | (level.edlm & compares(0x0000FF00, di, debug, access))
        | (level.edum & compares(0x00FF0000, di, debug, access))
        | (level.eduu & compares(0xFF000000, di, debug, access))
}

#[tactic(auto, unfolding(crate::specs::Comparators::data_enabled))]
fn is_data_enabled(level: Level) -> bool
    ensures { result ≡ data_enabled level }
{
    level.edlw | level.edwl | level.edwu | level.edll | level.edlm | level.edum | level.eduu
}

pub fn holds_data(level: Level, debug: board::Debug, access: BusAccess) -> bool
    ensures { result ≡ data_holds level debug access }
{
    !is_data_enabled(level) | some_compares(level, level.di, debug, access)
}
