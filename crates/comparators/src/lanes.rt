// The size field of an access, and the lanes that it carries (01, "Events and firing", amended by [1] of 02).
ghost use Rattle.std.specs.Prelude.{◌≡◌};
ghost use Rattle.comparators.specs.Lanes.{size_field, byte_lanes, word_lanes, carried_lanes, carries_all};

use crate::BusAccess;

pub fn size_field(access: BusAccess) -> u32
    ensures { result ≡ size_field access }
{
    u32::from(access.attribute) / 32 % 4
}

#[tactic(auto, unfolding(crate::specs::Lanes::byte_lanes))]
fn byte_lanes(address: u32) -> u32
    ensures { result ≡ byte_lanes address }
{
    match address % 4 {
        0 => 0xFF000000,
        1 => 0x00FF0000,
        2 => 0x0000FF00,
        _ => 0x000000FF,
    }
}

fn word_lanes(address: u32) -> u32
    ensures { result ≡ word_lanes address }
{
    if address / 2 % 2 == 0 {
        0xFFFF0000
    } else {
        0x0000FFFF
    }
}

#[tactic(auto, unfolding(crate::specs::Lanes::carried_lanes))]
fn carried_lanes(access: BusAccess) -> u32
    ensures { result ≡ carried_lanes access }
{
    match size_field(access) {
        0 => 0xFFFFFFFF,
        1 => byte_lanes(access.address),
        2 => word_lanes(access.address),
        _ => 0,
    }
}

#[tactic(auto, unfolding(crate::specs::Lanes::carries_all))]
pub fn carries_all(lanes: u32, access: BusAccess) -> bool
    ensures { result ≡ carries_all lanes access }
{
    lanes & carried_lanes(access) == lanes
}
