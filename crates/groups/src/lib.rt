// The groups of a level: the PC, and the address with its data (01, "Events and firing").
#![tactic(auto)]

ghost use Rattle.std.specs.Prelude.{◌≡◌};
ghost use Rattle.groups.specs.Groups.{pc_group, inside, address_matches, attribute_agrees, address_holds, address_group, joined};

use comparators::mask::{agrees, turn};
use comparators::{BusAccess, Level};

#[derive(Clone, Copy, Debug, PartialEq, Eq)]
pub struct Group {
    pub enabled: bool,
    pub holds: bool,
}

#[tactic(auto, unfolding(crate::specs::Groups::pc_group))]
pub fn pc_group(level: Level, debug: board::Debug, pc: u32) -> Group
    ensures { result ≡ pc_group level debug pc }
{
    Group {
        enabled: level.epc,
        holds: turn(level.pci, agrees(debug.pbmr, pc, debug.pbr)),
    }
}

fn is_inside(debug: board::Debug, address: u32) -> bool
    ensures { result ≡ inside debug address }
{
    (debug.ablr <= address) & (address <= debug.abhr)
}

#[tactic(auto, unfolding(crate::specs::Groups::address_matches))]
fn matches_address(level: Level, debug: board::Debug, address: u32) -> bool
    ensures { result ≡ address_matches level debug address }
{
    let within = is_inside(debug, address);
    (level.eal & (address == debug.ablr)) | (level.ear & within) | (level.eai & !within)
}

#[tactic(auto, unfolding(crate::specs::Groups::attribute_agrees))]
fn agrees_attribute(debug: board::Debug, attribute: u8) -> bool
    ensures { result ≡ attribute_agrees debug attribute }
{
    agrees(
        u32::from(debug.aatr / 256),
        u32::from(attribute),
        u32::from(debug.aatr % 256),
    )
}

fn holds_address(level: Level, debug: board::Debug, bus: Option<BusAccess>) -> bool
    ensures { result ≡ address_holds level debug bus }
{
    match bus {
        None => false,
        Some(access) => {
            matches_address(level, debug, access.address)
                & agrees_attribute(debug, access.attribute)
                & comparators::holds_data(level, debug, access)
        }
    }
}

#[tactic(auto, unfolding(crate::specs::Groups::address_group))]
pub fn address_group(level: Level, debug: board::Debug, bus: Option<BusAccess>) -> Group
    ensures { result ≡ address_group level debug bus }
{
    Group {
        enabled: level.eal | level.ear | level.eai,
        holds: holds_address(level, debug, bus),
    }
}

#[tactic(auto, unfolding(crate::specs::Groups::joined))]
pub fn join(t: bool, pc: Group, address: Group) -> bool
    ensures { result ≡ joined t pc address }
{
    if t {
        (pc.enabled & pc.holds) | (address.enabled & address.holds)
    } else {
        (pc.enabled | address.enabled)
            & (!pc.enabled | pc.holds)
            & (!address.enabled | address.holds)
    }
}
