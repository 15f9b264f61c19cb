// Handing an operations channel message up to the units that it is meant for (002, clause 10.5.5.5).
#![tactic(auto)]

ghost use Rattle.std.specs.Prelude.{◌≡◌, ◌∷◌, map, ◌%◌, ◌/◌, length, get_or};
ghost use Rattle.eoc.specs.Addresses.{is_meant};
ghost use Rattle.eocunits.specs.Units.{records_in, joined, some_wide};
ghost use Rattle.eocunits.specs.Handing.{tail_of, put_in, count_meant};
ghost use Rattle.eocunits.specs.Promises.{MessageHandedUp};

use answer::Refused;
use eocreader::Found;

// The octets of a record: own address; 1 once a message stands in it; source; destination; message number; length; 73 of contents.
pub const RECORD: usize = 79;

// Whether a unit answers to a destination.
pub fn is_meant(own: u32, destination: u32) -> bool
    ensures { result ≡ is_meant own destination }
{
    destination == own || destination == eoc::ADJACENT || destination == eoc::EVERY_UNIT
}

// Whether some own address does not fit four bits.
fn some_wide(units: &[u8]) -> bool
    requires { length units.now % 79 ≡ 0 }
    ensures { result ≡ some_wide (records_in units.now) }
{
    for unit in units.chunks_exact(RECORD) {
        if eoc::ADDRESSES <= u32::from(unit[0]) {
            return true;
        }
    }
    false
}

// A record takes a message: all but its own address is written.
fn put_record(unit: &mut [u8], found: Found, contents: &[u8; eoc::CONTENTS])
    requires { length unit.old ≡ 79 }
    ensures { unit.new ≡ get_or unit.old 0 0 ∷ tail_of found contents.now }
{
    unit[1] = 1;
    unit[2] = found.source;
    unit[3] = found.destination;
    unit[4] = found.number;
    unit[5] = found.length;
    unit[6..].copy_from_slice(contents);
}

// The records of all units that are meant take the message; how many they are comes back.
fn hand(units: &mut [u8], found: Found, contents: &[u8; eoc::CONTENTS]) -> usize
    requires { length units.old % 79 ≡ 0 }
    ensures { (result ≡ count_meant found.destination (records_in units.old))
        × (units.new ≡ joined (map (put_in found.destination (tail_of found contents.now)) (records_in units.old))) }
{
    let mut taken = 0;
    // Stays: with `units.chunks_exact_mut(RECORD)` the goal `returns` doesn't close: behind that loop a proof knows no octet of the units.
    for j in 0..units.len() / RECORD {
        let at = j * RECORD;
        if is_meant(u32::from(units[at]), u32::from(found.destination)) {
            put_record(&mut units[at..at + RECORD], found, contents);
            taken += 1;
        }
    }
    taken
}

// A message goes to the units that it is meant for, and how many they are comes back; every other record stays as it is.
pub fn hand_up(octets: &[u8], units: &mut [u8]) -> Result<usize, Refused>
    ensures { MessageHandedUp octets.now units.old result units.new }
{
    if units.len() % RECORD != 0 {
        return Err(Refused::Length);
    }
    if some_wide(units) {
        return Err(Refused::Range);
    }
    let mut contents = [0u8; eoc::CONTENTS];
    let found = eocreader::read(octets, &mut contents)?;
    Ok(hand(units, found, &contents))
}
