// Messages of the operations channel for C (002, clauses 10.5.5.1 to 10.5.5.6): numbers by value, contents, forms and records as lent octets.
ghost use Rattle.host.specs.Channel.{EocWritten, EocRead, EocHanded};

// What writing gives: the answer, and how many octets the form has.
#[repr(C)]
#[derive(Drop)]
pub struct EocForm {
    pub answer: u32,
    pub length: u32,
}

// What reading gives.
#[repr(C)]
#[derive(Drop)]
pub struct EocMessage {
    pub answer: u32,
    pub source: u32,
    pub destination: u32,
    pub number: u32,
    pub length: u32,
}

// What handing up gives: the answer, and how many units took the message.
#[repr(C)]
#[derive(Drop)]
pub struct EocHandedUp {
    pub answer: u32,
    pub units: usize,
}

// Writes a message of the operations channel.
pub fn sdsl_eoc_write(
    source: u32,
    destination: u32,
    number: u32,
    contents: &[u8],
    room: &mut [u8],
) -> EocForm
    ensures { EocWritten source destination number contents.now room.old result room.new }
{
    match eocwriter::write(source, destination, number, contents, room) {
        Ok(length) => EocForm {
            answer: answer::DONE,
            length,
        },
        Err(no) => EocForm {
            answer: no.number(),
            length: 0,
        },
    }
}

// Reads a message of the operations channel: its numbers, and into lent memory its contents.
pub fn sdsl_eoc_read(octets: &[u8], contents: &mut [u8]) -> EocMessage
    ensures { EocRead octets.now contents.old result contents.new }
{
    match eocreader::read(octets, contents) {
        Ok(found) => EocMessage {
            answer: answer::DONE,
            source: u32::from(found.source),
            destination: u32::from(found.destination),
            number: u32::from(found.number),
            length: u32::from(found.length),
        },
        Err(no) => EocMessage {
            answer: no.number(),
            source: 0,
            destination: 0,
            number: 0,
            length: 0,
        },
    }
}

// Hands a message of the operations channel up to the units that it is meant for.
pub fn sdsl_eoc_hand_up(octets: &[u8], units: &mut [u8]) -> EocHandedUp
    ensures { EocHanded octets.now units.old result units.new }
{
    match eocunits::hand_up(octets, units) {
        Ok(taken) => EocHandedUp {
            answer: answer::DONE,
            units: taken,
        },
        Err(no) => EocHandedUp {
            answer: no.number(),
            units: 0,
        },
    }
}
