// The receiver for C: a state of three numbers goes in and comes back by value; the line room beside it is the caller's.
ghost use Rattle.std.specs.Prelude.{◌≡◌};
ghost use Rattle.receiver.specs.Promises.{given_of, place_of_given};
ghost use Rattle.host.specs.Receiving.{receiver_in, got_in, ReceiverStarted, LumpReceived};

// A receiver's state, as C keeps it.
#[repr(C)]
#[derive(Clone, Copy)]
pub struct Receiver {
    pub end: u32,
    pub heard: u32,
    pub from: u32,
}

// What a start and a call give.
#[repr(C)]
#[derive(Drop)]
pub struct Received {
    pub answer: u32,
    pub given: u32,
    pub place: u32,
    pub state: Receiver,
}

// A state as it comes from C.
impl From<Receiver> for receiver::Receiver {
    ghost from_gives = { λ s r. r ≡ receiver_in s };

    fn from(s: Receiver) -> receiver::Receiver {
        receiver::Receiver {
            end: s.end,
            heard: s.heard,
            from: s.from,
        }
    }
}

// A state as it goes to C.
impl From<receiver::Receiver> for Receiver {
    ghost from_gives = { λ s r. receiver_in r ≡ s };

    fn from(s: receiver::Receiver) -> Receiver {
        Receiver {
            end: s.end,
            heard: s.heard,
            from: s.from,
        }
    }
}

// What a start or a call gave, as it goes to C: the flag and the place of a place that may be given.
fn received_out(answer: u32, place: Option<u32>, next: receiver::Receiver) -> Received
    ensures { got_in result ≡ record { answer = answer; given = given_of place; place = place_of_given place; next = next } }
{
    Received {
        answer,
        given: u32::from(place.is_some()),
        place: place.unwrap_or(0),
        state: Receiver::from(next),
    }
}

// Starts a receiver.
pub fn sdsl_receive_start(end: u32) -> Received
    ensures { ReceiverStarted end result }
{
    match receiver::Receiver::start(end) {
        Ok(next) => received_out(answer::DONE, None, next),
        Err(no) => received_out(
            no.number(),
            None,
            receiver::Receiver {
                end,
                heard: 0,
                from: 0,
            },
        ),
    }
}

// Takes the next bits off the line.
pub fn sdsl_receive(
    state: Receiver,
    line: &mut [u8],
    lump: &[u8],
    bits: usize,
    frame: &mut [u8],
) -> Received
    ensures { LumpReceived state line.old lump.now bits frame.old result line.new frame.new }
{
    let x = receiver::Receiver::from(state);
    match x.receive(line, lump, bits, frame) {
        Ok(got) => received_out(answer::DONE, got.place, got.next),
        Err(no) => received_out(no.number(), None, x),
    }
}
