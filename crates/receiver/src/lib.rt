// The receiver (SCOPE, "Bits off the line"): lumps of bits as the line chip gives them, of any size up to 4,096, and the activation frames that lie in
// them, each in the call that brings its last bit.
#![tactic(auto)]

ghost use Rattle.std.specs.Prelude.{◌≡◌, true, cond, ◌++◌, ℕ, ◌+◌, ◌-◌, ◌*◌, ◌/◌, ◌%◌, ◌^◌, ◌≤◌, ◌<◌, min, max, ltb, length, replicate, Ok};
ghost use Rattle.answer.specs.Answer.{answer};
ghost use Rattle.answer.specs.Given.{answer_of};
ghost use Rattle.octets.specs.Bits.{bits_of};
ghost use Rattle.receiver.specs.Stream.{frame_at, synced, reads, lies_at};
ghost use Rattle.receiver.specs.Promises.{started, got, StartPromise, receive_refusals, joined, first_that, received_of, ReceivePromise};
ghost use Rattle.receiver.specs.Search.{sync_in, sync_from};

use answer::Refused;
use scrambler::Scrambler;

// The octets of the line room, and the bits that it keeps: a frame that ends with the next bit, the 23 before it, and what fills the last octet.
pub const LINE_OCTETS: usize = 532;

const KEPT: usize = 8 * LINE_OCTETS;

// The bits of one call, at most, and of all.
pub const MOST_BITS: usize = 4096;

pub const MOST_HEARD: usize = 4294967295;

// The octets that hold the bits kept and those of a lump.
const JOINED: usize = LINE_OCTETS + MOST_BITS / 8;

// A frame's bits on the line: all but the pad.
const FRAME_BITS: usize = layout::PAD_AT;

// The first bit of a lump can end a frame that begins at this place of the joined bits.
const AHEAD: usize = KEPT + 1 - FRAME_BITS;

// A frame has at least so many bits before it: those of a state.
const REACH: usize = recurrence::REACH as usize;

// Sync words are numbers below this.
const SYNC_WORDS: u64 = 16384;

// The bits that are searched at once, and at how many of them a sync word can begin that they hold whole.
const WORD: u32 = 56;

const IN_WORD: usize = 43;

// A receiver: the end whose bits are heard, the bits so far, and the place to go on from.
#[derive(Clone, Copy, Debug, PartialEq, Eq)]
pub struct Receiver {
    pub end: u32,
    pub heard: u32,
    pub from: u32,
}

// What a call gives: the place of the frame where one is given, and the receiver to go on with.
#[derive(Clone, Copy, Debug, PartialEq, Eq)]
pub struct Received {
    pub place: Option<u32>,
    pub next: Receiver,
}

// Whether a number's low digits are a sync word.
fn is_sync(x: u64) -> bool
    ensures { result ≡ sync_in x }
{
    let word = (x % SYNC_WORDS) as u32;
    word == layout::TRAINING_SYNC || word == layout::FINAL_SYNC
}

// The digits at which a sync word may begin, all at once. Six of its bits are ones in both words; of each of four pairs of its bits just one is a one.
fn may_begin(x: u64) -> u64
    ensures { (j : ℕ) → sync_from x j ≡ true → result / 2 ^ j % 2 ≡ 1 }
{
    let ones = x & (x >> 1) & (x >> 3) & (x >> 10) & (x >> 12) & (x >> 13);
    let early = ((x >> 2) ^ (x >> 5)) & ((x >> 4) ^ (x >> 6));
    let late = ((x >> 7) ^ (x >> 9)) & ((x >> 8) ^ (x >> 11));
    ones & early & late
}

// The first of n digits at which a sync word begins, or n. Most words have none.
fn first_in(x: u64, n: usize) -> usize
    ensures { result ≡ first_that (sync_from x) 0 n }
{
    if may_begin(x) == 0 {
        return n;
    }
    let mut rest = x;
    for j in 0..n {
        if is_sync(rest) {
            return j;
        }
        rest >>= 1;
    }
    n
}

// The first place from p on to before `stop` where a sync word stands, or `stop`.
fn next_sync(s: &[u8], p: usize, stop: usize) -> usize
    requires { (p ≤ stop) × (stop + 56 ≤ 8 * length s.now) }
    ensures { result ≡ first_that (synced (bits_of s.now)) p (stop - p) }
{
    let mut at = p;
    // Stays: as many places go next as are left, 43 at most, so there is nothing to count.
    while at < stop {
        let n = (stop - at).min(IN_WORD);
        let j = first_in(octets::bits(s, at, 0, WORD), n);
        if j < n {
            return at + j;
        }
        at += n;
    }
    stop
}

// The number of what a check gives.
// Stays: a number, since the edit room_written_for_a_candidate of this crate lets all but one of them by.
fn answered(given: Result<(), Refused>) -> u32
    ensures { result ≡ answer_of given }
{
    match given {
        Ok(()) => answer::DONE,
        Err(no) => no.number(),
    }
}

// What is searched: the end whose bits were heard, and the bits kept with those of a lump behind them.
#[derive(Clone, Copy)]
struct Heard<'a> {
    end: u32,
    octets: &'a [u8],
    ghost known: { end ≤ 1 },
}

impl<'a> Heard<'a> {
    // The frame at a place, descrambled with the 23 bits before it as state. Nothing of it is refused.
    fn descrambled(self, at: usize, plain: &mut [u8])
        requires { (23 ≤ at) × (at + 4227 ≤ 8 * length self.octets.now) × (length plain.old ≡ 529) }
        ensures { plain.new ≡ frame_at self.entry.end (bits_of self.entry.octets.now) at }
    {
        let mut heard = [0u8; layout::FRAME_OCTETS];
        octets::copy(&mut heard, 0, self.octets, at, FRAME_BITS as u32);
        let before = bitfields::field(self.octets, at - REACH, recurrence::REACH);
        let state = bitfields::turned(recurrence::REACH, before);
        let scrambler = Scrambler {
            end: self.end,
            state,
        };
        let _ = scrambler.descramble_frame(&heard, plain);
    }

    // Whether the frame at a place reads with answer 0; then it goes to the frame room.
    fn taken(self, at: usize, frame: &mut [u8]) -> bool
        requires { (23 ≤ at) × (at + 4227 ≤ 8 * length self.octets.now) × (length frame.old ≡ 529) }
        ensures { (result ≡ reads self.entry.end (bits_of self.entry.octets.now) at)
            × (frame.new ≡ cond result (frame_at self.entry.end (bits_of self.entry.octets.now) at) frame.old) }
    {
        let mut plain = [0u8; layout::FRAME_OCTETS];
        self.descrambled(at, &mut plain);
        if answered(checker::check(&plain)) != answer::DONE {
            return false;
        }
        octets::copy(frame, 0, &plain, 0, 8 * layout::FRAME_OCTETS as u32);
        true
    }

    // The first place from `start` on to before `stop` where a frame lies, which goes to the frame room; or `stop`.
    fn first(self, start: usize, stop: usize, frame: &mut [u8]) -> usize
        requires { (23 ≤ start) × (start ≤ stop) × (stop + 4226 ≤ 8 * length self.octets.now) × (length frame.old ≡ 529) }
        ensures { (result ≡ first_that (lies_at self.entry.end (bits_of self.entry.octets.now)) start (stop - start))
            × (frame.new ≡ cond (ltb result stop) (frame_at self.entry.end (bits_of self.entry.octets.now) result) frame.old) }
    {
        let mut at = next_sync(self.octets, start, stop);
        // Stays: a search gives where to go on, so there is nothing to count.
        while at < stop {
            if self.taken(at, frame) {
                return at;
            }
            at = next_sync(self.octets, at + 1, stop);
        }
        stop
    }
}

// The bits kept, and behind them the lump's.
fn join(room: &mut [u8], line: &[u8], lump: &[u8], bits: usize)
    requires { (room.old ≡ replicate 1044 0) × (length line.now ≡ 532) × (bits ≤ 8 * length lump.now) × (bits ≤ 4096) }
    ensures { bits_of room.new ≡ joined line.now lump.now bits ++ replicate (4096 - bits) 0 }
{
    octets::copy(room, 0, line, 0, KEPT as u32);
    octets::copy(room, KEPT, lump, 0, bits as u32);
}

// The place of the joined bits to begin at, no later than `stop`: one that the lump can end, with 23 bits of the line before it, and not before the
// place to go on from.
fn begin(heard: u32, from: u32, stop: usize) -> usize
    requires { 30 ≤ stop }
    ensures { result ≡ min (max 30 (max 23 from + 4256 - heard)) stop }
{
    let place = REACH.max(from as usize) + KEPT;
    place.saturating_sub(heard as usize).clamp(AHEAD, stop)
}

// The place on the line of a place of the joined bits, where so many bits were heard before the lump.
fn place_on(heard: u32, at: usize) -> u32
    requires { (4256 ≤ heard + at) × (heard + at ≤ 4294971551) }
    ensures { result ≡ heard + at - 4256 }
{
    ((heard as usize) + at - KEPT) as u32
}

impl Receiver {
    // A receiver for the bits of an end.
    pub fn start(end: u32) -> Result<Receiver, Refused>
        ensures { StartPromise end (started end result) }
    {
        if Scrambler::NTU < end {
            return Err(Refused::Unknown);
        }
        Ok(Receiver {
            end,
            heard: 0,
            from: 0,
        })
    }

    // Why a call is refused.
    fn allowed(self, line: &[u8], lump: &[u8], bits: usize, frame: &[u8]) -> Result<(), Refused>
        ensures { answer_of result ≡ answer (receive_refusals self line.now lump.now bits frame.now) }
    {
        if lump.len() < bits / 8 + (bits % 8 + 7) / 8 {
            return Err(Refused::Length);
        }
        if line.len() != LINE_OCTETS || frame.len() != layout::FRAME_OCTETS {
            return Err(Refused::Length);
        }
        if Scrambler::NTU < self.end {
            return Err(Refused::Unknown);
        }
        if MOST_BITS < bits || MOST_HEARD < (self.heard as usize) + bits {
            return Err(Refused::Range);
        }
        Ok(())
    }

    // What a call gives that is not refused: the frame at a place of the joined bits, or none where the lump ends none there.
    fn received(self, at: usize, bits: usize) -> Received
        requires { (at < 30 + bits → 4256 ≤ self.heard + at) × (bits ≤ 4096) × (self.heard + bits ≤ 4294967295) }
        ensures { got self (Ok result) ≡ received_of 0 self at bits }
    {
        let heard = self.heard + (bits as u32);
        if at < AHEAD + bits {
            let place = place_on(self.heard, at);
            return Received {
                place: Some(place),
                next: Receiver {
                    heard,
                    from: place + (FRAME_BITS as u32),
                    ..self
                },
            };
        }
        Received {
            place: None,
            next: Receiver { heard, ..self },
        }
    }

    // Takes the next bits of the line. The frame that ends in them, if one does, goes to the frame room.
    pub fn receive(
        self,
        line: &mut [u8],
        lump: &[u8],
        bits: usize,
        frame: &mut [u8],
    ) -> Result<Received, Refused>
        ensures { ReceivePromise self line.old lump.now bits frame.old (got self result) line.new frame.new }
    {
        self.allowed(line, lump, bits, frame)?;
        let mut room = [0u8; JOINED];
        join(&mut room, line, lump, bits);
        let stop = AHEAD + bits;
        let start = begin(self.heard, self.from, stop);
        let heard = Heard {
            end: self.end,
            octets: &room,
        };
        let at = heard.first(start, stop, frame);
        octets::copy(line, 0, &room, bits, KEPT as u32);
        Ok(self.received(at, bits))
    }
}
