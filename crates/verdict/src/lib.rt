// What a card's frame is found to be, beside a customer's where one is given. What each means is specs/.
#![tactic(auto)]

ghost use Rattle.std.specs.Prelude.{◌≡◌, min};
ghost use Rattle.verdict.specs.Ranks.{refused_rank, training_rank, final_rank};
ghost use Rattle.verdict.specs.Verdict.{like_of, absent, most_octets, refused_verdict};
ghost use Rattle.verdict.specs.Promises.{Judged, Unread, IsCustomer, IsNobody};

use card::Verdict;
use reader::Found;

// The customer's words A and B, where a reference frame is given.
// Stays: a flag beside the words, since judge and unread answer for one that is not given with any words too (Judged, Unread; match_is, within).
#[derive(Clone, Copy)]
pub struct Customer {
    pub given: bool,
    pub a: u32,
    pub b: u32,
}

// The most octets of a file that are counted: one more than a frame has.
pub const MOST_OCTETS: usize = layout::FRAME_OCTETS + 1;

// How word x compares with the customer's word y.
fn like(given: bool, x: u32, y: u32) -> u32
    ensures { result ≡ like_of given x y }
{
    let last_first = bitfields::turned(layout::WORD_BITS, y);
    if !given {
        card::NO_CUSTOMER
    } else if x == y {
        card::SAME
    } else if x == last_first {
        card::TURNED
    } else {
        card::OTHER
    }
}

// The same, of a card that carries no word.
fn no_word(given: bool) -> u32
    ensures { result ≡ absent given }
{
    if given {
        card::NO_WORD
    } else {
        card::NO_CUSTOMER
    }
}

// The verdict on a card that is refused with n.
fn refused_rank(n: u32) -> u32
    ensures { result ≡ refused_rank n }
{
    if card::LAST_REFUSAL < n {
        card::CANNOT_BE_READ
    } else {
        n
    }
}

// The verdict on a training frame, by how its words compare.
fn training_rank(a: u32, b: u32) -> u32
    ensures { result ≡ training_rank a b }
{
    if a == card::NO_CUSTOMER {
        card::GOOD
    } else if a == card::TURNED || b == card::TURNED {
        card::TURNED_WORDS
    } else if a == card::SAME && b == card::SAME {
        card::MATCHING
    } else {
        card::OTHER_WORDS
    }
}

// The verdict on a final frame.
fn final_rank(given: bool) -> u32
    ensures { result ≡ final_rank given }
{
    if given { card::FINAL_FRAME } else { card::GOOD }
}

// How many octets a file has, as they are counted.
fn counted(n: usize) -> u32
    ensures { result ≡ min n most_octets }
{
    n.min(MOST_OCTETS) as u32
}

// A file of so many octets that is refused with n.
fn refused(n: u32, octets: u32, customer: Customer) -> Verdict
    ensures { result ≡ refused_verdict n octets customer }
{
    Verdict {
        rank: refused_rank(n),
        octets,
        answer: n,
        kind: 0,
        used: 0,
        a: 0,
        b: 0,
        alike: no_word(customer.given),
        blike: no_word(customer.given),
        vendor: [0; 16],
    }
}

// What a card's frame is found to be.
pub fn judge(frame: &[u8], customer: Customer) -> Verdict
    ensures { Judged frame.now customer result }
{
    let mut cs = [0i32; layout::COEFFICIENTS];
    let mut vendor = [0u8; layout::VENDOR_OCTETS];
    let mut reserved = [0u8; layout::RESERVED_OCTETS];
    let octets = counted(frame.len());
    match reader::read(frame, &mut cs, &mut vendor, &mut reserved) {
        Ok(Found::Training { a, b }) => {
            let alike = like(customer.given, a, customer.a);
            let blike = like(customer.given, b, customer.b);
            Verdict {
                rank: training_rank(alike, blike),
                octets,
                answer: 0,
                kind: layout::TRAINING,
                used: highest::highest(&cs) as u32,
                a,
                b,
                alike,
                blike,
                vendor,
            }
        },
        Ok(Found::Final) => Verdict {
            rank: final_rank(customer.given),
            octets,
            answer: 0,
            kind: layout::FINAL,
            used: 0,
            a: 0,
            b: 0,
            alike: no_word(customer.given),
            blike: no_word(customer.given),
            vendor,
        },
        Err(no) => refused(no.number(), octets, customer),
    }
}

// A card whose file cannot be read.
pub fn unread(customer: Customer) -> Verdict
    ensures { Unread customer result }
{
    refused(card::UNREADABLE, 0, customer)
}

// No customer.
pub fn nobody() -> Customer
    ensures { IsNobody result }
{
    Customer {
        given: false,
        a: 0,
        b: 0,
    }
}

// The customer whose card this verdict is on: given only where its frame is a training frame that reads.
pub fn reference(v: Verdict) -> Customer
    ensures { IsCustomer v result }
{
    if v.answer != 0 || v.kind != layout::TRAINING {
        return nobody();
    }
    Customer {
        given: true,
        a: v.a,
        b: v.b,
    }
}
