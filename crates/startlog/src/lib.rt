// A start-up log as text, one code a line: where a line ends, and what it says. The rules are specs/Lines.antt.
#![tactic(auto)]

ghost use Rattle.std.specs.Prelude.{◌≡◌, ◌==◌, cond, ◌+◌, ◌-◌, ◌*◌, ◌≤◌, leb, position};
ghost use Rattle.startlog.specs.Lines.{most_ticks, counted, one_code, said, line_of, end_of, numbered};

use answer::Refused;

// What a line says.
#[derive(Clone, Copy)]
pub struct Line {
    pub code: u32,
    // How often the code comes: 0 in an empty line or a remark, which say nothing.
    pub times: u32,
}

impl Line {
    // The most ticks that a line may count.
    pub const MOST: u32 = 1000000000;
    // A line that says nothing.
    const NOTHING: Line = Line { code: 0, times: 0 };

    // What a line says; it may end with a carriage return. What is no code is 2, a count of no tick or of too many 4.
    pub fn read(line: &[u8]) -> Result<Line, Refused>
        ensures { numbered result ≡ line_of line.now }
    {
        match line {
            [plain @ .., b'\r'] => Self::said(plain),
            _ => Self::said(line),
        }
    }

    // What a line without its end says.
    #[tactic(auto, unfolding(crate::specs::Lines::said))]
    fn said(line: &[u8]) -> Result<Line, Refused>
        ensures { numbered result ≡ said line.now }
    {
        match line {
            [] | [b'#', ..] => Ok(Self::NOTHING),
            [octet] => Self::one(*octet),
            [b'0', b'*', digits @ ..] => Self::counted(digits),
            _ => Err(Refused::Unknown),
        }
    }

    // One of the nine codes, by its character.
    fn one(octet: u8) -> Result<Line, Refused>
        ensures { numbered result ≡ one_code octet }
    {
        match octet {
            b'0'..=b'8' => Ok(Line {
                code: u32::from(octet - b'0'),
                times: 1,
            }),
            _ => Err(Refused::Unknown),
        }
    }

    // A number with one more digit. Past the most it is held, so that no sum wraps.
    fn more(ticks: u64, digit: u8) -> u64
        requires { (48 ≤ digit) × (digit ≤ 57) }
        ensures { result ≡ cond (leb ticks most_ticks) (ticks * 10 + (digit - 48)) ticks }
    {
        if ticks <= u64::from(Self::MOST) {
            ticks * 10 + u64::from(digit - b'0')
        } else {
            ticks
        }
    }

    // As many ticks as these digits say.
    pub fn counted(digits: &[u8]) -> Result<Line, Refused>
        ensures { numbered result ≡ counted digits.now }
    {
        let mut ticks: u64 = 0;
        for &digit in digits {
            if !(b'0'..=b'9').contains(&digit) {
                return Err(Refused::Unknown);
            }
            ticks = Self::more(ticks, digit);
        }
        if ticks == 0 || u64::from(Self::MOST) < ticks {
            return Err(Refused::Range);
        }
        Ok(Line {
            code: 0,
            times: ticks as u32,
        })
    }
}

// Where the line that begins at a place ends: at its newline, or at the log's end.
pub fn line_end(log: &[u8], at: usize) -> usize
    ensures { result ≡ end_of log.now at }
{
    match log.get(at..) {
        Some(rest) => at + newline(rest).unwrap_or(rest.len()),
        None => at,
    }
}

// The place of the first newline.
fn newline(text: &[u8]) -> Option<usize>
    ensures { result ≡ position (λ o. o == 10) text.now }
{
    text.iter().position(|&o| o == b'\n')
}
