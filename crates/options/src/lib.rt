// What one argument of a program says: which option it is, or a word such as a file's name (specs/Options.antt).
#![tactic(auto)]

ghost use Rattle.std.specs.Prelude.{◌≡◌, cond};
ghost use Rattle.options.specs.Options.{a_word, unknown, dashed, said_number, Named, Says};

// What an argument says; specs/Options.antt's `said_number` numbers the cases.
#[derive(Clone, Copy, PartialEq, Eq)]
pub enum Argument {
    // No option: a word.
    Word,
    Help,
    Version,
    Status,
    Like,
    Csv,
    // Behind it every argument is a word.
    End,
    // An option that no program has.
    Unknown,
}

// The version that the programs tell, as the Makefile has it.
pub const RELEASE: [u8; 5] = *b"0.6.1";

// What a name stands for where an argument is this name, and else another.
pub fn named<T: Copy>(word: &[u8], name: &[u8], own: T, other: T) -> T
    ensures { Named word.now name.now own other result }
{
    if word == name { own } else { other }
}

// Whether a text begins as an option does. A lone - does not.
fn is_dashed(word: &[u8]) -> bool
    ensures { result ≡ dashed word.now }
{
    1 < word.len() && word[0] == b'-'
}

// What an argument says that is no option by its name.
fn unnamed(word: &[u8]) -> Argument
    ensures { said_number result ≡ cond (dashed word.now) unknown a_word }
{
    if is_dashed(word) {
        Argument::Unknown
    } else {
        Argument::Word
    }
}

// What an argument says.
pub fn read(word: &[u8]) -> Argument
    ensures { Says word.now result }
{
    let mut says = unnamed(word);
    says = named(word, b"--", Argument::End, says);
    says = named(word, b"--csv", Argument::Csv, says);
    says = named(word, b"--like", Argument::Like, says);
    says = named(word, b"--status", Argument::Status, says);
    says = named(word, b"--version", Argument::Version, says);
    named(word, b"--help", Argument::Help, says)
}
