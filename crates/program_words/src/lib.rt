// What the words of a command line ask for, a word at a time.
#![tactic(auto)]

ghost use Rattle.std.specs.Prelude.{◌≡◌, Ok};
ghost use Rattle.program_words.specs.Words.{same, option_by, asked_by, besides, joined, with_word};

// Nothing was named yet; or standard input, or the file that the word at a place names, is to be listed; or the help or the version is asked for.
#[derive(Clone, Copy, Debug, PartialEq, Eq)]
pub enum Wanted {
    Nothing,
    Input,
    File(usize),
    Help,
    Version,
}

// The word at a place is an unknown option, or names a second file.
#[derive(Clone, Copy, Debug, PartialEq, Eq)]
pub enum WrongUse {
    Unknown(usize),
    Second(usize),
}

// What the words so far ask for, and whether a `--` among them ended the options, whatever they ask for.
#[derive(Clone, Copy, Debug, PartialEq, Eq)]
pub struct Line {
    pub wanted: Result<Wanted, WrongUse>,
    pub ended: bool,
}

// A match on the texts themselves was tried here: its last arms get a goal for each byte that tells the word from those before, and did not close.
fn is(word: &[u8], text: &[u8]) -> bool
    ensures { result ≡ same word.now text.now }
{
    word == text
}

// What a word that is not `-` asks for, where options are read: one with a dash first that is not known is no name.
#[tactic(auto, unfolding(crate::specs::Words::option_by, crate::specs::Words::is_end, crate::specs::Words::is_help, crate::specs::Words::is_version, crate::specs::Words::is_option))]
fn option_by(word: &[u8], place: usize) -> Result<Wanted, WrongUse>
    ensures { result ≡ option_by word.now place }
{
    if is(word, b"--") {
        Ok(Wanted::Nothing)
    } else if is(word, b"-h") || is(word, b"--help") {
        Ok(Wanted::Help)
    } else if is(word, b"-V") || is(word, b"--version") {
        Ok(Wanted::Version)
    } else if matches!(word, [b'-', ..]) {
        Err(WrongUse::Unknown(place))
    } else {
        Ok(Wanted::File(place))
    }
}

// What a word by itself asks for.
#[tactic(auto, unfolding(crate::specs::Words::asked_by))]
fn asked(ended: bool, word: &[u8], place: usize) -> Result<Wanted, WrongUse>
    ensures { result ≡ asked_by ended word.now place }
{
    match word {
        b"-" => Ok(Wanted::Input),
        _ if ended => Ok(Wanted::File(place)),
        _ => option_by(word, place),
    }
}

// What is wanted where the word at a place asks for more beside a file that was named: one file is listed.
#[tactic(auto, unfolding(crate::specs::Words::besides))]
fn beside(before: Wanted, more: Wanted, place: usize) -> Result<Wanted, WrongUse>
    ensures { result ≡ besides before (Ok more) place }
{
    match more {
        Wanted::Nothing => Ok(before),
        Wanted::Input | Wanted::File(_) => Err(WrongUse::Second(place)),
        Wanted::Help | Wanted::Version => Ok(more),
    }
}

// What is wanted where the word at a place asks for more. The first word that asks for no file settles it.
#[tactic(auto, unfolding(crate::specs::Words::joined, crate::specs::Words::besides))]
fn join(
    before: Result<Wanted, WrongUse>,
    more: Result<Wanted, WrongUse>,
    place: usize,
) -> Result<Wanted, WrongUse>
    ensures { result ≡ joined before more place }
{
    let before = before?;
    match before {
        Wanted::Nothing => more,
        Wanted::Input | Wanted::File(_) => beside(before, more?, place),
        Wanted::Help | Wanted::Version => Ok(before),
    }
}

// The line with the word that stands at a place.
#[tactic(auto, unfolding(crate::specs::Words::with_word, crate::specs::Words::is_end))]
pub fn with_word(line: Line, word: &[u8], place: usize) -> Line
    ensures { result ≡ with_word line word.now place }
{
    let more = asked(line.ended, word, place);
    Line {
        wanted: join(line.wanted, more, place),
        ended: line.ended || is(word, b"--"),
    }
}
