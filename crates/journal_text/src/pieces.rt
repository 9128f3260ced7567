ghost use Rattle.std.specs.Prelude.{◌≡◌, ◌<◌, [], ◌∷◌, length, true, false};
ghost use Rattle.memchr.specs.Find.{IsFirstByte, is_byte};
ghost use Rattle.air_text.specs.Words.{texts};
ghost use Rattle.journal_text.specs.Pieces.{before, behind, pieces, left, parts, glued, text_in};

use arrayvec::ArrayVec;
use memchr::memchr;

// The most words of a record but that of a line.
pub const MOST_WORDS: usize = 8;

// So many octets are looked at one by one.
const SHORT_WORD: usize = 6;

// Where the first octet of a kind stands. Most words are short: the first octets are looked at one
// by one.
#[tactic(auto, using(crate::proofs::Cuts::first_far, crate::proofs::Cuts::place_far))]
fn place_of(text: &[u8], at: u8) -> Option<usize>
    ensures { IsFirstByte (is_byte at) text.now result }
{
    let near = text.len().min(SHORT_WORD);
    for place in 0..near {
        if text[place] == at {
            return Some(place);
        }
    }
    match memchr(at, &text[near..]) {
        None => None,
        Some(place) => Some(near + place),
    }
}

/// The octets before the first of a kind, and those behind it, if there is one.
#[tactic(auto, using(crate::proofs::Cuts::splits))]
pub fn split(text: &[u8], at: u8) -> (&[u8], Option<&[u8]>)
    ensures before { result.0.now ≡ before at text.now }
    ensures behind { text_in result.1 ≡ behind at text.now }
    ensures whole { glued at result.0.now (text_in result.1) ≡ text.now }
    ensures pieces { pieces at text.now ≡ result.0.now ∷ left at (text_in result.1) }
{
    match place_of(text, at) {
        None => (text, None),
        Some(place) => (&text[..place], Some(text.split_at(place + 1).1)),
    }
}

/// Adds the words between two spaces to none, if there are at most eight: the first one, and those
/// of what stands behind it. So many of these are searched for a space, and what is left is one
/// word. Whether there are so many.
pub fn add_words<'a>(
    words: &mut ArrayVec<&'a [u8], MOST_WORDS>,
    first: &'a [u8],
    others: Option<&'a [u8]>,
    searched: usize,
) -> bool
    requires { words.old.items ≡ [] }
    ensures all { result ≡ true
        → texts words.new.items ≡ first.now ∷ parts 32 searched (text_in others.entry) }
    ensures more { result ≡ false
        → 8 < length (first.now ∷ parts 32 searched (text_in others.entry)) }
{
    words.push(first);
    let mut rest = others;
    while let Some(text) = rest {
        if words.is_full() {
            return false;
        }
        let (word, behind) = if words.len() > searched {
            (text, None)
        } else {
            split(text, b' ')
        };
        words.push(word);
        rest = behind;
    }
    true
}
