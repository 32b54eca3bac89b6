// Commands, and the lines that spell them.
ghost use Rattle.std.specs.Prelude.{◌≡◌, true, Some, None, MatchOption};
ghost use Rattle.std.specs.List.{prefix_len};
ghost use Rattle.std.specs.Str.{all_ascii_digits};
ghost use Rattle.std.specs.Char.{is_ascii_digit};
ghost use Rattle.lines.specs.Grammar.{Reads};
ghost use Rattle.lines.specs.Reading.{numeral_of, number_at, last_number, command_by, command_of, Converts, ConvertsFront};

use std::num::TryFromIntError;

// The most digits that a number has.
const MOST_DIGITS: usize = 10;

// What a line asks for.
#[derive(Clone, Copy, PartialEq, Eq, Debug)]
pub enum Command {
    // Open the lookup at a vertex.
    Open { vertex: u32 },
    // Split the subtable at a place of the open lookup.
    Split { place: u32, reach: u32 },
    // Split every subtable.
    SplitAll { reach: u32 },
    // Put every subtable behind an extension.
    Extend,
    // Ask where a mark attaches to a base.
    Attach { mark: u16, base: u16 },
}

impl Command {
    // The command that a line, without its line feed, spells.
    pub fn read(line: &[u8]) -> Option<Command>
        ensures value { result ≡ command_of line.now }
        ensures reads { Reads line.now result }
    {
        let [letter, rest @ ..] = line else {
            return None;
        };
        Command::with_letter(char::from(*letter), rest)
    }

    // The command of a letter, whose numbers are in `rest`.
    #[tactic(auto, using(crate::proofs::Spells::none_at, crate::proofs::Spells::none_last))]
    fn with_letter(letter: char, rest: &[u8]) -> Option<Command>
        ensures { result ≡ command_by letter rest.now }
    {
        match letter {
            'O' => {
                let vertex = last(rest)?;
                Some(Command::Open { vertex })
            }
            'S' => {
                let (place, rest) = number(rest)?;
                let reach = last(rest)?;
                Some(Command::Split { place, reach })
            }
            'A' => {
                let reach = last(rest)?;
                Some(Command::SplitAll { reach })
            }
            'E' if rest.is_empty() => Some(Command::Extend),
            'Q' => {
                let (mark, rest) = number(rest)?;
                let base = last(rest)?;
                Some(Command::Attach { mark, base })
            }
            _ => None,
        }
    }
}

// How many digits stand at the front.
fn digit_count(text: &[u8]) -> usize
    ensures { result ≡ prefix_len is_ascii_digit text.now }
{
    text.iter().take_while(|byte| byte.is_ascii_digit()).count()
}

// The number that digits spell, where there are neither too few nor too many of them and it has 32 bits.
fn numeral(digits: &[u8]) -> Option<u32>
    requires { all_ascii_digits digits.now ≡ true }
    ensures { result ≡ numeral_of digits.now }
{
    if digits.is_empty() || digits.len() > MOST_DIGITS {
        return None;
    }
    // A loop and no `parse`, which takes text: the digits would have to be shown to be text first, and a fold to be small at each step.
    let mut value: u64 = 0;
    for digit in digits {
        value = 10 * value + u64::from(*digit - b'0');
    }
    u32::try_from(value).ok()
}

// The number after one space at the front, in a type that may be too small for it, and what follows it.
fn number<T: TryFrom<u32, Error = TryFromIntError>>(text: &[u8]) -> Option<(T, &[u8])>
    ensures { MatchOption result (ConvertsFront T.try_from_gives (number_at text.now) None) (λ x. ConvertsFront T.try_from_gives (number_at text.now) (Some (x.0, x.1.now))) }
{
    let [b' ', after @ ..] = text else {
        return None;
    };
    let (digits, rest) = after.split_at(digit_count(after));
    let value = T::try_from(numeral(digits)?).ok()?;
    Some((value, rest))
}

// The same number, where nothing follows it.
fn last<T: TryFrom<u32, Error = TryFromIntError> + Drop>(text: &[u8]) -> Option<T>
    ensures { Converts T.try_from_gives (last_number text.now) result }
{
    let (value, rest) = number(text)?;
    rest.is_empty().then_some(value)
}
