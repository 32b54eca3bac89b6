// The lines that are printed, each with the line feed that ends it.
ghost use Rattle.std.specs.Prelude.{◌≡◌, ◌++◌, Some, IfOk, IfSome};
ghost use Rattle.lines.specs.Printed.{unknown_line, refused_line, done_line, hit_line, none_line, anchor_text, DigitsSpell};

use refusal::Refusal;
use std::alloc::{AllocError, Global};
use std::fmt;

// The answer to a line that spells no command.
pub fn unknown_line(heap: Global) -> Result<Vec<u8>, AllocError>
    ensures { IfOk result (λ v. v.items ≡ unknown_line) }
{
    Vec::from_slice(heap, b"?\n")
}

// The answer to a call that declined: its echo, which may have any bytes, and the numbers of the refusal.
pub fn refused_line(heap: Global, echo: &[u8], refusal: Refusal) -> Result<Vec<u8>, AllocError>
    ensures line { IfOk result (λ v. v.items ≡ refused_line echo.now refusal) }
    ensures digits { DigitsSpell }
{
    reply_with(heap, echo, format_args!(" refused {refusal}\n"))
}

// The answer to a call that gave a number: its echo, and the number.
pub fn done_line(heap: Global, echo: &[u8], answer: u32) -> Result<Vec<u8>, AllocError>
    ensures { IfOk result (λ v. v.items ≡ done_line echo.now answer) }
{
    reply_with(heap, echo, format_args!(" done {answer}\n"))
}

// The answer to a call that found a hit: its echo, and both anchors.
pub fn hit_line(
    heap: Global,
    echo: &[u8],
    mark: Option<u32>,
    base: Option<u32>,
) -> Result<Vec<u8>, AllocError>
    ensures { IfOk result (λ v. v.items ≡ hit_line echo.now mark base) }
{
    let (mark, base) = (Anchor(mark), Anchor(base));
    reply_with(heap, echo, format_args!(" done {mark} {base}\n"))
}

// The answer to a call that found no hit.
pub fn none_line(heap: Global, echo: &[u8]) -> Result<Vec<u8>, AllocError>
    ensures { IfOk result (λ v. v.items ≡ none_line echo.now) }
{
    reply(heap, echo, " none\n")
}

// An anchor, which is printed as its number, or as a dash where it is null.
#[derive(Clone, Copy)]
struct Anchor(Option<u32>);

impl fmt::Display for Anchor {
    ghost output = { λ a. Some (anchor_text a.0) };

    fn fmt<W: fmt::Write>(&self, f: &mut fmt::Formatter<W>) -> fmt::Result {
        match self.0 {
            Some(number) => write!(f, "{number}"),
            None => f.write_str("-"),
        }
    }
}

// The echo of a call, and what is said of it.
fn reply(heap: Global, echo: &[u8], said: &str) -> Result<Vec<u8>, AllocError>
    ensures { IfOk result (λ v. v.items ≡ echo.now ++ said.now) }
{
    let mut line = Vec::from_slice(heap, echo)?;
    line.extend_from_slice(said.as_bytes())?;
    Ok(line)
}

// The same, where what is said has to be formatted first; a text that is there already needs no other.
fn reply_with<D: fmt::Display + Drop>(
    heap: Global,
    echo: &[u8],
    said: D,
) -> Result<Vec<u8>, AllocError>
    ensures { IfOk result (λ v. IfSome (D.output said) (λ text. v.items ≡ echo.now ++ text)) }
{
    reply(heap, echo, format!(in heap; "{said}")?.as_str())
}
