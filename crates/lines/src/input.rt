// The lines of an input, and the symbols of a line.
ghost use Rattle.std.specs.Prelude.{◌≡◌, map, length, IfOk, position, ◌==◌};
ghost use Rattle.std.specs.Option.{option_map};
ghost use Rattle.lines.specs.Input.{Takes, unread, first_line, after_line, symbol_of};
ghost use Rattle.std.specs.Iterator.{at_most};

use std::alloc::{AllocError, Global};
use std::io;
use std::io::BufRead;

// What `symbol` answers where a character is no symbol: a byte and no `Option`, as a mark's reader takes bytes, and refuses
// this one.
pub const NO_SYMBOL: u8 = 4;

// The lines of an input, one after the other. A line ends at a newline or where the input ends.
#[derive(Drop)]
pub struct Lines<'a> {
    rest: &'a [u8],
}

impl<'a> Lines<'a> {
    pub fn new(input: &'a [u8]) -> Lines<'a>
        ensures { unread result ≡ input.now }
    {
        Lines { rest: input }
    }
}

impl<'a> Iterator for Lines<'a> {
    type Item = &'a [u8];

    ghost next_gives = { λ before r after. Takes (unread before) (option_map (λ x. x.now) r) (unread after) };

    ghost remaining = { λ lines. at_most (length (unread lines)) };

    #[tactic(auto, using(crate::proofs::Lines::taking_laws))]
    fn next(&mut self) -> Option<&'a [u8]> {
        if self.rest.is_empty() {
            return None;
        }
        let (line, rest) = cut(self.rest);
        self.rest = rest;
        Some(line)
    }
}

// Where the first newline is.
fn newline(bytes: &[u8]) -> Option<usize>
    ensures { result ≡ position (λ byte. byte == 10) bytes.now }
{
    bytes.iter().position(|byte| *byte == b'\n')
}

// The bytes before the first newline, and those after it, which belongs to neither.
#[tactic(auto, using(crate::proofs::Lines::newline_laws))]
fn cut(bytes: &[u8]) -> (&[u8], &[u8])
    ensures line { result.0.now ≡ first_line bytes.now }
    ensures left { result.1.now ≡ after_line bytes.now }
{
    match newline(bytes) {
        Some(at) => (&bytes[..at], &bytes[at + 1..]),
        None => (bytes, &[]),
    }
}

// At most as many lines of a reader as are wanted, each with its end, which `BufRead::lines` and `split` would take off. What a
// reader gives no contract can say.
pub fn first_lines(heap: Global, reader: &mut impl BufRead, most: usize) -> io::Result<Vec<u8>> {
    let mut input = Vec::new(heap);
    for _ in 0..most {
        if reader.read_until(b'\n', &mut input)? == 0 {
            break;
        }
    }
    Ok(input)
}

pub fn symbol(character: u8) -> u8
    ensures { result ≡ symbol_of character }
{
    match char::from(character) {
        '0' | '.' => 0,
        '1' => 1,
        '2' => 2,
        '3' => 3,
        _ => NO_SYMBOL,
    }
}

pub fn symbols(heap: Global, line: &[u8]) -> Result<Vec<u8>, AllocError>
    ensures { IfOk result (λ found. found.items ≡ map symbol_of line.now) }
{
    line.iter()
        .map(|character| symbol(*character))
        .collect(heap)
}

#[cfg(test)]
mod tests {
    use super::*;
    use std::test::Fail;

    // The lines with a bar after each.
    fn barred(heap: Global, input: &[u8]) -> Result<Vec<u8>, AllocError> {
        let mut text = Vec::new(heap);
        for line in Lines::new(input) {
            text.extend_from_slice(line)?;
            text.push(b'|')?;
        }
        Ok(text)
    }

    #[test]
    fn lines_end_at_newlines_or_with_the_input(rt: HostRuntime) -> Result<(), Fail> {
        assert_eq!(rt; barred(rt.alloc(), b"")?.as_slice(), b"".as_slice());
        assert_eq!(rt; barred(rt.alloc(), b"\n")?.as_slice(), b"|".as_slice());
        assert_eq!(rt; barred(rt.alloc(), b"a")?.as_slice(), b"a|".as_slice());
        assert_eq!(rt;
            barred(rt.alloc(), b"a\nb\n")?.as_slice(),
            b"a|b|".as_slice()
        );
        assert_eq!(rt;
            barred(rt.alloc(), b"a\r\n\nb")?.as_slice(),
            b"a\r||b|".as_slice()
        );
        Ok(())
    }

    #[test]
    fn no_more_lines_are_read_than_wanted(rt: HostRuntime) -> Result<(), Fail> {
        let mut reader: &[u8] = b"a\n\nb\nc";
        assert_eq!(rt;
            first_lines(rt.alloc(), &mut reader, 3)?.as_slice(),
            b"a\n\nb\n".as_slice()
        );
        assert_eq!(rt;
            first_lines(rt.alloc(), &mut reader, 3)?.as_slice(),
            b"c".as_slice()
        );
        Ok(())
    }

    #[test]
    fn dots_and_digits_are_symbols(rt: HostRuntime) -> Result<(), Fail> {
        assert_eq!(rt;
            symbols(rt.alloc(), b"0.1x23")?.as_slice(),
            [0, 0, 1, NO_SYMBOL, 2, 3].as_slice()
        );
        Ok(())
    }
}
