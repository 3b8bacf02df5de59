// Octets in lower-case hex, `-` for none.
ghost use Rattle.std.specs.Prelude.{◌<◌};

use std::alloc::{AllocError, Global};
use std::fmt;

// What a digit of lower-case hex says.
fn hex_digit(digit: u8) -> Option<u8> {
    match digit {
        b'0'..=b'9' => Some(digit - b'0'),
        b'a'..=b'f' => Some(digit - b'a' + 10),
        _ => None,
    }
}

pub fn is_hex_digit(x: u8) -> bool {
    hex_digit(x).is_some()
}

// Octets as they stand on a line: digits in pairs.
#[derive(Clone, Copy, Debug)]
pub struct Octets<'a>(pub &'a [u8]);

impl<'a> Octets<'a> {
    pub fn decode(self, alloc: Global) -> Result<Vec<u8>, AllocError> {
        self.0
            .chunks_exact(2)
            .map(|pair| {
                let digits = pair.iter().filter_map(|digit| hex_digit(*digit));
                digits.fold(0, |octet, digit| octet << 4 | digit)
            })
            .collect(alloc)
    }
}

fn digit(x: u8) -> u8
    requires { x < 16 }
{
    if x < 10 { b'0' + x } else { b'a' - 10 + x }
}

// The digits of all octets, in order.
const PAIRS: &str =
    "000102030405060708090a0b0c0d0e0f101112131415161718191a1b1c1d1e1f202122232425262728292a2b2c2d2e2f303132333435363738393a3b3c3d3e3f404142434445464748494a4b4c4d4e4f505152535455565758595a5b5c5d5e5f606162636465666768696a6b6c6d6e6f707172737475767778797a7b7c7d7e7f808182838485868788898a8b8c8d8e8f909192939495969798999a9b9c9d9e9fa0a1a2a3a4a5a6a7a8a9aaabacadaeafb0b1b2b3b4b5b6b7b8b9babbbcbdbebfc0c1c2c3c4c5c6c7c8c9cacbcccdcecfd0d1d2d3d4d5d6d7d8d9dadbdcdddedfe0e1e2e3e4e5e6e7e8e9eaebecedeeeff0f1f2f3f4f5f6f7f8f9fafbfcfdfeff";

// The digits of an octet.
fn pair(octet: u8) -> &'static str {
    let at = usize::from(octet) * 2;
    PAIRS.get(at..at + 2).unwrap_or("")
}

// Octets as they are printed.
#[derive(Clone, Copy, Debug)]
pub struct Hex<'a>(pub &'a [u8]);

impl fmt::Display for Hex<'_> {
    // Few octets one by one, more of them many at a time: by `{:02x}` the whole program took 1.7 times as long as with digits by hand.
    fn fmt<W: fmt::Write>(&self, f: &mut fmt::Formatter<W>) -> fmt::Result {
        if self.0.is_empty() {
            return f.write_str("-");
        }
        if self.0.len() < 8 {
            for octet in self.0 {
                f.write_str(pair(*octet))?;
            }
            return Ok(());
        }
        for octets in self.0.chunks(32) {
            let mut text = [[b'0'; 2]; 32];
            for (digits, octet) in text.iter_mut().zip(octets) {
                *digits = [digit(octet / 16), digit(octet % 16)];
            }
            let digits = text.as_flattened().get(..octets.len() * 2).unwrap_or(&[]);
            f.write_str(str::from_utf8(digits).unwrap_or(""))?;
        }
        Ok(())
    }
}
