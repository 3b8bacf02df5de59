// The class of each octet: one table, copied once by a pass that looks octets up in it, and compared octets for hot code.
ghost use Rattle.std.specs.Prelude.{◌≡◌, not, eqb, bit_and};
ghost use Rattle.leaves.specs.Class.{token, text, blank, digit, class_of, Classified};

// Bits of an octet's class.
const TOKEN: u8 = 1;

const TEXT: u8 = 2;

const BLANK: u8 = 4;

const DIGIT: u8 = 8;

// The table. A constant array is built anew wherever it is looked into, so a pass takes the table once and lends it.
pub fn table() -> [u8; 256]
    ensures { Classified result }
{
    CLASSES
}

// Whether the class of an octet has a bit.
fn has_bit<const BIT: u8>(classes: &[u8; 256], x: u8) -> bool
    requires { Classified classes.now }
    ensures { result ≡ not (eqb (bit_and (class_of x) BIT) 0) }
{
    classes[x as usize] & BIT != 0
}

#[tactic(auto, using(crate::proofs::ClassLaws::token_told))]
pub fn is_token(classes: &[u8; 256], x: u8) -> bool
    requires { Classified classes.now }
    ensures { result ≡ token x }
{
    has_bit::<TOKEN>(classes, x)
}

#[tactic(auto, using(crate::proofs::ClassLaws::text_told))]
pub fn is_text(classes: &[u8; 256], x: u8) -> bool
    requires { Classified classes.now }
    ensures { result ≡ text x }
{
    has_bit::<TEXT>(classes, x)
}

#[tactic(auto, using(crate::proofs::ClassLaws::blank_told))]
pub fn is_blank_class(classes: &[u8; 256], x: u8) -> bool
    requires { Classified classes.now }
    ensures { result ≡ blank x }
{
    has_bit::<BLANK>(classes, x)
}

#[tactic(auto, using(crate::proofs::ClassLaws::digit_told))]
pub fn is_digit_class(classes: &[u8; 256], x: u8) -> bool
    requires { Classified classes.now }
    ensures { result ≡ digit x }
{
    has_bit::<DIGIT>(classes, x)
}

// By comparing, for hot code.
#[tactic(auto, unfolding(crate::specs::Class::blank, crate::specs::Octets::has))]
pub fn is_blank(x: u8) -> bool
    ensures { result ≡ blank x }
{
    x == b' ' || x == b'\r' || x == b'\n' || x == b'\t' || x == 12
}

#[tactic(auto, unfolding(crate::specs::Class::digit))]
pub fn is_digit(x: u8) -> bool
    ensures { result ≡ digit x }
{
    b'0' <= x && x <= b'9'
}

// The class of octet 0, of octet 1, and so on.
const CLASSES: [u8; 256] = [
    0, 0, 0, 0, 0, 0, 0, 0, 0, 6, 4, 0, 4, 4, 0, 0, 0, 0, 0, 0, 0, 0, 0, 0, 0, 0, 0, 0, 0, 0, 0, 0,
    6, 3, 2, 3, 3, 3, 3, 3, 2, 2, 3, 3, 2, 3, 3, 2, 11, 11, 11, 11, 11, 11, 11, 11, 11, 11, 2, 2,
    2, 2, 2, 2, 2, 3, 3, 3, 3, 3, 3, 3, 3, 3, 3, 3, 3, 3, 3, 3, 3, 3, 3, 3, 3, 3, 3, 3, 3, 3, 3, 2,
    2, 2, 3, 3, 3, 3, 3, 3, 3, 3, 3, 3, 3, 3, 3, 3, 3, 3, 3, 3, 3, 3, 3, 3, 3, 3, 3, 3, 3, 3, 3, 2,
    3, 2, 3, 0, 2, 2, 2, 2, 2, 2, 2, 2, 2, 2, 2, 2, 2, 2, 2, 2, 2, 2, 2, 2, 2, 2, 2, 2, 2, 2, 2, 2,
    2, 2, 2, 2, 2, 2, 2, 2, 2, 2, 2, 2, 2, 2, 2, 2, 2, 2, 2, 2, 2, 2, 2, 2, 2, 2, 2, 2, 2, 2, 2, 2,
    2, 2, 2, 2, 2, 2, 2, 2, 2, 2, 2, 2, 2, 2, 2, 2, 2, 2, 2, 2, 2, 2, 2, 2, 2, 2, 2, 2, 2, 2, 2, 2,
    2, 2, 2, 2, 2, 2, 2, 2, 2, 2, 2, 2, 2, 2, 2, 2, 2, 2, 2, 2, 2, 2, 2, 2, 2, 2, 2, 2, 2, 2, 2, 2,
    2, 2, 2, 2,
];
