// The steps by which a type is widened: a constant table by version and code pair, and the rule for decimals beside it.
#![tactic(auto)]

ghost use Rattle.std.specs.Prelude.{◌≡◌};
ghost use Rattle.paper.specs.Answer.{any};
ghost use Rattle.paper.specs.Promotions.{
  precision,
  scale,
  is_decimal,
  promotions,
  is_step,
  more_digits,
  allowed,
};

// No enum: a column's code is any 32 bits, those of decimals among them.
const INT: u32 = 2;

const LONG: u32 = 3;

const DATE: u32 = 4;

const FLOAT: u32 = 5;

const DOUBLE: u32 = 6;

const TIMESTAMP: u32 = 7;

const TIMESTAMP_NS: u32 = 8;

// A step: a version, an old code, a new one.
#[derive(Clone, Copy, PartialEq, Eq)]
struct Step(u32, u32, u32);

const PROMOTIONS: [Step; 6] = [
    Step(2, INT, LONG),
    Step(2, FLOAT, DOUBLE),
    Step(3, INT, LONG),
    Step(3, FLOAT, DOUBLE),
    Step(3, DATE, TIMESTAMP),
    Step(3, DATE, TIMESTAMP_NS),
];

// Whether the table has the step.
fn is_listed(version: u32, old: u32, new: u32) -> bool
    ensures { result ≡ any (is_step version old new) promotions }
{
    PROMOTIONS.contains(&Step(version, old, new))
}

// The digits of a decimal, 0 where the code is below those of decimals; and how many of them stand behind the point.
fn precision_of(code: u32) -> u32
    ensures { result ≡ precision code }
{
    (code / 256).saturating_sub(256)
}

fn scale_of(code: u32) -> u32
    ensures { result ≡ scale code }
{
    code % 256
}

// Whether a code is a decimal's.
#[tactic(auto, unfolding(paper::specs::Promotions::is_decimal))]
fn is_decimal(code: u32) -> bool
    ensures { result ≡ is_decimal code }
{
    let digits = precision_of(code);
    1 <= digits && digits <= 38 && scale_of(code) <= digits
}

// Whether a decimal gets more digits, and as many behind the point as before.
#[tactic(auto, unfolding(paper::specs::Promotions::more_digits))]
fn more_digits(old: u32, new: u32) -> bool
    ensures { result ≡ more_digits old new }
{
    let wider = precision_of(old) < precision_of(new);
    let alike = scale_of(old) == scale_of(new);
    is_decimal(old) && is_decimal(new) && wider && alike
}

// Whether a version allows that a column of the old code gets the new one.
#[tactic(auto, unfolding(paper::specs::Promotions::allowed))]
pub fn is_allowed(version: u32, old: u32, new: u32) -> bool
    ensures { result ≡ allowed version old new }
{
    is_listed(version, old, new) || more_digits(old, new)
}
