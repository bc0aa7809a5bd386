// What the replays share: the buffers that they lend, and how a case is read and called.
use crate::tally::{Fault, Verdict, verdict_on};
use recorded_lines::fields::{field, number, readable};

// The buffers of all cases: one that holds the inputs, and those that are lent for outputs.
#[derive(Drop)]
pub struct Buffers<'a> {
    pub inputs: &'a mut [u8],
    pub records: &'a mut [u8],
    pub names: &'a mut [u8],
    pub identifiers: &'a mut [u8],
}

// A line that starts with fields of these kinds, in order.
pub fn read(line: &[u8], kinds: &[u8]) -> Verdict {
    if readable(line, kinds) {
        Ok(())
    } else {
        Err(Fault::Unreadable)
    }
}

// The number that field k spells.
pub fn number_at(line: &[u8], k: usize) -> Result<u32, Fault> {
    number(field(line, k)).ok_or(Fault::Unreadable)
}

// An output buffer of the size that field k asks for.
pub fn output_at<'a>(line: &[u8], k: usize, buffer: &'a mut [u8]) -> Result<&'a mut [u8], Fault> {
    let size = number_at(line, k)?;
    buffer.get_mut(..size as usize).ok_or(Fault::Unreadable)
}

// Whether a call gives the recorded answer over both patterns of its output buffers.
pub fn judged<F: FnMut(u8) -> bool>(mut agrees_over: F) -> Verdict
    requires { F.IsAlwaysCallable agrees_over }
{
    verdict_on(agrees_over(165) && agrees_over(90))
}
