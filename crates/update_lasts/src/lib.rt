// Demand 3 of the function `update` and of `braidhurdle_update`, in specs/ and proofs/. The function that C calls promises what the
// latter does: `update_is_one`, in crates/braidhurdle_c/proofs/Tied.antt. The one function here is a lemma: it does nothing, and
// nobody need call it.
#![tactic(auto)]

ghost use Rattle.laws.specs.Fit.{Bytes};

// Whatever is lent as a slice of bytes meets `Bytes`: each of its numbers is below 256.
pub fn lent_bytes(s: &[u8])
    ensures { Bytes s.now }
{
    if s.len() > 0 {
        let first = s[0] as u32;
    }
}
