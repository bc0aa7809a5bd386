// The search that the benchmark times, as an archive exports it. No entry calls this.
#![tactic(auto)]

ghost use Rattle.std.specs.Prelude.{◌≡◌};
ghost use Rattle.index_timed.specs.Timed.{timed};

// The index of the records' ids is built, then each id is sought in it, in so many rounds: how many searches found a slot, modulo
// 2^32. 0 where the bytes are not at most 1,024 whole records, and where two ids are equal.
#[unsafe(no_mangle)]
pub extern "C" fn braidhurdle_timed_search(records: &[u8], ids: &[u8], rounds: u32) -> u32
    ensures { result ≡ timed records.now ids.now rounds }
{
    index_timed::braidhurdle_timed_search(records, ids, rounds)
}
