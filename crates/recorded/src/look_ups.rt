// Replays the look-ups by a name and by an id.
use crate::cases::{Buffers, number_at, read};
use crate::tally::{Verdict, verdict_on};
use record::{FieldId, Refusal, Slot};
use recorded_lines::answers::is_sought;
use recorded_lines::fields::{answer, decode, decode_base, field};

// name JUDGE RECORDS POOL NAME = answer; folded likewise
pub fn replay_name<F>(line: &[u8], buffers: &mut Buffers, find: F) -> Verdict
where
    F: FnOnce(&[u8], &[u8], &[u8]) -> Result<Option<(FieldId, Slot)>, Refusal>,
    requires { F.IsAlwaysCallable find }
{
    read(line, b"wwbbb=")?;
    let (base, _) = decode_base(line, buffers.inputs);
    let sought = find(base.records, base.pool, base.third);
    verdict_on(is_sought(answer(line), sought))
}

// id JUDGE RECORDS POOL ID = answer; parent likewise
pub fn replay_id<F>(line: &[u8], buffers: &mut Buffers, find: F) -> Verdict
where
    F: FnOnce(&[u8], &[u8], FieldId) -> Result<Option<(FieldId, Slot)>, Refusal>,
    requires { F.IsAlwaysCallable find }
{
    read(line, b"wwbbw=")?;
    let id = FieldId(number_at(line, 4)?);
    let (records, rest) = decode(field(line, 2), buffers.inputs);
    let (pool, _) = decode(field(line, 3), rest);
    let sought = find(records, pool, id);
    verdict_on(is_sought(answer(line), sought))
}
