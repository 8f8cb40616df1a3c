// The shape of a record: 3, 4, 3, 5, 3. And the record at the front of a stream, with the bytes that its mark and its count require.
ghost use Rattle.std.specs.Prelude.{◌≡◌, ◌≤◌, length};
ghost use Rattle.ledger.specs.Apply.{finding};
ghost use Rattle.ledger.specs.Bytes.{shape_of, bears, mark_of, bytes_for};
ghost use Rattle.session.specs.Answers.{finding_of};
ghost use Rattle.records.specs.Marks.{record_mark_of, Counted, Shaped, Fronted};

use crate::marks::RecordMark;
use session::answers::Refusal;

// The bytes that a mark and a count require.
pub fn bytes_for(m: RecordMark, count: u8) -> usize
    ensures { result ≡ bytes_for (record_mark_of m) count }
{
    let l = crate::marks::layout_of(m);
    match l.counting {
        None => l.bytes,
        Some(counting) => l.bytes + counting.each * (count as usize),
    }
}

// The count of a record that bears the mark, which lies in its range; 0 where nothing is counted.
#[tactic(auto, using(crate::specs::Marks::missing, crate::specs::Marks::outside))]
fn count_of(bytes: &[u8], m: RecordMark) -> Result<u8, Refusal>
    ensures { Counted bytes.now (record_mark_of m) result }
{
    let Some(counting) = crate::marks::layout_of(m).counting else {
        return Ok(0);
    };
    let count = *bytes.get(counting.place).ok_or(Refusal::WrongLength)?;
    if count < counting.least || counting.most < count as usize {
        return Err(Refusal::CountOutside);
    }
    Ok(count)
}

// What is tested where the mark is known.
#[tactic(auto, using(crate::proofs::FrontLaws::shape_no_count, crate::proofs::FrontLaws::shape_count), unfolding(ledger::specs::Apply::finding))]
fn shape_of(bytes: &[u8], m: RecordMark) -> Result<(), Refusal>
    ensures { finding_of result ≡ finding (shape_of bytes.now (bears (record_mark_of m))) }
{
    let count = count_of(bytes, m)?;
    if bytes.len() != bytes_for(m, count) {
        return Err(Refusal::WrongLength);
    }
    Ok(())
}

// The mark that bytes of the right shape bear.
#[tactic(auto, using(ledger::proofs::FrontLaws::too_few, ledger::proofs::FrontLaws::none_known, crate::proofs::FrontLaws::shape_marked))]
pub fn read_shape(bytes: &[u8]) -> Result<RecordMark, Refusal>
    ensures { Shaped bytes.now result }
{
    if bytes.len() < 2 {
        return Err(Refusal::WrongLength);
    }
    let m = crate::marks::mark_of(bytes).ok_or(Refusal::UnknownMark)?;
    shape_of(bytes, m)?;
    Ok(m)
}

// The record at the front of a stream: its mark and how many bytes it has.
#[derive(Clone, Copy, PartialEq, Eq)]
pub struct Front {
    pub mark: RecordMark,
    pub size: usize,
}

// The front record where its mark is known, if its bytes are there. It has the right shape by the way they are counted.
fn marked_front(bytes: &[u8], mark: RecordMark) -> Result<Front, Refusal>
    requires long { 2 ≤ length bytes.now }
    requires marked { mark_of bytes.now ≡ bears (record_mark_of mark) }
    ensures { Fronted bytes.now result }
{
    let count = count_of(bytes, mark)?;
    let size = bytes_for(mark, count);
    if bytes.len() < size {
        return Err(Refusal::WrongLength);
    }
    Ok(Front { mark, size })
}

// The front record of any bytes, or that all of them are a record of a wrong shape. The mark is found once. The first two tests
// are a line each, as in `read_shape`: what each refuses is said by another contract.
#[tactic(auto, using(ledger::proofs::FrontLaws::too_few, ledger::proofs::FrontLaws::none_known))]
pub fn read_front(bytes: &[u8]) -> Result<Front, Refusal>
    ensures { Fronted bytes.now result }
{
    if bytes.len() < 2 {
        return Err(Refusal::WrongLength);
    }
    let m = crate::marks::mark_of(bytes).ok_or(Refusal::UnknownMark)?;
    marked_front(bytes, m)
}
