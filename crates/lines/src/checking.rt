// Whether a text is of whole lines, or a table of whole rows, and whether all of them are right.
ghost use Rattle.std.specs.Prelude.{◌≡◌, ◌/◌, length};
ghost use Rattle.lists.specs.Records.{all_records};
ghost use Rattle.lines.specs.Calls.{validation};
ghost use Rattle.lines.specs.Refusal.{paper_values};
ghost use Rattle.lines.specs.Text.{is_partial};

use crate::record::Record;
use crate::refusing::{Reason, Refusal, refuse_if};

// Refusal 1: there is no record, or a part of one is left.
pub fn is_partial<R: Record>(source: &[R::Item]) -> bool
    ensures { result ≡ is_partial R.SIZE source.now }
{
    source.is_empty() | (source.len() % R::SIZE != 0)
}

// Whether each whole record is right. A wrong one does not end the loop: that would be one test more a record.
fn are_right<R: Record>(source: &[R::Item]) -> bool
    ensures { result ≡ all_records R.right R.SIZE (length source.now / R.SIZE) source.now }
{
    let mut ok = true;
    for part in source.chunks_exact(R::SIZE) {
        ok &= R::is_right(part);
    }
    ok
}

// Tests a whole text or table of any length: refusal 1, then 3. A success gives the number of records.
pub fn validate_records<R: Record>(source: &[R::Item]) -> Result<usize, Refusal>
    ensures { paper_values result ≡ validation R.SIZE R.right source.now }
{
    refuse_if(is_partial::<R>(source), Reason::WrongLength, None)?;
    refuse_if(!are_right::<R>(source), Reason::LineIllWritten, None)?;
    Ok(source.len() / R::SIZE)
}
