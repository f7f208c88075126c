ghost use Rattle.text.specs.Reading.{Outcome};

use crate::readers::Reader;
use rules::{Denial, Row};

// Reads the rule that the text writes into the first of the rows, and says how many rows it has.
pub fn read(text: &[u8], rows: &mut [Row]) -> Result<usize, Denial>
    ensures { Outcome text.now rows.old rows.new result }
{
    if text.len() > 200 {
        return Err(Denial::TextTooLong);
    }
    let mut reader = Reader::new(text);
    reader.text()?;
    if reader.at < text.len() {
        return Err(Denial::NotDerived);
    }
    let count = reader.count;
    if count > 64 {
        return Err(Denial::TextRows);
    }
    if count > rows.len() {
        return Err(Denial::AnswerTooLong);
    }
    rows[..count].copy_from_slice(reader.written());
    Ok(count)
}
