// Grading and then writing, with a table of its own, as the programs do.
ghost use Rattle.std.specs.Prelude.{◌≡◌};
ghost use Rattle.ack.specs.Answers.{Gives};
ghost use Rattle.ack.specs.Records.{lent_of, own_table};

use crate::write::write;
use grade::finding::BLANK;
use grade::refusal::Answer;
use grade::table::grade;

// The answer to a message by a book, through a table of 8,192 records.
pub fn grade_and_write(m: &[u8], book: &[u8], stamp: &[u8], control: u32, out: &mut [u8]) -> Answer
    ensures { Gives result out.new (lent_of own_table m.now book.now stamp.now control out.old) }
{
    let mut table = [BLANK; 8192];
    let found = grade(m, book, &mut table)?;
    write(m, &table, found as u32, stamp, control, out)
}
