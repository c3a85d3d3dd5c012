use std::io;

const USAGE: &str = "\
daybook answers a daybook on standard input, line by line.

  daybook < DAYBOOK              prints each entry with its answer
  daybook --explain < DAYBOOK    says also in words why an entry is refused or unread

An entry is a line of words with commas between them:

  open,YEAR,table,PARTICIPANTS      a book over a table, 0 to 65535 participants
  open,YEAR,entries,RECORDS         a book over records, 0 to 1000000 of them
  file,PROJECT,REQUIREMENT
  post,FORECAST
  bill,PARTICIPANT,MONTH,KWH
  resettle,PARTICIPANT,MONTH,KWH
  pay
  state,PROJECT,ACTUAL
  look,PROJECT
  close,flat,RATE
  close,quarter,FIRSTQUARTER,RATE,RATE,...
  close,holding,flat,RATE
  close,holding,quarter,FIRSTQUARTER,RATE,RATE,...

Empty lines and lines that begin with # or \"# are passed over, as are commas at the end of a line.
";

pub fn show(rt: &impl Print) -> io::Result<()> {
    rt.print(USAGE)
}
