#![tactic(auto)]

ghost use Rattle.std.specs.Prelude.{length};
ghost use Rattle.std.specs.Iterator.{at_most};

use filed_pages::{LONGEST_TEXT, write_pages};
use std::io;
use std::io::Read;

/// A filing of the table.
#[derive(Drop)]
struct Case<'a> {
    name: &'a [u8],
    file: &'a [u8],
}

/// The cases of a table. Each is a line with the number of bytes, a space and the name, and then
/// the bytes. What stands before the space and is no digit counts for nothing.
#[derive(Drop)]
struct Cases<'a>(&'a [u8]);

impl<'a> Iterator for Cases<'a> {
    type Item = Case<'a>;

    ghost remaining = { λ s. at_most (length s.0.now) };

    fn next(&mut self) -> Option<Case<'a>> {
        let table = self.0;
        let space = table.iter().position(|byte| *byte == b' ')?;
        // Digit by digit, not by `parse`: bytes that are no digits are passed over.
        let length = table[..space]
            .iter()
            .filter_map(|byte| char::from(*byte).to_digit(10))
            .fold(0usize, |length, digit| {
                length.saturating_mul(10).saturating_add(digit as usize)
            });
        let rest = &table[space + 1..];
        let end = rest.iter().position(|byte| *byte == b'\n')?;
        let (file, after) = rest[end + 1..].split_at_checked(length)?;
        self.0 = after;
        Some(Case {
            name: &rest[..end],
            file,
        })
    }
}

fn main(rt: HostRuntime) -> io::Result<()> {
    let mut table = Vec::new(rt.alloc());
    rt.stdin().read_to_end(&mut table)?;
    for Case { name, file } in Cases(&table) {
        let mut run = [b'?'; LONGEST_TEXT];
        let length = write_pages(file, &mut run);
        rt.write_all(name)?;
        rt.write_all(b"\n")?;
        rt.write_all(&run[..length])?;
    }
    Ok(())
}
