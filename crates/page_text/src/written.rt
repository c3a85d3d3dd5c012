ghost use Rattle.std.specs.Prelude.{◌≡◌, ◌≤◌, ℕ, List, length, sum_by};
ghost use Rattle.std.specs.List.{flat_map};
ghost use Rattle.page_text.specs.Outcomes.{Gives, printed};

/// What is written as text of a known width.
pub(crate) trait Written {
    ghost text: { Self → List ℕ };

    ghost width: { Self → ℕ };

    /// Writes it at the start of the bytes; answers how long it is.
    // `Gives (printed ..)`: it answers the length alone, and the bytes are the caller's.
    fn write(&self, bytes: &mut [u8]) -> usize
        requires { width self.now ≤ length bytes.old }
        ensures text { Gives (printed (text self.now) bytes.old) result bytes.new }
        ensures columns { result ≡ width self.now };
}

/// Writes items one after another at the start of the bytes; answers how long they are.
// `Gives (printed ..)`: it answers the length alone, and the bytes are the caller's.
pub(crate) fn write_all<T: Written>(bytes: &mut [u8], items: &[T]) -> usize
    requires { sum_by T.width items.now ≤ length bytes.old }
    ensures text { Gives (printed (flat_map T.text items.now) bytes.old) result bytes.new }
    ensures columns { result ≡ sum_by T.width items.now }
{
    // By offset: no plainer form, since each item has a width of its own.
    let mut at = 0;
    for item in items {
        at += item.write(&mut bytes[at..]);
    }
    at
}
