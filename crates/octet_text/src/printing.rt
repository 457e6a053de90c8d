//! Printing: each piece that `format_args!` makes is a text or a whole number.
ghost use Rattle.std.specs.Prelude.{◌≡◌, ◌++◌, ℕ, List, OnOk, string_bytes};
ghost use Rattle.std.specs.Fmt.{AppendsText, decimal, signed_decimal, format_pieces};

use crate::{NoMemory, push_str};
use std::fmt::{Display, Format};

/// A value that `print` appends. No `Display` of another crate is called, so each refusal of memory comes from the
/// system.
pub trait Printed {
    // The octets of the text.
    ghost shown: { Self → List ℕ };

    /// Appends the text. If memory is refused, part of it may follow the old content of `text`.
    fn print(&self, text: &mut String) -> Result<(), NoMemory>
        ensures { OnOk result (string_bytes text.new ≡ string_bytes text.old ++ shown self.now) };
}

/// Appends the output of `format_args!`, whose pieces are texts and whole numbers. If memory is refused, part of
/// the output may follow the old content of `text`.
pub fn print<T: Printed + Drop>(text: &mut String, value: Format<T>) -> Result<(), NoMemory>
    ensures bytes { OnOk result
        (string_bytes text.new ≡ string_bytes text.old ++ T.shown (format_pieces value)) }
{
    value.0.print(text)
}

// Appends the text that the standard library prints for a number.
fn print_number<D: Display + Drop>(text: &mut String, number: D) -> Result<(), NoMemory>
    ensures { OnOk result
        (AppendsText (string_bytes text.old) (string_bytes text.new) (D.output number)) }
{
    match text.write_fmt(number) {
        Ok(()) => Ok(()),
        Err(_) => Err(NoMemory::refused()),
    }
}

impl Printed for &str {
    ghost shown = { λ text. text.now };

    fn print(&self, text: &mut String) -> Result<(), NoMemory> {
        push_str(text, *self)
    }
}

impl Printed for String {
    ghost shown = { λ text. string_bytes text };

    fn print(&self, text: &mut String) -> Result<(), NoMemory> {
        push_str(text, self.as_str())
    }
}

impl<T: Printed> Printed for &T {
    ghost shown = { λ value. T.shown value.now };

    fn print(&self, text: &mut String) -> Result<(), NoMemory> {
        (**self).print(text)
    }
}

impl Printed for u8 {
    ghost shown = { decimal };

    fn print(&self, text: &mut String) -> Result<(), NoMemory> {
        print_number(text, *self)
    }
}

impl Printed for u16 {
    ghost shown = { decimal };

    fn print(&self, text: &mut String) -> Result<(), NoMemory> {
        print_number(text, *self)
    }
}

impl Printed for u32 {
    ghost shown = { decimal };

    fn print(&self, text: &mut String) -> Result<(), NoMemory> {
        print_number(text, *self)
    }
}

impl Printed for u64 {
    ghost shown = { decimal };

    fn print(&self, text: &mut String) -> Result<(), NoMemory> {
        print_number(text, *self)
    }
}

impl Printed for usize {
    ghost shown = { decimal };

    fn print(&self, text: &mut String) -> Result<(), NoMemory> {
        print_number(text, *self)
    }
}

impl Printed for i32 {
    ghost shown = { signed_decimal };

    fn print(&self, text: &mut String) -> Result<(), NoMemory> {
        print_number(text, *self)
    }
}

impl<A: Printed, B: Printed> Printed for (A, B) {
    ghost shown = { λ row. A.shown row.0 ++ B.shown row.1 };

    fn print(&self, text: &mut String) -> Result<(), NoMemory> {
        self.0.print(text)?;
        self.1.print(text)
    }
}

impl<A: Printed, B: Printed, C: Printed> Printed for (A, B, C) {
    ghost shown = { λ row. A.shown row.0 ++ B.shown row.1 ++ C.shown row.2 };

    fn print(&self, text: &mut String) -> Result<(), NoMemory> {
        self.0.print(text)?;
        self.1.print(text)?;
        self.2.print(text)
    }
}

impl<A: Printed, B: Printed, C: Printed, D: Printed> Printed for (A, B, C, D) {
    ghost shown = { λ row. A.shown row.0 ++ B.shown row.1 ++ C.shown row.2 ++ D.shown row.3 };

    fn print(&self, text: &mut String) -> Result<(), NoMemory> {
        self.0.print(text)?;
        self.1.print(text)?;
        self.2.print(text)?;
        self.3.print(text)
    }
}

impl<A: Printed, B: Printed, C: Printed, D: Printed, E: Printed, F: Printed> Printed
    for (A, B, C, D, E, F) {
    ghost shown = { λ row. A.shown row.0 ++ B.shown row.1 ++ C.shown row.2 ++ D.shown row.3 ++ E.shown row.4 ++ F.shown row.5 };

    fn print(&self, text: &mut String) -> Result<(), NoMemory> {
        self.0.print(text)?;
        self.1.print(text)?;
        self.2.print(text)?;
        self.3.print(text)?;
        self.4.print(text)?;
        self.5.print(text)
    }
}

impl<A: Printed, B: Printed, C: Printed, D: Printed, E: Printed, F: Printed, G: Printed> Printed
    for (A, B, C, D, E, F, G) {
    ghost shown = { λ row. A.shown row.0 ++ B.shown row.1 ++ C.shown row.2 ++ D.shown row.3 ++ E.shown row.4 ++ F.shown row.5 ++ G.shown row.6 };

    fn print(&self, text: &mut String) -> Result<(), NoMemory> {
        self.0.print(text)?;
        self.1.print(text)?;
        self.2.print(text)?;
        self.3.print(text)?;
        self.4.print(text)?;
        self.5.print(text)?;
        self.6.print(text)
    }
}

impl<
    A: Printed,
    B: Printed,
    C: Printed,
    D: Printed,
    E: Printed,
    F: Printed,
    G: Printed,
    H: Printed,
    I: Printed,
> Printed for (A, B, C, D, E, F, G, H, I) {
    ghost shown = { λ row. A.shown row.0 ++ B.shown row.1 ++ C.shown row.2 ++ D.shown row.3 ++ E.shown row.4 ++ F.shown row.5 ++ G.shown row.6 ++ H.shown row.7 ++ I.shown row.8 };

    fn print(&self, text: &mut String) -> Result<(), NoMemory> {
        self.0.print(text)?;
        self.1.print(text)?;
        self.2.print(text)?;
        self.3.print(text)?;
        self.4.print(text)?;
        self.5.print(text)?;
        self.6.print(text)?;
        self.7.print(text)?;
        self.8.print(text)
    }
}
