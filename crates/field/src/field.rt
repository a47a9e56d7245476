// A finite field whose elements are the codes 0, 1, .., q - 1.
ghost use Rattle.std.specs.Prelude.{◌≡◌};
ghost use Rattle.field.specs.Fields.{Arithmetic, FieldLaws, unary, binary, inverted};

pub trait Field {
    // What an implementation means: its size, and what it computes.
    ghost arithmetic: { Self → Arithmetic };

    fn size(&self) -> u16
        ensures { result ≡ (arithmetic self.now).size };

    fn sum(&self, a: u16, b: u16) -> Option<u16>
        ensures { result ≡ binary (arithmetic self.now).size (arithmetic self.now).sum a b };

    fn opposite(&self, a: u16) -> Option<u16>
        ensures { result ≡ unary (arithmetic self.now).size (arithmetic self.now).opposite a };

    fn product(&self, a: u16, b: u16) -> Option<u16>
        ensures { result ≡ binary (arithmetic self.now).size (arithmetic self.now).product a b };

    // The one code that multiplies to 1: there is none for 0, nor for what is no code.
    fn inverse(&self, a: u16) -> Option<u16>
        ensures { result ≡ inverted (arithmetic self.now).size (arithmetic self.now).inverse a }
    {
        // of 0 and of what is no code there is none: the search would go through all codes
        if a == 0 || a >= self.size() {
            return None;
        }
        (1..self.size()).find(|b| self.product(a, *b) == Some(1))
    }

    ghost lawful: { (f : Self) → FieldLaws (arithmetic f) };
}
