// What is done with numbers.
ghost use Rattle.std.specs.Prelude.{◌≡◌, ◌++◌, ◌∷◌, [], Some, option_map};
ghost use Rattle.text.specs.Heard.{listed, few};

use crate::numbers::{MOST_NUMBERS, Numbers};

impl Numbers {
    pub(crate) fn new() -> Numbers
        ensures { listed result ≡ [] }
    {
        Numbers {
            numbers: [0; 25],
            count: 0,
        }
    }

    pub fn as_slice(&self) -> &[u16]
        ensures { result.now ≡ listed self.now }
    {
        &self.numbers[..self.count]
    }

    // With one number more, unless they are too many.
    pub(crate) fn with(&self, number: u16) -> Option<Numbers>
        ensures { option_map listed result ≡ few (Some (listed self.now ++ number ∷ [])) }
    {
        if self.count == MOST_NUMBERS {
            return None;
        }
        let mut numbers = self.numbers;
        numbers[self.count] = number;
        Some(Numbers {
            numbers,
            count: self.count + 1,
        })
    }
}
