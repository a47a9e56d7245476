// Reads the lines of a text. It knows nothing of what they ask for.
#![tactic(auto)]

ghost use Rattle.text.specs.Laws.{Laws};
ghost use Rattle.text.specs.Worked.{Worked};

mod cut;
mod head;
mod line;
mod number;
mod numbers;

pub use cut::next_line;
pub use head::{FieldLine, Kind, Order, count_names, is_title, read_values};
pub use line::{Line, read_line};
pub use number::read_number;
pub use numbers::{MOST_NUMBERS, Numbers};

// Each worked example comes out as it should.
pub fn worked_lines()
    ensures { Worked }
{}

// A text of whole lines reads back as these lines, and nothing is lost between fields.
pub fn text_laws()
    ensures { Laws }
{}
