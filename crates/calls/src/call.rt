// The six calls as values, and what is said to them.
use combination::Offered;
use fault::Fault;

// A call with what is handed in.
#[derive(Clone, Copy, PartialEq, Eq, Debug)]
pub enum Call<'a> {
    // the number of variables
    Open(usize),
    // the generator's table
    Rule(&'a [u16]),
    Close,
    Offer(Offered<'a>),
    Finish,
    // the table of what is asked about
    Question(&'a [u16]),
}

// A question that is answered tells how many terms its remainder has; another call that is done tells nothing; a refused call tells why.
pub type Reply = Result<Option<usize>, Fault>;
