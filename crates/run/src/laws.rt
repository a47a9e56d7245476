// What the definition of the calls promises, for every field and every monomial order.
ghost use Rattle.run.specs.Hears.{CallLaw, StandingLaw, RunLaw, Everywhere};

// Every call is answered by the definition, and what is held stands after it.
pub fn call_law()
    ensures { Everywhere CallLaw }
{}

// What is held after any run stands.
pub fn runs_stand()
    ensures { Everywhere StandingLaw }
{}

// Every finish, every question and every two questions of a run keep the laws.
pub fn laws_of_runs()
    ensures { Everywhere RunLaw }
{}
